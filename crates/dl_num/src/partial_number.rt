//! Numbers of 1, 2, 4 or 8 bytes that lack at least one byte.

ghost use Rattle.std.specs.Prelude.{◌≡◌, ◌<◌, ◌↔◌, ◌++◌, ◌∷◌, [], List, ℕ, length, IsTrue, IfOk, IfErr};
ghost use Rattle.dl_num.specs.Fixed.{fixed, is_number_size};
ghost use Rattle.dl_num.specs.OperandBytes.{operand_size, operand_bytes};

use crate::fixed::Order;
use crate::partial_bytes::PartialBytes;

/// A number of 1, 2, 4 or 8 bytes that lacks at least one byte.
#[derive(Clone, Copy)]
pub struct PartialNumber {
    operand: PartialBytes,
    ghost size: { IsTrue (is_number_size (operand_size operand)) },
}

impl PartialNumber {
    ghost use Rattle.dl_num.specs.NumberBytes.{number_size, number_bytes};

    /// No byte yet of a number of `len` bytes.
    pub fn new(len: usize) -> Self
        requires { IsTrue (is_number_size len) }
        ensures size { number_size result ≡ len }
        ensures empty { number_bytes result ≡ [] }
    {
        PartialNumber {
            operand: PartialBytes::new(len),
        }
    }

    /// How many bytes it has.
    pub fn size(&self) -> usize
        ensures size { result ≡ number_size self.now }
        ensures number { IsTrue (is_number_size result) }
    {
        self.operand.size()
    }

    /// Whether no byte has come.
    pub fn is_new(&self) -> bool
        ensures { IsTrue result ↔ (number_bytes self.now ≡ []) }
    {
        self.operand.is_new()
    }

    /// Takes the next byte: the number in this order where it is the last one, else the number
    /// with it.
    pub fn push(self, order: Order, byte: u8) -> Result<u64, Self>
        ensures last { IfOk result (λ n. length (number_bytes self ++ byte ∷ []) ≡ number_size self) }
        ensures whole { IfOk result (λ n. n ≡ fixed order (number_bytes self ++ byte ∷ [])) }
        ensures size { IfErr result (λ number. number_size number ≡ number_size self) }
        ensures taken { IfErr result (λ number. number_bytes number ≡ number_bytes self ++ byte ∷ []) }
    {
        match self.operand.push(byte) {
            Ok(fixed) => Ok(fixed.number(order)),
            Err(operand) => Err(PartialNumber { operand }),
        }
    }

    /// Takes bytes up to the number's last one: the number in this order and the bytes after it,
    /// else the number with all of them.
    pub fn take_from<'a>(self, order: Order, bytes: &'a [u8]) -> Result<(u64, &'a [u8]), Self>
        ensures whole { IfOk result (λ found. (front : List ℕ) × (bytes.entry.now ≡ front ++ found.1.now)
            × (length (number_bytes self ++ front) ≡ number_size self)
            × (found.0 ≡ fixed order (number_bytes self ++ front))) }
        ensures used { IfOk result (λ found. length found.1.now < length bytes.entry.now) }
        ensures size { IfErr result (λ number. number_size number ≡ number_size self) }
        ensures taken { IfErr result (λ number. number_bytes number ≡ number_bytes self ++ bytes.entry.now) }
        ensures lacks { IfErr result (λ number. length (number_bytes number) < number_size number) }
    {
        let mut number = self;
        for (i, byte) in bytes.iter().enumerate() {
            match number.push(order, *byte) {
                Ok(whole) => return Ok((whole, &bytes[i + 1..])),
                Err(more) => number = more,
            }
        }
        Err(number)
    }
}
