//! Numbers of fixed size that lack at least one byte.

ghost use Rattle.std.specs.Prelude.{◌≡◌, ◌<◌, ◌≤◌, ◌↔◌, ◌++◌, ◌∷◌, [], length, IsTrue, IfOk, IfErr};
ghost use Rattle.dl_num.specs.FixedBytes.{size_of, taken_by, IsFull};

use crate::fixed::Fixed;

/// A number of fixed size that lacks at least one byte.
#[derive(Clone, Copy)]
pub struct PartialBytes {
    fixed: Fixed,
    ghost lacks: { length (taken_by fixed) < size_of fixed },
}

impl PartialBytes {
    ghost use Rattle.dl_num.specs.OperandBytes.{operand_size, operand_bytes};

    /// No byte yet of a number of `len` bytes.
    pub fn new(len: usize) -> Self
        requires some { 1 ≤ len }
        requires fits { len ≤ 16 }
        ensures size { operand_size result ≡ len }
        ensures empty { operand_bytes result ≡ [] }
    {
        PartialBytes {
            fixed: Fixed::new(len),
        }
    }

    /// How many bytes the number has.
    pub fn size(&self) -> usize
        ensures { result ≡ operand_size self.now }
    {
        self.fixed.size()
    }

    /// Whether no byte has come.
    pub fn is_new(&self) -> bool
        ensures { IsTrue result ↔ (operand_bytes self.now ≡ []) }
    {
        self.fixed.is_new()
    }

    /// Takes the next byte: the whole number where it is the last one, else the operand with it.
    pub fn push(self, byte: u8) -> Result<Fixed, Self>
        ensures full { IfOk result (λ fixed. IsFull fixed) }
        ensures size { IfOk result (λ fixed. size_of fixed ≡ operand_size self) }
        ensures whole { IfOk result (λ fixed. taken_by fixed ≡ operand_bytes self ++ byte ∷ []) }
        ensures size_kept { IfErr result (λ operand. operand_size operand ≡ operand_size self) }
        ensures taken { IfErr result (λ operand. operand_bytes operand ≡ operand_bytes self ++ byte ∷ []) }
    {
        let mut fixed = self.fixed;
        if fixed.push(byte) {
            Ok(fixed)
        } else {
            Err(PartialBytes { fixed })
        }
    }
}
