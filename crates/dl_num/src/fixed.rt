//! Numbers of fixed size, byte by byte. Sections 7.4 and 7.5.5.

ghost use Rattle.std.specs.Prelude.{◌≡◌, ◌<◌, ◌≤◌, ◌↔◌, ◌++◌, ◌∷◌, [], ℕ, List, length, take, IsTrue, MatchOption};
ghost use Rattle.dl_num.specs.Fixed.{fixed, is_number_size, fixed_bytes as fixed_bytes_of, little_bytes};

use arrayvec::ArrayVec;
use byteorder::{BigEndian, ByteOrder, LittleEndian};

/// The order in which the bytes of a number of fixed size stand.
#[derive(Debug, Clone, Copy, PartialEq, Eq)]
pub enum Order {
    /// The lowest byte first.
    Little,
    /// The highest byte first.
    Big,
}

/// A number of 1 to 16 bytes, as its bytes come.
#[derive(Clone, Copy)]
pub struct Fixed {
    len: usize,
    filled: usize,
    bytes: [u8; 16],
    ghost some: { 1 ≤ len },
    ghost fits: { len ≤ 16 },
    ghost within: { filled ≤ len },
}

impl Fixed {
    ghost use Rattle.dl_num.specs.FixedBytes.{size_of, taken_by, IsFull};

    /// No byte yet of a number of `len` bytes.
    pub fn new(len: usize) -> Self
        requires some { 1 ≤ len }
        requires fits { len ≤ 16 }
        ensures size { size_of result ≡ len }
        ensures empty { taken_by result ≡ [] }
    {
        Fixed {
            len,
            filled: 0,
            bytes: [0; 16],
        }
    }

    /// Takes the next byte; true where it is the last one.
    pub fn push(&mut self, byte: u8) -> bool
        requires { length (taken_by self.old) < size_of self.old }
        ensures taken { taken_by self.new ≡ taken_by self.old ++ byte ∷ [] }
        ensures size { size_of self.new ≡ size_of self.old }
        ensures within { length (taken_by self.new) ≤ size_of self.new }
        ensures last { IsTrue result ↔ IsFull self.new }
    {
        self.bytes[self.filled] = byte;
        self.filled += 1;
        self.is_full()
    }

    /// How many bytes the number has.
    pub fn size(&self) -> usize
        ensures { result ≡ size_of self.now }
    {
        self.len
    }

    /// Whether no byte has come.
    pub fn is_new(&self) -> bool
        ensures { IsTrue result ↔ (taken_by self.now ≡ []) }
    {
        self.filled == 0
    }

    /// Whether all the bytes have come.
    pub fn is_full(&self) -> bool
        ensures { IsTrue result ↔ IsFull self.now }
    {
        self.filled == self.len
    }

    /// The number that the bytes spell in this order.
    pub fn number(&self, order: Order) -> u64
        requires full { IsFull self.now }
        requires size { IsTrue (is_number_size (size_of self.now)) }
        ensures { result ≡ fixed order (taken_by self.now) }
    {
        number_of(&self.bytes[..self.len], order)
    }

    /// The sixteen bytes as they stand.
    pub fn bytes16(&self) -> [u8; 16]
        requires full { IsFull self.now }
        requires size { size_of self.now ≡ 16 }
        ensures { result ≡ taken_by self.now }
    {
        self.bytes
    }
}

/// The number that all of the bytes spell in this order. Section 7.4.
pub fn number_of(bytes: &[u8], order: Order) -> u64
    requires { IsTrue (is_number_size (length bytes.now)) }
    ensures { result ≡ fixed order bytes.now }
{
    if bytes.len() == 4 {
        return u64::from(match order {
            Order::Little => LittleEndian::read_u32(bytes),
            Order::Big => BigEndian::read_u32(bytes),
        });
    }
    match order {
        Order::Little => LittleEndian::read_uint(bytes, bytes.len()),
        Order::Big => BigEndian::read_uint(bytes, bytes.len()),
    }
}

/// The number of this size that the bytes begin with, and the bytes after it; None where they are fewer.
pub fn fixed_at_front(order: Order, size: usize, bytes: &[u8]) -> Option<(u64, &[u8])>
    requires { IsTrue (is_number_size size) }
    ensures { MatchOption result (length bytes.entry.now < size)
        (λ found. (w : List ℕ) × (bytes.entry.now ≡ w ++ found.1.now) × (length w ≡ size) × (found.0 ≡ fixed order w)) }
{
    if bytes.len() < size {
        return None;
    }
    Some((number_of(&bytes[..size], order), &bytes[size..]))
}

/// The lowest `size` bytes of a number in this order.
pub fn fixed_bytes(order: Order, size: usize, number: u64) -> ArrayVec<u8, 8>
    requires { size ≤ 8 }
    ensures { result.items ≡ fixed_bytes_of order size number }
{
    let mut bytes = low_bytes(size, number);
    match order {
        Order::Little => bytes,
        Order::Big => {
            bytes.as_mut_slice().reverse();
            bytes
        }
    }
}

/// The lowest `size` bytes of a number, the lowest first.
fn low_bytes(size: usize, number: u64) -> ArrayVec<u8, 8>
    requires { size ≤ 8 }
    ensures { result.items ≡ little_bytes size number }
{
    let mut bytes = ArrayVec::new();
    let mut rest = number;
    for _ in 0..size {
        bytes.push((rest % 256) as u8);
        rest /= 256;
    }
    bytes
}
