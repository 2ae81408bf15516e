//! Values of a table, held and lent.

ghost use Rattle.std.specs.Prelude.{◌≡◌, ◌-◌, ◌^◌, ◌≤◌, length, min};
ghost use Rattle.dl_table.specs.Held.{cells_held, held_end, pooled, value_held, value_lent};

use std::fmt;
use std::marker::Model;
use std::mem::size_of;

/// A value of a table, lent. Texts are without their zero byte. Section 7.5.5.
#[derive(Clone, Copy, Debug, PartialEq, Eq)]
pub enum ValueRef<'a> {
    Text(&'a [u8]),
    /// An offset into `.debug_line_str`.
    LineStr(u64),
    /// An offset into `.debug_str`.
    Str(u64),
    /// An offset into a supplementary file's strings.
    StrSup(u64),
    Number(u64),
    Block(&'a [u8]),
    Data16([u8; 16]),
}

impl ValueRef<'_> {
    /// How many bytes of a table's pool it takes.
    pub(crate) fn pooled_len(&self) -> usize
        ensures { result ≡ pooled self.now }
    {
        match self {
            ValueRef::Text(bytes) | ValueRef::Block(bytes) => bytes.len(),
            _ => 0,
        }
    }
}

/// A number of 64 bits as eight bytes, which may stand anywhere in memory. So a `StoredValue` takes 17
/// bytes; it would take 24 with a `u64`, whose place has to be a multiple of eight.
#[derive(Drop)]
pub struct Word {
    bytes: [u8; 8],
}

impl Model for Word {
    ghost use Rattle.std.specs.Prelude.{ℕ};
    ghost use Rattle.std.specs.Int.{from_le_bytes, w64};

    ghost Value = { ℕ };

    ghost view = { λ word. from_le_bytes w64 word.bytes };
}

impl Word {
    #[inline(always)]
    pub fn new(number: u64) -> Word
        ensures { result ≡ number }
    {
        Word {
            bytes: number.to_le_bytes(),
        }
    }

    #[inline(always)]
    fn get(&self) -> u64
        ensures { result ≡ self.now }
    {
        u64::from_le_bytes(self.bytes)
    }
}

/// As the number.
impl fmt::Debug for Word {
    fn fmt<W: fmt::Write>(&self, f: &mut fmt::Formatter<W>) -> fmt::Result {
        fmt::Debug::fmt(&self.get(), f)
    }
}

/// Where bytes stand in a table's pool: `len` of them, from `start` on.
#[derive(Debug, Drop)]
pub struct Extent {
    start: Word,
    len: Word,
}

impl Extent {
    ghost use Rattle.std.specs.Prelude.{◌+◌};
    ghost use Rattle.dl_table.specs.Held.{bytes_at};

    #[inline(always)]
    pub fn new(start: usize, len: usize) -> Extent
        ensures { result ≡ record { start = start; len = len } }
    {
        Extent {
            start: Word::new(start as u64),
            len: Word::new(len as u64),
        }
    }

    /// The bytes of the pool that stand there.
    fn of<'a>(&self, pool: &'a [u8]) -> &'a [u8]
        requires { self.now.start + self.now.len ≤ length pool.now }
        ensures { result.now ≡ bytes_at pool.now self.now }
    {
        let start = self.start.get() as usize;
        let len = self.len.get() as usize;
        &pool[start..start + len]
    }
}

/// A value of a table, held; the bytes of texts and blocks stand in the table's pool.
#[derive(Debug, Drop)]
pub enum StoredValue {
    Text(Extent),
    LineStr(Word),
    Str(Word),
    StrSup(Word),
    Number(Word),
    Block(Extent),
    Data16([u8; 16]),
}

const _: () = prove!(size_of::<StoredValue>() == 17);

impl StoredValue {
    /// How many cells it is: itself, and the bytes of a text or block; 2^64 - 1 where there are
    /// more.
    pub fn cells(&self) -> u64
        ensures { result ≡ min (cells_held self.now) (2 ^ 64 - 1) }
    {
        let bytes = match self {
            StoredValue::Text(extent) | StoredValue::Block(extent) => extent.len.get(),
            _ => 0,
        };
        bytes.saturating_add(1)
    }

    /// The value, its bytes lent by the pool.
    pub fn lend<'a>(&self, pool: &'a [u8]) -> ValueRef<'a>
        requires { held_end self.now ≤ length pool.now }
        ensures { value_lent result ≡ value_held pool.now self.now }
    {
        match self {
            StoredValue::Text(extent) => ValueRef::Text(extent.of(pool)),
            StoredValue::LineStr(offset) => ValueRef::LineStr(offset.get()),
            StoredValue::Str(offset) => ValueRef::Str(offset.get()),
            StoredValue::StrSup(offset) => ValueRef::StrSup(offset.get()),
            StoredValue::Number(number) => ValueRef::Number(number.get()),
            StoredValue::Block(extent) => ValueRef::Block(extent.of(pool)),
            StoredValue::Data16(bytes) => ValueRef::Data16(*bytes),
        }
    }
}
