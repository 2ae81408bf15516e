//! Columns of numbers, read in place.

ghost use Rattle.std.specs.Prelude.{◌≡◌, ◌≤◌, ◌*◌, ◌+◌, length, true};
ghost use Rattle.dl_num.specs.Fixed.{is_number_size};
ghost use Rattle.dl_index.specs.Columns.{number_at, size_of};
ghost use Rattle.dl_index.specs.Layout.{field};

use crate::search::Starts;
use crate::width::Width;
use byteorder::{ByteOrder, LittleEndian};

/// The number k of a column.
#[inline(always)]
pub fn number_at(width: Width, column: &[u8], k: usize) -> u64
    requires { k * size_of width + size_of width ≤ length column.now }
    ensures { result ≡ number_at (size_of width) column.now k }
{
    match width {
        Width::One => u64::from(column[k]),
        Width::Two => u64::from(LittleEndian::read_u16(&column[k * 2..])),
        Width::Four => u64::from(LittleEndian::read_u32(&column[k * 4..])),
        Width::Eight => LittleEndian::read_u64(&column[k * 8..]),
    }
}

/// Number `k` of the column at a place, of numbers of `size` bytes.
#[inline(always)]
pub fn number_in(bytes: &[u8], at: usize, size: u8, k: usize) -> u64
    requires size { is_number_size size ≡ true }
    requires there { at + k * size + size ≤ length bytes.now }
    ensures { result ≡ field (at + k * size) size bytes.now }
{
    match size {
        1 => u64::from(bytes[at + k]),
        2 => u64::from(LittleEndian::read_u16(&bytes[at + k * 2..])),
        4 => u64::from(LittleEndian::read_u32(&bytes[at + k * 4..])),
        _ => LittleEndian::read_u64(&bytes[at + k * 8..]),
    }
}

/// A column, seen by counted calls.
#[derive(Drop)]
pub struct Column<'a> {
    pub bytes: &'a [u8],
    pub width: Width,
    pub len: usize,
    pub probes: u128,
    ghost fits: { len * size_of width ≤ length bytes.now },
}

impl Starts for Column<'_> {
    ghost start = { λ c k. number_at (size_of c.width) c.bytes.now k };

    ghost count = { λ c. c.len };

    ghost probes = { λ c. c.probes };

    #[inline(always)]
    fn len(&self) -> usize {
        self.len
    }

    #[inline(always)]
    fn at(&mut self, k: usize) -> u64 {
        self.probes += 1;
        number_at(self.width, self.bytes, k)
    }
}
