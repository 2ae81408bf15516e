//! Tables of items that have one size.
ghost use Rattle.std.specs.Prelude.{◌≡◌, ◌<◌, ◌≤◌, length};
ghost use Rattle.dl_num.specs.Fixed.{is_number_size};
ghost use Rattle.std.specs.Prelude.{◌+◌, IsTrue};
ghost use Rattle.dl_reloc.specs.Entries.{count, item, number_at};

use crate::number::number_of;
use dl_num::Order;

/// How many whole items a table has.
pub fn count(table: &[u8], size: usize) -> usize
    requires { 1 ≤ size }
    ensures { result ≡ count size table.now }
{
    table.len() / size
}

/// The bytes of an item of a table.
pub fn item(table: &[u8], size: usize, index: usize) -> &[u8]
    requires some { 1 ≤ size }
    requires within { index < count size table.now }
    ensures item { result.now ≡ item size index table.entry.now }
    ensures size { length result.now ≡ size }
{
    let start = index * size;
    &table[start..start + size]
}

/// The number that `size` bytes spell from `at` on.
#[inline(always)]
pub fn number_at(order: Order, at: usize, size: usize, bytes: &[u8]) -> u64
    requires within { at + size ≤ length bytes.now }
    requires size { IsTrue (is_number_size size) }
    ensures { result ≡ number_at order at size bytes.now }
{
    number_of(order, &bytes[at..at + size])
}
