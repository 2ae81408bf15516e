//! Entries of a table, lent.

ghost use Rattle.std.specs.Prelude.{◌≡◌, ◌≤◌, length, map};
ghost use Rattle.std.specs.Option.{option_map};
ghost use Rattle.dl_table.specs.Held.{value_held, value_lent, values_end};
ghost use Rattle.dl_table.specs.EntryData.{value_of, with_content};

use crate::table::Pair;
use crate::table::held::{StoredValue, ValueRef};

/// An entry of a table: one value for each of the table's pairs.
#[derive(Clone, Copy)]
pub struct Entry<'a> {
    pairs: &'a [Pair],
    held: &'a [StoredValue],
    pool: &'a [u8],
    ghost within: { values_end held.now ≤ length pool.now },
}

impl<'a> Entry<'a> {
    ghost use Rattle.dl_table.specs.EntryHeld.{entry_items};
    ghost use Rattle.dl_table.specs.ValuesLeft.{values_left};

    pub(crate) fn new(pairs: &'a [Pair], held: &'a [StoredValue], pool: &'a [u8]) -> Entry<'a>
        requires { values_end held.now ≤ length pool.now }
        ensures { entry_items result
            ≡ with_content pairs.now (map (value_held pool.now) held.now) }
    {
        Entry { pairs, held, pool }
    }

    /// The value of the first pair with this content code.
    pub fn get(&self, content: u64) -> Option<ValueRef<'a>>
        ensures { option_map value_lent result ≡ value_of (entry_items self.now) content }
    {
        for (code, value) in self.values() {
            if code == content {
                return Some(value);
            }
        }
        None
    }

    /// The values with their content codes, in the order of the pairs.
    pub fn values(&self) -> Values<'a>
        ensures { values_left result ≡ entry_items self.now }
    {
        Values { left: *self }
    }
}

/// The values of an entry with their content codes, in the order of the pairs.
#[derive(Clone, Copy)]
pub struct Values<'a> {
    left: Entry<'a>,
}

impl<'a> Iterator for Values<'a> {
    type Item = (u64, ValueRef<'a>);

    ghost use Rattle.std.specs.Iterator.{YieldsFirstBy, item_count};
    ghost use Rattle.dl_table.specs.ValuesLeft.{item_lent, values_left};

    ghost next_gives = { YieldsFirstBy item_lent values_left };

    ghost remaining = { item_count values_left };

    fn next(&mut self) -> Option<(u64, ValueRef<'a>)> {
        let Entry { pairs, held, pool } = self.left;
        let (pair, pairs) = pairs.split_first()?;
        let (first, held) = held.split_first()?;
        self.left = Entry { pairs, held, pool };
        Some((pair.content, first.lend(pool)))
    }
}
