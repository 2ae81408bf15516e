//! Equality of tables: that of their formats, pairs and values.

ghost use Rattle.std.specs.Prelude.{◌≡◌, ◌≤◌, ◌↔◌, IsTrue, length, map};
ghost use Rattle.dl_table.specs.Held.{held_end, value_held, values_end};

use crate::table::Table;
use crate::table::held::StoredValue;

impl PartialEq for Table {
    ghost use Rattle.std.specs.Cmp.{partial_equiv_from_equiv};
    ghost use Rattle.dl_table.specs.Equal.{same_table};
    ghost use Rattle.dl_table.specs.EqualLaws.{same_table-laws as same_table_laws};

    ghost eq = { same_table };

    ghost laws = { partial_equiv_from_equiv same_table_laws };

    fn eq(&self, other: &Table) -> bool
        ensures value { result ≡ same_table self.now other.now }
        ensures exact { IsTrue result ↔ (self.now ≡ other.now) }
    {
        self.is_same(other)
    }
}

impl Eq for Table {
    ghost use Rattle.dl_table.specs.EqualLaws.{same_table-laws as same_table_laws};

    ghost laws = { same_table_laws };
}

impl Table {
    fn is_same(&self, other: &Table) -> bool
        ensures { IsTrue result ↔ (self.now ≡ other.now) }
    {
        self.has_same_pairs(other)
            && same_values(
                self.values.as_slice(),
                self.pool.as_slice(),
                other.values.as_slice(),
                other.pool.as_slice(),
            )
    }

    fn has_same_pairs(&self, other: &Table) -> bool
        ensures { IsTrue result ↔ ((self.now.format ≡ other.now.format)
            × (self.now.pairs ≡ other.now.pairs)) }
    {
        self.format() == other.format() && self.pairs() == other.pairs()
    }
}

/// Whether the values are the same, their bytes standing in these pools.
fn same_values(
    values: &[StoredValue],
    pool: &[u8],
    others: &[StoredValue],
    other_pool: &[u8],
) -> bool
    requires within { values_end values.now ≤ length pool.now }
    requires other_within { values_end others.now ≤ length other_pool.now }
    ensures { IsTrue result
        ↔ (map (value_held pool.now) values.now ≡ map (value_held other_pool.now) others.now) }
{
    if values.len() != others.len() {
        return false;
    }
    for (i, held) in values.iter().enumerate() {
        if !is_same_value(held, pool, &others[i], other_pool) {
            return false;
        }
    }
    true
}

fn is_same_value(held: &StoredValue, pool: &[u8], other: &StoredValue, other_pool: &[u8]) -> bool
    requires within { held_end held.now ≤ length pool.now }
    requires other_within { held_end other.now ≤ length other_pool.now }
    ensures { IsTrue result ↔ (value_held pool.now held.now ≡ value_held other_pool.now other.now) }
{
    held.lend(pool) == other.lend(other_pool)
}
