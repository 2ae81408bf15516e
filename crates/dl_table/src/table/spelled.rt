//! How many bytes a table is, its numbers being the shortest.

ghost use Rattle.std.specs.Prelude.{◌≡◌, ◌-◌, ◌^◌, ◌≤◌, length, map, min};
ghost use Rattle.std.specs.List.{flat_map};
ghost use Rattle.dl_num.specs.declared.fixed.Order.TheVariants.{Little};
ghost use Rattle.dl_num.specs.Shortest.{shortest_uleb};
ghost use Rattle.dl_table.specs.Held.{held_end, table_of, value_held, value_lent, values_end};
ghost use Rattle.dl_table.specs.Value.{data16, number as number_value};
ghost use Rattle.dl_table.specs.Written.{entry_bytes, pair_bytes, table_bytes, value_bytes};
ghost use Rattle.dl_table.specs.Spelled.{block_size};

use crate::form::{Form, Format};
use crate::table::held::{StoredValue, ValueRef};
use crate::table::{Pair, Table, row, whole_rows};
use dl_num::uleb_bytes;

impl Table {
    /// How many bytes the table is in a header that is written; 2^64 - 1 where they are more.
    pub fn spelled_len(&self) -> u64
        ensures { result ≡ min (length (table_bytes Little self.now)) (2 ^ 64 - 1) }
    {
        let entries = rows_len(
            self.format,
            self.pairs.as_slice(),
            self.values.as_slice(),
            self.pool.as_slice(),
        );
        pairs_len(self.pairs.as_slice())
            .saturating_add(uleb_len(self.len() as u64))
            .saturating_add(entries)
            .saturating_add(1)
    }
}

/// How many bytes the shortest spelling of the number is.
fn uleb_len(number: u64) -> u64
    ensures { result ≡ length (shortest_uleb number) }
{
    uleb_bytes(number).len() as u64
}

fn pairs_len(pairs: &[Pair]) -> u64
    ensures { result ≡ min (length (flat_map pair_bytes pairs.now)) (2 ^ 64 - 1) }
{
    let mut len = 0u64;
    for pair in pairs {
        len = len
            .saturating_add(uleb_len(pair.content))
            .saturating_add(uleb_len(u64::from(pair.form.code())));
    }
    len
}

/// How many bytes the rows of values are, one value for each pair.
fn rows_len(format: Format, pairs: &[Pair], values: &[StoredValue], pool: &[u8]) -> u64
    requires { values_end values.now ≤ length pool.now }
    ensures { result ≡ min (length (flat_map (entry_bytes Little format pairs.now)
        (table_of format pairs.now values.now pool.now).entries)) (2 ^ 64 - 1) }
{
    let mut len = 0u64;
    for i in 0..whole_rows(values.len(), pairs.len()) {
        let held = row(values, pairs.len(), i);
        len = len.saturating_add(row_len(format, pairs, held, pool));
    }
    len
}

fn row_len(format: Format, pairs: &[Pair], held: &[StoredValue], pool: &[u8]) -> u64
    requires within { values_end held.now ≤ length pool.now }
    requires whole { length held.now ≡ length pairs.now }
    ensures { result ≡ min (length (entry_bytes Little format pairs.now
        (map (value_held pool.now) held.now))) (2 ^ 64 - 1) }
{
    let mut len = 0u64;
    for (i, pair) in pairs.iter().enumerate() {
        len = len.saturating_add(held_len(format, pair.form, &held[i], pool));
    }
    len
}

fn held_len(format: Format, form: Form, held: &StoredValue, pool: &[u8]) -> u64
    requires { held_end held.now ≤ length pool.now }
    ensures { result ≡ min (length (value_bytes Little format form
        (value_held pool.now held.now))) (2 ^ 64 - 1) }
{
    let value = held.lend(pool);
    value_len(format, form, &value)
}

/// How many bytes the value is in the form; none where it isn't one of the form. Section 7.5.5.
fn value_len(format: Format, form: Form, value: &ValueRef<'_>) -> u64
    ensures { result ≡ min (length (value_bytes Little format form
        (value_lent value.now))) (2 ^ 64 - 1) }
{
    match *value {
        ValueRef::Text(bytes) if form == Form::String => (bytes.len() as u64).saturating_add(1),
        ValueRef::LineStr(_) if form == Form::LineStrp => format.offset_size() as u64,
        ValueRef::Str(_) if form == Form::Strp => format.offset_size() as u64,
        ValueRef::StrSup(_) if form == Form::StrpSup => format.offset_size() as u64,
        ValueRef::Number(number) => number_len(form, number),
        ValueRef::Block(bytes) => block_len(form, bytes.len() as u64),
        ValueRef::Data16(bytes) => sixteen_len(form, bytes),
        _ => 0,
    }
}

fn number_len(form: Form, number: u64) -> u64
    ensures { (format : Format) → result
        ≡ length (value_bytes Little format form (number_value number)) }
{
    match form {
        Form::Data1 => 1,
        Form::Data2 => 2,
        Form::Data4 => 4,
        Form::Data8 => 8,
        Form::Udata => uleb_len(number),
        _ => 0,
    }
}

/// How many bytes a block of this length is with its length.
fn block_len(form: Form, len: u64) -> u64
    ensures { result ≡ min (block_size form len) (2 ^ 64 - 1) }
{
    let before = match form {
        Form::Block1 => 1,
        Form::Block2 => 2,
        Form::Block4 => 4,
        Form::Block => uleb_len(len),
        _ => return 0,
    };
    len.saturating_add(before)
}

fn sixteen_len(form: Form, bytes: [u8; 16]) -> u64
    ensures { (format : Format) → result
        ≡ length (value_bytes Little format form (data16 bytes)) }
{
    if form == Form::Data16 { 16 } else { 0 }
}
