//! An order of the values of entries, in which none are equal but the same. Sections 7.5.4 to 7.5.6.

ghost use Rattle.std.specs.Prelude.{◌≡◌};
ghost use Rattle.dl_table.specs.EntryHeld.{entry_items};
ghost use Rattle.dl_table.specs.Held.{value_lent};
ghost use Rattle.dl_table_rules.specs.Ordering.{bytes_of, entry_cmp, kind_of, number_of, value_cmp};

use dl_table::table::{Entry, ValueRef};
use std::cmp::Ordering;

/// The order of two entries: that of their first values that differ.
pub fn compare_entries(entry: &Entry<'_>, other: &Entry<'_>) -> Ordering
    ensures { result ≡ entry_cmp (entry_items entry.now) (entry_items other.now) }
{
    let mut others = other.values();
    for (content, value) in entry.values() {
        let Some((other_content, other_value)) = others.next() else {
            return Ordering::Greater;
        };
        let order = content
            .cmp(&other_content)
            .then(compare_values(&value, &other_value));
        if order != Ordering::Equal {
            return order;
        }
    }
    if others.next().is_some() {
        Ordering::Less
    } else {
        Ordering::Equal
    }
}

/// The order of two values: by their kinds, by their numbers, and by their bytes.
fn compare_values(value: &ValueRef<'_>, other: &ValueRef<'_>) -> Ordering
    ensures { result ≡ value_cmp (value_lent value.now) (value_lent other.now) }
{
    let order = kind_of(value)
        .cmp(&kind_of(other))
        .then(number_of(value).cmp(&number_of(other)));
    if order != Ordering::Equal {
        return order;
    }
    bytes_of(value).cmp(bytes_of(other))
}

/// A number for each kind of value.
fn kind_of(value: &ValueRef<'_>) -> u8
    ensures { result ≡ kind_of (value_lent value.now) }
{
    match value {
        ValueRef::Text(_) => 0,
        ValueRef::LineStr(_) => 1,
        ValueRef::Str(_) => 2,
        ValueRef::StrSup(_) => 3,
        ValueRef::Number(_) => 4,
        ValueRef::Block(_) => 5,
        ValueRef::Data16(_) => 6,
    }
}

/// The number that a value is; 0 where it isn't one.
fn number_of(value: &ValueRef<'_>) -> u64
    ensures { result ≡ number_of (value_lent value.now) }
{
    match value {
        ValueRef::LineStr(number)
        | ValueRef::Str(number)
        | ValueRef::StrSup(number)
        | ValueRef::Number(number) => *number,
        _ => 0,
    }
}

/// The bytes that a value is; none where it is a number.
fn bytes_of<'a>(value: &'a ValueRef<'_>) -> &'a [u8]
    ensures { result.now ≡ bytes_of (value_lent value.now) }
{
    match value {
        ValueRef::Text(bytes) | ValueRef::Block(bytes) => bytes,
        ValueRef::Data16(bytes) => bytes,
        _ => &[],
    }
}
