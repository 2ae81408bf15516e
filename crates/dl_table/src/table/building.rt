//! Entries that are added to a table: which values it takes, and how it holds them.

ghost use Rattle.std.specs.Prelude.{◌≡◌, ◌++◌, ◌∷◌, [], ◌+◌, ◌-◌, ◌^◌, ◌<◌, ◌≤◌, length, map, vec_len, vec_capacity};
ghost use Rattle.std.specs.Prelude.{IfSome, IfNone, sum_by};
ghost use Rattle.dl_table.specs.Built.{fits_form, fits_offset, wrong_value as wrong_value_of};
ghost use Rattle.dl_table.specs.Held.{bytes_at, bytes_lent, held_end, values_end, pooled, value_held, value_lent};
ghost use Rattle.dl_table.specs.Value.{data16, number as number_value};
ghost use Rattle.dl_table.specs.Building.{fits_block};

use crate::form::{Form, Format};
use crate::table::Pair;
use crate::table::held::{Extent, StoredValue, ValueRef, Word};

/// The least place at which a value is missing, is too many, or isn't one of its pair's form.
pub fn wrong_value(format: Format, pairs: &[Pair], values: &[ValueRef<'_>]) -> Option<usize>
    ensures { result ≡ wrong_value_of format 0 pairs.now (map value_lent values.now) }
{
    for (place, pair) in pairs.iter().enumerate() {
        let Some(value) = values.get(place) else {
            return Some(place);
        };
        if !is_of_form(format, pair.form, value) {
            return Some(place);
        }
    }
    if values.len() > pairs.len() {
        Some(pairs.len())
    } else {
        None
    }
}

/// Whether the value is one of the form. Sections 7.5.5 and 7.5.6.
fn is_of_form(format: Format, form: Form, value: &ValueRef<'_>) -> bool
    ensures { result ≡ fits_form format form (value_lent value.now) }
{
    match *value {
        ValueRef::Text(bytes) => form == Form::String && !bytes.contains(&0),
        ValueRef::LineStr(offset) => form == Form::LineStrp && is_offset(format, offset),
        ValueRef::Str(offset) => form == Form::Strp && is_offset(format, offset),
        ValueRef::StrSup(offset) => form == Form::StrpSup && is_offset(format, offset),
        ValueRef::Number(number) => is_number_of(form, number),
        ValueRef::Block(bytes) => is_block_of(form, bytes.len() as u64),
        ValueRef::Data16(bytes) => is_sixteen_bytes_of(form, bytes),
    }
}

/// Whether the offset fits the format. Section 7.4.
fn is_offset(format: Format, offset: u64) -> bool
    ensures { result ≡ fits_offset format offset }
{
    match format {
        Format::Dwarf32 => offset < 1 << 32,
        Format::Dwarf64 => true,
    }
}

fn is_number_of(form: Form, number: u64) -> bool
    ensures { (format : Format) → result ≡ fits_form format form (number_value number) }
{
    match form {
        Form::Data1 => number < 1 << 8,
        Form::Data2 => number < 1 << 16,
        Form::Data4 => number < 1 << 32,
        Form::Data8 | Form::Udata => true,
        _ => false,
    }
}

fn is_block_of(form: Form, len: u64) -> bool
    ensures { result ≡ fits_block form len }
{
    match form {
        Form::Block1 => len < 1 << 8,
        Form::Block2 => len < 1 << 16,
        Form::Block4 => len < 1 << 32,
        Form::Block => true,
        _ => false,
    }
}

fn is_sixteen_bytes_of(form: Form, bytes: [u8; 16]) -> bool
    ensures { (format : Format) → result ≡ fits_form format form (data16 bytes) }
{
    form == Form::Data16
}

/// The bytes that the values' texts and blocks take in the pool; None where they are too many to
/// count.
pub fn pooled_len(values: &[ValueRef<'_>]) -> Option<usize>
    ensures some { IfSome result (λ n. n ≡ sum_by pooled values.now) }
    ensures none { IfNone result (2 ^ 64 ≤ sum_by pooled values.now) }
{
    let mut total = 0usize;
    for value in values {
        total = total.checked_add(value.pooled_len())?;
    }
    Some(total)
}

/// Appends the values, for which there is room.
pub fn hold_all(held: &mut Vec<StoredValue>, pool: &mut Vec<u8>, values: &[ValueRef<'_>])
    requires held_room { vec_len held.old + length values.now ≤ vec_capacity held.old }
    requires pool_room { vec_len pool.old + sum_by pooled values.now ≤ vec_capacity pool.old }
    requires within { values_end held.old.items ≤ length pool.old.items }
    ensures within { values_end held.new.items ≤ length pool.new.items }
    ensures values { map (value_held pool.new.items) held.new.items
        ≡ map (value_held pool.old.items) held.old.items ++ map value_lent values.now }
{
    for value in values {
        hold(held, pool, value);
    }
}

/// Appends a value, for which there is room.
#[tactic(auto, using(crate::proofs::HeldLemmas::pushes))]
fn hold(held: &mut Vec<StoredValue>, pool: &mut Vec<u8>, value: &ValueRef<'_>)
    requires held_room { vec_len held.old < vec_capacity held.old }
    requires pool_room { vec_len pool.old + pooled value.now ≤ vec_capacity pool.old }
    requires within { values_end held.old.items ≤ length pool.old.items }
    ensures within { values_end held.new.items ≤ length pool.new.items }
    ensures values { map (value_held pool.new.items) held.new.items
        ≡ map (value_held pool.old.items) held.old.items ++ value_lent value.now ∷ [] }
    ensures held_len { vec_len held.new ≡ vec_len held.old + 1 }
    ensures held_capacity { vec_capacity held.old ≤ vec_capacity held.new }
    ensures pool_len { vec_len pool.new ≡ vec_len pool.old + pooled value.now }
    ensures pool_capacity { vec_capacity pool.old ≤ vec_capacity pool.new }
{
    let next = pool_bytes(pool, value);
    held.push(next).unwrap();
}

/// The value as it is held, its bytes appended to the pool, which has room for them.
fn pool_bytes(pool: &mut Vec<u8>, value: &ValueRef<'_>) -> StoredValue
    requires { vec_len pool.old + pooled value.now ≤ vec_capacity pool.old }
    ensures items { pool.new.items ≡ pool.old.items ++ bytes_lent value.now }
    ensures value { value_held pool.new.items result ≡ value_lent value.now }
    ensures end { held_end result ≤ length pool.new.items }
    ensures len { vec_len pool.new ≡ vec_len pool.old + pooled value.now }
    ensures capacity { vec_capacity pool.old ≤ vec_capacity pool.new }
{
    match *value {
        ValueRef::Text(bytes) => StoredValue::Text(copy(pool, bytes)),
        ValueRef::LineStr(offset) => StoredValue::LineStr(Word::new(offset)),
        ValueRef::Str(offset) => StoredValue::Str(Word::new(offset)),
        ValueRef::StrSup(offset) => StoredValue::StrSup(Word::new(offset)),
        ValueRef::Number(number) => StoredValue::Number(Word::new(number)),
        ValueRef::Block(bytes) => StoredValue::Block(copy(pool, bytes)),
        ValueRef::Data16(bytes) => StoredValue::Data16(bytes),
    }
}

/// Appends bytes to the pool, for which there is room, and answers where they stand.
fn copy(pool: &mut Vec<u8>, bytes: &[u8]) -> Extent
    requires { vec_len pool.old + length bytes.now ≤ vec_capacity pool.old }
    ensures place { bytes_at pool.new.items result ≡ bytes.now }
    ensures end { result.start + result.len ≡ length pool.new.items }
    ensures items { pool.new.items ≡ pool.old.items ++ bytes.now }
    ensures len { vec_len pool.new ≡ vec_len pool.old + length bytes.now }
    ensures capacity { vec_capacity pool.old ≤ vec_capacity pool.new }
{
    let start = pool.len();
    pool.extend_from_slice(bytes).unwrap();
    Extent::new(start, bytes.len())
}
