//! Values of a table whose bytes all stand at the front of a piece. Section 7.5.5.

ghost use Rattle.std.specs.Prelude.{◌≡◌, ◌≢◌, ◌+◌, ◌<◌, ◌≤◌, length, take, IfSome, MatchOption};
ghost use Rattle.dl_num.specs.declared.fixed.Order.{Order};
ghost use Rattle.dl_field.specs.declared.value_phase.ValuePhase.TheVariants as value;
ghost use Rattle.dl_table.specs.Held.{held_end, values_end};
ghost use Rattle.dl_field.specs.TableMoves.{InFront, LebInFront, LengthInFront};
ghost use Rattle.dl_memory.specs.Refusals.{SystemRefuses, WasRefused};

use crate::field_step::FieldStep;
use crate::sixteen::Sixteen;
use crate::table_reader::{TablePhase, TableReader};
use crate::value_phase::{Cursor, ValuePhase};
use crate::value_reader::held_number;
use dl_num::{Order, PartialNumber, Uleb, fixed_at_front, short_uleb_at_front, uleb_at_front};
use dl_table::text::first_zero;
use dl_table::{Extent, Form, Format, StoredValue, Word};

/// The number or offset of this form that the bytes begin with, and the bytes after it, where none of its
/// bytes has come. None where the bytes end before it does.
#[inline(always)]
pub(crate) fn number_at_front(
    form: Form,
    number: PartialNumber,
    order: Order,
    bytes: &[u8],
) -> Option<(StoredValue, &[u8])>
    ensures { IfSome result (λ found. InFront order (value.Number form number) bytes.entry.now found.0 found.1.now) }
{
    if !number.is_new() {
        return None;
    }
    let (number, tail) = fixed_at_front(order, number.size(), bytes)?;
    Some((held_number(form, number), tail))
}

/// The number in LEB128 that the bytes begin with, and the bytes after it, where none of its bytes has come.
/// None where the bytes end before it does, and where it has more than two bytes.
#[inline(always)]
pub(crate) fn short_leb_at_front(number: Uleb, bytes: &[u8]) -> Option<(StoredValue, &[u8])>
    ensures { IfSome result (λ found. (order : Order)
        → InFront order (value.Leb number) bytes.entry.now found.0 found.1.now) }
{
    if !number.is_new() {
        return None;
    }
    let (number, tail) = short_uleb_at_front(bytes)?;
    Some((StoredValue::Number(Word::new(number)), tail))
}

/// The sixteen bytes that the bytes begin with, and the bytes after them, where none of them has come. None
/// where there are fewer.
#[inline(always)]
pub(crate) fn sixteen_at_front(sixteen: Sixteen, bytes: &[u8]) -> Option<(StoredValue, &[u8])>
    ensures { IfSome result (λ found. (order : Order)
        → InFront order (value.Data16 sixteen) bytes.entry.now found.0 found.1.now) }
{
    if !sixteen.is_new() {
        return None;
    }
    let (sixteen, tail) = bytes.split_first_chunk::<16>()?;
    Some((StoredValue::Data16(*sixteen), tail))
}

/// The number in LEB128 that the bytes begin with, and the bytes after it, where none of its bytes has come.
/// None where the bytes end before it does, and where it is 2^64 or more.
pub(crate) fn leb_at_front(number: Uleb, bytes: &[u8]) -> Option<(u64, &[u8])>
    ensures { IfSome result (λ found. LebInFront number bytes.entry.now found.0 found.1.now) }
{
    if !number.is_new() {
        return None;
    }
    let (number, tail) = uleb_at_front(bytes)?;
    Some((number.ok()?, tail))
}

/// The number, offset or sixteen bytes that the bytes begin with, and the bytes after it, where none of its bytes
/// has come. None where the bytes end before it does, where it isn't good, and for other values.
fn value_at_front(value: ValuePhase, order: Order, bytes: &[u8]) -> Option<(StoredValue, &[u8])>
    ensures { IfSome result (λ found. InFront order value bytes.entry.now found.0 found.1.now) }
{
    match value {
        ValuePhase::Number(form, number) => number_at_front(form, number, order, bytes),
        ValuePhase::Leb(number) => {
            let (number, tail) = leb_at_front(number, bytes)?;
            Some((StoredValue::Number(Word::new(number)), tail))
        }
        ValuePhase::Data16(sixteen) => sixteen_at_front(sixteen, bytes),
        _ => None,
    }
}

/// The same of a number in LEB128 only where it has no more than two bytes.
#[inline(always)]
pub(crate) fn common_at_front(
    value: ValuePhase,
    order: Order,
    bytes: &[u8],
) -> Option<(StoredValue, &[u8])>
    ensures { IfSome result (λ found. InFront order value bytes.entry.now found.0 found.1.now) }
{
    match value {
        ValuePhase::Number(form, number) => number_at_front(form, number, order, bytes),
        ValuePhase::Leb(number) => short_leb_at_front(number, bytes),
        ValuePhase::Data16(sixteen) => sixteen_at_front(sixteen, bytes),
        _ => None,
    }
}

/// The length of a block that the bytes begin with, and the bytes after it, where none of its bytes has come. None
/// where the bytes end before it does, where it is 2^64 or more, and for values that are no blocks.
fn length_at_front(value: ValuePhase, order: Order, bytes: &[u8]) -> Option<(u64, &[u8])>
    ensures { IfSome result (λ found. LengthInFront order value bytes.entry.now found.0 found.1.now) }
{
    match value {
        ValuePhase::BlockLength(number) => {
            if !number.is_new() {
                return None;
            }
            fixed_at_front(order, number.size(), bytes)
        }
        ValuePhase::LebBlockLength(number) => leb_at_front(number, bytes),
        _ => None,
    }
}

impl TableReader {
    ghost use Rattle.dl_field.specs.declared.table_reader.TablePhase.TheVariants as phase;
    ghost use Rattle.dl_field.specs.declared.field_step.FieldStep.TheVariants as byte_makes;
    ghost use Rattle.dl_field.specs.TableMoves.{BytesFollow, EntersAt, EntersBlock, SameTable, TakesFront};

    /// Takes a value that the bytes begin with, or else the first byte, save where memory is refused for that; the
    /// reader is then unchanged. How many bytes that is, and what they make of the field.
    #[inline(never)]
    pub fn push_front(&mut self, order: Order, format: Format, bytes: &[u8]) -> (usize, FieldStep)
        requires { 1 ≤ length bytes.now }
        ensures follows { BytesFollow order format self.old (take result.0 bytes.now) result.1 self.new }
        ensures some { 1 ≤ result.0 }
        ensures within { result.0 ≤ length bytes.now }
        ensures one { result.1 ≢ byte_makes.Ends → result.0 ≡ 1 }
        ensures refused { result.1 ≡ byte_makes.NoMemory → WasRefused SystemRefuses }
    {
        match self.value_front(order, format, bytes) {
            Some(tail) => (bytes.len() - tail.len(), FieldStep::Ends),
            None => (1, self.push(order, format, bytes[0])),
        }
    }

    /// Takes a value that the bytes begin with, and gives the bytes after it. None, and nothing is taken, where
    /// the bytes end before the value does, where it isn't good, and where memory is refused.
    fn value_front<'a>(&mut self, order: Order, format: Format, bytes: &'a [u8]) -> Option<&'a [u8]>
        ensures { MatchOption result (SameTable self.old self.new)
            (λ tail. TakesFront order format self.old bytes.entry.now tail.now self.new) }
    {
        let TablePhase::Value(at, value) = self.phase else {
            return None;
        };
        if let ValuePhase::Text(start) = value {
            return self.whole_text(at, start, format, bytes);
        }
        if let Some((size, tail)) = length_at_front(value, order, bytes) {
            return self.whole_block(at, size, format, tail);
        }
        let (held, tail) = value_at_front(value, order, bytes)?;
        self.enter_front(at, held, format, tail)
    }

    /// Enters a value that is complete, after whose bytes come those that are given back. None, and nothing is
    /// entered, where memory is refused.
    #[inline(always)]
    fn enter_front<'a>(
        &mut self,
        at: Cursor,
        held: StoredValue,
        format: Format,
        tail: &'a [u8],
    ) -> Option<&'a [u8]>
        requires in_row { at.column < length self.old.pairs.items }
        requires whole { values_end self.old.values.items ≤ length self.old.pool.items }
        requires held { held_end held ≤ length self.old.pool.items }
        ensures { MatchOption result (SameTable self.old self.new)
            (λ rest. (rest.now ≡ tail.entry.now) × EntersAt self.old at held format self.new) }
    {
        match self.enter(at, held, format) {
            FieldStep::Ends => Some(tail),
            _ => None,
        }
    }

    /// Takes a text that the bytes begin with, none of whose bytes has come, and gives the bytes after
    /// its zero byte.
    #[inline(always)]
    fn whole_text<'a>(
        &mut self,
        at: Cursor,
        start: usize,
        format: Format,
        bytes: &'a [u8],
    ) -> Option<&'a [u8]>
        requires { self.old.phase ≡ phase.Value at (value.Text start) }
        ensures { MatchOption result (SameTable self.old self.new)
            (λ tail. (order : Order) → TakesFront order format self.old bytes.entry.now tail.now self.new) }
    {
        if start != self.pool.len() {
            return None;
        }
        let len = first_zero(bytes)?;
        if self.values.reserve(1).is_err() {
            return None;
        }
        if self.pool.extend_from_slice(&bytes[..len]).is_err() {
            return None;
        }
        match self.enter(at, StoredValue::Text(Extent::new(start, len)), format) {
            FieldStep::Ends => Some(&bytes[len + 1..]),
            _ => None,
        }
    }

    /// Enters a block of this size that the bytes begin with, and gives the bytes after it. None, and nothing is
    /// entered, where they are fewer, and where memory is refused.
    fn whole_block<'a>(
        &mut self,
        at: Cursor,
        size: u64,
        format: Format,
        bytes: &'a [u8],
    ) -> Option<&'a [u8]>
        requires in_row { at.column < length self.old.pairs.items }
        requires whole { values_end self.old.values.items ≤ length self.old.pool.items }
        requires among { self.old.phase ≢ phase.Whole }
        ensures { MatchOption result (SameTable self.old self.new)
            (λ tail. EntersBlock self.old at size format bytes.entry.now tail.now self.new) }
    {
        if size > bytes.len() as u64 {
            return None;
        }
        let start = self.pool.len();
        let len = size as usize;
        if self.values.reserve(1).is_err() {
            return None;
        }
        if self.pool.extend_from_slice(&bytes[..len]).is_err() {
            return None;
        }
        match self.enter(at, StoredValue::Block(Extent::new(start, len)), format) {
            FieldStep::Ends => Some(&bytes[len..]),
            _ => None,
        }
    }
}
