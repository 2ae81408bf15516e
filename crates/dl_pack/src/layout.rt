//! Where the columns of an index stand, and the bits of is_stmt.

ghost use Rattle.std.specs.Prelude.{◌≡◌, ℕ, ◌+◌, ◌*◌, ◌<◌, ◌≤◌, ◌^◌, ◌++◌, IfOk, OnErr, List, None, length, map, replicate, vec_capacity};
ghost use Rattle.dl_memory.specs.Refusals.{IsRefused};
ghost use Rattle.std.specs.List.{flat_map};
ghost use Rattle.dl_index.specs.Columns.{size_of};
ghost use Rattle.dl_index.specs.Layout.{rounded};
ghost use Rattle.dl_stretch.specs.declared.stretch.Stretch as each;
ghost use Rattle.dl_pack.specs.Columns.{columns_of, least_size, padded, part_by, statement_bytes, width_by};
ghost use Rattle.dl_pack.specs.Fits.{NumbersFit};
ghost use Rattle.dl_pack.specs.IndexOf.{base_of};
ghost use Rattle.dl_pack.specs.Mentioned.{order_of};
ghost use Rattle.dl_pack.specs.Totals.{Totalled};
ghost use Rattle.dl_pack.specs.Written.{room_of, bits_room};
ghost use Rattle.dl_pack.specs.Writing.{AreLaid, IsFresh, HasWidths, TotalsFit};

use crate::columns::least_width;
use crate::totals::Totals;
use crate::writer::{ColumnWriter, Cursor};
use dl_memory::{Memory, NoMemory};
use dl_stretch::Stretches;

/// Where the columns and the bits stand, and where they end.
#[derive(Clone, Copy)]
pub struct Places {
    pub start: Cursor,
    pub file: Cursor,
    pub line: Cursor,
    pub column: Cursor,
    pub discriminator: Cursor,
    pub bits: usize,
    pub end: usize,
}

/// The columns in their least widths and the bits of stretches of which the totals are known, behind 128 bytes of 0; and
/// the widths.
pub fn with_columns<M: Memory, T: Stretches>(
    memory: &M,
    totals: &Totals,
    stretches: &T,
) -> Result<(Vec<u8>, [u8; 5]), NoMemory>
    requires good { totals.now.files.fault ≡ None }
    requires totals { (list : List each.Stretch) → T.stands stretches.now list → (n : ℕ) × Totalled n totals.now list }
    ensures put { IfOk result (λ put. (list : List each.Stretch) → T.stands stretches.now list → put.0.items ≡ replicate 128 0
        ++ (flat_map padded (map (part_by (base_of list) (order_of totals.now.files.files) list) columns_of)
        ++ padded (statement_bytes list))) }
    ensures room { IfOk result (λ put. 128 ≤ length put.0.items) }
    ensures widths { IfOk result (λ put. (list : List each.Stretch) → T.stands stretches.now list
        → put.1 ≡ map (width_by (base_of list) (order_of totals.now.files.files) list) columns_of) }
    ensures fits { IfOk result (λ _. (list : List each.Stretch) → T.stands stretches.now list
        → NumbersFit (base_of list) (order_of totals.now.files.files) list) }
    ensures few { IfOk result (λ _. (list : List each.Stretch) → T.stands stretches.now list
        → totals.now.starts.count ≡ length list) }
    ensures len { IfOk result (λ put. length put.0.items ≤ 171 + 41 * totals.now.starts.count) }
    ensures refused { OnErr result (IsRefused (M.refuses memory.now) (171 + 41 * totals.now.starts.count)) }
{
    let mut writer = laid_out(memory, totals)?;
    stretches.tell(&mut writer);
    let widths = [
        writer.start.width.size() as u8,
        writer.file.width.size() as u8,
        writer.line.width.size() as u8,
        writer.column.width.size() as u8,
        writer.discriminator.width.size() as u8,
    ];
    Ok((writer.bytes, widths))
}

/// A writer of the columns and bits, with room for them behind 128 bytes of 0.
fn laid_out<'a, M: Memory>(memory: &M, totals: &'a Totals) -> Result<ColumnWriter<'a>, NoMemory>
    ensures fresh { IfOk result (λ w. IsFresh w (replicate 128 0) totals.now.starts.count) }
    ensures widths { IfOk result (λ w. HasWidths w totals.now) }
    ensures base { IfOk result (λ w. w.base ≡ totals.now.starts.base) }
    ensures files { IfOk result (λ w. w.files.now ≡ totals.now.files.files) }
    ensures few { IfOk result (λ _. totals.now.starts.count < 0xffffffffffffffff) }
    ensures fits { IfOk result (λ _. TotalsFit totals.now) }
    ensures len { IfOk result (λ w. length w.bytes.items ≤ 171 + 41 * totals.now.starts.count) }
    ensures refused { OnErr result (IsRefused (M.refuses memory.now) (171 + 41 * totals.now.starts.count)) }
{
    let places = places_of(128, totals);
    let mut bytes = header_room(memory, places.end)?;
    if bytes.resize(places.end, 0).is_err() {
        unreachable!();
    }
    Ok(ColumnWriter {
        bytes,
        base: totals.starts.base,
        files: &totals.files.files,
        start: places.start,
        file: places.file,
        line: places.line,
        column: places.column,
        discriminator: places.discriminator,
        bits: places.bits,
        written: 0,
    })
}

/// 128 bytes of 0, with room for so many bytes in all, of which no list has 2^63.
fn header_room<M: Memory>(memory: &M, end: usize) -> Result<Vec<u8>, NoMemory>
    requires { 128 ≤ end }
    ensures zeros { IfOk result (λ bytes. bytes.items ≡ replicate 128 0) }
    ensures room { IfOk result (λ bytes. end ≤ vec_capacity bytes) }
    ensures small { IfOk result (λ _. end < 2 ^ 63) }
    ensures refused { OnErr result (M.refuses memory.now end) }
{
    let mut bytes = memory.with_capacity(end)?;
    match bytes.resize(128, 0) {
        Ok(()) => Ok(bytes),
        Err(_) => unreachable!(),
    }
}

/// The places of columns and bits behind so many bytes. Where they would end at 2^63 or past it, the end is there too.
fn places_of(len: usize, totals: &Totals) -> Places
    ensures laid { result.end < 2 ^ 63 → AreLaid result len totals.now }
    ensures room { len ≤ result.end }
    ensures most { result.end ≤ len + 41 * totals.now.starts.count + 43 }
{
    let count = totals.starts.count;
    let start = Cursor {
        next: len,
        width: least_width(totals.starts.greatest),
    };
    let files = totals.files.files.order().len() as u64;
    let file = cursor_after(start, count, files);
    let line = cursor_after(file, count, totals.rows.line);
    let column = cursor_after(line, count, totals.rows.column);
    let discriminator = cursor_after(column, count, totals.rows.discriminator);
    let bits = place_after(discriminator, count);
    let bytes = rounded_up(count / 8 + usize::from(count % 8 > 0));
    Places {
        start,
        file,
        line,
        column,
        discriminator,
        bits,
        end: bits.saturating_add(bytes),
    }
}

/// Where a column begins behind another one, in the least width of numbers up to the greatest.
fn cursor_after(before: Cursor, count: usize, greatest: u64) -> Cursor
    ensures place { result.next < 2 ^ 63 → result.next ≡ before.next + room_of count (size_of before.width) }
    ensures behind { before.next ≤ result.next }
    ensures most { result.next ≤ before.next + 8 * count + 7 }
    ensures few { result.next < 2 ^ 63 → count < 2 ^ 63 }
    ensures width { size_of result.width ≡ least_size greatest }
{
    Cursor {
        next: place_after(before, count),
        width: least_width(greatest),
    }
}

/// The place behind a column of so many numbers; where that would be at 2^63 or past it, one there.
fn place_after(column: Cursor, count: usize) -> usize
    ensures place { result < 2 ^ 63 → result ≡ column.next + room_of count (size_of column.width) }
    ensures behind { column.next ≤ result }
    ensures most { result ≤ column.next + 8 * count + 7 }
    ensures few { result < 2 ^ 63 → count < 2 ^ 63 }
{
    column
        .next
        .saturating_add(rounded_up(count.saturating_mul(column.width.size())))
}

/// A length with what brings it to a multiple of 8; where that would be at 2^63 or past it, one there.
fn rounded_up(len: usize) -> usize
    ensures rounded { result < 2 ^ 63 → result ≡ rounded len }
    ensures large { 2 ^ 63 ≤ len → 2 ^ 63 ≤ result }
    ensures most { result ≤ len + 7 }
{
    len.saturating_add(7) / 8 * 8
}
