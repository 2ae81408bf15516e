//! The columns of an index and the bits of is_stmt, written at their places as stretches are told.

ghost use Rattle.std.specs.Prelude.{◌≡◌, ℕ, ◌+◌, ◌*◌, ◌<◌, ◌≤◌, ◌^◌, ◌++◌, ◌∷◌, [], List, length, take, drop};
ghost use Rattle.std.specs.List.{concat};
ghost use Rattle.dl_num.specs.Fixed.{little_bytes};
ghost use Rattle.dl_index.specs.Columns.{size_of};
ghost use Rattle.dl_stretch.specs.declared.stretch.Stretch as each;
ghost use Rattle.dl_pack.specs.Columns.{told_bit};
ghost use Rattle.dl_pack.specs.Written.{region, bits_in};

use crate::columns::{Column, number_of};
use crate::mentions::Mentions;
use dl_index::Width;
use dl_stretch::{Stretch, StretchSink};

/// Where the next number of a column is written, and its width.
#[derive(Clone, Copy)]
pub struct Cursor {
    pub next: usize,
    pub width: Width,
}

/// Writes the numbers of stretches into the columns of an index, and their bits.
#[derive(Drop)]
pub struct ColumnWriter<'a> {
    pub bytes: Vec<u8>,
    /// The first address of all.
    pub base: u64,
    pub files: &'a Mentions,
    pub start: Cursor,
    pub file: Cursor,
    pub line: Cursor,
    pub column: Cursor,
    pub discriminator: Cursor,
    /// Where the bits begin.
    pub bits: usize,
    /// How many stretches are written.
    pub written: usize,
}

impl StretchSink for ColumnWriter<'_> {
    ghost use Rattle.dl_pack.specs.Writing.{AreWritten};

    ghost hears = { AreWritten };

    #[inline(always)]
    fn stretch(&mut self, stretch: Stretch) {
        let files = self.files;
        let start = number_of(self.base, files, Column::Start, &stretch);
        let bytes = self.bytes.as_mut_slice();
        put_next(bytes, &mut self.start, start);
        put_next(
            bytes,
            &mut self.file,
            number_of(self.base, files, Column::File, &stretch),
        );
        put_next(
            bytes,
            &mut self.line,
            number_of(self.base, files, Column::Line, &stretch),
        );
        put_next(
            bytes,
            &mut self.column,
            number_of(self.base, files, Column::Column, &stretch),
        );
        put_next(
            bytes,
            &mut self.discriminator,
            number_of(self.base, files, Column::Discriminator, &stretch),
        );
        put_bit(bytes, self.bits, self.written, &stretch);
        self.written = self.written.saturating_add(1);
    }
}

/// Writes the next number of a column, where there is room.
#[inline(always)]
fn put_next(bytes: &mut [u8], cursor: &mut Cursor, number: u64)
    ensures width { cursor.new.width ≡ cursor.old.width }
    ensures put { (before after : List (List ℕ)) (part : List ℕ) (room : ℕ)
        → bytes.old ≡ concat (before ++ region room part ∷ after)
        → cursor.old.next ≡ length (concat before) + length part
        → length part + size_of cursor.old.width ≤ room
        → (bytes.new ≡ concat (before ++ region room (part ++ little_bytes (size_of cursor.old.width) number) ∷ after))
        × (cursor.new.next ≡ cursor.old.next + size_of cursor.old.width) }
{
    cursor.next = match cursor.width {
        Width::One => put_sized(bytes, cursor.next, 1, number),
        Width::Two => put_sized(bytes, cursor.next, 2, number),
        Width::Four => put_sized(bytes, cursor.next, 4, number),
        Width::Eight => put_sized(bytes, cursor.next, 8, number),
    };
}

/// Writes the lowest bytes of a number at a place, where there is room; answers the place after them.
#[inline(always)]
fn put_sized(bytes: &mut [u8], place: usize, size: usize, number: u64) -> usize
    requires some { 1 ≤ size }
    requires small { size ≤ 8 }
    ensures { (before after : List (List ℕ)) (part : List ℕ) (room : ℕ)
        → bytes.old ≡ concat (before ++ region room part ∷ after) → place ≡ length (concat before) + length part
        → length part + size ≤ room
        → (bytes.new ≡ concat (before ++ region room (part ++ little_bytes size number) ∷ after))
        × (result ≡ place + size) }
{
    if bytes.len().saturating_sub(place) < size {
        return place;
    }
    put_at(bytes, place, size, number);
    place + size
}

/// Writes the lowest bytes of a number at a place.
#[inline(always)]
fn put_at(bytes: &mut [u8], place: usize, size: usize, number: u64)
    requires small { size ≤ 8 }
    requires room { place + size ≤ length bytes.old }
    ensures { bytes.new ≡ take place bytes.old ++ (little_bytes size number ++ drop (place + size) bytes.old) }
{
    bytes[place..place + size].copy_from_slice(&number.to_le_bytes()[..size]);
}

/// Writes the bit of stretch `k`, where there is room.
#[inline(always)]
fn put_bit(bytes: &mut [u8], bits: usize, k: usize, stretch: &Stretch)
    ensures { (before : List (List ℕ)) (list : List each.Stretch) (room : ℕ)
        → bytes.old ≡ concat (before ++ bits_in room list ∷ []) → bits ≡ length (concat before)
        → k ≡ length list → length list < room * 8
        → bytes.new ≡ concat (before ++ bits_in room (list ++ stretch.now ∷ []) ∷ []) }
{
    if bit_of(stretch) == 0 {
        return;
    }
    if k / 8 >= bytes.len().saturating_sub(bits) {
        return;
    }
    let place = bits + k / 8;
    bytes[place] = bytes[place].saturating_add(weight_of(k % 8));
}

/// What a bit counts in its byte, the least one first.
#[inline(always)]
fn weight_of(bit: usize) -> u8
    requires { bit < 8 }
    ensures { result ≡ 2 ^ bit }
{
    match bit {
        0 => 1,
        1 => 2,
        2 => 4,
        3 => 8,
        4 => 16,
        5 => 32,
        6 => 64,
        _ => 128,
    }
}

/// 1 where the row of a stretch is a recommended place for a breakpoint; 0 in a gap.
#[inline(always)]
fn bit_of(stretch: &Stretch) -> u8
    ensures { result ≡ told_bit stretch.now.told }
{
    match stretch.told {
        Some(told) => u8::from(told.is_stmt),
        None => 0,
    }
}
