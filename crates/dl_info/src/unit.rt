//! Units of `.debug_info` by the bytes that are known of them, and texts by their indices. DWARF 5, sections 7.5.1 and 7.26.
ghost use Rattle.std.specs.Prelude.{◌≡◌};
ghost use Rattle.dl_info.specs.Entries.{entry};
ghost use Rattle.dl_info.specs.Section.{section_of};
ghost use Rattle.dl_info.specs.Units.{answer_map, first_entry, length_answer, settled, string_offset, string_place};
ghost use Rattle.dl_info.specs.Units.{unit_length};

use crate::abbreviations::Abbreviations;
use crate::entry::{FirstEntry, entry_at};
use crate::front::{FieldFault, bytes_from, fixed_at};
use crate::head::{UnitLength, length_at};
use dl_num::Order;
use dl_table::Format;

/// What is known from a front of the bytes.
#[derive(Clone, Copy)]
pub enum Answer<T> {
    /// It is read.
    Found(T),
    /// The bytes end before it does.
    More,
    /// It is damaged, or of a kind that isn't known: more bytes don't help.
    Unreadable,
}

/// The length that a unit of `.debug_info` begins with, from its first bytes. Twelve of them are enough. DWARF 5,
/// section 7.4.
pub fn unit_length(order: Order, bytes: &[u8]) -> Answer<UnitLength>
    ensures { result ≡ unit_length order bytes.now }
{
    match length_at(order, bytes) {
        Ok((length, _)) => Answer::Found(length),
        Err(FieldFault::Short(_)) => Answer::More,
        Err(FieldFault::Damaged) => Answer::Unreadable,
    }
}

/// The first entry of a unit of `.debug_info`, from the first bytes of the unit, which more may follow, and all bytes of
/// `.debug_abbrev`. Offsets of an object file are right only where its relocations are applied first. DWARF 5, section 7.5.
pub fn first_entry<'a>(
    order: Order,
    bytes: &'a [u8],
    abbreviations: &mut Abbreviations<'_>,
) -> Answer<FirstEntry<'a>>
    ensures entry { answer_map entry result ≡ first_entry order (section_of abbreviations.old) bytes.entry.now }
    ensures section { section_of abbreviations.new ≡ section_of abbreviations.old }
{
    let size = match length_at(order, bytes) {
        Ok((length, _)) => length.size,
        Err(FieldFault::Short(_)) => return Answer::More,
        Err(FieldFault::Damaged) => return Answer::Unreadable,
    };
    let known = size.min(bytes.len() as u64);
    let unit = &bytes[..known as usize];
    match entry_at(order, unit, abbreviations) {
        Ok((entry, _)) => Answer::Found(entry),
        Err(FieldFault::Short(wanted)) if wanted <= size - known => Answer::More,
        Err(_) => Answer::Unreadable,
    }
}

/// Where in `.debug_str_offsets` the offset of the text with an index stands, of a unit whose part of it begins at `base`;
/// None where that is no place in 64 bits. DWARF 5, section 7.26.
pub fn string_place(format: Format, base: u64, index: u64) -> Option<u64>
    ensures { result ≡ string_place format base index }
{
    index
        .checked_mul(format.offset_size() as u64)?
        .checked_add(base)
}

/// The offset of `.debug_str` that stands at this place of `.debug_str_offsets`; None where it ends before.
pub fn string_offset(order: Order, format: Format, place: u64, section: &[u8]) -> Option<u64>
    ensures { result ≡ string_offset order format place section.now }
{
    let size = format.offset_size() as u64;
    let (offset, _) = fixed_at(order, size, bytes_from(place, section)).ok()?;
    Some(offset)
}
