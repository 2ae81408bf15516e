//! The places that relocations change, with the sections of their symbols. System V ABI, chapter 4, "Symbol Table".
ghost use Rattle.std.specs.Prelude.{◌≡◌, ◌≤◌, ◌+◌, ◌++◌, length, OnErr, OnOk};
ghost use Rattle.dl_memory.specs.Refusals.{IsRefused};
ghost use Rattle.dl_reloc.specs.Entries.{count, entry_size, symbol_size};
ghost use Rattle.dl_reloc.specs.Places.{index_in, placed, placed_compact, places_of, section_of, wide_index};

use crate::compact::CompactHeader;
use crate::entry::{Relocation, entry_size};
use crate::machine::change_of;
use crate::placed::Placed;
use crate::symbol::symbol_size;
use crate::table::{count, item, number_at};
use crate::target::{AddendPlace, Class, Target};
use dl_memory::{Memory, NoMemory};
use dl_num::Order;

/// The first of the numbers that no section has (SHN_LORESERVE).
const SHN_LORESERVE: u64 = 0xff00;

/// What a symbol has for the number of its section where that doesn't fit (SHN_XINDEX).
const SHN_XINDEX: u64 = 0xffff;

/// How many bytes a number has that doesn't fit a symbol.
const WIDE: usize = 4;

/// What the symbol in these bytes has for the number of its section (st_shndx).
fn index_in(class: Class, order: Order, bytes: &[u8]) -> u64
    requires { symbol_size class ≤ length bytes.now }
    ensures { result ≡ index_in class order bytes.now }
{
    match class {
        Class::Bits32 => number_at(order, 14, 2, bytes),
        Class::Bits64 => number_at(order, 6, 2, bytes),
    }
}

/// The number of the section of a symbol where it doesn't fit there; 0 where there is none for it.
fn wide_index(order: Order, wide: &[u8], symbol: u64) -> u64
    ensures { result ≡ wide_index order wide.now symbol }
{
    if symbol < count(wide, WIDE) as u64 {
        number_at(order, 0, WIDE, item(wide, WIDE, symbol as usize))
    } else {
        0
    }
}

/// The number of the section that a symbol is defined in; 0 where that is no section, or there is no such symbol.
fn section_of(target: &Target, table: &[u8], wide: &[u8], symbol: u64) -> u64
    ensures { result ≡ section_of target.now.class target.now.order table.now wide.now symbol }
{
    let size = symbol_size(target.class);
    if symbol == 0 || count(table, size) as u64 <= symbol {
        return 0;
    }
    let bytes = item(table, size, symbol as usize);
    let index = index_in(target.class, target.order, bytes);
    if index == SHN_XINDEX {
        return wide_index(target.order, wide, symbol);
    }
    if index < SHN_LORESERVE { index } else { 0 }
}

/// Puts the place that an entry changes after the others, if it changes one.
fn push_place<M: Memory>(
    memory: &M,
    target: &Target,
    entry: &Relocation,
    table: &[u8],
    wide: &[u8],
    places: &mut Vec<Placed>,
) -> Result<(), NoMemory>
    ensures places { OnOk result
        (places.new.items ≡ places.old.items ++ places_of target.now entry.now table.now wide.now) }
    ensures refused { OnErr result (M.refuses memory.now (length places.old.items + 1)) }
{
    let Some(change) = change_of(target, entry.number) else {
        return Ok(());
    };
    if change.size() == 0 {
        return Ok(());
    }
    let place = Placed {
        offset: entry.offset,
        section: section_of(target, table, wide, entry.symbol),
    };
    memory.push(places, place)
}

/// Puts the places that the whole entries of a relocation section change after the others, in order.
///
/// `table` are the bytes of the symbol table that belongs to the entries, and `wide` those of the section with the
/// numbers of sections that don't fit there (SHT_SYMTAB_SHNDX), none where there is no such section. An entry of a type
/// that changes nothing, or isn't known, has no place. Where a growth is refused, which places are there isn't said.
pub fn push_places<M: Memory>(
    memory: &M,
    target: &Target,
    form: AddendPlace,
    entries: &[u8],
    table: &[u8],
    wide: &[u8],
    places: &mut Vec<Placed>,
) -> Result<(), NoMemory>
    ensures places { OnOk result
        (places.new.items ≡ places.old.items ++ placed target.now form entries.now table.now wide.now) }
    ensures few { OnOk result (length places.new.items ≤ length places.old.items + length entries.now) }
    ensures refused { OnErr result (IsRefused (M.refuses memory.now)
        (length places.old.items + count (entry_size target.now.class form) entries.now)) }
{
    let size = entry_size(target.class, form);
    for index in 0..count(entries, size) {
        let entry = Relocation::read(target, form, item(entries, size, index));
        push_place(memory, target, &entry, table, wide, places)?;
    }
    Ok(())
}

/// The same for a section of compact relocations (SHT_CREL), of as many entries as are there.
pub fn push_compact_places<M: Memory>(
    memory: &M,
    target: &Target,
    section: &[u8],
    table: &[u8],
    wide: &[u8],
    places: &mut Vec<Placed>,
) -> Result<(), NoMemory>
    ensures places { OnOk result
        (places.new.items ≡ places.old.items ++ placed_compact target.now section.now table.now wide.now) }
    ensures few { OnOk result (length places.new.items ≤ length places.old.items + length section.now) }
    ensures refused { OnErr result (IsRefused (M.refuses memory.now)
        (length places.old.items + length section.now)) }
{
    let Some((header, mut rest)) = CompactHeader::read(section) else {
        return Ok(());
    };
    let mut entry = header.before_all();
    for _ in 0..header.count {
        let Some((next, after)) = header.next_entry(target.class, &entry, rest) else {
            return Ok(());
        };
        push_place(memory, target, &next, table, wide, places)?;
        entry = next;
        rest = after;
    }
    Ok(())
}
