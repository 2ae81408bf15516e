//! The places of a line section that relocations change, with the sections of their symbols. System V ABI, chapter 4.
ghost use Rattle.std.specs.Prelude.{◌≡◌, ◌≤◌, ◌+◌, ◌*◌, ◌-◌, length, Ok, Some, OnOk, IfOk, IfErr, option_map};
ghost use Rattle.dl_elf.specs.Source.{ForBytes};
ghost use Rattle.dl_elf.specs.Answers.{IfRead, IfRefused};
ghost use Rattle.dl_elf.specs.Window.{Shows};
ghost use Rattle.dl_elf.specs.SectionsHeld.{forward_of};
ghost use Rattle.dl_elf.specs.Forward.{NoneForward};
ghost use Rattle.dl_memory.specs.Refusals.{IsRefused, WasRefused};
ghost use Rattle.dl_file.specs.Answering.{StopsListing, StopsReading};
ghost use Rattle.dl_file.specs.OneByOne.{AreFew, GrowsBy, placed_at, placed_upto, relocations_at, relocations_upto, wide_at};
ghost use Rattle.dl_file.specs.Relocations.{HasRelocations, bytes_in};
ghost use Rattle.dl_file.specs.Places.{ArePlaces, StopsPlaces, line_places, placed_by, table_in, wide_in, wide_section};

use crate::line_file::{MOST_RELOCATIONS, line_section};
use crate::relocating::{CREL, find_relocations, form_of, target_of};
use crate::section_bytes::read_bytes;
use dl_elf::{
    Elf, ElfFault, NamedSection, Part, ReadAt, SectionHeader, SectionName, Sections, Window,
    find_sections, open_elf, section_at,
};
use dl_memory::Memory;
use dl_reloc::{Placed, push_compact_places, push_places};
use std::io;

/// The type of a section with the numbers of sections that don't fit the symbols of a table (SHT_SYMTAB_SHNDX).
const SYMTAB_SHNDX: u64 = 18;

/// The bytes of the symbol table of this number, none of number 0; None where it doesn't lie in the file.
fn read_table<S: ReadAt, M: Memory>(
    memory: &M,
    source: &S,
    elf: &Elf,
    number: u64,
) -> Result<Option<Vec<u8>>, ElfFault>
    ensures bytes { ForBytes (S.all_bytes source.now) (λ f.
        IfOk result (λ read. option_map (λ v. v.items) read ≡ table_in elf.now f number)) }
    ensures stops { IfErr result (StopsReading (S.fails_with source.now)) }
    ensures refused { IfRefused (WasRefused (M.refuses memory.now)) result }
    ensures most { ForBytes (S.all_bytes source.now) (λ f. IfRefused (IsRefused (M.refuses memory.now) (length f)) result) }
{
    if number == 0 {
        return Ok(Some(Vec::new(memory.alloc())));
    }
    if elf.count <= number {
        return Ok(None);
    }
    match section_at(source, &mut Window::new(), &elf.header, number)? {
        Some(section) => read_bytes(memory, source, &section),
        None => Ok(None),
    }
}

/// Section `at`, where it has the numbers of sections that don't fit the symbols of table `number`.
fn wide_at<S: ReadAt>(
    source: &S,
    window: &mut Window,
    elf: &Elf,
    number: u64,
    at: u64,
) -> io::Result<Option<SectionHeader>>
    requires shows { Shows (S.all_bytes source.now) window.old }
    ensures shows { Shows (S.all_bytes source.now) window.new }
    ensures section { ForBytes (S.all_bytes source.now) (λ f.
        IfOk result (λ section. section ≡ wide_at elf.now f number at)) }
    ensures fails { IfErr result (S.fails_with source.now) }
{
    match section_at(source, window, &elf.header, at)? {
        Some(section) if section.section_type == SYMTAB_SHNDX && section.link == number => {
            Ok(Some(section))
        }
        _ => Ok(None),
    }
}

/// The first of these sections.
fn find_wide<S: ReadAt>(source: &S, elf: &Elf, number: u64) -> io::Result<Option<SectionHeader>>
    ensures section { ForBytes (S.all_bytes source.now) (λ f.
        IfOk result (λ section. section ≡ wide_section elf.now f number)) }
    ensures fails { IfErr result (S.fails_with source.now) }
{
    let mut window = Window::new();
    for at in 1..elf.count {
        if let Some(section) = wide_at(source, &mut window, elf, number, at)? {
            return Ok(Some(section));
        }
    }
    Ok(None)
}

/// Its bytes, none where there is no such section; None where they don't lie in the file.
fn read_wide<S: ReadAt, M: Memory>(
    memory: &M,
    source: &S,
    elf: &Elf,
    number: u64,
) -> Result<Option<Vec<u8>>, ElfFault>
    ensures bytes { ForBytes (S.all_bytes source.now) (λ f.
        IfOk result (λ read. option_map (λ v. v.items) read ≡ wide_in elf.now f number)) }
    ensures stops { IfErr result (StopsReading (S.fails_with source.now)) }
    ensures refused { IfRefused (WasRefused (M.refuses memory.now)) result }
    ensures most { ForBytes (S.all_bytes source.now) (λ f. IfRefused (IsRefused (M.refuses memory.now) (length f)) result) }
{
    match find_wide(source, elf, number)? {
        Some(section) => read_bytes(memory, source, &section),
        None => Ok(Some(Vec::new(memory.alloc()))),
    }
}

/// Puts the places of a section of relocations after the others.
fn push_section<S: ReadAt, M: Memory>(
    memory: &M,
    source: &S,
    elf: &Elf,
    name: SectionName,
    section: &SectionHeader,
    places: &mut Vec<Placed>,
) -> Result<(), ElfFault>
    ensures pushed { ForBytes (S.all_bytes source.now) (λ f. OnOk result
        (placed_by elf.now name section.now (bytes_in f section.now) (table_in elf.now f section.now.link)
        (wide_in elf.now f section.now.link) places.old.items ≡ Ok places.new.items)) }
    ensures stops { ForBytes (S.all_bytes source.now) (λ f. IfErr result (StopsListing
        (placed_by elf.now name section.now (bytes_in f section.now) (table_in elf.now f section.now.link)
        (wide_in elf.now f section.now.link) places.old.items) (Unit {0}))) }
    ensures read { IfRead (S.fails_with source.now) result }
    ensures refused { IfRefused (WasRefused (M.refuses memory.now)) result }
    ensures few { ForBytes (S.all_bytes source.now) (λ f.
        OnOk result (length places.new.items ≤ length places.old.items + length f)) }
    ensures most { ForBytes (S.all_bytes source.now) (λ f.
        IfRefused (IsRefused (M.refuses memory.now) (length places.old.items + length f)) result) }
{
    let Some(entries) = read_bytes(memory, source, section)? else {
        return Err(ElfFault::Damaged(Part::Relocations(name)));
    };
    let Some(table) = read_table(memory, source, elf, section.link)? else {
        return Err(ElfFault::Damaged(Part::Symbols(name)));
    };
    let Some(wide) = read_wide(memory, source, elf, section.link)? else {
        return Err(ElfFault::Damaged(Part::Symbols(name)));
    };
    let target = target_of(elf);
    let pushed = if section.section_type == CREL {
        push_compact_places(memory, &target, &entries, &table, &wide, places)
    } else {
        push_places(
            memory,
            &target,
            form_of(section),
            &entries,
            &table,
            &wide,
            places,
        )
    };
    if pushed.is_err() {
        return Err(ElfFault::NoMemory);
    }
    Ok(())
}

/// Puts the places of section `at` after the others, where it is of relocations of the line section.
fn push_at<S: ReadAt, M: Memory>(
    memory: &M,
    source: &S,
    window: &mut Window,
    elf: &Elf,
    line: &NamedSection,
    at: u64,
    places: &mut Vec<Placed>,
) -> Result<(), ElfFault>
    requires shows { Shows (S.all_bytes source.now) window.old }
    ensures shows { Shows (S.all_bytes source.now) window.new }
    ensures pushed { ForBytes (S.all_bytes source.now) (λ f. OnOk result
        (placed_at elf.now f line.now at places.old.items ≡ Ok places.new.items)) }
    ensures stops { ForBytes (S.all_bytes source.now) (λ f. IfErr result
        (StopsListing (placed_at elf.now f line.now at places.old.items) (Unit {0}))) }
    ensures read { IfRead (S.fails_with source.now) result }
    ensures refused { IfRefused (WasRefused (M.refuses memory.now)) result }
    ensures few { ForBytes (S.all_bytes source.now) (λ f. OnOk result
        (GrowsBy (relocations_at elf.now f line.now.number at) (length f) places.old.items places.new.items)) }
    ensures most { ForBytes (S.all_bytes source.now) (λ f. IfRefused
        ((relocations_at elf.now f line.now.number at ≡ Some 1)
        × IsRefused (M.refuses memory.now) (length places.old.items + length f)) result) }
{
    let Some(section) = section_at(source, window, &elf.header, at)? else {
        return Err(ElfFault::Damaged(Part::SectionHeaders));
    };
    if !section.relocates(line.number) {
        return Ok(());
    }
    push_section(memory, source, elf, line.name, &section, places)
}

/// The places of all sections of relocations of the line section, of which none stands before section `first`.
fn list_places<S: ReadAt, M: Memory>(
    memory: &M,
    source: &S,
    elf: &Elf,
    line: &NamedSection,
    first: u64,
) -> Result<Vec<Placed>, ElfFault>
    requires from { 1 ≤ first }
    requires within { first - 1 ≤ elf.now.count - 1 }
    requires none { ForBytes (S.all_bytes source.now) (λ f.
        relocations_upto elf.now f line.now.number (first - 1) ≡ Some 0) }
    requires sections { ForBytes (S.all_bytes source.now) (λ f.
        AreFew (relocations_upto elf.now f line.now.number (elf.now.count - 1))) }
    ensures places { ForBytes (S.all_bytes source.now) (λ f. IfOk result (λ v.
        placed_upto elf.now f line.now (elf.now.count - 1) ≡ Ok v.items)) }
    ensures stops { ForBytes (S.all_bytes source.now) (λ f. IfErr result
        (StopsListing (placed_upto elf.now f line.now (elf.now.count - 1)) (Unit {0}))) }
    ensures read { IfRead (S.fails_with source.now) result }
    ensures refused { IfRefused (WasRefused (M.refuses memory.now)) result }
    ensures most { ForBytes (S.all_bytes source.now)
        (λ f. IfRefused (IsRefused (M.refuses memory.now) (16 * length f)) result) }
{
    let mut window = Window::new();
    let mut places = Vec::new(memory.alloc());
    for at in first..elf.count {
        push_at(memory, source, &mut window, elf, line, at, &mut places)?;
    }
    Ok(places)
}

/// The places of a line section.
fn line_places<S: ReadAt, M: Memory>(
    memory: &M,
    source: &S,
    elf: &Elf,
    sections: &Sections,
    line: &NamedSection,
) -> Result<Vec<Placed>, ElfFault>
    requires forward { ForBytes (S.all_bytes source.now)
        (λ f. NoneForward elf.now f (forward_of sections.now)) }
    requires passed { forward_of sections.now - 1 ≤ elf.now.count - 1 }
    ensures places { ForBytes (S.all_bytes source.now) (λ f.
        IfOk result (λ v. line_places elf.now f line.now ≡ Ok v.items)) }
    ensures stops { ForBytes (S.all_bytes source.now) (λ f. IfErr result
        (StopsListing (line_places elf.now f line.now) (HasRelocations elf.now f line.now.number))) }
    ensures read { IfRead (S.fails_with source.now) result }
    ensures refused { IfRefused (WasRefused (M.refuses memory.now)) result }
    ensures most { ForBytes (S.all_bytes source.now)
        (λ f. IfRefused (IsRefused (M.refuses memory.now) (16 * length f)) result) }
{
    let relocations = find_relocations(source, elf, sections, line.number)?;
    if relocations.count == 0 {
        return Ok(Vec::new(memory.alloc()));
    }
    if MOST_RELOCATIONS < relocations.count {
        return Err(ElfFault::Damaged(Part::Relocations(line.name)));
    }
    list_places(memory, source, elf, line, relocations.first)
}

/// The places of a file's line section that its relocations change, in the order of the sections of relocations and of
/// their entries, each with the number of the section that its symbol is defined in. Which section is the line section,
/// and which sections are of its relocations, is as of [`crate::open_line_file`]; a file that isn't an object file has
/// none, nor has one without a line section.
///
/// The faults, of which the first is told: `Read` where a read failed; `NotElf`; and `Damaged` with what lies outside
/// the file, or where more than 16 sections are of relocations of the line section. Memory is taken where there are
/// relocations: for the bytes of one section of them at a time, for its symbols, and for the places, of which there are
/// no more than 16 times the file's bytes. Where a growth is refused the fault is `NoMemory`.
pub fn find_places<S: ReadAt, M: Memory>(memory: &M, source: &S) -> Result<Vec<Placed>, ElfFault>
    ensures places { ForBytes (S.all_bytes source.now) (λ f. IfOk result (λ v. ArePlaces f (Ok v.items))) }
    ensures stops { ForBytes (S.all_bytes source.now) (λ f. IfErr result (StopsPlaces f)) }
    ensures read { IfRead (S.fails_with source.now) result }
    ensures refused { IfRefused (WasRefused (M.refuses memory.now)) result }
    ensures most { ForBytes (S.all_bytes source.now)
        (λ f. IfRefused (IsRefused (M.refuses memory.now) (16 * length f)) result) }
{
    let elf = open_elf(source)?;
    let sections = find_sections(source, &elf)?;
    match line_section(&sections) {
        Some(line) => line_places(memory, source, &elf, &sections, &line),
        None => Ok(Vec::new(memory.alloc())),
    }
}
