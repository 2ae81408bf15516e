//! The relocations of a line section, applied. System V ABI, chapter 4, "Relocation".
ghost use Rattle.std.specs.Prelude.{◌≡◌, ◌-◌, ◌≤◌, length, Ok, Some, true, IfOk};
ghost use Rattle.dl_elf.specs.Source.{ForBytes};
ghost use Rattle.dl_elf.specs.Answers.{IfRead, IfRefused};
ghost use Rattle.dl_elf.specs.Sections.{range_within, section_bytes, section_range};
ghost use Rattle.dl_elf.specs.Window.{Shows};
ghost use Rattle.dl_elf.specs.SectionsHeld.{forward_of};
ghost use Rattle.dl_elf.specs.Forward.{NoneForward};
ghost use Rattle.dl_memory.specs.Refusals.{IsRefused, WasRefused};
ghost use Rattle.dl_file.specs.Answering.{AreFound, IsCounted, IsMade};
ghost use Rattle.dl_file.specs.OneByOne.{relocated_at, relocated_upto, relocations_at, relocations_upto};
ghost use Rattle.dl_file.specs.Relocations.{by_compact, bytes_in, symbols_in};
ghost use Rattle.dl_file.specs.Relocations.{by_entries, class_of, fault_of, form_of, relocated_by, target_of};

use crate::section_bytes::{PIECE, read_bytes, read_piece, read_symbols};
use dl_elf::{
    Elf, ElfFault, NamedSection, Part, ReadAt, SectionHeader, SectionName, Sections, Window,
    lies_within, section_at, section_range,
};
use dl_memory::Memory;
use dl_reloc::{AddendPlace, Class, RelocationFault, Target, relocate, relocate_compact};

/// The type of a section of relocations with addends (SHT_RELA).
const RELA: u64 = 4;

/// The type of a section of relocations as differences in LEB128 (SHT_CREL).
pub const CREL: u64 = 0x4000_0014;

fn class_of(class: dl_elf::Class) -> Class
    ensures { result ≡ class_of class }
{
    match class {
        dl_elf::Class::Bits32 => Class::Bits32,
        dl_elf::Class::Bits64 => Class::Bits64,
    }
}

/// What the header of the file says of its relocations.
pub fn target_of(elf: &Elf) -> Target
    ensures { result ≡ target_of elf.now }
{
    Target {
        machine: elf.header.machine,
        class: class_of(elf.header.class),
        order: elf.header.order,
    }
}

/// The form of the entries of a section of relocations.
pub fn form_of(section: &SectionHeader) -> AddendPlace
    ensures { result ≡ form_of section.now }
{
    if section.section_type == RELA {
        AddendPlace::Rela
    } else {
        AddendPlace::Rel
    }
}

/// The fault of a file whose section of this name has a relocation with this one.
fn fault_of(elf: &Elf, section: SectionName, fault: RelocationFault) -> ElfFault
    ensures { result ≡ fault_of elf.now section fault }
{
    match fault {
        RelocationFault::UnknownType(number) => ElfFault::UnknownRelocation {
            section,
            number,
            machine: elf.header.machine,
        },
        RelocationFault::PlaceOutside => ElfFault::RelocationOutside(section),
        RelocationFault::SymbolOutside => ElfFault::Damaged(Part::Symbols(section)),
        RelocationFault::Damaged => ElfFault::Damaged(Part::Relocations(section)),
    }
}

/// Applies the entries of a section of relocations with these symbols, as they are read.
fn relocate_pieces<S: ReadAt>(
    source: &S,
    elf: &Elf,
    name: SectionName,
    section: &SectionHeader,
    symbols: &[u64],
    bytes: &mut [u8],
) -> Result<(), ElfFault>
    requires within { ForBytes (S.all_bytes source.now)
        (λ f. range_within (section_range section.now) f ≡ true) }
    ensures made { ForBytes (S.all_bytes source.now) (λ f. IsMade (by_entries elf.now name (form_of section.now)
        (Some (section_bytes section.now f)) (Some symbols.now) bytes.old) bytes.new result) }
    ensures read { IfRead (S.fails_with source.now) result }
    ensures refused { IfRefused ⊥ result }
{
    let range = section_range(section);
    let target = target_of(elf);
    let form = form_of(section);
    let mut buffer = [0; PIECE];
    for index in 0..range.size.div_ceil(PIECE as u64) {
        let Some(len) = read_piece(source, &range, index, &mut buffer)? else {
            return Err(ElfFault::Damaged(Part::Relocations(name)));
        };
        if let Err(fault) = relocate(&target, form, &buffer[..len], symbols, bytes) {
            return Err(fault_of(elf, name, fault));
        }
    }
    Ok(())
}

/// Applies the entries of a section of compact relocations to the bytes of the section of this name. It is held in
/// memory, since its entries don't say where in it the next one begins.
fn relocate_by_compact<S: ReadAt, M: Memory>(
    memory: &M,
    source: &S,
    elf: &Elf,
    name: SectionName,
    section: &SectionHeader,
    bytes: &mut [u8],
) -> Result<(), ElfFault>
    ensures made { ForBytes (S.all_bytes source.now) (λ f. IsMade (by_compact elf.now name
        (bytes_in f section.now) (symbols_in elf.now f section.now.link) bytes.old) bytes.new result) }
    ensures read { IfRead (S.fails_with source.now) result }
    ensures refused { IfRefused (WasRefused (M.refuses memory.now)) result }
    ensures most { ForBytes (S.all_bytes source.now) (λ f. IfRefused (IsRefused (M.refuses memory.now) (length f)) result) }
{
    let Some(entries) = read_bytes(memory, source, section)? else {
        return Err(ElfFault::Damaged(Part::Relocations(name)));
    };
    let Some(symbols) = read_symbols(memory, source, elf, section.link)? else {
        return Err(ElfFault::Damaged(Part::Symbols(name)));
    };
    let target = target_of(elf);
    match relocate_compact(&target, entries.as_slice(), symbols.as_slice(), bytes) {
        Ok(()) => Ok(()),
        Err(fault) => Err(fault_of(elf, name, fault)),
    }
}

/// Applies the entries of a section of relocations to the bytes of the section of this name.
fn relocate_by<S: ReadAt, M: Memory>(
    memory: &M,
    source: &S,
    elf: &Elf,
    name: SectionName,
    section: &SectionHeader,
    bytes: &mut [u8],
) -> Result<(), ElfFault>
    ensures made { ForBytes (S.all_bytes source.now) (λ f.
        IsMade (relocated_by elf.now f name section.now bytes.old) bytes.new result) }
    ensures read { IfRead (S.fails_with source.now) result }
    ensures refused { IfRefused (WasRefused (M.refuses memory.now)) result }
    ensures most { ForBytes (S.all_bytes source.now) (λ f. IfRefused (IsRefused (M.refuses memory.now) (length f)) result) }
{
    if section.section_type == CREL {
        return relocate_by_compact(memory, source, elf, name, section, bytes);
    }
    let range = section_range(section);
    if !lies_within(source, range.offset, range.size)? {
        return Err(ElfFault::Damaged(Part::Relocations(name)));
    }
    let Some(symbols) = read_symbols(memory, source, elf, section.link)? else {
        return Err(ElfFault::Damaged(Part::Symbols(name)));
    };
    relocate_pieces(source, elf, name, section, symbols.as_slice(), bytes)
}

/// Applies the entries of section `at`, where it is of relocations of the line section.
fn relocate_at<S: ReadAt, M: Memory>(
    memory: &M,
    source: &S,
    window: &mut Window,
    elf: &Elf,
    line: &NamedSection,
    at: u64,
    bytes: &mut [u8],
) -> Result<(), ElfFault>
    requires shows { Shows (S.all_bytes source.now) window.old }
    ensures shows { Shows (S.all_bytes source.now) window.new }
    ensures made { ForBytes (S.all_bytes source.now) (λ f.
        IsMade (relocated_at elf.now f line.now at bytes.old) bytes.new result) }
    ensures read { IfRead (S.fails_with source.now) result }
    ensures refused { IfRefused (WasRefused (M.refuses memory.now)) result }
    ensures most { ForBytes (S.all_bytes source.now) (λ f. IfRefused (IsRefused (M.refuses memory.now) (length f)) result) }
{
    let Some(section) = section_at(source, window, &elf.header, at)? else {
        return Err(ElfFault::Damaged(Part::SectionHeaders));
    };
    if section.relocates(line.number) {
        relocate_by(memory, source, elf, line.name, &section, bytes)
    } else {
        Ok(())
    }
}

/// Applies the relocations of the line section to its bytes, in the order of their sections, of which none stands
/// before section `first`.
pub fn relocate_line<S: ReadAt, M: Memory>(
    memory: &M,
    source: &S,
    elf: &Elf,
    line: &NamedSection,
    first: u64,
    bytes: &mut [u8],
) -> Result<(), ElfFault>
    requires from { 1 ≤ first }
    requires within { first - 1 ≤ elf.now.count - 1 }
    requires none { ForBytes (S.all_bytes source.now) (λ f.
        relocations_upto elf.now f line.now.number (first - 1) ≡ Some 0) }
    ensures made { ForBytes (S.all_bytes source.now)
        (λ f. IsMade (relocated_upto elf.now f line.now bytes.old (elf.now.count - 1)) bytes.new result) }
    ensures read { IfRead (S.fails_with source.now) result }
    ensures refused { IfRefused (WasRefused (M.refuses memory.now)) result }
    ensures most { ForBytes (S.all_bytes source.now) (λ f. IfRefused (IsRefused (M.refuses memory.now) (length f)) result) }
{
    let mut window = Window::new();
    for at in first..elf.count {
        relocate_at(memory, source, &mut window, elf, line, at, bytes)?;
    }
    Ok(())
}

/// The sections of relocations of a section.
#[derive(Clone, Copy)]
pub struct RelocationSections {
    /// How many there are.
    pub count: u64,
    /// The number of the first of them; where there are none, one before which they would not stand either.
    pub first: u64,
}

/// The sections of relocations of section `number`; a file that isn't an object file has none. The headers of those
/// sections that come before it were looked at by the pass that found `sections`.
pub fn find_relocations<S: ReadAt>(
    source: &S,
    elf: &Elf,
    sections: &Sections,
    number: u64,
) -> Result<RelocationSections, ElfFault>
    requires forward { ForBytes (S.all_bytes source.now) (λ f. NoneForward elf.now f (forward_of sections.now)) }
    requires within { forward_of sections.now - 1 ≤ elf.now.count - 1 }
    ensures found { ForBytes (S.all_bytes source.now) (λ f. AreFound elf.now f number result) }
    ensures place { IfOk result (λ found. (1 ≤ found.first) × (found.first - 1 ≤ elf.now.count - 1)) }
    ensures read { IfRead (S.fails_with source.now) result }
    ensures refused { IfRefused ⊥ result }
{
    if !elf.header.is_object() {
        return Ok(RelocationSections { count: 0, first: 1 });
    }
    let mut count = 0;
    let mut first = sections.relocations_from(number);
    let mut window = Window::new();
    for at in first..elf.count {
        if count == 0 {
            first = at;
        }
        count += count_at(source, &mut window, elf, number, at)?;
    }
    Ok(RelocationSections { count, first })
}

/// 1 where section `at` is of relocations of section `number`, 0 where it isn't.
fn count_at<S: ReadAt>(
    source: &S,
    window: &mut Window,
    elf: &Elf,
    number: u64,
    at: u64,
) -> Result<u64, ElfFault>
    requires shows { Shows (S.all_bytes source.now) window.old }
    ensures shows { Shows (S.all_bytes source.now) window.new }
    ensures count { ForBytes (S.all_bytes source.now) (λ f. IsCounted (relocations_at elf.now f number at) result) }
    ensures most { IfOk result (λ n. n ≤ 1) }
    ensures read { IfRead (S.fails_with source.now) result }
    ensures refused { IfRefused ⊥ result }
{
    let Some(section) = section_at(source, window, &elf.header, at)? else {
        return Err(ElfFault::Damaged(Part::SectionHeaders));
    };
    if section.relocates(number) {
        Ok(1)
    } else {
        Ok(0)
    }
}
