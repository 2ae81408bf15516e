//! The sections of a file's line table.
ghost use Rattle.std.specs.Prelude.{◌+◌, ◌^◌, length};
ghost use Rattle.std.specs.Prelude.{◌≡◌, ◌≤◌, ◌-◌, ◌⊎◌, Some, true, option_map, option_and_then, IfOk, IfErr};
ghost use Rattle.dl_elf.specs.Source.{ForBytes};
ghost use Rattle.dl_elf.specs.Answers.{IfRead, IfRefused};
ghost use Rattle.dl_elf.specs.Sections.{range_within, section_range};
ghost use Rattle.dl_elf.specs.Compressed.{section_damage};
ghost use Rattle.dl_elf.specs.Slots.{slot_of};
ghost use Rattle.dl_elf.specs.SectionsHeld.{slots, forward_of};
ghost use Rattle.dl_elf.specs.Forward.{NoneForward};
ghost use Rattle.dl_file.specs.Answering.{LiesIn, OpensLine, OpensTable, WantsMemory};
ghost use Rattle.dl_file.specs.Relocations.{HasRelocations};
ghost use Rattle.dl_file.specs.LineTable.{GivesOption, HasStream, IsLine, IsTableOf, Opens, TakesMemoryFor, content_of, with_stream};
ghost use Rattle.dl_file.specs.LineTable.{HoldsTooMuch, LineTooLong};
ghost use Rattle.dl_memory.specs.Refusals.{IsRefused, WasRefused};
ghost use Rattle.dl_file.specs.LineTable.{first_damage, line_section, debug_line_str_section, debug_str_section};

use crate::content_reader::{ContentReader, Readable};
use crate::line_reader::LineReader;
use crate::relocating::{find_relocations, relocate_line};
use crate::whole_bytes::whole_bytes;
use dl_elf::{
    Class, Elf, ElfFault, NamedSection, Part, ReadAt, SectionName, Sections, find_sections,
    open_elf, read_build_id, section_damage,
};
use dl_memory::Memory;
use dl_num::Order;
use std::io;
use std::io::Cursor;

/// How many sections of relocations a line section may have. Assemblers write one; the work grows with their number,
/// since each may name the same bytes.
pub const MOST_RELOCATIONS: u64 = 16;

/// What is asked for of a file.
#[derive(Clone, Copy, Debug, PartialEq, Eq)]
pub enum Wanted {
    /// The section with the line table alone.
    LineSection,
    /// It, and the section with the strings of DW_FORM_line_strp that belongs to it.
    LineAndLineStrings,
    /// It, and both string sections that belong to it.
    LineAndStringSections,
}

/// What a file has of its line table.
#[derive(Drop)]
pub struct LineFile<'a, S: ReadAt> {
    /// The order in which the bytes of numbers stand, in the sections as well.
    pub order: Order,
    /// Whether its addresses have four bytes or eight.
    pub class: Class,
    /// Whether it is an object file, which a linker reads (e_type is ET_REL).
    pub is_object: bool,
    /// The line table. DWARF 5, section 6.2.
    pub line: LineReader<'a, S>,
    /// The strings of DW_FORM_line_strp; None where the file has none or they aren't wanted.
    pub debug_line_str: Option<ContentReader<'a, S>>,
    /// The strings of DW_FORM_strp; None where the file has none or they aren't wanted.
    pub debug_str: Option<ContentReader<'a, S>>,
    /// Whether the file has a section with the strings of DW_FORM_strp, be they wanted or not.
    pub has_debug_str: bool,
}

/// The sections that are wanted.
#[derive(Clone, Copy)]
pub struct Chosen {
    pub line: NamedSection,
    pub debug_line_str: Option<NamedSection>,
    pub debug_str: Option<NamedSection>,
    /// Whether there is a section of the strings of DW_FORM_strp, be it wanted or not.
    pub has_debug_str: bool,
}

impl Chosen {
    ghost use Rattle.dl_file.specs.LineTable.{chosen, chosen_with};

    /// The sections that are wanted, of those that were found; None where there is no line section.
    fn new(sections: &Sections, wanted: Wanted) -> Option<Chosen>
        ensures { result ≡ chosen (slot_of (slots sections.now)) wanted }
    {
        let line = line_section(sections)?;
        Some(Chosen::with_line(sections, wanted, line))
    }

    /// The same with this line section.
    fn with_line(sections: &Sections, wanted: Wanted, line: NamedSection) -> Chosen
        ensures { result ≡ chosen_with (slot_of (slots sections.now)) wanted line }
    {
        let (line_strings, strings) = string_sections(sections, line.name);
        let (debug_line_str, debug_str) = match wanted {
            Wanted::LineSection => (None, None),
            Wanted::LineAndLineStrings => (line_strings, None),
            Wanted::LineAndStringSections => (line_strings, strings),
        };
        Chosen {
            line,
            debug_line_str,
            debug_str,
            has_debug_str: strings.is_some(),
        }
    }
}

/// The line section.
pub fn line_section(sections: &Sections) -> Option<NamedSection>
    ensures { result ≡ line_section (slot_of (slots sections.now)) }
{
    sections
        .get(SectionName::DebugLine)
        .or(sections.get(SectionName::ZdebugLine))
        .or(sections.get(SectionName::DebugLineDwo))
}

/// The string sections that belong to a line section of this name, `.debug_line_str` first.
fn string_sections(
    sections: &Sections,
    line: SectionName,
) -> (Option<NamedSection>, Option<NamedSection>)
    ensures line_str { result.0 ≡ debug_line_str_section (slot_of (slots sections.now)) line }
    ensures str { result.1 ≡ debug_str_section (slot_of (slots sections.now)) line }
{
    if line == SectionName::DebugLineDwo {
        return (
            sections.get(SectionName::DebugLineStrDwo),
            sections.get(SectionName::DebugStrDwo),
        );
    }
    let debug_line_str = sections
        .get(SectionName::DebugLineStr)
        .or(sections.get(SectionName::ZdebugLineStr));
    let debug_str = sections
        .get(SectionName::DebugStr)
        .or(sections.get(SectionName::ZdebugStr));
    (debug_line_str, debug_str)
}

/// What of a section lies outside, where there is one.
pub fn damage_of<S: ReadAt>(
    source: &S,
    elf: &Elf,
    section: Option<NamedSection>,
) -> io::Result<Option<Part>>
    ensures part { ForBytes (S.all_bytes source.now) (λ f.
        IfOk result (λ part. part ≡ option_and_then (section_damage elf.now f) section)) }
    ensures fails { IfErr result (S.fails_with source.now) }
{
    match section {
        Some(section) => section_damage(source, elf, &section),
        None => Ok(None),
    }
}

/// What of the wanted sections lies outside, the first of it.
fn first_damage<S: ReadAt>(source: &S, elf: &Elf, chosen: &Chosen) -> io::Result<Option<Part>>
    ensures part { ForBytes (S.all_bytes source.now) (λ f.
        IfOk result (λ part. part ≡ first_damage elf.now f chosen.now)) }
    ensures fails { IfErr result (S.fails_with source.now) }
{
    if let Some(part) = section_damage(source, elf, &chosen.line)? {
        return Ok(Some(part));
    }
    if let Some(part) = damage_of(source, elf, chosen.debug_line_str)? {
        return Ok(Some(part));
    }
    damage_of(source, elf, chosen.debug_str)
}

/// A reader of a section's bytes where there is a section.
pub fn optional_reader<'a, S: ReadAt, M: Memory>(
    memory: &M,
    source: &'a S,
    readable: Option<Readable>,
) -> Result<Option<ContentReader<'a, S>>, ElfFault>
    requires within { ForBytes (S.all_bytes source.now) (λ f. LiesIn f readable) }
    ensures opens { ForBytes (S.all_bytes source.entry.now) (λ f. IfOk result (λ reader.
        GivesOption S.all_bytes S.fails_with (S.fails_with source.entry.now) reader (option_map (content_of f) readable))) }
    ensures memory { IfErr result (WantsMemory (HasStream readable)) }
    ensures refused { IfRefused (WasRefused (M.refuses memory.now)) result }
    ensures most { IfRefused (IsRefused (M.refuses memory.now) 1) result }
{
    match readable {
        Some(readable) => Ok(Some(ContentReader::open(memory, source, &readable)?)),
        None => Ok(None),
    }
}

/// A reader of the line section's bytes. Those of an object file are held in memory where it has
/// relocations of the section, and these are applied.
pub fn line_reader<'a, S: ReadAt, M: Memory>(
    memory: &M,
    source: &'a S,
    elf: &Elf,
    sections: &Sections,
    line: &Readable,
) -> Result<LineReader<'a, S>, ElfFault>
    requires within { ForBytes (S.all_bytes source.now)
        (λ f. range_within (section_range line.now.section.header) f ≡ true) }
    requires forward { ForBytes (S.all_bytes source.now)
        (λ f. NoneForward elf.now f (forward_of sections.now)) }
    requires passed { forward_of sections.now - 1 ≤ elf.now.count - 1 }
    ensures opens { ForBytes (S.all_bytes source.entry.now) (λ f. OpensLine S.all_bytes S.fails_with (S.fails_with source.entry.now) (IsLine elf.now f line.now)
        (HasRelocations elf.now f line.now.section.number ⊎ HasStream (Some line.now)) result) }
    ensures read { IfRead (S.fails_with source.entry.now) result }
    ensures refused { ForBytes (S.all_bytes source.entry.now)
        (λ f. IfRefused (WasRefused (M.refuses memory.now) ⊎ HoldsTooMuch elf.now f line.now) result) }
    ensures most { ForBytes (S.all_bytes source.entry.now) (λ f.
        IfRefused (IsRefused (M.refuses memory.now) (length f + 2 ^ 32) ⊎ HoldsTooMuch elf.now f line.now) result) }
{
    let relocations = find_relocations(source, elf, sections, line.section.number)?;
    if relocations.count == 0 {
        let reader = ContentReader::open(memory, source, line)?;
        return Ok(LineReader::File(reader));
    }
    if MOST_RELOCATIONS < relocations.count {
        return Err(ElfFault::Damaged(Part::Relocations(line.section.name)));
    }
    let mut bytes = whole_bytes(memory, source, line)?;
    relocate_line(
        memory,
        source,
        elf,
        &line.section,
        relocations.first,
        bytes.as_mut_slice(),
    )?;
    Ok(LineReader::Held(Cursor::new(bytes)))
}

/// Readers of the bytes of the wanted sections.
fn open_chosen<'a, S: ReadAt, M: Memory>(
    memory: &M,
    source: &'a S,
    elf: &Elf,
    sections: &Sections,
    chosen: &Chosen,
) -> Result<LineFile<'a, S>, ElfFault>
    requires forward { ForBytes (S.all_bytes source.now)
        (λ f. NoneForward elf.now f (forward_of sections.now)) }
    requires passed { forward_of sections.now - 1 ≤ elf.now.count - 1 }
    ensures opens { ForBytes (S.all_bytes source.entry.now) (λ f. OpensTable S.all_bytes S.fails_with (S.fails_with source.entry.now)
        (IsTableOf elf.now f chosen.now) (TakesMemoryFor elf.now f chosen.now) result) }
    ensures read { IfRead (S.fails_with source.entry.now) result }
    ensures refused { ForBytes (S.all_bytes source.entry.now)
        (λ f. IfRefused (WasRefused (M.refuses memory.now) ⊎ HoldsTooMuch elf.now f (with_stream elf.now f chosen.now.line)) result) }
    ensures most { ForBytes (S.all_bytes source.entry.now) (λ f.
        IfRefused (IsRefused (M.refuses memory.now) (length f + 2 ^ 32) ⊎ HoldsTooMuch elf.now f (with_stream elf.now f chosen.now.line)) result) }
{
    if let Some(part) = first_damage(source, elf, chosen)? {
        return Err(ElfFault::Damaged(part));
    }
    let line = Readable::new(source, elf, chosen.line)?;
    let debug_line_str = Readable::optional(source, elf, chosen.debug_line_str)?;
    let debug_str = Readable::optional(source, elf, chosen.debug_str)?;
    Ok(LineFile {
        order: elf.header.order,
        class: elf.header.class,
        is_object: elf.header.is_object(),
        line: line_reader(memory, source, elf, sections, &line)?,
        debug_line_str: optional_reader(memory, source, debug_line_str)?,
        debug_str: optional_reader(memory, source, debug_str)?,
        has_debug_str: chosen.has_debug_str,
    })
}

/// The sections of a file's line table, as readers of their bytes.
///
/// The line section is `.debug_line`; where there is none, `.zdebug_line`; where there is none
/// either, `.debug_line.dwo`. The string sections are those that go with it. Of several sections
/// of one name the first counts whose type isn't SHT_NOBITS. Sections that aren't wanted are not
/// looked at. A section that is compressed with zlib is inflated as it is read. In an object file the
/// relocations of the line section are applied to its bytes, in
/// the order of their sections (of type SHT_RELA, SHT_REL or SHT_CREL, with its number in sh_info), with the
/// symbols of the section that sh_link names; where it is compressed it is inflated before.
///
/// The faults, of which the first is told: `Read` where a read failed; `NotElf`; `Damaged` with
/// what lies outside the file, or isn't where it has to stand; `NoLineSection`; `Compressed` where a wanted
/// section is compressed otherwise than with zlib; `DamagedStream` where the line section is inflated here;
/// and of the first relocation that can't be applied `UnknownRelocation`, `RelocationOutside` or `Damaged`;
/// `Damaged` too where more than 16 sections are of relocations of the line section. Memory is
/// taken only where a wanted section is compressed, some 128 KiB for each, and where there are relocations
/// of the line section: for its bytes, and of one section of relocations at a time for the values of the symbols, 8
/// bytes each, and for its bytes where its type is SHT_CREL. Where a growth is refused, or a compressed line section
/// with relocations inflates to more than 2^32 bytes, as it says, the fault is `NoMemory`, and nowhere else.
pub fn open_line_file<'a, S: ReadAt, M: Memory>(
    memory: &M,
    source: &'a S,
    wanted: Wanted,
) -> Result<LineFile<'a, S>, ElfFault>
    ensures opens { ForBytes (S.all_bytes source.entry.now) (λ f. Opens S.all_bytes S.fails_with (S.fails_with source.entry.now) f wanted result) }
    ensures read { IfRead (S.fails_with source.entry.now) result }
    ensures refused { ForBytes (S.all_bytes source.entry.now)
        (λ f. IfRefused (WasRefused (M.refuses memory.now) ⊎ LineTooLong f wanted) result) }
    ensures most { ForBytes (S.all_bytes source.entry.now) (λ f.
        IfRefused (IsRefused (M.refuses memory.now) (length f + 2 ^ 32) ⊎ LineTooLong f wanted) result) }
{
    let elf = open_elf(source)?;
    let sections = find_sections(source, &elf)?;
    let Some(chosen) = Chosen::new(&sections, wanted) else {
        let note = sections.get(SectionName::BuildIdNote);
        return Err(ElfFault::NoLineSection(read_build_id(source, &elf, note)?));
    };
    open_chosen(memory, source, &elf, &sections, &chosen)
}
