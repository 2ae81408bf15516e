//! The sections of a file by which the directories of compilations are found.
ghost use Rattle.std.specs.Prelude.{◌+◌, ◌^◌, length};
ghost use Rattle.std.specs.Prelude.{◌≡◌, ◌⊎◌, ◌≤◌, ◌-◌, true, Some, option_and_then, IfOk, IfErr};
ghost use Rattle.dl_elf.specs.Source.{ForBytes};
ghost use Rattle.dl_elf.specs.Answers.{IfRead, IfRefused};
ghost use Rattle.dl_elf.specs.Forward.{NoneForward};
ghost use Rattle.dl_elf.specs.SectionsHeld.{slots, forward_of};
ghost use Rattle.dl_elf.specs.Slots.{slot_of};
ghost use Rattle.dl_elf.specs.Sections.{range_within, section_range};
ghost use Rattle.dl_file.specs.Answering.{InfoLiesIn};
ghost use Rattle.dl_file.specs.InfoTable.{IsInfoOf, OpensInfo, OpensInfoOf, OpensUnits, TakesMemoryForInfo};
ghost use Rattle.dl_file.specs.InfoTable.{InfoTooLong, info_sections};
ghost use Rattle.dl_file.specs.InfoTable.{named_section, readable};
ghost use Rattle.dl_file.specs.LineTable.{HasStream, HoldsTooMuch, IsLine};
ghost use Rattle.dl_memory.specs.Refusals.{IsRefused, WasRefused};
ghost use Rattle.dl_file.specs.Relocations.{HasRelocations};

use crate::content_reader::{ContentReader, Readable};
use crate::line_file::{damage_of, line_reader, optional_reader};
use crate::line_reader::LineReader;
use dl_elf::{Elf, ElfFault, NamedSection, ReadAt, SectionName, Sections, find_sections, open_elf};
use dl_memory::Memory;
use dl_num::Order;
use std::io;

/// What a file has of its units of `.debug_info`.
#[derive(Drop)]
pub struct InfoFile<'a, S: ReadAt> {
    /// The order in which the bytes of numbers stand.
    pub order: Order,
    /// `.debug_info`, in an object file with its relocations applied. DWARF 5, section 7.5.
    pub info: LineReader<'a, S>,
    /// `.debug_abbrev`. DWARF 5, section 7.5.3.
    pub abbreviations: ContentReader<'a, S>,
    /// `.debug_str_offsets`, if the file has it. DWARF 5, section 7.26.
    pub str_offsets: Option<ContentReader<'a, S>>,
    /// The strings of DW_FORM_strp, if the file has some.
    pub debug_str: Option<ContentReader<'a, S>>,
    /// The strings of DW_FORM_line_strp, if the file has some.
    pub debug_line_str: Option<ContentReader<'a, S>>,
}

/// The sections that were found of those.
#[derive(Clone, Copy)]
pub struct InfoSections {
    pub info: Readable,
    pub abbreviations: Readable,
    pub str_offsets: Option<Readable>,
    pub debug_str: Option<Readable>,
    pub debug_line_str: Option<Readable>,
}

/// The section, where it can be read: it lies in the file, and isn't compressed otherwise than with zlib.
fn readable<S: ReadAt>(
    source: &S,
    elf: &Elf,
    section: Option<NamedSection>,
) -> io::Result<Option<Readable>>
    ensures section { ForBytes (S.all_bytes source.now) (λ f.
        IfOk result (λ found. found ≡ option_and_then (readable elf.now f) section)) }
    ensures fails { IfErr result (S.fails_with source.now) }
{
    if damage_of(source, elf, section)?.is_some() {
        return Ok(None);
    }
    match Readable::optional(source, elf, section) {
        Ok(readable) => Ok(readable),
        Err(ElfFault::Read(error)) => Err(error),
        Err(_) => Ok(None),
    }
}

/// The section of one of two names, the first before the other, where it can be read.
fn named<S: ReadAt>(
    source: &S,
    elf: &Elf,
    sections: &Sections,
    name: SectionName,
    compressed: SectionName,
) -> io::Result<Option<Readable>>
    ensures section { ForBytes (S.all_bytes source.now) (λ f. IfOk result
        (λ found. found ≡ named_section elf.now f (slot_of (slots sections.now)) name compressed)) }
    ensures fails { IfErr result (S.fails_with source.now) }
{
    readable(source, elf, sections.get(name).or(sections.get(compressed)))
}

/// The sections of a file that can be read; None where `.debug_info` or `.debug_abbrev` isn't among them.
fn find_info<S: ReadAt>(
    source: &S,
    elf: &Elf,
    sections: &Sections,
) -> io::Result<Option<InfoSections>>
    ensures found { ForBytes (S.all_bytes source.now) (λ f. IfOk result
        (λ found. found ≡ info_sections elf.now f (slot_of (slots sections.now)))) }
    ensures fails { IfErr result (S.fails_with source.now) }
{
    let info = named(
        source,
        elf,
        sections,
        SectionName::DebugInfo,
        SectionName::ZdebugInfo,
    )?;
    let Some(info) = info else {
        return Ok(None);
    };
    let abbreviations = named(
        source,
        elf,
        sections,
        SectionName::DebugAbbrev,
        SectionName::ZdebugAbbrev,
    )?;
    let Some(abbreviations) = abbreviations else {
        return Ok(None);
    };
    Ok(Some(InfoSections {
        info,
        abbreviations,
        str_offsets: named(
            source,
            elf,
            sections,
            SectionName::DebugStrOffsets,
            SectionName::ZdebugStrOffsets,
        )?,
        debug_str: named(
            source,
            elf,
            sections,
            SectionName::DebugStr,
            SectionName::ZdebugStr,
        )?,
        debug_line_str: named(
            source,
            elf,
            sections,
            SectionName::DebugLineStr,
            SectionName::ZdebugLineStr,
        )?,
    }))
}

/// A reader of `.debug_info`; None where its relocations can't be applied.
fn info_reader<'a, S: ReadAt, M: Memory>(
    memory: &M,
    source: &'a S,
    elf: &Elf,
    sections: &Sections,
    info: &Readable,
) -> Result<Option<LineReader<'a, S>>, ElfFault>
    requires within { ForBytes (S.all_bytes source.now)
        (λ f. range_within (section_range info.now.section.header) f ≡ true) }
    requires forward { ForBytes (S.all_bytes source.now)
        (λ f. NoneForward elf.now f (forward_of sections.now)) }
    requires passed { forward_of sections.now - 1 ≤ elf.now.count - 1 }
    ensures opens { ForBytes (S.all_bytes source.entry.now) (λ f. OpensUnits S.all_bytes S.fails_with (S.fails_with source.entry.now) (IsLine elf.now f info.now)
        (HasRelocations elf.now f info.now.section.number ⊎ HasStream (Some info.now)) result) }
    ensures read { IfRead (S.fails_with source.entry.now) result }
    ensures refused { ForBytes (S.all_bytes source.entry.now)
        (λ f. IfRefused (WasRefused (M.refuses memory.now) ⊎ HoldsTooMuch elf.now f info.now) result) }
    ensures most { ForBytes (S.all_bytes source.entry.now) (λ f.
        IfRefused (IsRefused (M.refuses memory.now) (length f + 2 ^ 32) ⊎ HoldsTooMuch elf.now f info.now) result) }
{
    match line_reader(memory, source, elf, sections, info) {
        Ok(reader) => Ok(Some(reader)),
        Err(ElfFault::Read(error)) => Err(ElfFault::Read(error)),
        Err(ElfFault::NoMemory) => Err(ElfFault::NoMemory),
        Err(_) => Ok(None),
    }
}

/// Readers of the bytes of these sections.
fn open_found<'a, S: ReadAt, M: Memory>(
    memory: &M,
    source: &'a S,
    elf: &Elf,
    sections: &Sections,
    found: &InfoSections,
) -> Result<Option<InfoFile<'a, S>>, ElfFault>
    requires within { ForBytes (S.all_bytes source.now) (λ f. InfoLiesIn f found.now) }
    requires forward { ForBytes (S.all_bytes source.now)
        (λ f. NoneForward elf.now f (forward_of sections.now)) }
    requires passed { forward_of sections.now - 1 ≤ elf.now.count - 1 }
    ensures opens { ForBytes (S.all_bytes source.entry.now) (λ f. OpensInfoOf S.all_bytes S.fails_with (S.fails_with source.entry.now)
        (IsInfoOf elf.now f found.now) (TakesMemoryForInfo elf.now f found.now) result) }
    ensures read { IfRead (S.fails_with source.entry.now) result }
    ensures refused { ForBytes (S.all_bytes source.entry.now)
        (λ f. IfRefused (WasRefused (M.refuses memory.now) ⊎ HoldsTooMuch elf.now f found.now.info) result) }
    ensures most { ForBytes (S.all_bytes source.entry.now) (λ f.
        IfRefused (IsRefused (M.refuses memory.now) (length f + 2 ^ 32) ⊎ HoldsTooMuch elf.now f found.now.info) result) }
{
    let Some(info) = info_reader(memory, source, elf, sections, &found.info)? else {
        return Ok(None);
    };
    Ok(Some(InfoFile {
        order: elf.header.order,
        info,
        abbreviations: ContentReader::open(memory, source, &found.abbreviations)?,
        str_offsets: optional_reader(memory, source, found.str_offsets)?,
        debug_str: optional_reader(memory, source, found.debug_str)?,
        debug_line_str: optional_reader(memory, source, found.debug_line_str)?,
    }))
}

/// The sections of a file by which the directories of compilations are found, as readers of their bytes; None where the
/// file has none that can be read: what is damaged in them, or compressed otherwise than with zlib, is no fault.
///
/// `Read` where a read failed. Memory is taken only where a section is compressed, and where there are relocations of
/// `.debug_info`, which is held then. Where a growth is refused, or a compressed `.debug_info` with relocations inflates to
/// more than 2^32 bytes, as it says, the fault is `NoMemory`, and nowhere else.
pub fn open_info<'a, S: ReadAt, M: Memory>(
    memory: &M,
    source: &'a S,
) -> Result<Option<InfoFile<'a, S>>, ElfFault>
    ensures opens { ForBytes (S.all_bytes source.entry.now) (λ f. OpensInfo S.all_bytes S.fails_with (S.fails_with source.entry.now) f result) }
    ensures read { IfRead (S.fails_with source.entry.now) result }
    ensures refused { ForBytes (S.all_bytes source.entry.now)
        (λ f. IfRefused (WasRefused (M.refuses memory.now) ⊎ InfoTooLong f) result) }
    ensures most { ForBytes (S.all_bytes source.entry.now) (λ f.
        IfRefused (IsRefused (M.refuses memory.now) (length f + 2 ^ 32) ⊎ InfoTooLong f) result) }
{
    let elf = match open_elf(source) {
        Ok(elf) => elf,
        Err(ElfFault::Read(error)) => return Err(ElfFault::Read(error)),
        Err(_) => return Ok(None),
    };
    let sections = find_sections(source, &elf)?;
    let Some(found) = find_info(source, &elf, &sections)? else {
        return Ok(None);
    };
    open_found(memory, source, &elf, &sections, &found)
}
