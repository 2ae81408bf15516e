//! The section headers of a file, and its section names.
ghost use Rattle.std.specs.Prelude.{◌≡◌, ◌<◌, ◌≤◌, ◌^◌, length, IsTrue, IfOk, IfErr, MatchOption};
ghost use Rattle.dl_elf.specs.Source.{ForBytes};
ghost use Rattle.dl_elf.specs.Window.{Shows};
ghost use Rattle.dl_elf.specs.Sections.{header_place, section_in, section_range, opened, section_count};
ghost use Rattle.dl_elf.specs.Sections.{name_table_number, without_names};
ghost use Rattle.dl_elf.specs.OpenedBySteps.{counted, opened_with, with_names};
ghost use Rattle.dl_elf.specs.Answers.{AnswersOf, IfRead, IfRefused};

use crate::fault::{ElfFault, Part};
use crate::header::FileHeader;
use crate::section::{NOBITS, SectionHeader, section_fields, section_header_size};
use crate::source::{ReadAt, fill, lies_within};
use crate::window::Window;
use std::io;

/// What the file header has for the number of the name table where it doesn't fit (SHN_XINDEX).
const SHN_XINDEX: u64 = 0xffff;

/// Some bytes of a file that stand in a row.
#[derive(Clone, Copy)]
pub struct Range {
    /// Where they begin, from the file's first byte.
    pub offset: u64,
    /// How many there are.
    pub size: u64,
}

/// An ELF file whose section headers and name table lie in it.
#[derive(Clone, Copy)]
pub struct Elf {
    pub header: FileHeader,
    /// How many sections there are, with section 0.
    pub count: u64,
    /// The bytes of the name table; none where there is no name table.
    pub names: Range,
}

/// Where section header `number` stands; None past 2^64 - 1.
fn header_place(header: &FileHeader, number: u64) -> Option<u64>
    ensures { MatchOption result (2 ^ 64 ≤ header_place header.now number) (λ at. at ≡ header_place header.now number) }
{
    let distance = number.checked_mul(header.entry_size)?;
    header.table_offset.checked_add(distance)
}

/// Section header `number`; None where it lies outside the file.
// Compiled into the loops over all headers, whose time is spent here.
#[inline(always)]
pub fn section_at<S: ReadAt>(
    source: &S,
    window: &mut Window,
    header: &FileHeader,
    number: u64,
) -> io::Result<Option<SectionHeader>>
    requires shows { Shows (S.all_bytes source.now) window.old }
    ensures shows { Shows (S.all_bytes source.now) window.new }
    ensures section { ForBytes (S.all_bytes source.now) (λ f.
        IfOk result (λ s. s ≡ section_in header.now f number)) }
    ensures fails { IfErr result (S.fails_with source.now) }
{
    let Some(at) = header_place(header, number) else {
        return Ok(None);
    };
    let size = section_header_size(header.class);
    if window.show(source, at, size)? < size {
        return Ok(None);
    }
    let bytes = window.shown(at, size);
    Ok(Some(section_fields(header.class, header.order, bytes)))
}

/// Where a section's bytes stand; a section of type NOBITS has none.
pub fn section_range(section: &SectionHeader) -> Range
    ensures { result ≡ section_range section.now }
{
    let size = if section.section_type == NOBITS {
        0
    } else {
        section.size
    };
    Range {
        offset: section.offset,
        size,
    }
}

/// The file whose name table is section `number`.
fn with_names<S: ReadAt>(
    source: &S,
    header: FileHeader,
    count: u64,
    number: u64,
) -> Result<Elf, ElfFault>
    ensures answer { AnswersOf (S.all_bytes source.now)
        (λ f. with_names header count f (section_in header f number)) result }
    ensures read { IfRead (S.fails_with source.now) result }
    ensures refused { IfRefused ⊥ result }
{
    let section = section_at(source, &mut Window::new(), &header, number)?;
    let Some(section) = section else {
        return Err(ElfFault::Damaged(Part::NameTable));
    };
    let names = section_range(&section);
    if lies_within(source, names.offset, names.size)? {
        Ok(Elf {
            header,
            count,
            names,
        })
    } else {
        Err(ElfFault::Damaged(Part::NameTable))
    }
}

/// The file with this many sections, whose name table is section `names`.
fn counted<S: ReadAt>(
    source: &S,
    header: FileHeader,
    count: u64,
    names: u64,
) -> Result<Elf, ElfFault>
    ensures answer { AnswersOf (S.all_bytes source.now) (λ f. counted header f count names) result }
    ensures read { IfRead (S.fails_with source.now) result }
    ensures refused { IfRefused ⊥ result }
{
    let Some(size) = count.checked_mul(header.entry_size) else {
        return Err(ElfFault::Damaged(Part::SectionHeaders));
    };
    if !lies_within(source, header.table_offset, size)? {
        return Err(ElfFault::Damaged(Part::SectionHeaders));
    }
    if names == 0 {
        return Ok(without_names(header, count));
    }
    if count <= names {
        return Err(ElfFault::Damaged(Part::NameTable));
    }
    with_names(source, header, count, names)
}

/// The file without a name table.
fn without_names(header: FileHeader, count: u64) -> Elf
    ensures { result ≡ without_names header count }
{
    Elf {
        header,
        count,
        names: Range { offset: 0, size: 0 },
    }
}

/// How many sections there are, `first` being section header 0.
fn section_count(header: &FileHeader, first: &SectionHeader) -> u64
    ensures { result ≡ section_count header.now first.now }
{
    match header.entry_count {
        0 => first.size,
        count => count,
    }
}

/// The number of the name table, `first` being section header 0.
fn name_table_number(header: &FileHeader, first: &SectionHeader) -> u64
    ensures { result ≡ name_table_number header.now first.now }
{
    match header.names_number {
        SHN_XINDEX => first.link,
        number => number,
    }
}

/// The file with this header.
fn opened_with<S: ReadAt>(source: &S, header: FileHeader) -> Result<Elf, ElfFault>
    ensures answer { AnswersOf (S.all_bytes source.now) (λ f. opened_with f (Some header)) result }
    ensures read { IfRead (S.fails_with source.now) result }
    ensures refused { IfRefused ⊥ result }
{
    if header.table_offset == 0 {
        return Ok(without_names(header, 0));
    }
    if header.entry_size < section_header_size(header.class) as u64 {
        return Err(ElfFault::Damaged(Part::SectionHeaderSize));
    }
    let first = section_at(source, &mut Window::new(), &header, 0)?;
    let Some(first) = first else {
        return Err(ElfFault::Damaged(Part::SectionHeaders));
    };
    counted(
        source,
        header,
        section_count(&header, &first),
        name_table_number(&header, &first),
    )
}

/// Reads the headers of a file, or answers its first fault.
pub fn open_elf<S: ReadAt>(source: &S) -> Result<Elf, ElfFault>
    ensures answer { AnswersOf (S.all_bytes source.now) opened result }
    ensures read { IfRead (S.fails_with source.now) result }
    ensures refused { IfRefused ⊥ result }
{
    let mut buffer = [0; 64];
    let n = fill(source, 0, &mut buffer)?;
    let Some(header) = FileHeader::read(&buffer[..n]) else {
        return Err(ElfFault::NotElf);
    };
    opened_with(source, header)
}
