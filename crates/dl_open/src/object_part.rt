//! The sequences of an object file among which addresses are looked up.
ghost use Rattle.std.specs.Prelude.{◌≡◌, Option, IfErr, IfOk, MatchResult, option_map};
ghost use Rattle.dl_elf.specs.Source.{ForBytes};
ghost use Rattle.dl_file.specs.LineTable.{Content, GivesLine};
ghost use Rattle.dl_open.specs.Blaming.{BlamesFile};
ghost use Rattle.dl_open.specs.Parts.{HasPlaces, IsPart, IsSection, PartStops, RefusesPlaces, RefusesSection};
ghost use Rattle.dl_open.specs.Tables.{IsKept, KeepingStops};

use crate::fault::FileFault;
use crate::stop::FileStop;
use dl_elf::{ElfFault, ReadAt, code_section, open_elf, section_number};
use dl_file::{LineReader, find_places};
use dl_head::Dialect;
use dl_memory::Memory;
use dl_object::keep_section;
use dl_reloc::Placed;
use dl_sections::{SECTION_LIMIT, read_strings};

/// The sequences of one section of an object file, in which addresses are relative to sections.
#[derive(Drop)]
pub struct Part {
    /// The places that the relocations of the line section change, each with the section of its symbol.
    pub places: Vec<Placed>,
    /// The section's number.
    pub section: u64,
}

/// The places by which the sequences of a file belong to sections; none where it isn't an object file.
fn places<M: Memory, S: ReadAt>(
    memory: &M,
    file: &S,
    is_object: bool,
) -> Result<Vec<Placed>, FileFault>
    ensures { ForBytes (S.all_bytes file.now) (λ f. MatchResult result (λ v. HasPlaces f is_object v.items)
        (RefusesPlaces (M.refuses memory.now) (S.fails_with file.now) f is_object)) }
{
    if !is_object {
        return Ok(Vec::new(memory.alloc()));
    }
    match find_places(memory, file) {
        Ok(places) => Ok(places),
        Err(fault) => Err(FileFault::Elf(fault)),
    }
}

/// The number of the section of this name; where none is named, of `.text`, or where there is none of that name, of the
/// first section with code.
fn number<S: ReadAt>(file: &S, name: Option<&str>) -> Result<Option<u64>, FileFault>
    ensures { ForBytes (S.all_bytes file.now) (λ f. MatchResult result
        (IsSection f (option_map (λ s. s.now) name.entry)) (RefusesSection (S.fails_with file.now) f)) }
{
    let elf = match open_elf(file) {
        Ok(elf) => elf,
        Err(fault) => return Err(FileFault::Elf(fault)),
    };
    let number = match name {
        Some(name) => section_number(file, &elf, name.as_bytes()),
        None => code_section(file, &elf),
    };
    match number {
        Ok(number) => Ok(number),
        Err(error) => Err(FileFault::Elf(ElfFault::Read(error))),
    }
}

/// The sequences of the open file at this path among which addresses are looked up: in an object file those of the
/// section of this name, or where none is named of its code. None where all are: addresses are relative to no section,
/// or no section has code.
pub fn part_of<'p, M: Memory, S: ReadAt>(
    memory: &M,
    path: &'p str,
    file: &S,
    is_object: bool,
    name: Option<&'p str>,
) -> Result<Option<Part>, FileStop<'p>>
    ensures part { ForBytes (S.all_bytes file.now) (λ f. MatchResult result
        (IsPart f is_object (option_map (λ s. s.now) name.entry))
        (PartStops (M.refuses memory.now) (S.fails_with file.now) path.entry.now f is_object (option_map (λ s. s.now) name.entry))) }
    ensures blames { BlamesFile result }
{
    let places = match places(memory, file, is_object) {
        Ok(places) => places,
        Err(fault) => return Err(FileStop::File { path, fault }),
    };
    if places.is_empty() {
        return match name {
            Some(_) => Err(FileStop::File {
                path,
                fault: FileFault::NotRelative,
            }),
            None => Ok(None),
        };
    }
    match (number(file, name), name) {
        (Ok(Some(section)), _) => Ok(Some(Part { places, section })),
        (Ok(None), Some(name)) => Err(FileStop::NoSection { path, name }),
        (Ok(None), None) => Ok(None),
        (Err(fault), _) => Err(FileStop::File { path, fault }),
    }
}

/// The bytes of the line section of the object file at this path, of whose sequences those of a part are left.
pub fn kept_bytes<'p, M: Memory, S: ReadAt>(
    memory: &M,
    path: &'p str,
    dialect: Dialect,
    part: &Part,
    line: &mut LineReader<'_, S>,
) -> Result<Vec<u8>, FileStop<'p>>
    ensures kept { (source : _) (content : Content) → GivesLine S.all_bytes S.fails_with (S.fails_with source) line.old content
        → MatchResult result (λ kept. IsKept dialect part.now content kept.items)
        (KeepingStops (M.refuses memory.now) (S.fails_with source) path.entry.now dialect part.now content) }
    ensures blames { BlamesFile result }
{
    let stream = line.stream_name();
    let mut bytes = match read_strings(memory, line, SECTION_LIMIT) {
        Ok(bytes) => bytes,
        Err(fault) => return Err(FileStop::at(path, stream, fault, line.last_fault())),
    };
    match keep_section(
        memory,
        dialect,
        bytes.as_mut_slice(),
        part.places.as_slice(),
        part.section,
    ) {
        Ok(()) => Ok(bytes),
        Err(_) => Err(FileStop::File {
            path,
            fault: FileFault::NoMemory,
        }),
    }
}
