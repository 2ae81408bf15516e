//! The string sections that a command looks into.
ghost use Rattle.std.specs.Prelude.{◌≡◌, ◌≤◌, ℕ, List, Option, IfErr, IfOk, IfSome, MatchResult, length, option_map};
ghost use Rattle.std.specs.Option.{option_copied};
ghost use Rattle.dl_sections.specs.Commands.{strings_in};
ghost use Rattle.dl_file.specs.LineTable.{Content, GivesOption};
ghost use Rattle.dl_open.specs.Blaming.{BlamesFile};
ghost use Rattle.dl_open.specs.Files.{FilesStop, IsSectionOf, SectionFileStops, StringsAre};
ghost use Rattle.dl_open.specs.Held.{strings_held};
ghost use Rattle.dl_open.specs.Tables.{IsHeld, IsWhole, SectionStops, StringsStop};

use crate::files::FileSource;
use crate::stop::FileStop;
use dl_elf::ReadAt;
use dl_file::ContentReader;
use dl_head::Dialect;
use dl_memory::Memory;
use dl_sections::{Options, RunFault, SECTION_LIMIT, read_strings};

/// How many bytes a string section may have: 2^32.
pub const STRINGS_LIMIT: u64 = 1 << 32;

/// The string sections that a command looks into, read whole.
#[derive(Drop)]
pub struct StringSections {
    debug_line_str: Option<Vec<u8>>,
    debug_str: Option<Vec<u8>>,
}

impl StringSections {
    /// The files at these paths, read in this order.
    pub fn of_files<M: Memory, F: FileSource>(
        memory: &M,
        files: &F,
        line_str: Option<&str>,
        strings: Option<&str>,
    ) -> Result<StringSections, RunFault>
        ensures { MatchResult result
            (λ s. StringsAre (F.held files.now) (option_copied line_str.entry) (option_copied strings.entry)
            (strings_held s))
            (FilesStop (M.refuses memory.now) (F.held files.now) (F.fails_with files.now) (option_copied line_str.entry)
            (option_copied strings.entry)) }
    {
        let debug_line_str = read_named(memory, files, line_str)?;
        let debug_str = read_named(memory, files, strings)?;
        Ok(StringSections {
            debug_line_str,
            debug_str,
        })
    }

    /// The sections of an ELF file, read in this order.
    pub fn of_table<'p, M: Memory, S: ReadAt>(
        memory: &M,
        path: &'p str,
        line_str: Option<ContentReader<'_, S>>,
        strings: Option<ContentReader<'_, S>>,
    ) -> Result<StringSections, FileStop<'p>>
        ensures whole { (source : _) (line_content content : Option Content)
            → GivesOption S.all_bytes S.fails_with (S.fails_with source) line_str.entry line_content
            → GivesOption S.all_bytes S.fails_with (S.fails_with source) strings.entry content
            → MatchResult result (λ s. IsWhole line_content content (strings_held s))
            (StringsStop (M.refuses memory.now) (S.fails_with source) path.entry.now line_content content) }
        ensures blames { BlamesFile result }
    {
        let debug_line_str = read_section(memory, path, line_str)?;
        let debug_str = read_section(memory, path, strings)?;
        Ok(StringSections {
            debug_line_str,
            debug_str,
        })
    }

    /// The options of a command that looks into them.
    pub fn options(&self, dialect: Dialect) -> Options<'_>
        ensures dialect { result.dialect ≡ dialect }
        ensures strings { strings_in result ≡ strings_held self.now }
        ensures limit { result.limit ≡ SECTION_LIMIT }
    {
        Options {
            dialect,
            debug_line_str: self.debug_line_str.as_ref().map(|bytes| bytes.as_slice()),
            debug_str: self.debug_str.as_ref().map(|bytes| bytes.as_slice()),
            limit: SECTION_LIMIT,
        }
    }
}

/// All bytes of the file at a path, where one was given.
fn read_named<M: Memory, F: FileSource>(
    memory: &M,
    files: &F,
    path: Option<&str>,
) -> Result<Option<Vec<u8>>, RunFault>
    ensures section { IfOk result (λ found. IsSectionOf (F.held files.now) (option_copied path.entry)
        (option_map (λ v. v.items) found)) }
    ensures stops { IfErr result (SectionFileStops (M.refuses memory.now) (F.held files.now) (F.fails_with files.now)
        (option_copied path.entry)) }
{
    match path {
        Some(path) => Ok(Some(files.read_file(memory, path, STRINGS_LIMIT)?)),
        None => Ok(None),
    }
}

/// All bytes of a section of the ELF file at this path, where it has the section.
fn read_section<'p, M: Memory, S: ReadAt>(
    memory: &M,
    path: &'p str,
    section: Option<ContentReader<'_, S>>,
) -> Result<Option<Vec<u8>>, FileStop<'p>>
    ensures held { (source : _) (content : Option Content)
        → GivesOption S.all_bytes S.fails_with (S.fails_with source) section.entry content → MatchResult result
        (λ found. IsHeld content (option_map (λ v. v.items) found))
        (λ stop. (c : Content) × (content ≡ Some c) × SectionStops (M.refuses memory.now) (S.fails_with source) path.entry.now c stop) }
    ensures blames { BlamesFile result }
{
    let Some(mut section) = section else {
        return Ok(None);
    };
    let stream = section.stream_name();
    match read_strings(memory, &mut section, STRINGS_LIMIT) {
        Ok(bytes) => Ok(Some(bytes)),
        Err(fault) => Err(FileStop::at(path, stream, fault, section.last_fault())),
    }
}
