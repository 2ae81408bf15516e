//! The line table of a file, with the string sections that are looked into.
ghost use Rattle.std.specs.Prelude.{◌≡◌, ◌⊎◌, ◌↔◌, ◌++◌, ℕ, List, Bool, false, Ok, IfSome, IsTrue, MatchResult};
ghost use Rattle.dl_elf.specs.Source.{ForBytes};
ghost use Rattle.dl_file.specs.LineTable.{Content, GivesLine, GivesTable, HasLineTable, LineTable, Plain};
ghost use Rattle.dl_forms.specs.Names.{Names};
ghost use Rattle.dl_input.specs.Failing.{Blames};
ghost use Rattle.dl_open.specs.Blaming.{BlamesFile};
ghost use Rattle.dl_open.specs.Tables.{HasTable, IsNamed, NamedStops, NamingStops, OpeningStops, StopsNaming};
ghost use Rattle.dl_open.specs.Tables.{TableStops, file_dialect, with_strings};
ghost use Rattle.dl_file.specs.declared.line_file.Wanted.TheVariants.{LineAndLineStrings};
ghost use Rattle.dl_open.specs.declared.named.Sections.TheVariants.{LinesAndTexts};

use crate::dialect::{FileUnits, file_dialect};
use crate::fault::FileFault;
use crate::stop::FileStop;
use dl_elf::ReadAt;
use dl_file::{LineFile, LineReader, Wanted, open_line_file};
use dl_forms::StringWalk;
use dl_head::Dialect;
use dl_input::Source;
use dl_memory::Memory;
use dl_sections::{Input, RunFault, SECTION_LIMIT};
use std::alloc::Global;

/// What is looked into of a line table.
#[derive(Clone, Copy)]
pub enum Sections {
    /// Its line section.
    Lines,
    /// That, and the string sections, whose texts are printed.
    LinesAndTexts,
}

/// Whether a table of the line section names `.debug_str`.
fn names_str<R: Source>(alloc: Global, dialect: Dialect, input: &mut R) -> Result<bool, RunFault>
    ensures told { MatchResult result
        (λ names. IfSome (R.remaining input.old) (λ bytes. IsTrue names ↔ Names dialect bytes))
        (StopsNaming dialect (R.remaining input.old)) }
    ensures settled { result ≡ Ok false → R.over input.new
        ⊎ IfSome (R.remaining input.old) (λ bytes. (rest : List ℕ) → Names dialect (bytes ++ rest) → ⊥) }
    ensures blames { Blames R.follows R.fails input.old input.new (result ≡ Err RunFault.Read) }
{
    let mut walk = StringWalk::new(alloc, dialect);
    let mut buffer = Input::new();
    let mut left = SECTION_LIMIT;
    while !walk.is_over() {
        let Ok(piece) = buffer.next_piece(input) else {
            drop(walk);
            return Err(RunFault::Read);
        };
        if piece.is_empty() {
            let names = walk.names_str();
            drop(walk);
            return Ok(names);
        }
        if left < piece.len() as u64 {
            drop(walk);
            return Err(RunFault::SectionTooLong);
        }
        left -= piece.len() as u64;
        walk = match walk.feed(piece) {
            Ok(walk) => walk,
            Err(_) => return Err(RunFault::NoMemory),
        };
    }
    let named = walk.names_str();
    drop(walk);
    Ok(named)
}

/// The same of the line section of the file at this path. Where it is inflated as it is read and a read fails, its tables
/// are taken to name `.debug_str`, and the command's own reads tell of the fault.
fn is_named<'p, S: ReadAt>(
    alloc: Global,
    path: &'p str,
    dialect: Dialect,
    line: &mut LineReader<'_, S>,
) -> Result<bool, FileStop<'p>>
    ensures told { (source : _) (content : Content) → GivesLine S.all_bytes S.fails_with (S.fails_with source) line.old content
        → MatchResult result (IsNamed (S.fails_with source) dialect content) (NamingStops (S.fails_with source) path.entry.now dialect content) }
    ensures blames { BlamesFile result }
{
    let stream = line.stream_name();
    match names_str(alloc, dialect, line) {
        Ok(names) => Ok(names),
        Err(RunFault::Read) if stream.is_some() => Ok(true),
        Err(fault) => Err(FileStop::at(path, stream, fault, line.last_fault())),
    }
}

/// The same of a line section that is held in memory.
fn is_named_in<'p>(
    alloc: Global,
    path: &'p str,
    dialect: Dialect,
    bytes: &[u8],
) -> Result<bool, FileStop<'p>>
    ensures told { MatchResult result (λ names. IsTrue names ↔ Names dialect bytes.now)
        (NamingStops (λ error. ⊥) path.entry.now dialect (Plain bytes.now)) }
    ensures blames { BlamesFile result }
{
    let mut input = bytes;
    match names_str(alloc, dialect, &mut input) {
        Ok(names) => Ok(names),
        Err(fault) => Err(FileStop::at(path, None, fault, None)),
    }
}

/// The wanted sections of the file at this path.
fn opened<'p, 'a, M: Memory, S: ReadAt>(
    memory: &M,
    path: &'p str,
    file: &'a S,
    wanted: Wanted,
) -> Result<LineFile<'a, S>, FileStop<'p>>
    ensures opens { ForBytes (S.all_bytes file.entry.now) (λ f. MatchResult result
        (λ table. (t : LineTable) × HasLineTable f wanted (Ok t) × GivesTable S.all_bytes S.fails_with (S.fails_with file.entry.now) table t)
        (OpeningStops (M.refuses memory.now) (S.fails_with file.entry.now) path.entry.now f wanted)) }
    ensures blames { BlamesFile result }
{
    match open_line_file(memory, file, wanted) {
        Ok(table) => Ok(table),
        Err(fault) => Err(FileStop::File {
            path,
            fault: FileFault::Elf(fault),
        }),
    }
}

/// The sections that are wanted, by whether a table names `.debug_str`.
fn with_strings(names: bool) -> Wanted
    ensures { result ≡ with_strings names }
{
    if names {
        Wanted::LineAndStringSections
    } else {
        Wanted::LineAndLineStrings
    }
}

/// The line table of the file at this path, whose line section and `.debug_line_str` are opened, with `.debug_str` where
/// a table names it. The walk over the tables uses up the reader of the line section, unless this is held: then the file
/// is opened anew.
fn with_named<'p, 'a, M: Memory, S: ReadAt>(
    memory: &M,
    path: &'p str,
    file: &'a S,
    units: FileUnits,
    table: LineFile<'a, S>,
) -> Result<LineFile<'a, S>, FileStop<'p>>
    ensures opens { ForBytes (S.all_bytes file.entry.now) (λ f. (t : LineTable)
        → GivesTable S.all_bytes S.fails_with (S.fails_with file.entry.now) table.entry t
        → HasLineTable f LineAndLineStrings (Ok t) → MatchResult result
        (λ opened. (names : Bool) × IsNamed (S.fails_with file.entry.now) (file_dialect units t) t.line names × ((t2 : LineTable)
        × HasLineTable f (with_strings names) (Ok t2)
        × GivesTable S.all_bytes S.fails_with (S.fails_with file.entry.now) opened t2))
        (NamedStops (M.refuses memory.now) units (S.fails_with file.entry.now) path.entry.now f t)) }
    ensures blames { BlamesFile result }
{
    let mut table = table;
    let dialect = file_dialect(table.order, table.class, units);
    if let Some(bytes) = table.line.held() {
        return match is_named_in(memory.alloc(), path, dialect, bytes) {
            Ok(true) => opened(memory, path, file, Wanted::LineAndStringSections),
            Ok(false) => Ok(table),
            Err(stop) => Err(stop),
        };
    }
    match is_named(memory.alloc(), path, dialect, &mut table.line) {
        Ok(names) => opened(memory, path, file, with_strings(names)),
        Err(stop) => Err(stop),
    }
}

/// The sections of the file at this path, of which texts are printed: `.debug_str` is one of them only where a table of
/// the line section names it.
fn with_texts<'p, 'a, M: Memory, S: ReadAt>(
    memory: &M,
    path: &'p str,
    file: &'a S,
    units: FileUnits,
) -> Result<LineFile<'a, S>, FileStop<'p>>
    ensures opens { ForBytes (S.all_bytes file.entry.now) (λ f. MatchResult result
        (λ table. (t : LineTable) × HasTable units (S.fails_with file.entry.now) LinesAndTexts f t × GivesTable S.all_bytes S.fails_with (S.fails_with file.entry.now) table t)
        (TableStops (M.refuses memory.now) units (S.fails_with file.entry.now) path.entry.now LinesAndTexts f)) }
    ensures blames { BlamesFile result }
{
    let table = match opened(memory, path, file, Wanted::LineAndLineStrings) {
        Ok(table) => table,
        Err(stop) => return Err(stop),
    };
    if !table.has_debug_str {
        return Ok(table);
    }
    with_named(memory, path, file, units, table)
}

/// The line table of the file at this path, with the sections that are looked into. `.debug_str` is one of them only
/// where a table of the line section names it, of the units that are read.
pub fn open_table<'p, 'a, M: Memory, S: ReadAt>(
    memory: &M,
    path: &'p str,
    file: &'a S,
    units: FileUnits,
    sections: Sections,
) -> Result<LineFile<'a, S>, FileStop<'p>>
    ensures opens { ForBytes (S.all_bytes file.entry.now) (λ f. MatchResult result
        (λ table. (t : LineTable) × HasTable units (S.fails_with file.entry.now) sections f t × GivesTable S.all_bytes S.fails_with (S.fails_with file.entry.now) table t)
        (TableStops (M.refuses memory.now) units (S.fails_with file.entry.now) path.entry.now sections f)) }
    ensures blames { BlamesFile result }
{
    match sections {
        Sections::Lines => opened(memory, path, file, Wanted::LineSection),
        Sections::LinesAndTexts => with_texts(memory, path, file, units),
    }
}
