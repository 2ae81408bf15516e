//! What the program does for `index`: the index of an ELF file.
ghost use Rattle.std.specs.Prelude.{◌≡◌, ◌⊎◌, [], Ok, IfOk, MatchResult, is_none, option_map, unwrap_or};
ghost use Rattle.std.specs.Option.{option_copied};
ghost use Rattle.std.specs.declared.io.Error.{Error};
ghost use Rattle.dl_cmd.specs.Job.{index_words_made};
ghost use Rattle.dl_dirs.specs.Directories.{directory_at};
ghost use Rattle.dl_elf.specs.Notes.{build_id_bytes};
ghost use Rattle.dl_elf.specs.Source.{ForBytes};
ghost use Rattle.dl_file.specs.Code.{IsCode};
ghost use Rattle.dl_file.specs.declared.code.Code as file_code;
ghost use Rattle.dl_open.specs.BuildIds.{IsBuildId};
ghost use Rattle.dl_open.specs.Code.{AreLive};
ghost use Rattle.dl_program.specs.Blaming.{BlamesWriter};
ghost use Rattle.dl_locating.specs.Compiled.{AreFound, RefusesOpening};
ghost use Rattle.dl_locating.specs.Indexing.{IndexesFile, IndexesFor, RefusesNaming, file_indexed, indexing};

use crate::code::live_in;
use crate::compiled::compiled_in;
use crate::opening::open_with_code;
use dl_cmd::IndexWords;
use dl_dirs::Directories;
use dl_elf::{BuildId, ReadAt};
use dl_look::CodeRanges;
use dl_making::Table;
use dl_memory::Memory;
use dl_open::{FileFault, FileSource, build_id_of};
use dl_output::Destination;
use dl_program::{
    Command, MapMemory, Stop, Unheard, answer_over_file, are_sizes, on_file, units_of_file,
};
use dl_sections::Survey;

/// The path of the file whose index is made.
fn file_indexed<'a>(words: &IndexWords<'a>) -> Option<&'a str>
    ensures { option_map (λ s. s.now) result ≡ file_indexed (index_words_made words.now) }
{
    if words.list || !are_sizes(words.units) {
        return None;
    }
    words.file
}

/// The command that makes the index: where the words say so it goes on after a damaged unit.
fn indexing<'q>(words: &IndexWords<'_>, table: Table<'q>) -> Command<'q>
    ensures { result ≡ indexing (index_words_made words.now) table.entry }
{
    if words.keep_going {
        Command::IndexAround(table)
    } else {
        Command::Index(table)
    }
}

/// Whether the directories are looked for that the file says: none is said.
fn wants_directories(words: &IndexWords<'_>) -> bool
    ensures { result ≡ is_none (index_words_made words.now).comp_dir }
{
    words.comp_dir.is_none()
}

/// The build ID of an open file.
pub fn build_id<S: ReadAt>(file: &S) -> Result<Option<BuildId>, FileFault>
    ensures { ForBytes (S.all_bytes file.now) (λ f. MatchResult result
        (λ id. IsBuildId f (option_map build_id_bytes id)) (RefusesNaming (S.fails_with file.now) f)) }
{
    match build_id_of(file) {
        Ok(id) => Ok(id),
        Err(fault) => Err(FileFault::Elf(fault)),
    }
}

/// The bytes of a build ID; none where there is none.
fn id_bytes(id: Option<&BuildId>) -> &[u8]
    ensures { result.now ≡ unwrap_or (option_map build_id_bytes (option_copied id.entry)) [] }
{
    match id {
        Some(id) => id.as_bytes(),
        None => b"",
    }
}

/// What is told of a file beside its line table.
struct Opened<S> {
    file: S,
    code: Option<CodeRanges>,
    directories: Directories,
    build_id: Option<BuildId>,
}

/// The file at a path, open, with what is told of it; its directories where they are wanted.
fn open_named<M: Memory, F: FileSource>(
    memory: &M,
    are_wanted: bool,
    files: &F,
    path: &str,
) -> Result<Opened<F::File>, FileFault>
    ensures bytes { IfOk result (λ r. F.File.all_bytes r.file ≡ F.held files.now path.now) }
    ensures reads { IfOk result (λ r. (e : Error) → F.File.fails_with r.file e → F.fails_with files.now path.now e) }
    ensures code { ForBytes (F.held files.now path.now) (λ f. MatchResult result
        (λ r. (code : file_code.Code) × IsCode f (Ok code) × AreLive r.code code)
        (λ fault. RefusesOpening (M.refuses memory.now) are_wanted (F.fails_with files.now path.now) f fault
        ⊎ RefusesNaming (F.fails_with files.now path.now) f fault)) }
    ensures directories { ForBytes (F.held files.now path.now) (λ f. IfOk result
        (λ r. AreFound are_wanted f (directory_at r.directories))) }
    ensures build_id { ForBytes (F.held files.now path.now) (λ f. IfOk result
        (λ r. IsBuildId f (option_map build_id_bytes r.build_id))) }
{
    let (file, code, directories) = open_with_code(memory, are_wanted, files, path)?;
    let build_id = build_id(&file)?;
    Ok(Opened {
        file,
        code,
        directories,
        build_id,
    })
}

/// Writes the index of the ELF file at this path.
fn index_file<'a, M: MapMemory, F: FileSource, W: Destination>(
    memory: &M,
    words: &IndexWords<'a>,
    path: &'a str,
    files: &F,
    output: &mut W,
) -> Result<Survey, Stop<'a>>
    ensures indexed { IndexesFile (M.refuses memory.now) (F.held files.now) (F.fails_with files.now) path.entry.now (index_words_made words.now)
        (W.contents output.old) (W.contents output.new) result }
    ensures blames_writer { BlamesWriter W.fails result }
{
    let wanted = wants_directories(words);
    let Opened {
        file,
        code,
        directories,
        build_id,
    } = match open_named(memory, wanted, files, path) {
        Ok(opened) => opened,
        Err(fault) => return Err(Stop::File { path, fault }),
    };
    let table = Table {
        code: live_in(words.all, code.as_ref()),
        directories: compiled_in(words.comp_dir, &directories),
        all: words.all,
        build_id: id_bytes(build_id.as_ref()),
    };
    let command = indexing(words, table);
    let units = units_of_file(words.units);
    answer_over_file(on_file(
        memory,
        path,
        &file,
        units,
        words.section,
        command,
        output,
        &mut Unheard,
    ))
}

/// Writes the index of the ELF file that the words name.
///
/// In a linked file that has code the sequences are told that begin in it, unless all are asked for; in an object file
/// those of the section that is named, or where none is named of its code. Paths stand under the compilation directory that
/// the words say, or else under those that the file says. After a damaged unit the next one is read where the words say
/// so: then the units are told that are whole, and the answer says how many others there are.
///
/// `NotUnderstood` where the words name no file, list an index, or a size is no size; then, and at each fault but a failed
/// write, nothing is written.
pub fn index<'a, M: MapMemory, F: FileSource, W: Destination>(
    memory: &M,
    words: &IndexWords<'a>,
    files: &F,
    output: &mut W,
) -> Result<Survey, Stop<'a>>
    ensures indexed { IndexesFor (M.refuses memory.now) (F.held files.now) (F.fails_with files.now) (index_words_made words.now)
        (W.contents output.old) (W.contents output.new) result }
    ensures blames_writer { BlamesWriter W.fails result }
{
    match file_indexed(words) {
        Some(path) => index_file(memory, words, path, files, output),
        None => Err(Stop::NotUnderstood),
    }
}
