//! What is told of a file before its line table is read.
ghost use Rattle.std.specs.Prelude.{◌≡◌, Ok, IfOk, IfErr, MatchBool, MatchResult};
ghost use Rattle.std.specs.declared.io.Error.{Error};
ghost use Rattle.dl_dirs.specs.Directories.{directory_at};
ghost use Rattle.dl_elf.specs.Source.{ForBytes};
ghost use Rattle.dl_file.specs.Code.{IsCode};
ghost use Rattle.dl_file.specs.declared.code.Code as file_code;
ghost use Rattle.dl_index.specs.IsIndex.{HasMagic};
ghost use Rattle.dl_open.specs.Code.{AreLive};
ghost use Rattle.dl_locating.specs.Compiled.{AreFound, IsNotOpen, RefusesOpening};

use crate::compiled::directories_for;
use dl_dirs::Directories;
use dl_elf::{ElfFault, ReadAt};
use dl_index_file::is_index;
use dl_look::CodeRanges;
use dl_memory::Memory;
use dl_open::{FileFault, FileSource, code_of, open_file};

/// The file at a path, open, where it has code, and the directories in which its units were compiled, where they are
/// wanted.
pub fn open_with_code<M: Memory, F: FileSource>(
    memory: &M,
    are_wanted: bool,
    files: &F,
    path: &str,
) -> Result<(F::File, Option<CodeRanges>, Directories), FileFault>
    ensures bytes { IfOk result (λ r. F.File.all_bytes r.0 ≡ F.held files.now path.now) }
    ensures reads { IfOk result (λ r. (e : Error) → F.File.fails_with r.0 e → F.fails_with files.now path.now e) }
    ensures code { ForBytes (F.held files.now path.now) (λ f. MatchResult result
        (λ r. (code : file_code.Code) × IsCode f (Ok code) × AreLive r.1 code)
        (RefusesOpening (M.refuses memory.now) are_wanted (F.fails_with files.now path.now) f)) }
    ensures directories { ForBytes (F.held files.now path.now) (λ f. IfOk result
        (λ r. AreFound are_wanted f (directory_at r.2))) }
{
    let file = open_file(files, path)?;
    let (code, directories) = code_and_directories(memory, are_wanted, &file)?;
    Ok((file, code, directories))
}

/// Where an open file has code, and the directories in which its units were compiled, where they are wanted.
pub fn code_and_directories<M: Memory, S: ReadAt>(
    memory: &M,
    are_wanted: bool,
    file: &S,
) -> Result<(Option<CodeRanges>, Directories), FileFault>
    ensures code { ForBytes (S.all_bytes file.now) (λ f. MatchResult result
        (λ r. (code : file_code.Code) × IsCode f (Ok code) × AreLive r.0 code)
        (RefusesOpening (M.refuses memory.now) are_wanted (S.fails_with file.now) f)) }
    ensures directories { ForBytes (S.all_bytes file.now) (λ f. IfOk result
        (λ r. AreFound are_wanted f (directory_at r.1))) }
{
    let code = code_of(memory, file)?;
    let directories = directories_for(memory, are_wanted, file)?;
    Ok((code, directories))
}

/// The file at a path, open, and whether it begins as an index does.
pub fn open_either<F: FileSource>(files: &F, path: &str) -> Result<(F::File, bool), FileFault>
    ensures bytes { IfOk result (λ r. F.File.all_bytes r.0 ≡ F.held files.now path.now) }
    ensures reads { IfOk result (λ r. (e : Error) → F.File.fails_with r.0 e → F.fails_with files.now path.now e) }
    ensures magic { ForBytes (F.held files.now path.now) (λ f. IfOk result
        (λ r. MatchBool r.1 (HasMagic f) (¬ (HasMagic f)))) }
    ensures fails { IfErr result (IsNotOpen (F.fails_with files.now path.now)) }
{
    let file = open_file(files, path)?;
    match is_index(&file) {
        Ok(is) => Ok((file, is)),
        Err(error) => Err(FileFault::Elf(ElfFault::Read(error))),
    }
}
