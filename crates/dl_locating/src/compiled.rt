//! In which directories the units of a file were compiled.
ghost use Rattle.std.specs.Prelude.{◌≡◌, ℕ, MatchResult};
ghost use Rattle.std.specs.Option.{option_copied};
ghost use Rattle.dl_dirs.specs.Compilation.{directory_by};
ghost use Rattle.dl_dirs.specs.Directories.{directory_at};
ghost use Rattle.dl_elf.specs.Source.{ForBytes};
ghost use Rattle.dl_locating.specs.Compiled.{AreFound, RefusesFinding, compiled_by};

use dl_dirs::{CompilationDirectories, Directories};
use dl_elf::ReadAt;
use dl_memory::Memory;
use dl_open::{FileFault, directories_of};
use dl_program::directory_said;

/// The directories that an open file says, where they are wanted.
pub fn directories_for<M: Memory, S: ReadAt>(
    memory: &M,
    are_wanted: bool,
    file: &S,
) -> Result<Directories, FileFault>
    ensures { ForBytes (S.all_bytes file.now) (λ f. MatchResult result
        (λ found. AreFound are_wanted f (directory_at found))
        (RefusesFinding (M.refuses memory.now) are_wanted (S.fails_with file.now) f)) }
{
    if !are_wanted {
        return Ok(Directories::none(memory.alloc()));
    }
    match directories_of(memory, file) {
        Ok(found) => Ok(found),
        Err(fault) => Err(FileFault::Elf(fault)),
    }
}

/// The directory that is said of all units, or else those that were found.
pub fn compiled_in<'q>(said: Option<&'q str>, found: &'q Directories) -> CompilationDirectories<'q>
    ensures { (n : ℕ) → directory_by result n
        ≡ compiled_by (option_copied said.entry) (directory_at found.entry.now) n }
{
    if said.is_some() {
        directory_said(said)
    } else {
        CompilationDirectories::Found(found)
    }
}
