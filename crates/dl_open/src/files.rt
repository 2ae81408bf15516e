//! Where the program's files come from.
ghost use Rattle.std.specs.Prelude.{◌≡◌, ℕ, List, Option, IfErr, IfOk, MatchResult};
ghost use Rattle.std.specs.declared.io.Error.{Error};
ghost use Rattle.dl_open.specs.Files.{FileHolds, FileStops, MayFail};
ghost use Rattle.dl_open.specs.declared.fault.FileFault.TheVariants.{Open};

use crate::fault::FileFault;
use dl_elf::ReadAt;
use dl_memory::Memory;
use dl_sections::RunFault;
use std::io;

/// Files, by their paths.
pub trait FileSource {
    /// An open file.
    type File: ReadAt + Drop;

    /// What the file at a path holds, where that is known.
    ghost held: { Self → List ℕ → Option (List ℕ) };

    /// The errors that opening the file at a path or reading it may give.
    ghost fails_with: { Self → List ℕ → Error → Type 0 };

    /// The file at a path, open to be read.
    fn open(&self, path: &str) -> io::Result<Self::File>
        ensures bytes { IfOk result (λ file. Self.File.all_bytes file ≡ held self.now path.now) }
        ensures reads { IfOk result (λ file. (e : Error) → Self.File.fails_with file e
            → fails_with self.now path.now e) }
        ensures fails { IfErr result (fails_with self.now path.now) };

    /// All bytes of the file at a path, of which there may be `limit`.
    ///
    /// `Read` where it can't be opened or read, `SectionTooLong` where it has more bytes, `NoMemory`
    /// where memory was refused.
    fn read_file<M: Memory>(&self, memory: &M, path: &str, limit: u64) -> Result<Vec<u8>, RunFault>
        ensures { MatchResult result (λ found. FileHolds (held self.now path.now) limit found.items)
            (FileStops (MayFail (fails_with self.now path.now)) (M.refuses memory.now) (held self.now path.now) limit) };
}

/// The file at a path, open to be read, or why it can't be.
pub fn open_file<F: FileSource>(files: &F, path: &str) -> Result<F::File, FileFault>
    ensures bytes { IfOk result (λ file. F.File.all_bytes file ≡ F.held files.now path.now) }
    ensures reads { IfOk result (λ file. (e : Error) → F.File.fails_with file e → F.fails_with files.now path.now e) }
    ensures fails { IfErr result (λ fault. (e : Error) × (fault ≡ Open e) × F.fails_with files.now path.now e) }
{
    match files.open(path) {
        Ok(file) => Ok(file),
        Err(error) => Err(FileFault::Open(error)),
    }
}
