//! All bytes of a file.
ghost use Rattle.std.specs.Prelude.{◌≡◌, IfErr, MatchResult};
ghost use Rattle.std.specs.Io.{ReadsAtMost};
ghost use Rattle.dl_elf.specs.Source.{ReadsFrom};
ghost use Rattle.dl_open.specs.Files.{FileHolds, FileStops, MayFail};

use dl_elf::ReadAt;
use dl_memory::Memory;
use dl_sections::RunFault;
use std::io;
use std::io::ErrorKind;

/// How many bytes are read at once.
const PIECE: usize = 4096;

/// How many interruptions of a read are borne.
const BORNE: usize = 1000;

/// One read, which is repeated where it was interrupted.
fn read_again<S: ReadAt>(source: &S, offset: u64, buffer: &mut [u8]) -> io::Result<usize>
    ensures bound { ReadsAtMost result buffer.new }
    ensures bytes { ReadsFrom (S.all_bytes source.now) offset result buffer.new }
    ensures fails { IfErr result (S.fails_with source.now) }
{
    for _ in 0..BORNE {
        match source.read_at(offset, buffer) {
            Ok(n) => return Ok(n),
            Err(error) => {
                if error.kind() != ErrorKind::Interrupted {
                    return Err(error);
                }
            }
        }
    }
    source.read_at(offset, buffer)
}

/// All bytes of a file, of which there may be `limit`.
pub(crate) fn read_whole<M: Memory, S: ReadAt>(
    memory: &M,
    source: &S,
    limit: u64,
) -> Result<Vec<u8>, RunFault>
    ensures { MatchResult result (λ found. FileHolds (S.all_bytes source.now) limit found.items)
        (FileStops (MayFail (S.fails_with source.now)) (M.refuses memory.now) (S.all_bytes source.now) limit) }
{
    let mut found = Vec::new(memory.alloc());
    let mut piece = [0; PIECE];
    loop {
        let Ok(len) = read_again(source, found.len() as u64, &mut piece) else {
            return Err(RunFault::Read);
        };
        if len == 0 {
            return Ok(found);
        }
        if limit - (found.len() as u64) < len as u64 {
            return Err(RunFault::SectionTooLong);
        }
        let Ok(()) = memory.extend_from_slice(&mut found, &piece[..len]) else {
            return Err(RunFault::NoMemory);
        };
    }
}
