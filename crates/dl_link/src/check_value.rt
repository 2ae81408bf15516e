//! The check value of a file.
ghost use Rattle.std.specs.Prelude.{◌≡◌, IfOk, IfErr};
ghost use Rattle.dl_crc.specs.Crc32.{crc_32};
ghost use Rattle.dl_elf.specs.Source.{ForBytes};

use dl_crc::Crc32;
use dl_elf::{ReadAt, fill};
use std::io;

/// How many bytes are read at once.
const PIECE: usize = 32_768;

/// CRC-32 of all bytes of a file.
pub fn crc_of<S: ReadAt>(source: &S) -> io::Result<u32>
    ensures crc { ForBytes (S.all_bytes source.now) (λ f. IfOk result (λ crc. crc ≡ crc_32 f)) }
    ensures fails { IfErr result (S.fails_with source.now) }
{
    let mut crc = Crc32::new();
    let mut piece = [0; PIECE];
    let mut offset = 0u64;
    loop {
        let len = fill(source, offset, &mut piece)?;
        crc.update(&piece[..len]);
        let next = offset.saturating_add(len as u64);
        if len < PIECE || next == u64::MAX {
            return Ok(crc.finish());
        }
        offset = next;
    }
}
