//! The bytes of a text that stands in a file.

ghost use Rattle.std.specs.Prelude.{◌≡◌, ◌+◌, ◌-◌, ◌<◌, ◌≤◌, ◌^◌, ◌++◌, true, length, take, drop, IfOk, IfErr};
ghost use Rattle.std.specs.IoError.{error_kind};
ghost use Rattle.dl_elf.specs.Elf.{bytes_at};
ghost use Rattle.dl_elf.specs.Sections.{range_within};
ghost use Rattle.dl_elf.specs.Source.{ForBytes};
ghost use Rattle.dl_index_file.specs.Reading.{TextFails};
ghost use Rattle.dl_index_file.specs.Steps.{EndsBefore};

use crate::fault::TextFault;
use dl_elf::{Range, ReadAt, fill_whole};
use dl_memory::Memory;
use std::io;
use std::io::ErrorKind;

/// How many bytes are read at once.
const PIECE: usize = 4096;

/// Puts the bytes of a range behind those of `out`, piece by piece: memory is taken for bytes that were read.
pub fn read_range<S: ReadAt, M: Memory>(
    memory: &M,
    source: &S,
    range: Range,
    out: &mut Vec<u8>,
) -> Result<(), TextFault>
    ensures bytes { ForBytes (S.all_bytes source.now) (λ b. IfOk result (λ _.
        out.new.items ≡ out.old.items ++ bytes_at range.offset range.size b)) }
    ensures within { ForBytes (S.all_bytes source.now) (λ b. IfOk result (λ _. range_within range b ≡ true)) }
    ensures keeps { take (length out.old.items) out.new.items ≡ out.old.items }
    ensures fails { IfErr result (TextFails (S.all_bytes source.now) (S.fails_with source.now) (M.refuses memory.now)
        (length out.old.items) range) }
{
    let mut done = 0;
    while done < range.size {
        let Some(at) = range.offset.checked_add(done) else {
            return Err(ended());
        };
        let len = (range.size - done).min(PIECE as u64);
        push_piece(memory, source, at, len as usize, out)?;
        done += len;
    }
    Ok(())
}

/// Puts so many bytes from an offset on behind those of `out`.
fn push_piece<S: ReadAt, M: Memory>(
    memory: &M,
    source: &S,
    at: u64,
    len: usize,
    out: &mut Vec<u8>,
) -> Result<(), TextFault>
    requires some { 0 < len }
    requires most { len ≤ 4096 }
    ensures bytes { ForBytes (S.all_bytes source.now) (λ b. IfOk result (λ _.
        out.new.items ≡ out.old.items ++ take len (drop at b))) }
    ensures within { ForBytes (S.all_bytes source.now) (λ b. IfOk result (λ _. at + len ≤ length b)) }
    ensures keeps { take (length out.old.items) out.new.items ≡ out.old.items }
    ensures longer { IfOk result (λ _. length out.new.items ≡ length out.old.items + len) }
    ensures fails { IfErr result (TextFails (S.all_bytes source.now) (S.fails_with source.now) (M.refuses memory.now)
        (length out.old.items) (record { offset = at; size = len })) }
{
    let mut buffer = [0; PIECE];
    if !fill_whole(source, at, &mut buffer[..len])? {
        return Err(ended());
    }
    memory.extend_from_slice(out, &buffer[..len])?;
    Ok(())
}

/// The file ends before the text does.
fn ended() -> TextFault
    ensures { EndsBefore result }
{
    TextFault::Read(io::Error::from(ErrorKind::UnexpectedEof))
}
