//! The bytes of a section of a file, read one piece after the other.
ghost use Rattle.std.specs.Prelude.{◌≡◌, ◌≤◌, ℕ, List, IfErr, IfOk, length, option_map};
ghost use Rattle.std.specs.Io.KnownBytes.{Keeps};
ghost use Rattle.dl_file.specs.Faults.{FailsOnly};
ghost use Rattle.dl_file.specs.LineReader.{LineReaderFails, line_damage, line_remaining};
ghost use Rattle.dl_file.specs.LineTable.{Content, GivesLine};
ghost use Rattle.dl_open.specs.Directories.{bytes_had};
ghost use Rattle.dl_open.specs.Tables.{bytes_of};
ghost use Rattle.dl_open.specs.Pieces.{IsPiece, IsRead, IsReadError, IsUnread};

use crate::strings::STRINGS_LIMIT;
use dl_elf::ReadAt;
use dl_file::{LineReader, ReadFault};
use dl_memory::Memory;
use dl_sections::INTERRUPTIONS;
use std::io;
use std::io::{ErrorKind, Read};

/// How many bytes are read at a time.
pub(crate) const PIECE: usize = 4096;

/// Why a section isn't read to its end.
#[derive(Clone, Copy)]
pub(crate) enum Unread {
    /// A read failed.
    Read(io::Error),
    /// A growth was refused.
    NoMemory,
}

/// What the next read of a section gives, of which there may be so many bytes.
pub(crate) enum Piece<'b> {
    /// Its next bytes.
    Bytes(&'b [u8]),
    /// It has no more.
    End,
    /// It can't be had whole: its stream is damaged, or it has more bytes.
    Lost,
}

/// One read. It answers how many bytes it gave; None where the section's stream is damaged.
fn read_once<S: ReadAt>(
    section: &mut LineReader<'_, S>,
    buffer: &mut [u8],
) -> io::Result<Option<usize>>
    ensures len { length buffer.new ≡ length buffer.old }
    ensures read { IfOk result (IsRead (line_damage S.all_bytes section.old) (line_remaining S.all_bytes section.old)
        (line_remaining S.all_bytes section.new) buffer.new) }
    ensures damage { line_damage S.all_bytes section.new ≡ line_damage S.all_bytes section.old }
    ensures kept { IfErr result (λ error. Keeps (line_remaining S.all_bytes section.old) (line_remaining S.all_bytes section.new)) }
    ensures fails { IfErr result (LineReaderFails S.all_bytes S.fails_with section.old) }
    ensures later { FailsOnly (LineReaderFails S.all_bytes S.fails_with section.new)
        (LineReaderFails S.all_bytes S.fails_with section.old) }
{
    match section.read(buffer) {
        Ok(n) => Ok(Some(n)),
        Err(error) => match section.last_fault() {
            Some(ReadFault::Read(told)) => Err(told),
            Some(ReadFault::DamagedStream(_)) => Ok(None),
            None => Err(error),
        },
    }
}

/// The same, repeated where it was interrupted.
fn read_some<S: ReadAt>(
    section: &mut LineReader<'_, S>,
    buffer: &mut [u8],
) -> io::Result<Option<usize>>
    ensures len { length buffer.new ≡ length buffer.old }
    ensures read { IfOk result (IsRead (line_damage S.all_bytes section.old) (line_remaining S.all_bytes section.old)
        (line_remaining S.all_bytes section.new) buffer.new) }
    ensures damage { line_damage S.all_bytes section.new ≡ line_damage S.all_bytes section.old }
    ensures fails { IfErr result (LineReaderFails S.all_bytes S.fails_with section.old) }
    ensures later { FailsOnly (LineReaderFails S.all_bytes S.fails_with section.new)
        (LineReaderFails S.all_bytes S.fails_with section.old) }
{
    for _ in 0..INTERRUPTIONS {
        match read_once(section, buffer) {
            Err(error) if error.kind() == ErrorKind::Interrupted => {}
            answer => return answer,
        }
    }
    read_once(section, buffer)
}

/// The next piece of a section, of which there may be `left` bytes more.
pub(crate) fn next_piece<'b, S: ReadAt>(
    section: &mut LineReader<'_, S>,
    left: &mut u64,
    buffer: &'b mut [u8; PIECE],
) -> Result<Piece<'b>, Unread>
    ensures piece { IfOk result (IsPiece (line_damage S.all_bytes section.old) (line_remaining S.all_bytes section.old)
        (line_remaining S.all_bytes section.new) left.old left.new) }
    ensures damage { line_damage S.all_bytes section.new ≡ line_damage S.all_bytes section.old }
    ensures fails { IfErr result (IsReadError (LineReaderFails S.all_bytes S.fails_with section.old)) }
    ensures later { FailsOnly (LineReaderFails S.all_bytes S.fails_with section.new)
        (LineReaderFails S.all_bytes S.fails_with section.old) }
{
    let read = match read_some(section, buffer) {
        Ok(read) => read,
        Err(error) => return Err(Unread::Read(error)),
    };
    let Some(n) = read else {
        return Ok(Piece::Lost);
    };
    if n == 0 {
        return Ok(Piece::End);
    }
    if *left < n as u64 {
        return Ok(Piece::Lost);
    }
    *left -= n as u64;
    Ok(Piece::Bytes(&buffer[..n]))
}

/// All bytes of a section; None where they can't be had: its stream is damaged, or there are more than 2^32.
pub(crate) fn whole<M: Memory, S: ReadAt>(
    memory: &M,
    section: &mut LineReader<'_, S>,
) -> Result<Option<Vec<u8>>, Unread>
    ensures bytes { (source : _) (content : Content) → GivesLine S.all_bytes S.fails_with (S.fails_with source) section.old content
        → IfOk result (λ held. option_map (λ v. v.items) held ≡ bytes_had STRINGS_LIMIT content) }
    ensures fails { (source : _) (content : Content) → GivesLine S.all_bytes S.fails_with (S.fails_with source) section.old content
        → IfErr result (IsUnread (M.refuses memory.now) (length (bytes_of content)) (S.fails_with source)) }
{
    let mut left = STRINGS_LIMIT;
    let mut buffer = [0; PIECE];
    let mut bytes = Vec::new(memory.alloc());
    loop {
        match next_piece(section, &mut left, &mut buffer)? {
            Piece::Bytes(piece) => {
                let Ok(()) = memory.extend_from_slice(&mut bytes, piece) else {
                    return Err(Unread::NoMemory);
                };
            }
            Piece::End => return Ok(Some(bytes)),
            Piece::Lost => return Ok(None),
        }
    }
}
