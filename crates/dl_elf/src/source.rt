//! Where a file's bytes come from.
ghost use Rattle.std.specs.Prelude.{◌<◌, ◌≤◌, ℕ, List, None, Option, ◌≡◌, length, drop, min, IfOk, IfErr};
ghost use Rattle.std.specs.Io.{ReadsAtMost};
ghost use Rattle.std.specs.IoError.{error_kind};
ghost use Rattle.std.specs.declared.io.Error.{Error};
ghost use Rattle.dl_elf.specs.Source.{ReadsFrom, FillsFrom, FilledFrom, ForBytes};
ghost use Rattle.dl_elf.specs.Sections.{lies_within};

use crate::interruptions::Borne;
use std::fs::File;
use std::io;
use std::io::{AsBytes, Cursor, ErrorKind};
use std::os::unix::fs::FileExt;

/// Bytes that can be read at any offset, as those of a file. A read moves nothing, so several
/// readers can share one source.
pub trait ReadAt {
    /// All the bytes, where they are known.
    ghost all_bytes: { Self → Option (List ℕ) } = { λ _. None };

    /// The errors that its reads may give.
    ghost fails_with: { Self → Error → Type 0 } = { λ _ _. Unit {0} };

    /// Reads bytes from the offset on into the front of the buffer, and answers how many; 0 only at
    /// the end or where the buffer is empty.
    fn read_at(&self, offset: u64, buffer: &mut [u8]) -> io::Result<usize>
        ensures bound { ReadsAtMost result buffer.new }
        ensures bytes { ReadsFrom (all_bytes self.now) offset result buffer.new }
        ensures fails { IfErr result (fails_with self.now) };
}

/// How many bytes a file can have: the system's offsets are signed numbers of 64 bits, and it refuses a read that
/// reaches past them.
const LONGEST: u64 = 0x7fff_ffff_ffff_ffff;

impl ReadAt for File {
    fn read_at(&self, offset: u64, buffer: &mut [u8]) -> io::Result<usize> {
        let room = shorter(buffer.len(), LONGEST.saturating_sub(offset));
        if room == 0 {
            return Ok(0);
        }
        FileExt::read_at(self, &mut buffer[..room], offset)
    }
}

impl<T: AsBytes> ReadAt for Cursor<T> {
    ghost use Rattle.dl_elf.specs.Source.{cursor_bytes};

    ghost all_bytes = { cursor_bytes T.bytes };

    ghost fails_with = { λ _ _. ⊥ };

    fn read_at(&self, offset: u64, buffer: &mut [u8]) -> io::Result<usize> {
        let all = self.get_ref().as_byte_slice();
        let rest = bytes_from(all, offset);
        let n = rest.len().min(buffer.len());
        buffer[..n].copy_from_slice(&rest[..n]);
        Ok(n)
    }
}

/// The bytes from the offset on; none past the end.
fn bytes_from(all: &[u8], offset: u64) -> &[u8]
    ensures { result.now ≡ drop offset all.entry.now }
{
    if offset < all.len() as u64 {
        &all[offset as usize..]
    } else {
        &[]
    }
}

/// One read, which is repeated where it was interrupted; the interruptions that were borne are counted.
fn read_some<S: ReadAt>(
    source: &S,
    offset: u64,
    buffer: &mut [u8],
    borne: &mut Borne,
) -> io::Result<usize>
    requires { borne.old.count ≤ 1000 }
    ensures bound { ReadsAtMost result buffer.new }
    ensures bytes { ReadsFrom (S.all_bytes source.now) offset result buffer.new }
    ensures fails { IfErr result (S.fails_with source.now) }
    ensures repeats { IfErr result (λ e. error_kind e ≡ ErrorKind.Interrupted → borne.new.count ≡ 1000) }
{
    loop {
        match source.read_at(offset, buffer) {
            Ok(n) => return Ok(n),
            Err(error) => {
                if !borne.bears(&error) {
                    return Err(error);
                }
                borne.bear(error);
            }
        }
    }
}

/// Reads from the offset on until the buffer is full or the bytes end, and answers how many bytes
/// came.
pub fn fill<S: ReadAt>(source: &S, offset: u64, buffer: &mut [u8]) -> io::Result<usize>
    ensures bound { ReadsAtMost result buffer.new }
    ensures bytes { FillsFrom (S.all_bytes source.now) offset result buffer.new }
    ensures fails { IfErr result (S.fails_with source.now) }
{
    let mut filled = 0;
    while filled < buffer.len() {
        let Some(at) = offset.checked_add(filled as u64) else {
            return Ok(filled);
        };
        let n = read_some(source, at, &mut buffer[filled..], &mut Borne::none())?;
        if n == 0 {
            return Ok(filled);
        }
        filled += n;
    }
    Ok(filled)
}

/// Fills the buffer with the bytes from the offset on; false where they end before it is full.
pub fn fill_whole<S: ReadAt>(source: &S, offset: u64, buffer: &mut [u8]) -> io::Result<bool>
    requires { 1 ≤ length buffer.old }
    ensures bytes { IfOk result (λ whole. FilledFrom (S.all_bytes source.now) offset whole buffer.new) }
    ensures fails { IfErr result (S.fails_with source.now) }
{
    let n = fill(source, offset, buffer)?;
    Ok(n == buffer.len())
}

/// Whether this many bytes from the offset on lie in the file.
pub fn lies_within<S: ReadAt>(source: &S, offset: u64, size: u64) -> io::Result<bool>
    ensures within { ForBytes (S.all_bytes source.now) (λ f.
        IfOk result (λ b. b ≡ lies_within offset size f)) }
    ensures fails { IfErr result (S.fails_with source.now) }
{
    if size == 0 {
        return Ok(true);
    }
    let Some(last) = offset.checked_add(size - 1) else {
        return Ok(false);
    };
    let mut byte = [0];
    let n = fill(source, last, &mut byte)?;
    Ok(n == 1)
}

/// The smaller number.
pub fn shorter(len: usize, left: u64) -> usize
    ensures { result ≡ min len left }
{
    if (len as u64) < left {
        len
    } else {
        left as usize
    }
}
