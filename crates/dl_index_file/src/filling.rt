//! Numbers and bytes that stand at a place of a file.

ghost use Rattle.std.specs.Prelude.{◌≡◌, ◌+◌, ◌*◌, ◌<◌, ◌≤◌, ◌^◌, length, take, drop, IfOk, IfErr};
ghost use Rattle.dl_elf.specs.Elf.{bytes_at};
ghost use Rattle.dl_elf.specs.Source.{ForBytes};
ghost use Rattle.dl_index.specs.Columns.{number_at, size_of};
ghost use Rattle.dl_index_file.specs.Reading.{ReadFails};

use dl_elf::{Range, ReadAt, fill_whole};
use dl_index::{Numbers, Width};
use std::io;
use std::io::ErrorKind;

/// Fills a buffer with the bytes from an offset on. A file that ends before the buffer is full, though its header said
/// more, is an error of the kind `UnexpectedEof`.
pub fn fill_all<S: ReadAt>(source: &S, offset: u64, buffer: &mut [u8]) -> io::Result<()>
    requires some { 1 ≤ length buffer.old }
    requires within { ForBytes (S.all_bytes source.now) (λ b. offset + length buffer.old ≤ length b) }
    ensures bytes { ForBytes (S.all_bytes source.now) (λ b.
        IfOk result (λ _. buffer.new ≡ take (length buffer.old) (drop offset b))) }
    ensures fails { IfErr result (ReadFails (S.all_bytes source.now) (S.fails_with source.now)) }
{
    if fill_whole(source, offset, buffer)? {
        Ok(())
    } else {
        Err(io::Error::from(ErrorKind::UnexpectedEof))
    }
}

/// Fills a buffer with the bytes of a range, from this byte of it on.
pub fn fill_in<S: ReadAt>(source: &S, range: &Range, at: u64, buffer: &mut [u8]) -> io::Result<()>
    requires some { 1 ≤ length buffer.old }
    requires inside { at + length buffer.old ≤ range.now.size }
    requires below { range.now.offset + range.now.size < 2 ^ 64 }
    requires within { ForBytes (S.all_bytes source.now) (λ b. range.now.offset + range.now.size ≤ length b) }
    ensures bytes { ForBytes (S.all_bytes source.now) (λ b. IfOk result (λ _. buffer.new
        ≡ take (length buffer.old) (drop at (bytes_at range.now.offset range.now.size b)))) }
    ensures fails { IfErr result (ReadFails (S.all_bytes source.now) (S.fails_with source.now)) }
{
    fill_all(source, range.offset + at, buffer)
}

/// Number `k` of a column of this width, which fills a range.
pub fn number_at<S: ReadAt>(source: &S, column: &Range, width: Width, k: u64) -> io::Result<u64>
    requires inside { k * size_of width + size_of width ≤ column.now.size }
    requires below { column.now.offset + column.now.size < 2 ^ 64 }
    requires within { ForBytes (S.all_bytes source.now) (λ b. column.now.offset + column.now.size ≤ length b) }
    ensures value { ForBytes (S.all_bytes source.now) (λ b. IfOk result (λ n.
        n ≡ number_at (size_of width) (bytes_at column.now.offset column.now.size b) k)) }
    ensures fails { IfErr result (ReadFails (S.all_bytes source.now) (S.fails_with source.now)) }
{
    let mut buffer = [0; 8];
    let size = width.size();
    fill_in(source, column, k * size as u64, &mut buffer[..size])?;
    let numbers = Numbers {
        bytes: &buffer[..size],
        width,
        len: 1,
    };
    Ok(numbers.get(0))
}
