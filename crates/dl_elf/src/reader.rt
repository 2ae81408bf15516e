//! A section's bytes as a reader.
ghost use Rattle.std.specs.Prelude.{◌≡◌, ◌+◌, ◌<◌, ◌≤◌, length, take, drop, IfErr, None};
ghost use Rattle.std.specs.Io.{ReadsAtMost};
ghost use Rattle.std.specs.Result.{result_err};
ghost use Rattle.std.specs.IoError.{error_kind};
ghost use Rattle.std.specs.declared.io.Error.{Error};
ghost use Rattle.std.specs.Io.KnownBytes.{ReadConsumes};
ghost use Rattle.dl_elf.specs.Reader.{reader_left, reader_remaining, reader_error, RangeFails, ReaderFails, Takes, known_range};

use crate::source::{ReadAt, shorter};
use std::io;
use std::io::{ErrorKind, Read};

/// The bytes of a section, from the first on.
///
/// A read that is interrupted is not repeated here. A file that ends before the section does is an
/// error of the kind `UnexpectedEof`, never the section's end.
#[derive(Drop)]
pub struct SectionReader<'a, S> {
    source: &'a S,
    /// Where the next byte stands.
    offset: u64,
    /// How many bytes are left.
    left: u64,
    /// The error of the last read, where it failed.
    error: Option<io::Error>,
}

impl<'a, S: ReadAt> SectionReader<'a, S> {
    /// The `size` bytes from the offset on.
    pub fn new(source: &'a S, offset: u64, size: u64) -> SectionReader<'a, S>
        ensures bytes { reader_remaining S.all_bytes result ≡ known_range (S.all_bytes source.entry.now) offset size }
        ensures error { reader_error result ≡ None }
        ensures fails { (error : Error) → ReaderFails S.all_bytes S.fails_with result error
            → RangeFails S.all_bytes S.fails_with source.entry.now offset size error }
    {
        SectionReader {
            source,
            offset,
            left: size,
            error: None,
        }
    }

    /// The error of the last read; None where it didn't fail, or there was none.
    pub fn last_error(&self) -> Option<io::Error>
        ensures { result ≡ reader_error self.now }
    {
        self.error
    }

    /// Reads bytes into the front of the buffer, and moves after them.
    fn read_next(&mut self, buffer: &mut [u8]) -> io::Result<usize>
        ensures bound { ReadsAtMost result buffer.new }
        ensures bytes { ReadConsumes (reader_remaining S.all_bytes self.old)
            (reader_remaining S.all_bytes self.new) result buffer.new }
        ensures fails { IfErr result (ReaderFails S.all_bytes S.fails_with self.old) }
        ensures later { (error : Error) → ReaderFails S.all_bytes S.fails_with self.new error
            → ReaderFails S.all_bytes S.fails_with self.old error }
        ensures left { Takes (reader_left self.old) (reader_left self.new) result }
    {
        let room = shorter(buffer.len(), self.left);
        if room == 0 {
            return Ok(0);
        }
        let n = self.source.read_at(self.offset, &mut buffer[..room])?;
        if n == 0 {
            return Err(cut_off());
        }
        let Some(offset) = self.offset.checked_add(n as u64) else {
            return Err(cut_off());
        };
        self.offset = offset;
        self.left -= n as u64;
        Ok(n)
    }
}

/// The file ends before the section does.
fn cut_off() -> io::Error
    ensures { error_kind result ≡ ErrorKind.UnexpectedEof }
{
    io::Error::from(ErrorKind::UnexpectedEof)
}

impl<'a, S: ReadAt> Read for SectionReader<'a, S> {
    ghost remaining = { reader_remaining S.all_bytes };

    fn read(&mut self, buffer: &mut [u8]) -> io::Result<usize>
        ensures bound { ReadsAtMost result buffer.new }
        ensures bytes { ReadConsumes (reader_remaining S.all_bytes self.old)
            (reader_remaining S.all_bytes self.new) result buffer.new }
        ensures fails { IfErr result (ReaderFails S.all_bytes S.fails_with self.old) }
        ensures later { (error : Error) → ReaderFails S.all_bytes S.fails_with self.new error
            → ReaderFails S.all_bytes S.fails_with self.old error }
        ensures left { Takes (reader_left self.old) (reader_left self.new) result }
        ensures error { reader_error self.new ≡ result_err result }
    {
        let result = self.read_next(buffer);
        self.error = result.err();
        result
    }
}
