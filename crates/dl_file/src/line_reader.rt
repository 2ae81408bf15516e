//! The bytes of a line section as a reader.
ghost use Rattle.std.specs.Prelude.{◌≡◌, IfSome, drop, option_map};
ghost use Rattle.std.specs.Io.Cursor.{cursor_inner, cursor_position};
ghost use Rattle.std.specs.Io.{ReadsAtMost};
ghost use Rattle.std.specs.Io.KnownBytes.{ReadConsumes};
ghost use Rattle.std.specs.declared.io.Error.{Error};
ghost use Rattle.dl_file.specs.Faults.{IsReadOf, Tells};
ghost use Rattle.dl_file.specs.ContentReader.{EndsBy};
ghost use Rattle.dl_file.specs.LineReader.{LineReaderFails, line_damage, line_fault, line_held, line_remaining};
ghost use Rattle.dl_file.specs.LineReader.{LineReaderFollows, LineReaderMayFail, LineReaderOver, line_stream};

use crate::content_reader::ContentReader;
use crate::read_fault::ReadFault;
use dl_elf::{ReadAt, SectionName};
use dl_input::Source;
use std::io;
use std::io::{Cursor, Read};

/// The bytes of a line section, from the first on.
#[derive(Drop)]
pub enum LineReader<'a, S: ReadAt> {
    /// They are read from the file as they are asked for.
    File(ContentReader<'a, S>),
    /// They are held in memory, those of an object file with their relocations applied.
    Held(Cursor<Vec<u8>>),
}

impl<'a, S: ReadAt> LineReader<'a, S> {
    /// The section's name where it is compressed and inflated as it is read; None else.
    pub fn stream_name(&self) -> Option<SectionName>
        ensures { result ≡ line_stream self.now }
    {
        match self {
            LineReader::File(reader) => reader.stream_name(),
            LineReader::Held(_) => None,
        }
    }

    /// The bytes that are left where they are held in memory; None where they are read from the file.
    pub fn held(&self) -> Option<&[u8]>
        ensures { option_map (λ bytes. bytes.now) result ≡ line_held self.now }
    {
        match self {
            LineReader::File(_) => None,
            LineReader::Held(bytes) => Some(rest_of(bytes)),
        }
    }

    /// Why the last read failed; None where it didn't, or there was none.
    pub fn last_fault(&self) -> Option<ReadFault>
        ensures { result ≡ line_fault self.now }
    {
        match self {
            LineReader::File(reader) => reader.last_fault(),
            LineReader::Held(_) => None,
        }
    }
}

/// The bytes from the cursor's place on.
fn rest_of(bytes: &Cursor<Vec<u8>>) -> &[u8]
    ensures { result.now ≡ drop (cursor_position bytes.entry.now) (cursor_inner bytes.entry.now).items }
{
    let all = bytes.get_ref().as_slice();
    let at = bytes.position();
    if at < all.len() as u64 {
        &all[at as usize..]
    } else {
        &[]
    }
}

impl<'a, S: ReadAt> Read for LineReader<'a, S> {
    ghost remaining = { line_remaining S.all_bytes };

    fn read(&mut self, buffer: &mut [u8]) -> io::Result<usize>
        ensures bound { ReadsAtMost result buffer.new }
        ensures bytes { ReadConsumes (line_remaining S.all_bytes self.old) (line_remaining S.all_bytes self.new)
            result buffer.new }
        ensures ends { EndsBy (line_damage S.all_bytes self.old) (line_remaining S.all_bytes self.new) (line_fault self.new)
            result buffer.new }
        ensures damage { line_damage S.all_bytes self.new ≡ line_damage S.all_bytes self.old }
        ensures fails { IfSome (line_fault self.new) (IsReadOf (LineReaderFails S.all_bytes S.fails_with self.old)) }
        ensures later { (error : Error) → LineReaderFails S.all_bytes S.fails_with self.new error
            → LineReaderFails S.all_bytes S.fails_with self.old error }
        ensures fault { Tells (line_fault self.new) result }
    {
        match self {
            LineReader::File(reader) => reader.read(buffer),
            LineReader::Held(bytes) => bytes.read(buffer),
        }
    }
}

impl<'a, S: ReadAt> Source for LineReader<'a, S> {
    ghost follows = { LineReaderFollows S.all_bytes S.fails_with };

    ghost fails = { LineReaderMayFail S.all_bytes S.fails_with };

    ghost over = { LineReaderOver S.all_bytes };

    fn read_next(&mut self, buffer: &mut [u8]) -> io::Result<usize> {
        self.read(buffer)
    }
}
