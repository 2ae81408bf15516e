//! The bytes of a section as a reader, be they compressed or not.
ghost use Rattle.std.specs.Prelude.{◌≡◌, IfErr, IfOk, IfSome, Some, true, option_and_then, option_map};
ghost use Rattle.std.specs.Io.{ReadsAtMost};
ghost use Rattle.std.specs.Io.KnownBytes.{ReadConsumes};
ghost use Rattle.std.specs.declared.io.Error.{Error};
ghost use Rattle.dl_elf.specs.Source.{ForBytes};
ghost use Rattle.dl_elf.specs.Answers.{IfRead, IfRefused};
ghost use Rattle.dl_elf.specs.Sections.{range_within, section_range};
ghost use Rattle.dl_file.specs.Answering.{IsChecked, WantsMemory};
ghost use Rattle.dl_file.specs.Faults.{IsReadOf, Tells};
ghost use Rattle.dl_file.specs.ContentReader.{ContentFails, EndsBy, content_damage, content_fault, content_remaining};
ghost use Rattle.dl_file.specs.ContentReader.{ContentFollows, ContentMayFail, ContentOver, stream_name};
ghost use Rattle.dl_file.specs.LineTable.{Gives, HasStream, content_of, refused, with_stream};
ghost use Rattle.dl_memory.specs.Refusals.{IsRefused, WasRefused};

use crate::inflated_reader::InflatedReader;
use crate::read_fault::ReadFault;
use dl_elf::{
    Compression, CompressionHeader, Elf, ElfFault, NamedSection, ReadAt, SectionName,
    SectionReader, compression_header, section_range,
};
use dl_input::Source;
use dl_memory::Memory;
use std::io;
use std::io::Read;

/// A section that isn't compressed otherwise than with zlib.
#[derive(Clone, Copy)]
pub struct Readable {
    pub section: NamedSection,
    /// What the bytes before its stream say; None where it isn't compressed.
    pub stream: Option<CompressionHeader>,
}

impl Readable {
    /// The section; `Compressed` where it is compressed otherwise.
    pub fn new<S: ReadAt>(
        source: &S,
        elf: &Elf,
        section: NamedSection,
    ) -> Result<Readable, ElfFault>
        ensures checked { ForBytes (S.all_bytes source.now)
            (λ f. IsChecked (refused elf.now f section) (with_stream elf.now f section) result) }
        ensures read { IfRead (S.fails_with source.now) result }
    {
        let stream = compression_header(source, elf, &section)?;
        match stream.map_or(Compression::Zlib, |header| header.method) {
            Compression::Zlib => Ok(Readable { section, stream }),
            method => Err(ElfFault::Compressed(section.name, method)),
        }
    }

    /// The same where there is a section.
    pub fn optional<S: ReadAt>(
        source: &S,
        elf: &Elf,
        section: Option<NamedSection>,
    ) -> Result<Option<Readable>, ElfFault>
        ensures checked { ForBytes (S.all_bytes source.now) (λ f.
            IsChecked (option_and_then (refused elf.now f) section) (option_map (with_stream elf.now f) section) result) }
        ensures read { IfRead (S.fails_with source.now) result }
    {
        match section {
            Some(section) => Ok(Some(Readable::new(source, elf, section)?)),
            None => Ok(None),
        }
    }
}

/// The bytes of a section, from the first on.
#[derive(Drop)]
pub enum ContentReader<'a, S: ReadAt> {
    /// They stand in the file as they are.
    Plain(SectionReader<'a, S>),
    /// The section is compressed.
    Inflated(Box<InflatedReader<'a, S>>),
}

impl<'a, S: ReadAt> ContentReader<'a, S> {
    /// Those of a section that lies in the file. Nothing of it is read yet.
    ///
    /// `NoMemory` where the section is compressed and memory for its stream is refused.
    pub(crate) fn open<M: Memory>(
        memory: &M,
        source: &'a S,
        readable: &Readable,
    ) -> Result<ContentReader<'a, S>, ElfFault>
        requires within { ForBytes (S.all_bytes source.now)
            (λ f. range_within (section_range readable.now.section.header) f ≡ true) }
        ensures opens { ForBytes (S.all_bytes source.entry.now) (λ f. IfOk result (λ reader.
            Gives S.all_bytes S.fails_with (S.fails_with source.entry.now) reader (content_of f readable.now))) }
        ensures memory { IfErr result (WantsMemory (HasStream (Some readable.now))) }
        ensures refused { IfRefused (WasRefused (M.refuses memory.now)) result }
        ensures most { IfRefused (IsRefused (M.refuses memory.now) 1) result }
    {
        let range = section_range(&readable.section.header);
        let Some(header) = readable.stream else {
            let reader = SectionReader::new(source, range.offset, range.size);
            return Ok(ContentReader::Plain(reader));
        };
        match memory.boxed(InflatedReader::new(source, readable.section.name, range, &header)) {
            Ok(reader) => Ok(ContentReader::Inflated(reader)),
            Err(_) => Err(ElfFault::NoMemory),
        }
    }

    /// The name of the section where it is compressed; None where it isn't.
    pub fn stream_name(&self) -> Option<SectionName>
        ensures { result ≡ stream_name self.now }
    {
        match self {
            ContentReader::Plain(_) => None,
            ContentReader::Inflated(reader) => Some(reader.name()),
        }
    }

    /// Why the last read failed; None where it didn't, or there was none.
    pub fn last_fault(&self) -> Option<ReadFault>
        ensures { result ≡ content_fault self.now }
    {
        match self {
            ContentReader::Plain(reader) => Some(ReadFault::Read(reader.last_error()?)),
            ContentReader::Inflated(reader) => reader.last_fault(),
        }
    }
}

impl<'a, S: ReadAt> Read for ContentReader<'a, S> {
    ghost remaining = { content_remaining S.all_bytes };

    fn read(&mut self, buffer: &mut [u8]) -> io::Result<usize>
        ensures bound { ReadsAtMost result buffer.new }
        ensures bytes { ReadConsumes (content_remaining S.all_bytes self.old)
            (content_remaining S.all_bytes self.new) result buffer.new }
        ensures ends { EndsBy (content_damage S.all_bytes self.old) (content_remaining S.all_bytes self.new) (content_fault self.new)
            result buffer.new }
        ensures damage { content_damage S.all_bytes self.new ≡ content_damage S.all_bytes self.old }
        ensures fails { IfSome (content_fault self.new) (IsReadOf (ContentFails S.all_bytes S.fails_with self.old)) }
        ensures later { (error : Error) → ContentFails S.all_bytes S.fails_with self.new error
            → ContentFails S.all_bytes S.fails_with self.old error }
        ensures fault { Tells (content_fault self.new) result }
    {
        match self {
            ContentReader::Plain(reader) => reader.read(buffer),
            ContentReader::Inflated(reader) => reader.as_mut().read(buffer),
        }
    }
}

impl<'a, S: ReadAt> Source for ContentReader<'a, S> {
    ghost follows = { ContentFollows S.all_bytes S.fails_with };

    ghost fails = { ContentMayFail S.all_bytes S.fails_with };

    ghost over = { ContentOver S.all_bytes };

    fn read_next(&mut self, buffer: &mut [u8]) -> io::Result<usize> {
        self.read(buffer)
    }
}
