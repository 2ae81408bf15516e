//! The bytes that the stream of a compressed section inflates to, as a reader.
ghost use Rattle.dl_file.specs.InStep.{Follows};

use crate::read_fault::ReadFault;
use crate::stream_reader::{StreamReader, Told};
use dl_elf::{CompressionHeader, Range, ReadAt, SectionName, SectionReader};
use std::io;
use std::io::Read;

/// The bytes that the stream of a compressed section inflates to, from the first on. No more are held than the
/// stream may point back to, and nothing is allocated.
///
/// A stream that is damaged, cut short, or that inflates to more or fewer bytes than the section says is a fault
/// once the bytes before it were given, as many as the section says, and stays one. Bytes after the stream are
/// passed over.
#[derive(Drop)]
pub struct InflatedReader<'a, S: ReadAt> {
    /// The section's name.
    name: SectionName,
    source: &'a S,
    /// Where the stream stands in the file, and what follows it in the section.
    place: Range,
    told: Told,
    at: StreamReader<'a, S>,
    /// Why the last read failed, if it did.
    fault: Option<ReadFault>,
    ghost follows: { ∥ Follows S.all_bytes source.now place told at ∥₁ },
}

impl<'a, S: ReadAt> InflatedReader<'a, S> {
    ghost use Rattle.std.specs.Prelude.{◌≡◌, None, Some, true};
    ghost use Rattle.dl_elf.specs.Sections.{range_within};
    ghost use Rattle.dl_elf.specs.Source.{ForBytes};
    ghost use Rattle.dl_file.specs.Faults.{FailsOnly};
    ghost use Rattle.dl_file.specs.Inflating.{damage, inflated, stream_in};
    ghost use Rattle.dl_file.specs.ContentReader.{StreamFails, inflated_damage, inflated_left, inflated_name};
    ghost use Rattle.dl_file.specs.ContentReader.{inflated_remaining};
    ghost use Rattle.dl_file.specs.ContentReader.{stream_fault};

    /// The bytes of the section of this name that stands there, and begins with this header.
    pub(crate) fn new(
        source: &'a S,
        name: SectionName,
        range: Range,
        header: &CompressionHeader,
    ) -> InflatedReader<'a, S>
        ensures bytes { ForBytes (S.all_bytes source.entry.now) (λ f.
            inflated_remaining S.all_bytes result ≡ Some (inflated header.now (stream_in header.now range f))) }
        ensures damage { ForBytes (S.all_bytes source.entry.now) (λ f.
            inflated_damage S.all_bytes result ≡ Some (damage header.now range.size (stream_in header.now range f))) }
        ensures fault { stream_fault result ≡ None }
        ensures name { inflated_name result ≡ name }
        ensures left { inflated_left result ≡ header.now.size }
        ensures fails { ForBytes (S.all_bytes source.entry.now) (λ f. range_within range f ≡ true
            → FailsOnly (StreamFails S.all_bytes S.fails_with result) (S.fails_with source.entry.now)) }
    {
        let place = Range {
            offset: range.offset.saturating_add(header.stream_offset),
            size: range.size.saturating_sub(header.stream_offset),
        };
        let told = Told {
            header: *header,
            section_size: range.size,
        };
        let stream = SectionReader::new(source, place.offset, place.size);
        InflatedReader {
            name,
            source,
            place,
            told,
            at: StreamReader::new(&told, stream),
            fault: None,
        }
    }

    /// The section's name.
    pub fn name(&self) -> SectionName
        ensures { result ≡ inflated_name self.now }
    {
        self.name
    }

    /// Why the last read failed; None where it didn't, or there was none.
    pub fn last_fault(&self) -> Option<ReadFault>
        ensures { result ≡ stream_fault self.now }
    {
        self.fault
    }
}

impl<'a, S: ReadAt> Read for InflatedReader<'a, S> {
    ghost use Rattle.std.specs.Prelude.{◌≡◌, ◌+◌, IfOk, IfSome};
    ghost use Rattle.std.specs.Io.{ReadsAtMost};
    ghost use Rattle.std.specs.Io.KnownBytes.{ReadConsumes};
    ghost use Rattle.std.specs.declared.io.Error.{Error};
    ghost use Rattle.dl_file.specs.Faults.{IsReadOf, Tells};
    ghost use Rattle.dl_file.specs.ContentReader.{EndsBy, StreamFails, inflated_damage, inflated_left, inflated_name};
    ghost use Rattle.dl_file.specs.ContentReader.{inflated_remaining, stream_fault};

    ghost remaining = { inflated_remaining S.all_bytes };

    fn read(&mut self, buffer: &mut [u8]) -> io::Result<usize>
        ensures bound { ReadsAtMost result buffer.new }
        ensures bytes { ReadConsumes (inflated_remaining S.all_bytes self.old)
            (inflated_remaining S.all_bytes self.new) result buffer.new }
        ensures ends { EndsBy (inflated_damage S.all_bytes self.old) (inflated_remaining S.all_bytes self.new) (stream_fault self.new)
            result buffer.new }
        ensures damage { inflated_damage S.all_bytes self.new ≡ inflated_damage S.all_bytes self.old }
        ensures fails { IfSome (stream_fault self.new) (IsReadOf (StreamFails S.all_bytes S.fails_with self.old)) }
        ensures later { (error : Error) → StreamFails S.all_bytes S.fails_with self.new error
            → StreamFails S.all_bytes S.fails_with self.old error }
        ensures fault { Tells (stream_fault self.new) result }
        ensures name { inflated_name self.new ≡ inflated_name self.old }
        ensures left { IfOk result (λ n. inflated_left self.new + n ≡ inflated_left self.old) }
    {
        match self.at.read_next(&self.told, buffer) {
            Ok(n) => {
                self.fault = None;
                Ok(n)
            }
            Err(fault) => {
                self.fault = Some(fault);
                Err(fault.error())
            }
        }
    }
}
