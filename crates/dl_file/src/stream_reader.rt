//! The stream of a compressed section, read and inflated.
ghost use Rattle.std.specs.Prelude.{◌≡◌, ◌≤◌, ◌<◌, ◌+◌, ◌-◌, ℕ, List, Ok, IfOk, length, take, drop};
ghost use Rattle.dl_zlib.specs.Feeding.{FeedIs};
ghost use Rattle.dl_zlib.specs.Progress.{Costs};
ghost use Rattle.dl_zlib.specs.StreamStands.{StandsFor};
ghost use Rattle.dl_file.specs.Inflates.{Inflates};

use crate::read_fault::ReadFault;
use dl_elf::{CompressionHeader, ReadAt, SectionReader};
use dl_zlib::{Event, Fed, Inflate};
use std::io::Read;

/// How many bytes of the stream are read at a time.
const PIECE: usize = 32768;

/// Feeds the bytes of a piece from one place on up to another.
fn feed(inflate: &mut Inflate, piece: &[u8; PIECE], start: usize, end: usize) -> Fed
    requires order { start ≤ end }
    requires within { end ≤ 32768 }
    ensures used { start + result.used ≤ end }
    ensures all { result.event ≡ Event.More → start + result.used ≡ end }
    ensures fed { (bytes gone : List ℕ) → StandsFor inflate.old bytes gone
        → FeedIs bytes gone (take (end - start) (drop start piece.now)) result inflate.old inflate.new }
    ensures costs { Costs inflate.old result.used inflate.new }
{
    inflate.feed(&piece[start..end])
}

/// What a section says of its stream.
#[derive(Clone, Copy)]
pub struct Told {
    pub header: CompressionHeader,
    /// How many bytes the section has in the file.
    pub section_size: u64,
}

/// What a part of the stream came to.
#[derive(Clone, Copy)]
pub enum Progress {
    /// There may be more bytes.
    Onward,
    /// The stream has ended, and all bytes were given.
    Ended,
}

/// The stream of a compressed section, as far as it was read.
#[derive(Drop)]
pub struct StreamReader<'a, S> {
    /// The stream, as far as it wasn't read.
    stream: SectionReader<'a, S>,
    /// Bytes of the stream; those from `fed` up to `filled` weren't fed yet.
    piece: [u8; PIECE],
    fed: usize,
    filled: usize,
    inflate: Inflate,
    /// How many bytes of the output that waits were given.
    given: usize,
    /// How many bytes are to come.
    left: u64,
    /// Whether the stream has inflated to more bytes than the section says.
    is_over: bool,
    ghost in_order: { fed ≤ filled },
    ghost within: { filled ≤ 32768 },
    ghost inflates: { ∥ Inflates inflate ∥₁ },
}

impl<'a, S: ReadAt> StreamReader<'a, S> {
    ghost use Rattle.std.specs.Prelude.{Some, ◌^◌, ◌++◌, [], ◌⊎◌, IfErr, false, true};
    ghost use Rattle.dl_file.specs.declared.read_fault.ReadFault.TheVariants.{DamagedStream};
    ghost use Rattle.dl_zlib.specs.StreamStands.{waiting};
    ghost use Rattle.dl_file.specs.declared.stream_reader.Told.{Told};
    ghost use Rattle.std.specs.declared.io.Error.{Error};
    ghost use Rattle.dl_elf.specs.Reader.{ReaderFails, reader_remaining};
    ghost use Rattle.dl_file.specs.Faults.{IsReadOf};
    ghost use Rattle.dl_file.specs.InStep.{AllGiven, ComesTo, GivesNext, IsFed, NextIs, PieceIs, StandsAt, StandsIn, worth};

    /// At the beginning of the stream.
    pub fn new(told: &Told, stream: SectionReader<'a, S>) -> StreamReader<'a, S>
        ensures stands { (b : List ℕ) → reader_remaining S.all_bytes stream.entry ≡ Some b
            → length b ≤ told.now.section_size - told.now.header.stream_offset → told.now.section_size < 2 ^ 64
            → StandsIn S.all_bytes told.now result b }
        ensures left { result.left ≡ told.now.header.size }
        ensures stream { result.stream ≡ stream.entry }
    {
        StreamReader {
            stream,
            piece: [0; PIECE],
            fed: 0,
            filled: 0,
            inflate: Inflate::new(),
            given: 0,
            left: told.header.size,
            is_over: false,
        }
    }

    /// Reads the next piece of the stream, of which all bytes were fed.
    fn read_piece(&mut self, told: &Told) -> Result<(), ReadFault>
        requires { self.old.fed ≡ self.old.filled }
        ensures stands { (b bytes gone : List ℕ) → StandsAt S.all_bytes told.now self.old b bytes gone
            → StandsAt S.all_bytes told.now self.new b bytes gone }
        ensures piece { (b bytes gone : List ℕ) → StandsAt S.all_bytes told.now self.old b bytes gone
            → PieceIs told.now b bytes result }
        ensures left { self.new.left ≡ self.old.left }
        ensures worth { IfOk result (λ done. worth self.new < worth self.old) }
        ensures fails { IfErr result (IsReadOf (ReaderFails S.all_bytes S.fails_with self.old.stream)) }
        ensures later { (error : Error) → ReaderFails S.all_bytes S.fails_with self.new.stream error
            → ReaderFails S.all_bytes S.fails_with self.old.stream error }
    {
        let n = self.stream.read(&mut self.piece)?;
        if n == 0 {
            return Err(ReadFault::DamagedStream(told.section_size));
        }
        self.fed = 0;
        self.filled = n;
        Ok(())
    }

    /// Lets the output go, of which all that is to be given was.
    fn take(&mut self)
        requires { AllGiven self.old }
        ensures stands { (told : Told) → (b bytes gone : List ℕ) → StandsAt S.all_bytes told self.old b bytes gone
            → StandsAt S.all_bytes told self.new b bytes (gone ++ waiting self.old.inflate) }
        ensures given { self.new.given ≡ 0 }
        ensures left { self.new.left ≡ self.old.left }
        ensures worth { worth self.new ≡ worth self.old }
        ensures output { waiting self.new.inflate ≡ [] }
        ensures stream { self.new.stream ≡ self.old.stream }
    {
        self.is_over |= self.given < self.inflate.output().len();
        self.inflate.take();
        self.given = 0;
    }

    /// Feeds bytes of the piece, where all output that is to be given was.
    fn feed_piece(&mut self) -> Event
        requires { AllGiven self.old }
        ensures fed { (told : Told) → (b : List ℕ) → StandsIn S.all_bytes told self.old b
            → IsFed S.all_bytes told self.new b result }
        ensures all { result ≡ Event.More → self.new.fed ≡ self.new.filled }
        ensures left { self.new.left ≡ self.old.left }
        ensures worth { worth self.new ≤ worth self.old }
        ensures output { 0 < length (waiting self.new.inflate) → worth self.new < worth self.old }
        ensures full { result ≡ Event.Full → 0 < length (waiting self.new.inflate) }
        ensures stream { self.new.stream ≡ self.old.stream }
    {
        self.take();
        let fed = feed(&mut self.inflate, &self.piece, self.fed, self.filled);
        self.fed += fed.used;
        fed.event
    }

    /// Inflates up to the next bytes, where all that are to be given were.
    fn advance(&mut self, told: &Told) -> Result<Progress, ReadFault>
        requires { AllGiven self.old }
        ensures comes { (b : List ℕ) → StandsIn S.all_bytes told.now self.old b
            → StandsIn S.all_bytes told.now self.new b × ComesTo told.now b self.new.left result }
        ensures left { self.new.left ≡ self.old.left }
        ensures ended { result ≡ Ok Progress.Ended → self.new.left ≡ 0 }
        ensures worth { result ≡ Ok Progress.Onward → worth self.new < worth self.old }
        ensures fails { IfErr result (IsReadOf (ReaderFails S.all_bytes S.fails_with self.old.stream)) }
        ensures later { (error : Error) → ReaderFails S.all_bytes S.fails_with self.new.stream error
            → ReaderFails S.all_bytes S.fails_with self.old.stream error }
    {
        let event = self.feed_piece();
        if !self.inflate.output().is_empty() {
            return Ok(Progress::Onward);
        }
        match event {
            Event::Full => Ok(Progress::Onward),
            Event::More => {
                self.read_piece(told)?;
                Ok(Progress::Onward)
            }
            Event::End => self.end(told),
            Event::Damaged(at) => Err(ReadFault::DamagedStream(
                told.header.stream_offset.saturating_add(at),
            )),
        }
    }

    /// The end of the stream, of which all output was taken.
    fn end(&self, told: &Told) -> Result<Progress, ReadFault>
        ensures whole { result ≡ Ok Progress.Ended → (self.now.left ≡ 0) × (self.now.is_over ≡ false) }
        ensures other { IfErr result (λ fault. (fault ≡ DamagedStream told.now.header.size_offset)
            × ((1 ≤ self.now.left) ⊎ (self.now.is_over ≡ true))) }
        ensures no_more { result ≡ Ok Progress.Onward → ⊥ }
    {
        if self.left == 0 && !self.is_over {
            Ok(Progress::Ended)
        } else {
            Err(ReadFault::DamagedStream(told.header.size_offset))
        }
    }

    /// Puts bytes that wait into the front of the buffer, and answers how many.
    fn give(&mut self, buffer: &mut [u8]) -> usize
        ensures bound { result ≤ length buffer.new }
        ensures gives { (told : Told) → (b : List ℕ) → StandsIn S.all_bytes told self.old b
            → StandsIn S.all_bytes told self.new b
            × GivesNext told b self.old.left self.new.left (take result buffer.new) }
        ensures left { self.new.left + result ≡ self.old.left }
        ensures all { result ≡ 0 → 0 < length buffer.new → AllGiven self.new }
        ensures worth { worth self.new ≡ worth self.old }
        ensures stream { self.new.stream ≡ self.old.stream }
    {
        let Some(waiting) = self.inflate.output().get(self.given..) else {
            return 0;
        };
        let n = waiting.len().min(buffer.len()).min(self.left as usize);
        buffer[..n].copy_from_slice(&waiting[..n]);
        self.given += n;
        self.left -= n as u64;
        n
    }

    /// Reads bytes into the front of the buffer.
    pub fn read_next(&mut self, told: &Told, buffer: &mut [u8]) -> Result<usize, ReadFault>
        ensures bound { IfOk result (λ n. n ≤ length buffer.new) }
        ensures next { (b : List ℕ) → StandsIn S.all_bytes told.now self.old b
            → StandsIn S.all_bytes told.now self.new b
            × NextIs told.now b self.old.left self.new.left result buffer.new }
        ensures left { IfOk result (λ n. self.new.left + n ≡ self.old.left) }
        ensures fails { IfErr result (IsReadOf (ReaderFails S.all_bytes S.fails_with self.old.stream)) }
        ensures later { (error : Error) → ReaderFails S.all_bytes S.fails_with self.new.stream error
            → ReaderFails S.all_bytes S.fails_with self.old.stream error }
    {
        if buffer.is_empty() {
            return Ok(0);
        }
        loop {
            let n = self.give(buffer);
            if n > 0 {
                return Ok(n);
            }
            match self.advance(told)? {
                Progress::Onward => {}
                Progress::Ended => return Ok(0),
            }
        }
    }
}
