//! The header of a unit, byte by byte. Section 6.2.4.

ghost use Rattle.dl_memory.specs.Refusals.{SystemRefuses, WasRefused};
ghost use Rattle.std.specs.Prelude.{◌≡◌, ◌≢◌, ◌-◌, ◌≤◌, ◌^◌, ℕ, List, [], true, false, length, min, IfSome, IsTrue, Some};
ghost use Rattle.dl_head.specs.Header.{unit_len};
ghost use Rattle.dl_head.specs.Cells.{cells};
ghost use Rattle.std.specs.Option.{option_copied};
ghost use Rattle.dl_num.specs.Fixed.{is_number_size};
ghost use Rattle.dl_head.specs.Built.{is_version};
ghost use Rattle.dl_head.specs.HeadStep.{AreStandard, end_near, formats_fit, lengths_fit, operations_fit, tables_fit};
ghost use Rattle.dl_table.specs.TableCells.{table_cells};
ghost use Rattle.dl_head.specs.TableSpelt.{TableStands};
ghost use Rattle.dl_head.specs.ListSpelt.{ListReads};
ghost use Rattle.std.proofs.Props.{props};

mod byte_field;
mod fields;
mod lengths;
mod offer;
mod tables;

use crate::dialect::Dialect;
use crate::fault::Fault;
use crate::header::{Header, HeaderLengths};
use crate::sizes::{fixed_part, initial_size};
use byte_field::ByteField;
use dl_field::{FieldStep, ListKind, ListReader, Params, TableReader};
use dl_num::PartialNumber;
use dl_table::{FaultKind, Format, Table};
use std::alloc::Global;
use std::mem;

/// What a step of the header reader answers.
#[derive(Clone, Copy, Debug, PartialEq, Eq)]
pub enum HeadStep {
    /// The byte is taken, and the header goes on.
    More,
    /// With the version's second byte: the unit is of this version, which isn't read.
    Foreign(u16),
    /// With the header's last byte by header_length.
    Done,
    /// Memory was refused; the byte isn't taken, and nothing has changed.
    NoMemory,
    /// With the byte that decides it.
    Fault(Fault),
}

/// What the next byte of a header is part of.
#[derive(Clone, Copy)]
enum Phase {
    UnitLength(PartialNumber),
    /// The eight bytes after 0xffffffff.
    LongUnitLength(PartialNumber),
    Version,
    /// The version's second byte, after this one.
    VersionEnd(u8),
    HeaderLength(PartialNumber),
    Byte(ByteField),
    /// The length of the next standard opcode.
    OpcodeLength,
    Directories,
    Files,
    /// The tables of versions 2 to 4.
    OlderDirectories,
    OlderFiles,
    /// Bytes between the last entry and the header's end.
    Padding,
    Done,
    Foreign(u16),
    Failed(Fault),
}

impl Phase {
    ghost use Rattle.dl_head.specs.Whole.{in_table};

    #[inline(always)]
    fn is_table(&self) -> bool
        ensures { result ≡ in_table self.now }
    {
        matches!(
            self,
            Phase::Directories | Phase::Files | Phase::OlderDirectories | Phase::OlderFiles
        )
    }
}

/// A reader of the header of a unit, whose bytes come one at a time.
#[derive(Drop)]
pub struct HeadReader {
    alloc: Global,
    dialect: Dialect,
    phase: Phase,
    params: Params,
    unit_length: u64,
    /// Where the unit ends, and from header_length on where the header does.
    end: Option<u64>,
    /// What is wrong where that end comes inside a field.
    overrun: FaultKind,
    /// Where the field begins.
    start: u64,
    taken: u64,
    /// The current table.
    table: TableReader,
    /// The current table of versions 2 to 4.
    list: ListReader,
    directories: Table,
    files: Table,
    /// The header, once it is complete.
    header: Option<Header>,
    ghost short: { unit_length ≤ 2 ^ 40 },
    ghost near: { end_near end ≡ true },
    ghost address_size: { is_number_size params.address_size ≡ true },
    ghost version: { is_version params.version ≡ true },
    ghost operations: { operations_fit phase params.version params.maximum_operations_per_instruction ≡ true },
    ghost lines: { 1 ≤ params.line_range },
    ghost lengths: { lengths_fit phase (length params.lengths.items) params.opcode_base ≡ true },
    ghost tables: { tables_fit phase (table_cells directories) (table_cells files) ≡ true },
    ghost formats: { formats_fit phase params.format directories.format files.format ≡ true },
    ghost standard: { AreStandard params.lengths.items } by { Prim.hlevel props },
    ghost read: { ∥ TableStands phase dialect.order params.format table ∥₁ },
    ghost listed: { ∥ ListReads list ∥₁ },
}

impl HeadReader {
    ghost use Rattle.dl_field.specs.declared.field_step.FieldStep.TheVariants as byte_makes;
    ghost use Rattle.dl_head.specs.declared.reader.Phase.TheVariants as phase;
    ghost use Rattle.dl_head.specs.declared.reader.HeadStep.TheVariants as answer;
    ghost use Rattle.dl_head.specs.Place.{Keeps, PushFollows};
    ghost use Rattle.dl_head.specs.Standing.{StandsFor, Settles, Fails, Completes, ending};
    ghost use Rattle.dl_head.specs.Reading.{Answers, Steps, Gives, GivesLengths};
    ghost use Rattle.dl_head.specs.Whole.{in_table, IsFront, Pushed, Advances};

    /// No byte yet of a header of this dialect. It takes no memory.
    pub fn new(alloc: Global, dialect: Dialect) -> HeadReader
        ensures stands { StandsFor result [] }
        ensures dialect { result.dialect ≡ dialect }
    {
        HeadReader {
            alloc,
            dialect,
            phase: Phase::UnitLength(PartialNumber::new(4)),
            params: Params::least(Format::Dwarf32),
            unit_length: 0,
            end: None,
            overrun: FaultKind::UnitOverrun,
            start: 0,
            taken: 0,
            table: TableReader::new(alloc),
            list: ListReader::new(alloc, ListKind::Directories),
            directories: Table::without_pairs(alloc, Format::Dwarf32),
            files: Table::without_pairs(alloc, Format::Dwarf32),
            header: None,
        }
    }

    /// Takes the next byte, save where it answers NoMemory, or answered Done, Foreign or a fault
    /// before; it then answers the same again.
    pub fn step(&mut self, byte: u8) -> HeadStep
        ensures steps { (b : List ℕ) → StandsFor self.old b → Steps self.old.dialect b byte result self.new }
        ensures dialect { self.new.dialect ≡ self.old.dialect }
        ensures refused { result ≡ answer.NoMemory → WasRefused SystemRefuses }
    {
        match self.ended() {
            Some(last) => last,
            None => self.advance(&[byte]).1,
        }
    }

    /// What the bytes taken have come to; None while the header goes on.
    fn ended(&self) -> Option<HeadStep>
        ensures { result ≡ ending self.now.phase }
    {
        match self.phase {
            Phase::Done => Some(HeadStep::Done),
            Phase::Foreign(version) => Some(HeadStep::Foreign(version)),
            Phase::Failed(fault) => Some(HeadStep::Fault(fault)),
            _ => None,
        }
    }

    /// How many bytes were taken.
    pub fn taken(&self) -> u64
        ensures { (b : List ℕ) → StandsFor self.now b → result ≡ length b }
    {
        self.taken
    }

    /// The unit's bytes, its initial length included, once that is read.
    pub fn unit_len(&self) -> Option<u64>
        ensures unit { (b : List ℕ) → StandsFor self.now b → result ≡ unit_len self.now.dialect b }
        ensures within { (b : List ℕ) → StandsFor self.now b → IfSome result (λ n. length b ≤ n) }
    {
        match self.end {
            Some(_) => Some(initial_size(self.params.format) + self.unit_length),
            None => None,
        }
    }

    /// How many pairs, values, and bytes of texts and blocks are held; 2^64 - 1 where there are
    /// more.
    pub fn cells(&self) -> u64
        ensures { (b : List ℕ) → StandsFor self.now b → result ≡ min (cells self.now.dialect b) (2 ^ 64 - 1) }
    {
        match &self.header {
            Some(header) => header.cells(),
            None => self
                .directories
                .cells()
                .saturating_add(self.files.cells())
                .saturating_add(self.table.cells())
                .saturating_add(self.list.cells()),
        }
    }

    /// The header, from Done on.
    pub fn header(&self) -> Option<&Header>
        ensures { Gives self.now.dialect self.now (option_copied result) }
    {
        self.header.as_ref()
    }

    /// The header, from Done on.
    pub fn into_header(self) -> Option<Header>
        ensures { Gives self.dialect self result }
    {
        self.header
    }

    /// How long the unit and its header are, from Done on.
    pub fn lengths(&self) -> Option<HeaderLengths>
        ensures { GivesLengths self.now.dialect self.now result }
    {
        let Some(header) = self.header() else {
            return None;
        };
        let params = header.params();
        let initial = initial_size(params.format);
        let fixed = fixed_part(params.format, params.version);
        Some(HeaderLengths {
            unit_length: self.unit_len().unwrap_or(0).saturating_sub(initial),
            header_length: self.taken.saturating_sub(initial).saturating_sub(fixed),
            padding: self.taken.saturating_sub(self.start),
        })
    }

    /// What the bytes come to that were taken.
    fn settle(&mut self) -> HeadStep
        ensures settles { Settles self.old result self.new }
        ensures dialect { self.new.dialect ≡ self.old.dialect }
    {
        match self.phase {
            Phase::Foreign(version) => HeadStep::Foreign(version),
            _ if !self.is_at_end() => HeadStep::More,
            Phase::Padding => {
                self.complete();
                HeadStep::Done
            }
            _ => self.fail(self.overrun),
        }
    }

    /// Whether the bytes taken go up to the end that is known.
    fn is_at_end(&self) -> bool
        ensures ended { IsTrue result → self.now.end ≡ Some self.now.taken }
        ensures before { result ≡ false → self.now.end ≢ Some self.now.taken }
    {
        self.end == Some(self.taken)
    }

    fn fail(&mut self, kind: FaultKind) -> HeadStep
        ensures { Fails self.old kind result self.new }
    {
        let fault = Fault {
            offset: self.start,
            kind,
        };
        self.phase = Phase::Failed(fault);
        HeadStep::Fault(fault)
    }

    /// Makes the header of all that was read.
    fn complete(&mut self)
        requires { self.old.phase ≡ phase.Padding }
        ensures { Completes self.old self.new }
    {
        let format = self.params.format;
        let params = mem::replace(&mut self.params, Params::least(format));
        let empty = Table::without_pairs(self.alloc, format);
        let directories = mem::replace(&mut self.directories, empty);
        let empty = Table::without_pairs(self.alloc, format);
        let files = mem::replace(&mut self.files, empty);
        self.header = Some(Header::of_parts(params, directories, files));
        self.phase = Phase::Done;
    }

    /// Takes a value of the current table that the piece begins with, or else the next byte, save where memory is
    /// refused for that: how many bytes it took, and what they come to.
    #[inline(never)]
    fn advance(&mut self, piece: &[u8]) -> (usize, HeadStep)
        requires { 1 ≤ length piece.now }
        ensures advances { (b : List ℕ) → StandsFor self.old b → Answers self.old.dialect b answer.More
            → Advances self.old.dialect b piece.now result.0 result.1 self.new }
        ensures within { result.0 ≤ length piece.now }
        ensures some { result.1 ≢ answer.NoMemory → 1 ≤ result.0 }
        ensures dialect { self.new.dialect ≡ self.old.dialect }
        ensures refused { result.1 ≡ answer.NoMemory → WasRefused SystemRefuses }
    {
        let (used, field) = self.push(self.up_to_end(piece));
        match field {
            FieldStep::NoMemory => (0, HeadStep::NoMemory),
            FieldStep::Within => {
                self.taken = self.taken.saturating_add(used as u64);
                (used, self.settle())
            }
            FieldStep::Ends => {
                self.taken = self.taken.saturating_add(used as u64);
                self.start = self.taken;
                (used, self.settle())
            }
            FieldStep::Refuses(kind) => {
                self.taken = self.taken.saturating_add(used as u64);
                (used, self.fail(kind))
            }
        }
    }

    /// The first bytes of the piece, up to the end that is known, and at least one.
    fn up_to_end<'a>(&self, piece: &'a [u8]) -> &'a [u8]
        requires { 1 ≤ length piece.now }
        ensures { IsFront self.now piece.entry.now result.now }
    {
        let end = self.end.unwrap_or(0);
        let left = end.saturating_sub(self.taken).max(1);
        if left < piece.len() as u64 {
            &piece[..left as usize]
        } else {
            piece
        }
    }

    /// Takes a value of the current table that the bytes begin with, or else the first byte: how many bytes it
    /// took, and what they make of the field.
    fn push(&mut self, bytes: &[u8]) -> (usize, FieldStep)
        requires { 1 ≤ length bytes.now }
        ensures pushed { Pushed self.old bytes.now result.0 result.1 self.new }
        ensures refused { result.1 ≡ byte_makes.NoMemory → WasRefused SystemRefuses }
    {
        match self.phase {
            Phase::Directories => self.directories(bytes),
            Phase::Files => self.files(bytes),
            Phase::OlderDirectories => self.older_directories(bytes),
            Phase::OlderFiles => self.older_files(bytes),
            _ => (1, self.push_byte(bytes[0])),
        }
    }

    /// What a byte outside the tables makes of the field that it falls in.
    fn push_byte(&mut self, byte: u8) -> FieldStep
        requires { in_table self.old.phase ≡ false }
        ensures follows { PushFollows self.old byte result self.new }
        ensures kept { Keeps self.old result self.new }
        ensures refused { result ≡ byte_makes.NoMemory → WasRefused SystemRefuses }
    {
        match self.phase {
            Phase::UnitLength(number) => self.unit_length(number, byte),
            Phase::LongUnitLength(number) => self.long_unit_length(number, byte),
            Phase::Version => self.version(byte),
            Phase::VersionEnd(first) => self.version_end(first, byte),
            Phase::HeaderLength(number) => self.header_length(number, byte),
            Phase::Byte(field) => self.byte_field(field, byte),
            Phase::OpcodeLength => self.opcode_length(byte),
            Phase::Directories
            | Phase::Files
            | Phase::OlderDirectories
            | Phase::OlderFiles
            | Phase::Padding
            | Phase::Done
            | Phase::Foreign(_)
            | Phase::Failed(_) => FieldStep::Within,
        }
    }
}
