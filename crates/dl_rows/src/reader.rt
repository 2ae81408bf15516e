//! The reader of a unit, from bytes that come in pieces. Section 6.2.

ghost use Rattle.dl_memory.specs.Refusals.{SystemRefuses, WasRefused};
ghost use Rattle.std.specs.Prelude.{◌≡◌, ◌≢◌, ◌≤◌, ◌+◌, ◌^◌, ◌-◌, ◌⊎◌, ℕ, List, [], true, Some, length, min, IfOk};
ghost use Rattle.std.specs.Option.{option_copied};
ghost use Rattle.dl_num.specs.Laws.{AllBytes};
ghost use Rattle.dl_head.specs.Cells.{cells};
ghost use Rattle.dl_head.specs.Dialect.{version_5};
ghost use Rattle.dl_field.specs.HeaderData.{HeaderData};
ghost use Rattle.dl_head.specs.Header.{IsHeader, lengths_in, unit_len};
ghost use Rattle.dl_head.specs.Standing.{StandsFor as HeadStands};
ghost use Rattle.dl_rows.specs.LineUnit.{unit_rows, ends_open};
ghost use Rattle.dl_rows.specs.Reading.{FinishIs};
ghost use Rattle.dl_rows.specs.ReaderStates.{InHeader, IsBegun, KnowsLength, HasHeader, StandsAt, is_in_header};
ghost use Rattle.dl_rows.specs.UnitBodies.{Counts};

mod run;

use crate::program::Program;
use crate::row::Row;
use crate::sink::{EachRow, ProgramSink};
use crate::unit_body::{BodyState, UnitBody, UnitBytes};
use dl_head::{Dialect, Fault, FaultKind, HeadReader, HeadStep, Header, HeaderLengths};
use dl_num::Order;
pub use run::{Listener, Run};
use std::alloc::Global;
use std::mem;

/// What a piece of a unit gave.
#[derive(Debug, Clone, Copy, PartialEq, Eq)]
pub enum Event {
    /// Nothing yet; the whole piece was used.
    More,
    /// With the header's last byte.
    Header,
    /// With the version's second byte: the unit is of this version, which isn't 5.
    Foreign(u16),
    /// With the last byte of the opcode that appends the row.
    Row(Row),
    /// The unit's bytes are all taken, and nothing else came of the piece.
    End,
    /// Memory was refused for the byte after those used.
    NoMemory,
}

/// How many bytes of a piece were used, and what came of them.
#[derive(Debug, Clone, Copy, PartialEq, Eq)]
pub struct Fed {
    pub used: usize,
    pub event: Event,
}

/// How a unit stands whose bytes are over.
#[derive(Debug, Clone, Copy, PartialEq, Eq)]
pub enum Finish {
    /// No byte was taken.
    Empty,
    /// All of its bytes were taken.
    Whole,
}

/// What is kept of a header that a fault stopped.
#[derive(Clone, Copy)]
struct HeaderStop {
    fault: Fault,
    /// How many bytes of the unit were taken.
    taken: u64,
    /// How many it has, where its initial length is good.
    unit_len: Option<u64>,
    /// The cells of these bytes; 2^64 - 1 where there are more.
    cells: u64,
}

/// Where a reader is in its unit.
#[derive(Drop)]
enum UnitStage {
    /// The header isn't complete, and no version that isn't read is.
    InHeader(HeadReader),
    /// A fault was answered in the header.
    StoppedInHeader(HeaderStop),
    /// The version is complete, and isn't read.
    Foreign(UnitBytes),
    /// The header is complete.
    AfterHeader(Header, HeaderLengths, BodyState),
}

/// A reader of one unit.
#[derive(Drop)]
pub struct Reader {
    alloc: Global,
    dialect: Dialect,
    state: UnitStage,
    ghost begun: { ∥ IsBegun state ∥₁ },
}

impl Reader {
    ghost use Rattle.dl_rows.specs.Progress.{taken_of};
    ghost use Rattle.dl_rows.specs.HeadFed.{HeadFed};
    ghost use Rattle.dl_rows.specs.Reading.{IsPause, row_answered};
    ghost use Rattle.dl_rows.specs.ReaderStands.{StandsFor};
    ghost use Rattle.dl_rows.specs.ReaderAnswers.{HeaderIs, LengthsAre, ReaderFed, SinkFed};
    ghost use Rattle.dl_rows.specs.Items.{Item};

    /// No byte yet of a unit whose numbers stand in this order; units of other versions than 5 aren't read. It takes no
    /// memory.
    pub fn new(alloc: Global, order: Order) -> Reader
        ensures stands { StandsFor result [] }
        ensures dialect { result.dialect ≡ version_5 order }
        ensures taken { taken_of result ≡ 0 }
    {
        Reader::of(alloc, Dialect::version_5(order))
    }

    /// No byte yet of a unit of this dialect. It takes no memory.
    pub fn of(alloc: Global, dialect: Dialect) -> Reader
        ensures stands { StandsFor result [] }
        ensures dialect { result.dialect ≡ dialect }
        ensures taken { taken_of result ≡ 0 }
    {
        Reader {
            alloc,
            dialect,
            state: UnitStage::InHeader(HeadReader::new(alloc, dialect)),
        }
    }

    /// Takes bytes of the piece up to the next event. After a fault it answers the fault again.
    pub fn feed(&mut self, piece: &[u8]) -> Result<Fed, Fault>
        ensures used { IfOk result (λ fed. fed.used ≤ length piece.now) }
        ensures progress { IfOk result (λ fed. IsPause fed.event ⊎ (1 ≤ fed.used)) }
        ensures end { IfOk result (λ fed. fed.event ≡ Event.End → 1 ≤ taken_of self.old + fed.used) }
        ensures fed { (b : List ℕ) → StandsFor self.old b
            → ReaderFed self.old.dialect b piece.now result self.new }
        ensures dialect { self.new.dialect ≡ self.old.dialect }
        ensures refused { IfOk result (λ fed. fed.event ≡ Event.NoMemory → WasRefused SystemRefuses) }
    {
        self.feed_program(piece, &mut EachRow)
    }

    /// Takes bytes of the piece up to the next event that is no row, or up to the row at which the sink
    /// stops, and lets the sink hear what the bytes of the program come to on the way, that row too. After a fault it
    /// answers the fault again.
    pub fn feed_program<S: ProgramSink>(&mut self, piece: &[u8], sink: &mut S) -> Result<Fed, Fault>
        ensures used { IfOk result (λ fed. fed.used ≤ length piece.now) }
        ensures progress { IfOk result (λ fed. IsPause fed.event ⊎ (1 ≤ fed.used)) }
        ensures end { IfOk result (λ fed. fed.event ≡ Event.End → 1 ≤ taken_of self.old + fed.used) }
        ensures fed { (b : List ℕ) (before : List Item) (first : S) → StandsFor self.old b
            → (S.story first).hears sink.old before
            → SinkFed (S.story first) self.old.dialect b piece.now before result self.new sink.new }
        ensures dialect { self.new.dialect ≡ self.old.dialect }
        ensures refused { IfOk result (λ fed. fed.event ≡ Event.NoMemory → WasRefused SystemRefuses) }
    {
        match &mut self.state {
            UnitStage::InHeader(_) => self.feed_head(piece),
            UnitStage::StoppedInHeader(stop) => Err(stop.fault),
            UnitStage::Foreign(bytes) => Ok(bytes.pass_over(piece)),
            UnitStage::AfterHeader(header, _, body) => {
                body.feed(self.dialect, header, piece, sink)
            }
        }
    }

    /// The header, from the Header event on.
    pub fn header(&self) -> Option<&Header>
        ensures { HeaderIs self.now (option_copied result) }
    {
        let UnitStage::AfterHeader(header, _, _) = &self.state else {
            return None;
        };
        Some(header)
    }

    /// The header, from the Header event on.
    pub fn into_header(self) -> Option<Header>
        ensures { HeaderIs self result }
    {
        let Reader {
            alloc: _,
            dialect: _,
            state,
        } = self;
        match state {
            UnitStage::AfterHeader(header, _, _) => Some(header),
            UnitStage::InHeader(_) | UnitStage::StoppedInHeader(_) | UnitStage::Foreign(_) => None,
        }
    }

    /// How long the unit and its header are, from the Header event on. Section 6.2.4.
    pub fn lengths(&self) -> Option<HeaderLengths>
        ensures { LengthsAre self.now result }
    {
        let UnitStage::AfterHeader(_, lengths, _) = &self.state else {
            return None;
        };
        Some(*lengths)
    }

    /// How many bytes were taken, none of them after the unit.
    pub fn taken(&self) -> u64
        ensures field { result ≡ taken_of self.now }
        ensures bytes { (b : List ℕ) → StandsFor self.now b → result ≡ length b }
        ensures in_unit { (b : List ℕ) → StandsFor self.now b → (n : ℕ) → unit_len self.now.dialect b ≡ Some n
            → result ≤ n }
    {
        match &self.state {
            UnitStage::InHeader(head) => head.taken(),
            UnitStage::StoppedInHeader(stop) => stop.taken,
            UnitStage::Foreign(bytes) => bytes.taken,
            UnitStage::AfterHeader(_, _, body) => body.taken(),
        }
    }

    /// How many bytes the unit has, its initial length included: what that says, once it is read. None where it isn't
    /// good. After a fault it is still known. Section 7.4.
    pub fn unit_len(&self) -> Option<u64>
        ensures { (b : List ℕ) → StandsFor self.now b → result ≡ unit_len self.now.dialect b }
    {
        match &self.state {
            UnitStage::InHeader(head) => head.unit_len(),
            UnitStage::StoppedInHeader(stop) => stop.unit_len,
            UnitStage::Foreign(bytes) => Some(bytes.unit_len()),
            UnitStage::AfterHeader(_, _, body) => Some(body.unit_len()),
        }
    }

    /// How many pairs, values, and bytes of texts and blocks the header holds; 2^64 - 1 where there
    /// are more.
    pub fn cells(&self) -> u64
        ensures { (b : List ℕ) → StandsFor self.now b → result ≡ min (cells self.now.dialect b) (2 ^ 64 - 1) }
    {
        match &self.state {
            UnitStage::InHeader(head) => head.cells(),
            UnitStage::StoppedInHeader(stop) => stop.cells,
            UnitStage::Foreign(_) => 0,
            UnitStage::AfterHeader(header, _, _) => header.cells(),
        }
    }

    /// Whether a row was handed out, and the last one isn't an end row.
    pub fn in_sequence(&self) -> bool
        ensures { (b : List ℕ) → StandsFor self.now b → result ≡ ends_open (unit_rows self.now.dialect b) }
    {
        match &self.state {
            UnitStage::InHeader(_) | UnitStage::StoppedInHeader(_) | UnitStage::Foreign(_) => false,
            UnitStage::AfterHeader(_, _, body) => body.in_sequence(),
        }
    }

    /// How the unit stands where no more bytes come: Truncated where it isn't whole.
    pub fn finish(&self) -> Result<Finish, Fault>
        ensures { (b : List ℕ) → StandsFor self.now b → FinishIs self.now.dialect b result }
    {
        match &self.state {
            UnitStage::InHeader(head) => finish_in_header(head),
            UnitStage::StoppedInHeader(stop) => Err(stop.fault),
            UnitStage::Foreign(bytes) => bytes.finish(),
            UnitStage::AfterHeader(_, _, body) => body.finish(),
        }
    }

    /// Takes bytes of the header.
    #[inline(never)]
    fn feed_head(&mut self, piece: &[u8]) -> Result<Fed, Fault>
        requires { is_in_header self.old.state ≡ true }
        ensures used { IfOk result (λ fed. fed.used ≤ length piece.now) }
        ensures progress { IfOk result (λ fed. IsPause fed.event ⊎ (1 ≤ fed.used)) }
        ensures not_end { IfOk result (λ fed. fed.event ≢ Event.End) }
        ensures no_row { row_answered result ≡ [] }
        ensures fed { (b : List ℕ) → StandsFor self.old b → HeadFed self.old.dialect b piece.now result self.new }
        ensures dialect { self.new.dialect ≡ self.old.dialect }
        ensures refused { IfOk result (λ fed. fed.event ≡ Event.NoMemory → WasRefused SystemRefuses) }
    {
        let UnitStage::InHeader(head) = &mut self.state else {
            unreachable!()
        };
        let (used, step) = head.offer(piece);
        let event = match step {
            HeadStep::More => Event::More,
            HeadStep::NoMemory => Event::NoMemory,
            HeadStep::Foreign(version) => {
                self.state = UnitStage::Foreign(bytes_of(head));
                Event::Foreign(version)
            }
            HeadStep::Done => {
                let read = mem::replace(head, HeadReader::new(self.alloc, self.dialect));
                self.state = after_header(read);
                Event::Header
            }
            HeadStep::Fault(fault) => {
                self.state = UnitStage::StoppedInHeader(HeaderStop {
                    fault,
                    taken: head.taken(),
                    unit_len: head.unit_len(),
                    cells: head.cells(),
                });
                return Err(fault);
            }
        };
        Ok(Fed { used, event })
    }
}

/// How many bytes a reader took that is at the end of a header or of a version, and how many of the unit
/// are left.
fn bytes_of(head: &HeadReader) -> UnitBytes
    requires { ∥ KnowsLength head.now ∥₁ }
    ensures { (b : List ℕ) → HeadStands head.now b → Counts head.now.dialect result b }
{
    let Some(len) = head.unit_len() else {
        unreachable!()
    };
    let taken = head.taken();
    UnitBytes {
        taken,
        left: len - taken,
    }
}

/// How long the header that this reader has read, and its unit, are.
fn lengths_of(head: &HeadReader) -> HeaderLengths
    requires { ∥ HasHeader head.now ∥₁ }
    ensures { (b : List ℕ) (h : HeaderData) → HeadStands head.now b → IsHeader head.now.dialect h b
        → result ≡ lengths_in head.now.dialect b h }
{
    let Some(lengths) = head.lengths() else {
        unreachable!()
    };
    lengths
}

/// The state after the header that this reader has read.
fn after_header(head: HeadReader) -> UnitStage
    requires { ∥ HasHeader head ∥₁ }
    ensures stands { (b : List ℕ) → HeadStands head b → AllBytes b → StandsAt head.dialect result b }
    ensures begun { ∥ IsBegun result ∥₁ }
{
    let bytes = bytes_of(&head);
    let lengths = lengths_of(&head);
    let Some(header) = head.into_header() else {
        unreachable!()
    };
    let program = Program::new(header.params().default_is_stmt != 0);
    let body = BodyState::InProgram(UnitBody { program, bytes });
    UnitStage::AfterHeader(header, lengths, body)
}

/// How a unit stands whose header isn't complete, where no more bytes come.
fn finish_in_header(head: &HeadReader) -> Result<Finish, Fault>
    ensures { (dialect : Dialect) (b : List ℕ) → InHeader dialect head.now b → FinishIs dialect b result }
{
    let taken = head.taken();
    if taken == 0 {
        return Ok(Finish::Empty);
    }
    Err(Fault {
        offset: taken,
        kind: FaultKind::Truncated,
    })
}
