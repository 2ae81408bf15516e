//! A unit after its header, or after a version that isn't 5. Section 6.2.4.

ghost use Rattle.std.specs.Prelude.{◌≡◌, ◌≢◌, ◌≤◌, ◌+◌, ◌-◌, ◌^◌, ◌⊎◌, ℕ, List, Ok, Err, Some, length, min, take, IfOk};
ghost use Rattle.dl_field.specs.HeaderData.{HeaderData};
ghost use Rattle.dl_head.specs.Header.{unit_len};
ghost use Rattle.dl_rows.specs.Reading.{IsPause};

use crate::program::{Program, ProgramStep};
use crate::reader::{Event, Fed, Finish};
use crate::sink::ProgramSink;
use dl_head::{Dialect, Fault, FaultKind, Header};

/// How many bytes of a unit were taken, and how many are left.
#[derive(Clone, Copy)]
pub struct UnitBytes {
    pub taken: u64,
    pub left: u64,
}

/// The part of a unit that follows its header.
#[derive(Clone, Copy)]
pub struct UnitBody {
    pub program: Program,
    pub bytes: UnitBytes,
}

/// The fault that stopped a reader after the header, and what is still asked of it.
#[derive(Clone, Copy)]
pub struct BodyStop {
    pub fault: Fault,
    pub bytes: UnitBytes,
    pub in_sequence: bool,
}

/// Where a reader is after the header.
#[derive(Clone, Copy)]
pub enum BodyState {
    InProgram(UnitBody),
    Stopped(BodyStop),
}

impl UnitBytes {
    ghost use Rattle.dl_rows.specs.Reading.{Feeds};
    ghost use Rattle.dl_rows.specs.UnitBodies.{Counts, InForeign, paused};
    ghost use Rattle.dl_rows.specs.declared.reader.Finish.TheVariants as finish;
    ghost use Rattle.dl_table.specs.declared.fault.FaultKind.TheVariants as kind;

    /// Takes bytes of a unit of another version.
    pub fn pass_over(&mut self, piece: &[u8]) -> Fed
        ensures used { result.used ≤ length piece.now }
        ensures pause { IsPause result.event }
        ensures end { result.event ≡ Event.End → 1 ≤ self.old.taken + result.used }
        ensures no_want { result.event ≢ Event.NoMemory }
        ensures fed { (dialect : Dialect) (version : ℕ) (b : List ℕ) → InForeign dialect version self.old b
            → Feeds (InForeign dialect version) dialect b piece.now result self.new }
    {
        let used = front(piece, self.left).len();
        self.count(used);
        self.pause(used, piece)
    }

    /// How a unit stands of which these bytes were taken, where no more come.
    pub fn finish(&self) -> Result<Finish, Fault>
        ensures whole { self.now.left ≡ 0 → result ≡ Ok finish.Whole }
        ensures truncated { self.now.left ≢ 0 → result
            ≡ Err (record { offset = self.now.taken; kind = kind.Truncated }) }
    {
        if self.left == 0 {
            return Ok(Finish::Whole);
        }
        Err(Fault {
            offset: self.taken,
            kind: FaultKind::Truncated,
        })
    }

    /// What is told where a piece gave nothing.
    fn pause(&self, used: usize, piece: &[u8]) -> Fed
        requires { used ≤ length piece.now }
        ensures used { result.used ≡ used }
        ensures event { result.event ≡ paused self.now.taken self.now.left used (length piece.now) }
        ensures pause { IsPause result.event }
        ensures end { result.event ≡ Event.End → 1 ≤ self.now.taken }
        ensures no_want { result.event ≢ Event.NoMemory }
    {
        let is_whole = self.taken > 0 && self.left == 0;
        let ends = is_whole && (used == 0 || used < piece.len());
        let event = if ends { Event::End } else { Event::More };
        Fed { used, event }
    }

    /// How many bytes the unit has.
    pub fn unit_len(&self) -> u64
        ensures { (dialect : Dialect) (b : List ℕ) → Counts dialect self.now b → unit_len dialect b ≡ Some result }
    {
        self.taken.saturating_add(self.left)
    }

    fn count(&mut self, used: usize)
        ensures taken { self.new.taken ≡ min (self.old.taken + used) (2 ^ 64 - 1) }
        ensures left { self.new.left ≡ self.old.left - used }
    {
        self.taken = self.taken.saturating_add(used as u64);
        self.left = self.left.saturating_sub(used as u64);
    }
}

impl UnitBody {
    ghost use Rattle.dl_rows.specs.Items.{Item};
    ghost use Rattle.dl_rows.specs.UnitBodies.{InProgram, ProgramTells};

    /// Takes bytes of the program up to the next event.
    pub fn feed<S: ProgramSink>(
        &mut self,
        dialect: Dialect,
        header: &Header,
        piece: &[u8],
        sink: &mut S,
    ) -> Result<Fed, Fault>
        ensures used { IfOk result (λ fed. fed.used ≤ length piece.now) }
        ensures progress { IfOk result (λ fed. IsPause fed.event ⊎ (1 ≤ fed.used)) }
        ensures end { IfOk result (λ fed. fed.event ≡ Event.End → 1 ≤ self.old.bytes.taken + fed.used) }
        ensures no_want { IfOk result (λ fed. fed.event ≢ Event.NoMemory) }
        ensures fed { (b : List ℕ) (before : List Item) (first : S) → InProgram dialect header.now self.old b
            → (S.story first).hears sink.old before
            → ProgramTells (S.story first) dialect header.now b piece.now before result self.new sink.new }
    {
        let bytes = front(piece, self.bytes.left);
        match self
            .program
            .push(dialect.order, header.params(), header, bytes, sink)
        {
            ProgramStep::Row(row, tail) => {
                let used = bytes.len() - tail.len();
                self.bytes.count(used);
                Ok(Fed {
                    used,
                    event: Event::Row(row),
                })
            }
            ProgramStep::Nothing => {
                self.bytes.count(bytes.len());
                if self.bytes.left == 0 && !self.program.is_between() {
                    return Err(self.fault(FaultKind::OpcodeOverrun));
                }
                Ok(self.bytes.pause(bytes.len(), piece))
            }
            ProgramStep::Refuses(kind, tail) => {
                self.bytes.count(bytes.len() - tail.len());
                Err(self.fault(kind))
            }
        }
    }

    /// What is kept after this fault.
    fn stop(&self, fault: Fault) -> BodyStop
        ensures { result ≡ record {
          fault = fault;
          bytes = self.now.bytes;
          in_sequence =
              self.now.program.in_sequence;
        } }
    {
        BodyStop {
            fault,
            bytes: self.bytes,
            in_sequence: self.program.in_sequence(),
        }
    }

    /// A fault of the current operation.
    fn fault(&self, kind: FaultKind) -> Fault
        ensures { result ≡ record { offset = self.now.bytes.taken - self.now.program.begun; kind = kind } }
    {
        Fault {
            offset: self.bytes.taken.saturating_sub(self.program.begun()),
            kind,
        }
    }
}

impl BodyState {
    ghost use Rattle.dl_rows.specs.Items.{Item};
    ghost use Rattle.dl_rows.specs.LineUnit.{ends_open, unit_rows};
    ghost use Rattle.dl_rows.specs.Reading.{FinishIs};
    ghost use Rattle.dl_rows.specs.UnitBodies.{BodyStands, BodyTells, taken_in_body};

    /// Takes bytes up to the next event. After a fault it answers the fault again.
    pub fn feed<S: ProgramSink>(
        &mut self,
        dialect: Dialect,
        header: &Header,
        piece: &[u8],
        sink: &mut S,
    ) -> Result<Fed, Fault>
        ensures used { IfOk result (λ fed. fed.used ≤ length piece.now) }
        ensures progress { IfOk result (λ fed. IsPause fed.event ⊎ (1 ≤ fed.used)) }
        ensures end { IfOk result (λ fed. fed.event ≡ Event.End → 1 ≤ taken_in_body self.old + fed.used) }
        ensures no_want { IfOk result (λ fed. fed.event ≢ Event.NoMemory) }
        ensures fed { (b : List ℕ) (before : List Item) (first : S) → BodyStands dialect header.now self.old b
            → (S.story first).hears sink.old before
            → BodyTells (S.story first) dialect header.now b piece.now before result self.new sink.new }
    {
        match self {
            BodyState::InProgram(body) => {
                let fed = body.feed(dialect, header, piece, sink);
                if let Err(fault) = fed {
                    let stop = body.stop(fault);
                    self.stop_by(stop);
                }
                fed
            }
            BodyState::Stopped(stop) => Err(stop.fault),
        }
    }

    /// From here on the fault of this stop is answered.
    fn stop_by(&mut self, stop: BodyStop)
        ensures { self.new ≡ BodyState.Stopped stop }
    {
        *self = BodyState::Stopped(stop);
    }

    /// How many bytes of the unit were taken.
    pub fn taken(&self) -> u64
        ensures { result ≡ taken_in_body self.now }
    {
        match self {
            BodyState::InProgram(body) => body.bytes.taken,
            BodyState::Stopped(stop) => stop.bytes.taken,
        }
    }

    /// How many bytes the unit has.
    pub fn unit_len(&self) -> u64
        ensures { (dialect : Dialect) (h : HeaderData) (b : List ℕ) → BodyStands dialect h self.now b
            → unit_len dialect b ≡ Some result }
    {
        match self {
            BodyState::InProgram(body) => body.bytes.unit_len(),
            BodyState::Stopped(stop) => stop.bytes.unit_len(),
        }
    }

    /// Whether there was a row, and the last one isn't an end row.
    pub fn in_sequence(&self) -> bool
        ensures { (dialect : Dialect) (h : HeaderData) (b : List ℕ) → BodyStands dialect h self.now b
            → result ≡ ends_open (unit_rows dialect b) }
    {
        match self {
            BodyState::InProgram(body) => body.program.in_sequence(),
            BodyState::Stopped(stop) => stop.in_sequence,
        }
    }

    /// How the unit stands where no more bytes come.
    pub fn finish(&self) -> Result<Finish, Fault>
        ensures { (dialect : Dialect) (h : HeaderData) (b : List ℕ) → BodyStands dialect h self.now b
            → FinishIs dialect b result }
    {
        match self {
            BodyState::InProgram(body) => body.bytes.finish(),
            BodyState::Stopped(stop) => Err(stop.fault),
        }
    }
}

/// The first `most` bytes of the piece, or all where they are fewer.
fn front<'a>(piece: &'a [u8], most: u64) -> &'a [u8]
    ensures { result.now ≡ take most piece.entry.now }
{
    if most < piece.len() as u64 {
        &piece[..most as usize]
    } else {
        piece
    }
}
