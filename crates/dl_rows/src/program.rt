//! The line number program of a unit, from bytes that come in pieces. Sections 6.2.5.1 to 6.2.5.3.

ghost use Rattle.std.specs.Prelude.{false, ◌≡◌, ◌≤◌, ◌+◌, ◌↔◌, ◌==◌, ◌++◌, not, ℕ, List, [], length, IfSome, IsTrue, Option};
ghost use Rattle.dl_num.specs.Laws.{AllBytes};
ghost use Rattle.dl_field.specs.Usable.{IsUsable};

use crate::operation::Operation;
use crate::operation_state::{OperationState, OperationStep, short_operation};
use crate::registers::Registers;
use crate::row::Row;
use crate::sink::{Flow, ProgramSink, tell_operation};
use arrayvec::ArrayVec;
use dl_head::{FaultKind, Header, Params};
use dl_num::Order;

mod plain;

/// What bytes of a program give.
#[derive(Clone, Copy)]
pub enum ProgramStep<'a> {
    /// No row; all of them are used.
    Nothing,
    /// A row, and the bytes after the operation that appends it.
    Row(Row, &'a [u8]),
    /// What is wrong with the current operation, and the bytes after the one that decides it.
    Refuses(FaultKind, &'a [u8]),
}

/// Up to where operations were taken.
#[derive(Clone, Copy)]
pub enum Taken<'a> {
    /// Up to these bytes; the sink has heard them.
    UpTo(&'a [u8]),
    /// Up to the operation of this row, at which the sink stopped, and the bytes after it.
    Row(Row, &'a [u8]),
}

/// The bytes after so many.
#[inline(always)]
fn bytes_after(bytes: &[u8], taken: usize) -> &[u8]
    requires { taken ≤ length bytes.now }
    ensures size { length result.now + taken ≡ length bytes.now }
    ensures rest { (front rest : List ℕ) → bytes.entry.now ≡ front ++ rest → length front ≡ taken → result.now ≡ rest }
{
    &bytes[taken..]
}

/// How many bytes the operation has that these begin with, where it is a short one; else 0.
#[inline(always)]
fn first_size(order: Order, params: &Params, bytes: &[u8]) -> usize
    requires { IsUsable params.now }
    ensures { result ≤ length bytes.now }
{
    match short_operation(order, params, bytes) {
        Some((_, tail)) => bytes.len() - tail.len(),
        None => 0,
    }
}

/// Of fewer bytes each operation is taken by itself, since a program in a local of its own costs more than it spares.
const SHORT_PIECE: usize = 16;

/// Where a reader is in a program.
#[derive(Clone, Copy)]
pub struct Program {
    registers: Registers,
    phase: OperationState,
    /// How many bytes of the current operation have come.
    begun: u64,
    in_sequence: bool,
}

impl Program {
    ghost use Rattle.dl_rows.specs.declared.operation.Operation.{Operation};
    ghost use Rattle.dl_rows.specs.Items.{Item};
    ghost use Rattle.dl_rows.specs.Left.{GivenLeaves, TakenLeaves, rows_of};
    ghost use Rattle.dl_rows.specs.Matrix.{matrix};
    ghost use Rattle.dl_rows.specs.OperationSpelt.{operations_in};
    ghost use Rattle.dl_rows.specs.LineUnit.{ends_open, rows_in};
    ghost use Rattle.dl_rows.specs.PlainWalks.{MayBePlain};
    ghost use Rattle.dl_rows.specs.Programs.{Finishes, ProgramStands, TakenTells, Telling, Tells};
    ghost use Rattle.dl_rows.specs.Machine.{applied, made_by};
    ghost use Rattle.dl_rows.specs.Sums.{FitsProgram, HasRange, registers_after, settled};
    ghost use Rattle.dl_rows.specs.declared.operation_state.OperationState.TheVariants as phase;

    /// At the first operation.
    pub fn new(default_is_stmt: bool) -> Self
        ensures stands { (order : Order) (h : Params) → default_is_stmt ≡ not (h.default_is_stmt == 0)
            → ProgramStands order h result [] }
        ensures in_sequence { result.in_sequence ≡ false }
    {
        Program {
            registers: Registers::new(default_is_stmt),
            phase: OperationState::Start,
            begun: 0,
            in_sequence: false,
        }
    }

    /// Whether no operation is incomplete.
    pub fn is_between(&self) -> bool
        ensures phase { IsTrue result → self.now.phase ≡ phase.Start }
        ensures rest { (order : Order) (h : Params) (b : List ℕ) → ProgramStands order h self.now b
            → IsTrue result ↔ ((operations_in order h b).rest ≡ []) }
    {
        matches!(self.phase, OperationState::Start)
    }

    /// How many bytes of the current operation have come.
    pub fn begun(&self) -> u64
        ensures { result ≡ self.now.begun }
    {
        self.begun
    }

    /// Whether there was a row, and the last one isn't an end row.
    pub fn in_sequence(&self) -> bool
        ensures field { result ≡ self.now.in_sequence }
        ensures rows { (order : Order) (h : Params) (b : List ℕ) → ProgramStands order h self.now b
            → result ≡ ends_open (rows_in order h b) }
    {
        self.in_sequence
    }

    /// Takes bytes, and lets the sink hear them, up to the end of the operation of the row at which it stops.
    #[inline(always)]
    pub fn push<'a, S: ProgramSink>(
        &mut self,
        order: Order,
        params: &Params,
        header: &Header,
        mut bytes: &'a [u8],
        sink: &mut S,
    ) -> ProgramStep<'a>
        requires usable { IsUsable params.now }
        requires params { header.now.params ≡ params.now }
        ensures left { GivenLeaves (length bytes.entry.now) result }
        ensures given { (b : List ℕ) (before : List Item) (first : S) → FitsProgram params.now → AllBytes bytes.entry.now
            → ProgramStands order params.now self.old b
            → (S.story first).hears sink.old before
            → Tells (S.story first) order params.now header.now b bytes.entry.now before result self.new sink.new }
    {
        while !bytes.is_empty() {
            match self.short_operations(order, params, header, bytes, sink) {
                Taken::UpTo(tail) => bytes = tail,
                Taken::Row(row, tail) => return ProgramStep::Row(row, tail),
            }
            match self.phase.push(order, params, bytes) {
                OperationStep::Within(phase) => {
                    self.phase = phase;
                    self.begun = self.begun.saturating_add(bytes.len() as u64);
                    sink.bytes(bytes);
                    return ProgramStep::Nothing;
                }
                OperationStep::Ends(operation, tail) => {
                    tell_operation(sink, header, bytes, tail, operation);
                    bytes = tail;
                    if let Some(row) = self.complete(params, operation) {
                        match sink.row(header, &row) {
                            Flow::On => {}
                            Flow::Stop => return ProgramStep::Row(row, tail),
                        }
                    }
                }
                OperationStep::Refuses(kind, tail) => {
                    let used = bytes.len() - tail.len();
                    self.begun = self.begun.saturating_add(used as u64);
                    sink.bytes(&bytes[..used]);
                    return ProgramStep::Refuses(kind, tail);
                }
            }
        }
        ProgramStep::Nothing
    }

    /// Takes operations whose bytes all stand at the front of these, one after the other, where none has begun
    /// before and the bytes are not few, and lets the sink hear them.
    #[inline(always)]
    fn short_operations<'a, S: ProgramSink>(
        &mut self,
        order: Order,
        params: &Params,
        header: &Header,
        bytes: &'a [u8],
        sink: &mut S,
    ) -> Taken<'a>
        requires usable { IsUsable params.now }
        requires params { header.now.params ≡ params.now }
        ensures left { TakenLeaves (length bytes.entry.now) result }
        ensures phase { self.new.phase ≡ self.old.phase }
        ensures told { (b : List ℕ) (before : List Item) (first : S) → FitsProgram params.now → AllBytes bytes.entry.now
            → ProgramStands order params.now self.old b
            → (S.story first).hears sink.old before
            → TakenTells (S.story first) order params.now header.now b bytes.entry.now before result self.new sink.new }
    {
        if bytes.len() < SHORT_PIECE || !self.is_between() {
            return Taken::UpTo(bytes);
        }
        let mut program = *self;
        let taken = if sink.hears_runs() && plain::may_be_plain(params) {
            program.runs(order, params, header, bytes, sink)
        } else {
            program.run(order, params, header, bytes, sink)
        };
        self.registers = program.registers;
        self.in_sequence = program.in_sequence;
        taken
    }

    /// `short_operations` between operations, where the program stands in a local of its own, so that its registers
    /// need no memory.
    #[inline(always)]
    fn run<'a, S: ProgramSink>(
        &mut self,
        order: Order,
        params: &Params,
        header: &Header,
        mut bytes: &'a [u8],
        sink: &mut S,
    ) -> Taken<'a>
        requires usable { IsUsable params.now }
        requires between { self.old.phase ≡ phase.Start }
        ensures left { TakenLeaves (length bytes.entry.now) result }
        ensures phase { self.new.phase ≡ self.old.phase }
        ensures begun { self.new.begun ≡ self.old.begun }
        ensures told { (b : List ℕ) (before : List Item) (first : S) → FitsProgram params.now → AllBytes bytes.entry.now
            → ProgramStands order params.now self.old b
            → (S.story first).hears sink.old before
            → TakenTells (S.story first) order params.now header.now b bytes.entry.now before result self.new sink.new }
    {
        while let Some((operation, tail)) = short_operation(order, params, bytes) {
            tell_operation(sink, header, bytes, tail, operation);
            bytes = tail;
            if let Some(row) = self.finish(params, operation) {
                match sink.row(header, &row) {
                    Flow::On => {}
                    Flow::Stop => return Taken::Row(row, tail),
                }
            }
        }
        Taken::UpTo(bytes)
    }

    /// The same for a sink that hears plain runs, where each instruction has one operation.
    #[inline(always)]
    fn runs<'a, S: ProgramSink>(
        &mut self,
        order: Order,
        params: &Params,
        header: &Header,
        mut bytes: &'a [u8],
        sink: &mut S,
    ) -> Taken<'a>
        requires usable { IsUsable params.now }
        requires params { header.now.params ≡ params.now }
        requires single { MayBePlain params.now }
        requires between { self.old.phase ≡ phase.Start }
        ensures left { TakenLeaves (length bytes.entry.now) result }
        ensures phase { self.new.phase ≡ self.old.phase }
        ensures begun { self.new.begun ≡ self.old.begun }
        ensures told { (b : List ℕ) (before : List Item) (first : S) → FitsProgram params.now → AllBytes bytes.entry.now
            → ProgramStands order params.now self.old b
            → (S.story first).hears sink.old before
            → TakenTells (S.story first) order params.now header.now b bytes.entry.now before result self.new sink.new }
    {
        while !bytes.is_empty() {
            let (left, size) = self.run_at_front(order, params, header, bytes, sink);
            match self.singly(order, params, header, left, size, sink) {
                Taken::UpTo(tail) if tail.len() < bytes.len() => bytes = tail,
                taken => return taken,
            }
        }
        Taken::UpTo(bytes)
    }

    /// Takes the plain run at the front of these bytes, where the sink hears it as one, and answers the bytes after it and 0. Else it
    /// takes nothing, and answers the bytes and how many of them each have to be taken by themselves first.
    #[inline(always)]
    fn run_at_front<'a, S: ProgramSink>(
        &mut self,
        order: Order,
        params: &Params,
        header: &Header,
        bytes: &'a [u8],
        sink: &mut S,
    ) -> (&'a [u8], usize)
        requires usable { IsUsable params.now }
        requires params { header.now.params ≡ params.now }
        requires single { MayBePlain params.now }
        requires between { self.old.phase ≡ phase.Start }
        ensures size { result.1 ≤ length result.0.now }
        ensures fewer { length result.0.now ≤ length bytes.entry.now }
        ensures phase { self.new.phase ≡ self.old.phase }
        ensures begun { self.new.begun ≡ self.old.begun }
        ensures told { (b : List ℕ) (before : List Item) (first : S) → FitsProgram params.now → AllBytes bytes.entry.now
            → ProgramStands order params.now self.old b
            → (S.story first).hears sink.old before
            → Telling (S.story first) order params.now header.now b bytes.entry.now before self.new result.0.now sink.new }
    {
        let mut files = ArrayVec::new();
        let mut ahead = *self;
        let (run, rest) = ahead.plain_run(order, params, bytes, &mut files);
        let size = bytes.len() - rest.len();
        if let Some(run) = run {
            if size > 0 && sink.plain_run(header, &run) {
                *self = ahead;
                return (rest, 0);
            }
        }
        (bytes, size)
    }

    /// Takes each operation of a run of so many bytes by itself, or the next operation where it has none.
    #[inline(always)]
    fn singly<'a, S: ProgramSink>(
        &mut self,
        order: Order,
        params: &Params,
        header: &Header,
        bytes: &'a [u8],
        size: usize,
        sink: &mut S,
    ) -> Taken<'a>
        requires usable { IsUsable params.now }
        requires between { self.old.phase ≡ phase.Start }
        requires size { size ≤ length bytes.now }
        ensures left { TakenLeaves (length bytes.entry.now) result }
        ensures phase { self.new.phase ≡ self.old.phase }
        ensures begun { self.new.begun ≡ self.old.begun }
        ensures told { (b : List ℕ) (before : List Item) (first : S) → FitsProgram params.now → AllBytes bytes.entry.now
            → ProgramStands order params.now self.old b
            → (S.story first).hears sink.old before
            → TakenTells (S.story first) order params.now header.now b bytes.entry.now before result self.new sink.new }
    {
        let end = if size > 0 {
            size
        } else {
            first_size(order, params, bytes)
        };
        match self.run(order, params, header, &bytes[..end], sink) {
            Taken::UpTo(left) => Taken::UpTo(bytes_after(bytes, end - left.len())),
            Taken::Row(row, left) => Taken::Row(row, bytes_after(bytes, end - left.len())),
        }
    }

    /// Applies the current operation, which is complete, and gives the row that it appends, if any.
    #[inline(always)]
    fn complete(&mut self, params: &Params, operation: Operation) -> Option<Row>
        requires { IsUsable params.now }
        ensures phase { self.new.phase ≡ phase.Start }
        ensures begun { self.new.begun ≡ 0 }
        ensures row { IfSome result (λ row. 1 ≤ rows_of operation) }
        ensures finishes { (before : List Operation) → FitsProgram params.now → HasRange operation
            → self.old.registers ≡ registers_after params.now before
            → self.old.in_sequence ≡ ends_open (matrix params.now before)
            → Finishes params.now before operation result self.new }
    {
        self.phase = OperationState::Start;
        self.begun = 0;
        self.finish(params, operation)
    }

    /// Applies an operation, and gives the row that it appends, if any.
    #[inline(always)]
    fn finish(&mut self, params: &Params, operation: Operation) -> Option<Row>
        requires { IsUsable params.now }
        ensures phase { self.new.phase ≡ self.old.phase }
        ensures begun { self.new.begun ≡ self.old.begun }
        ensures row { IfSome result (λ row. 1 ≤ rows_of operation) }
        ensures made { result ≡ made_by params.now self.old.registers operation }
        ensures registers { self.new.registers ≡ settled params.now operation (applied params.now self.old.registers operation) }
        ensures finishes { (before : List Operation) → FitsProgram params.now → HasRange operation
            → self.old.registers ≡ registers_after params.now before
            → self.old.in_sequence ≡ ends_open (matrix params.now before)
            → Finishes params.now before operation result self.new }
    {
        self.registers.apply(params, operation);
        match operation {
            Operation::Special(_) | Operation::Copy => {
                let row = self.registers.row(params, false);
                self.registers.clear();
                self.in_sequence = true;
                Some(row)
            }
            Operation::EndSequence => {
                let row = self.registers.row(params, true);
                self.registers = Registers::new(params.default_is_stmt != 0);
                self.in_sequence = false;
                Some(row)
            }
            _ => None,
        }
    }
}
