//! The plain run at the front of bytes of a program. Sections 6.2.2 and 6.2.5.1 to 6.2.5.3.

ghost use Rattle.std.specs.Prelude.{[], ◌≡◌, ◌≢◌, ◌<◌, ◌≤◌, ◌-◌, ◌+◌, ◌^◌, ◌*◌, ◌++◌, ℕ, List, length, true, IsTrue, IsFalse, IfSome};
ghost use Rattle.dl_field.specs.Usable.{IsUsable};
ghost use Rattle.dl_field.specs.HeaderData.{HeaderData};
ghost use Rattle.dl_num.specs.Laws.{AllBytes};
ghost use Rattle.dl_rows.specs.Matrix.{advance};
ghost use Rattle.dl_rows.specs.Plain.{along_from};
ghost use Rattle.dl_rows.specs.PlainWalks.{IsTakenRun, MayBePlain, TakesPlain, along_of, is_move, is_row, is_still};
ghost use Rattle.dl_rows.specs.Programs.{ProgramStands};
ghost use Rattle.dl_rows.specs.Sums.{FitsProgram};
ghost use Rattle.dl_rows.specs.declared.operation.Operation.TheVariants as op;
ghost use Rattle.dl_rows.specs.declared.operation_state.OperationState.TheVariants as phase;
ghost use Rattle.dl_rows.specs.declared.program.plain.PlainStep.TheVariants as step;

use super::Program;
use crate::operation::Operation;
use crate::operation_state::short_operation;
use crate::plain_run::{NO_ROWS, PlainRows, PlainRun, RUN_FILES};
use arrayvec::ArrayVec;
use dl_head::Params;
use dl_num::Order;

/// The greatest line of a row of a run.
const GREATEST_LINE: u64 = 0xffff_ffff;

/// The greatest number of bytes that the smallest instruction of a program with runs has.
const GREATEST_LENGTH: u8 = 16;

/// The greatest operand of DW_LNS_advance_pc in a run.
const GREATEST_ADVANCE: u64 = 0xffff_ffff;

/// Where a reader is in a plain run.
#[derive(Clone, Copy)]
pub struct PlainWalk {
    program: Program,
    rows: PlainRows,
    /// Whether a row has named the current file.
    is_named: bool,
}

/// Whether programs of these params have plain runs.
#[inline(always)]
pub(super) fn may_be_plain(params: &Params) -> bool
    ensures { IsTrue result → MayBePlain params.now }
{
    params.maximum_operations_per_instruction == 1
        && params.minimum_instruction_length <= GREATEST_LENGTH
}

/// What comes of an operation in a plain run.
#[derive(Clone, Copy)]
pub enum PlainStep {
    /// It is one of the run.
    On,
    /// The run ends before it.
    Ends,
    /// It makes a run of what came before no plain one.
    Spoils,
}

/// The greatest address of this size.
pub fn greatest_address(params: &Params) -> u64
    requires { IsUsable params.now }
    ensures { result + 1 ≡ 2 ^ (8 * params.now.address_size) }
{
    match params.address_size {
        1 => 0xff,
        2 => 0xffff,
        4 => 0xffff_ffff,
        _ => 0xffff_ffff_ffff_ffff,
    }
}

impl PlainWalk {
    /// Before the first operation.
    fn new(program: Program) -> PlainWalk
        ensures program { result.program ≡ program }
        ensures along { along_of result [] ≡ along_from program.registers.address program.registers.file }
    {
        PlainWalk {
            program,
            rows: NO_ROWS,
            is_named: false,
        }
    }

    /// Takes an operation, where `files` are those that rows named before the current one. Where the run ends before it both stay
    /// as they are. Each kind of operation has a copy of its own, so that the registers stay in registers.
    #[inline(always)]
    fn take(
        &mut self,
        params: &Params,
        greatest: u64,
        operation: Operation,
        files: &mut ArrayVec<u64, 64>,
    ) -> PlainStep
        requires usable { IsUsable params.now }
        requires greatest { greatest + 1 ≡ 2 ^ (8 * params.now.address_size) }
        requires least { params.now.minimum_instruction_length ≤ 16 }
        requires count { self.old.rows.count + 1 < 2 ^ 64 }
        requires room { length files.old.items < 64 }
        ensures stays { result ≡ step.Ends → self.new ≡ self.old }
        ensures keeps { result ≡ step.Ends → files.new ≡ files.old }
        ensures takes { result ≡ step.On → TakesPlain params.now self.old files.old.items operation self.new files.new.items }
        ensures room { length files.new.items < 64 }
        ensures count { self.new.rows.count ≤ self.old.rows.count + 1 }
    {
        match operation {
            Operation::Special(_) => self.take_row(params, greatest, operation),
            Operation::Copy => self.take_row(params, greatest, operation),
            Operation::AdvancePc(by) if by > GREATEST_ADVANCE => PlainStep::Ends,
            Operation::AdvancePc(_) => self.take_advance(params, greatest, operation),
            Operation::ConstAddPc => self.take_advance(params, greatest, operation),
            Operation::SetAddress(_) if self.rows.count != 0 => PlainStep::Ends,
            Operation::SetAddress(address) => self.take_address(params, greatest, address),
            Operation::SetFile(_) if self.is_named && files.len() + 1 >= RUN_FILES =>
                PlainStep::Ends,
            Operation::SetFile(file) => self.take_file(params, file, files),
            Operation::EndSequence | Operation::FixedAdvancePc(_) | Operation::Skipped => {
                PlainStep::Ends
            }
            _ => self.take_quiet(params, operation),
        }
    }
}

impl PlainWalk {
    /// Takes an operation that appends a row and ends no sequence.
    #[inline(always)]
    fn take_row(&mut self, params: &Params, greatest: u64, operation: Operation) -> PlainStep
        requires usable { IsUsable params.now }
        requires greatest { greatest + 1 ≡ 2 ^ (8 * params.now.address_size) }
        requires count { self.old.rows.count + 1 < 2 ^ 64 }
        requires least { params.now.minimum_instruction_length ≤ 16 }
        requires kind { is_row operation ≡ true }
        ensures goes { result ≢ step.Ends }
        ensures takes { (files : List ℕ) → result ≡ step.On → TakesPlain params.now self.old files operation self.new files }
        ensures count { self.new.rows.count ≤ self.old.rows.count + 1 }
    {
        let from = self.program.registers.address;
        self.program.finish(params, operation);
        let address = self.program.registers.address;
        self.rows.add(address, self.program.registers.is_stmt);
        self.is_named = true;
        if address < from || greatest < address {
            return PlainStep::Spoils;
        }
        if GREATEST_LINE < self.program.registers.line {
            return PlainStep::Spoils;
        }
        PlainStep::On
    }

    /// Takes DW_LNS_advance_pc or DW_LNS_const_add_pc.
    #[inline(always)]
    fn take_advance(&mut self, params: &Params, greatest: u64, operation: Operation) -> PlainStep
        requires usable { IsUsable params.now }
        requires greatest { greatest + 1 ≡ 2 ^ (8 * params.now.address_size) }
        requires least { params.now.minimum_instruction_length ≤ 16 }
        requires kind { is_move operation ≡ true }
        requires advance { advance params.now operation < 2 ^ 32 }
        ensures goes { result ≢ step.Ends }
        ensures takes { (files : List ℕ) → result ≡ step.On → TakesPlain params.now self.old files operation self.new files }
        ensures rows { self.new.rows ≡ self.old.rows }
    {
        let from = self.program.registers.address;
        self.program.finish(params, operation);
        let address = self.program.registers.address;
        if address < from || greatest < address {
            return PlainStep::Spoils;
        }
        PlainStep::On
    }

    /// Takes DW_LNE_set_address, where the run has no row.
    #[inline(always)]
    fn take_address(&mut self, params: &Params, greatest: u64, address: u64) -> PlainStep
        requires usable { IsUsable params.now }
        requires greatest { greatest + 1 ≡ 2 ^ (8 * params.now.address_size) }
        requires none { self.old.rows.count ≡ 0 }
        ensures goes { result ≢ step.Ends }
        ensures takes { (files : List ℕ) → result ≡ step.On → TakesPlain params.now self.old files (op.SetAddress address) self.new files }
        ensures rows { self.new.rows ≡ self.old.rows }
    {
        self.program.finish(params, Operation::SetAddress(address));
        if greatest < address {
            return PlainStep::Spoils;
        }
        PlainStep::On
    }

    /// Takes DW_LNS_set_file, where the run has room for one more.
    #[inline(always)]
    fn take_file(&mut self, params: &Params, file: u64, files: &mut ArrayVec<u64, 64>) -> PlainStep
        requires usable { IsUsable params.now }
        requires room { length files.old.items < 64 }
        requires one { self.old.is_named ≡ true → length files.old.items + 1 < 64 }
        ensures room { length files.new.items < 64 }
        ensures goes { result ≢ step.Ends }
        ensures takes { TakesPlain params.now self.old files.old.items (op.SetFile file) self.new files.new.items }
        ensures count { self.new.rows.count ≡ self.old.rows.count }
    {
        if self.is_named {
            files.push(self.program.registers.file);
            self.is_named = false;
        }
        self.program.finish(params, Operation::SetFile(file));
        PlainStep::On
    }

    /// Takes an operation that neither moves the address, sets the file nor appends a row.
    #[inline(always)]
    fn take_quiet(&mut self, params: &Params, operation: Operation) -> PlainStep
        requires usable { IsUsable params.now }
        requires kind { is_still operation ≡ true }
        ensures goes { result ≢ step.Ends }
        ensures takes { (files : List ℕ) → TakesPlain params.now self.old files operation self.new files }
        ensures rows { self.new.rows ≡ self.old.rows }
    {
        self.program.finish(params, operation);
        PlainStep::On
    }
}

impl Program {
    /// Takes operations up to where a plain run ends, between operations. It answers the run and the bytes after it; None where what
    /// was taken is no plain run, and then the program is of no use.
    #[inline(never)]
    pub(super) fn plain_run<'a, 'f>(
        &mut self,
        order: Order,
        params: &Params,
        bytes: &'a [u8],
        files: &'f mut ArrayVec<u64, 64>,
    ) -> (Option<PlainRun<'a, 'f>>, &'a [u8])
        requires usable { IsUsable params.now }
        requires between { self.old.phase ≡ phase.Start }
        requires single { MayBePlain params.now }
        requires none { files.old.items ≡ [] }
        ensures left { length result.1.now ≤ length bytes.entry.now }
        ensures run { IfSome result.0 (IsTakenRun order params.now bytes.entry.now self.old self.new result.1.now) }
    {
        let from = self.registers.address;
        let greatest = greatest_address(params);
        let mut walk = PlainWalk::new(*self);
        let mut before_last = bytes.len();
        let mut rest = bytes;
        while let Some((operation, tail)) = short_operation(order, params, rest) {
            match walk.take(params, greatest, operation, files) {
                PlainStep::On => {}
                PlainStep::Ends => break,
                PlainStep::Spoils => return (None, tail),
            }
            before_last = rest.len();
            rest = tail;
        }
        if walk.is_named {
            files.push(walk.program.registers.file);
        }
        *self = walk.program;
        let run = PlainRun {
            bytes: &bytes[..bytes.len() - rest.len()],
            last_bytes: before_last - rest.len(),
            from,
            to: walk.program.registers.address,
            rows: walk.rows,
            files: files.as_slice(),
        };
        (Some(run), rest)
    }
}
