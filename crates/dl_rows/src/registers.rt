//! The registers of the line number state machine. Sections 6.2.2 and 6.2.5.

ghost use Rattle.std.specs.Prelude.{◌≡◌, ◌≤◌, ◌-◌, ◌/◌, ◌+ℤ◌};
ghost use Rattle.dl_field.specs.Usable.{IsUsable};

use crate::operation::Operation;
use crate::row::Row;
use dl_head::Params;

/// The registers of the line number state machine. Address and line wrap at 2^64.
#[derive(Clone, Copy)]
pub struct Registers {
    pub address: u64,
    pub file: u64,
    pub line: u64,
    column: u64,
    isa: u64,
    discriminator: u64,
    op_index: u8,
    pub is_stmt: bool,
    basic_block: bool,
    prologue_end: bool,
    epilogue_begin: bool,
}

impl Registers {
    ghost use Rattle.dl_rows.specs.Machine.{initial, advanced, applied, cleared, row_of};

    /// The registers at the start of each sequence. Section 6.2.2.
    pub fn new(default_is_stmt: bool) -> Self
        ensures { result ≡ initial default_is_stmt }
    {
        Registers {
            address: 0,
            file: 1,
            line: 1,
            column: 0,
            isa: 0,
            discriminator: 0,
            op_index: 0,
            is_stmt: default_is_stmt,
            basic_block: false,
            prologue_end: false,
            epilogue_begin: false,
        }
    }

    /// Does an operation, and appends no row. Sections 6.2.5.1 to 6.2.5.3.
    #[inline(always)]
    pub fn apply(&mut self, params: &Params, operation: Operation)
        requires { IsUsable params.now }
        ensures { self.new ≡ applied params.now self.old operation }
    {
        match operation {
            Operation::Special(opcode) => self.special(params, opcode),
            Operation::AdvancePc(by) => self.advance(params, by),
            Operation::AdvanceLine(by) => self.line = self.line.wrapping_add_signed(by),
            Operation::SetFile(file) => self.file = file,
            Operation::SetColumn(column) => self.column = column,
            Operation::NegateStatement => self.is_stmt = !self.is_stmt,
            Operation::SetBasicBlock => self.basic_block = true,
            Operation::ConstAddPc => {
                let adjusted = 255 - params.opcode_base;
                self.advance(params, u64::from(adjusted / params.line_range));
            }
            Operation::FixedAdvancePc(by) => self.move_to(self.address.wrapping_add(by)),
            Operation::SetPrologueEnd => self.prologue_end = true,
            Operation::SetEpilogueBegin => self.epilogue_begin = true,
            Operation::SetIsa(isa) => self.isa = isa,
            Operation::SetAddress(address) => self.move_to(address),
            Operation::SetDiscriminator(discriminator) => self.discriminator = discriminator,
            Operation::Copy | Operation::EndSequence | Operation::Skipped => {}
        }
    }

    /// Advances line and address as a special opcode does. Section 6.2.5.1.
    #[inline(always)]
    fn special(&mut self, params: &Params, opcode: u8)
        requires { IsUsable params.now }
        ensures { self.new ≡ applied params.now self.old (Operation.Special opcode) }
    {
        let adjusted = opcode.saturating_sub(params.opcode_base);
        let lines = i64::from(params.line_base) + i64::from(adjusted % params.line_range);
        self.line = self.line.wrapping_add_signed(lines);
        self.advance(params, u64::from(adjusted / params.line_range));
    }

    /// An operation advance. Section 6.2.5.1.
    #[inline(always)]
    fn advance(&mut self, params: &Params, by: u64)
        requires { IsUsable params.now }
        ensures { self.new ≡ advanced params.now self.old by }
    {
        let minimum = u64::from(params.minimum_instruction_length);
        let maximum = u64::from(params.maximum_operations_per_instruction);
        if maximum == 1 {
            let instructions = by.wrapping_add(u64::from(self.op_index));
            self.move_to(
                self.address
                    .wrapping_add(minimum.wrapping_mul(instructions)),
            );
            return;
        }
        let operations = u64::from(self.op_index) + by % maximum;
        let instructions = (by / maximum).wrapping_add(operations / maximum);
        self.address = self
            .address
            .wrapping_add(minimum.wrapping_mul(instructions));
        self.op_index = (operations % maximum) as u8;
    }

    /// Goes to the first operation of an instruction.
    fn move_to(&mut self, address: u64)
        ensures { self.new ≡ record self.old { address = address; op_index = 0 } }
    {
        self.address = address;
        self.op_index = 0;
    }

    /// Clears what holds for one row alone. Section 6.2.5.1.
    pub fn clear(&mut self)
        ensures { self.new ≡ cleared self.old }
    {
        self.basic_block = false;
        self.prologue_end = false;
        self.epilogue_begin = false;
        self.discriminator = 0;
    }

    /// The row of these registers, its address reduced to the size of an address.
    #[inline(always)]
    pub fn row(&self, params: &Params, end_sequence: bool) -> Row
        requires { IsUsable params.now }
        ensures { result ≡ row_of params.now self.now end_sequence }
    {
        let address = if params.address_size < 8 {
            self.address % (1 << (8 * params.address_size))
        } else {
            self.address
        };
        Row {
            address,
            file: self.file,
            line: self.line,
            column: self.column,
            isa: self.isa,
            discriminator: self.discriminator,
            op_index: self.op_index,
            is_stmt: self.is_stmt,
            basic_block: self.basic_block,
            end_sequence,
            prologue_end: self.prologue_end,
            epilogue_begin: self.epilogue_begin,
        }
    }
}
