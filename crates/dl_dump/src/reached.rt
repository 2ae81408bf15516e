//! How far the program of a unit has come, whose operations are shown. Section 6.2.5.

ghost use Rattle.std.specs.Prelude.{◌≡◌, ◌+◌, ◌-◌, ◌%◌, ◌^◌, fold, length, min};
ghost use Rattle.dl_field.specs.Usable.{IsUsable};
ghost use Rattle.dl_rows.specs.Matrix.{advance};
ghost use Rattle.dl_dump.specs.Reached.{op_index_with, opcode_with, program_offset, with_byte};

use dl_head::{Format, Header, HeaderLengths, Params};
use dl_rows::Operation;

/// What the bytes of the current operation say of its opcode.
#[derive(Clone, Copy, Debug, PartialEq, Eq)]
pub enum Opcode {
    /// No byte of it has come.
    Unread,
    /// The length of an extended opcode goes on.
    Length,
    /// The next byte is the number of an extended opcode.
    Number,
    /// A standard opcode, or a special one.
    Single(u8),
    /// An extended opcode.
    Extended(u8),
}

impl Opcode {
    /// What one byte more says.
    fn with(self, byte: u8) -> Opcode
        ensures { result ≡ opcode_with self byte }
    {
        match self {
            Opcode::Unread if byte == 0 => Opcode::Length,
            Opcode::Unread => Opcode::Single(byte),
            Opcode::Length if byte < 128 => Opcode::Number,
            Opcode::Number => Opcode::Extended(byte),
            other => other,
        }
    }
}

/// How far the current unit has come.
#[derive(Clone, Copy)]
pub struct Reached {
    /// The offset of the unit in the section.
    pub unit: u64,
    /// The offset of the next byte of its program in the section.
    pub offset: u64,
    /// What is known of the opcode of the current operation.
    pub opcode: Opcode,
    /// The register op_index. Section 6.2.2.
    pub op_index: u8,
}

/// Before the first unit.
pub const BEFORE_UNITS: Reached = Reached {
    unit: 0,
    offset: 0,
    opcode: Opcode::Unread,
    op_index: 0,
};

impl Reached {
    ghost use Rattle.std.specs.Prelude.{◌≡◌};
    ghost use Rattle.dl_dump.specs.Reached.{at_program, with_byte};

    /// At the program of the unit at this offset that has this header.
    pub fn at_program(unit: u64, lengths: &HeaderLengths, header: &Header) -> Reached
        ensures { result ≡ at_program unit lengths.now header.now }
    {
        Reached {
            unit,
            offset: program_offset(unit, lengths.header_length, header.params()),
            opcode: Opcode::Unread,
            op_index: 0,
        }
    }

    /// A byte of the program further on.
    fn with_byte(self, byte: u8) -> Reached
        ensures { result ≡ with_byte self byte }
    {
        Reached {
            offset: self.offset.saturating_add(1),
            opcode: self.opcode.with(byte),
            ..self
        }
    }

    /// Bytes of the program further on.
    #[inline(never)]
    pub fn with_bytes(self, bytes: &[u8]) -> Reached
        ensures { result ≡ fold with_byte self bytes.now }
    {
        let mut at = self;
        for byte in bytes {
            at = at.with_byte(*byte);
        }
        at
    }
}

/// The offset of the program of a unit at this offset, as far as 64 bits hold it. Section 6.2.4.
fn program_offset(unit: u64, header_length: u64, params: &Params) -> u64
    ensures { result ≡ min (program_offset unit header_length params.now) (2 ^ 64 - 1) }
{
    let sizes = match params.format {
        Format::Dwarf32 => 10,
        Format::Dwarf64 => 22,
    };
    let before = if params.version == 5 {
        sizes + 2
    } else {
        sizes
    };
    unit.saturating_add(before).saturating_add(header_length)
}

/// The register op_index after an operation. Section 6.2.5.1.
pub fn op_index_with(params: &Params, op_index: u8, operation: Operation) -> u8
    requires { IsUsable params.now }
    ensures { result ≡ op_index_with params.now op_index operation }
{
    match operation {
        Operation::Special(_) | Operation::AdvancePc(_) | Operation::ConstAddPc => {
            moved(params, op_index, advance(params, operation))
        }
        Operation::FixedAdvancePc(_) | Operation::SetAddress(_) | Operation::EndSequence => 0,
        _ => op_index,
    }
}

/// The operation advance of an operation. Section 6.2.5.1.
fn advance(params: &Params, operation: Operation) -> u64
    requires { IsUsable params.now }
    ensures { result ≡ advance params.now operation }
{
    match operation {
        Operation::Special(opcode) => {
            u64::from(opcode.saturating_sub(params.opcode_base) / params.line_range)
        }
        Operation::AdvancePc(by) => by,
        Operation::ConstAddPc => u64::from((255 - params.opcode_base) / params.line_range),
        _ => 0,
    }
}

/// The register op_index after an operation advance. Section 6.2.5.1.
fn moved(params: &Params, op_index: u8, by: u64) -> u8
    requires { IsUsable params.now }
    ensures { result ≡ (op_index + by) % params.now.maximum_operations_per_instruction }
{
    let most = u128::from(params.maximum_operations_per_instruction);
    ((u128::from(op_index) + u128::from(by)) % most) as u8
}
