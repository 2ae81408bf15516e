//! What is wrong with a unit or a table.

use std::fmt;
use thiserror::Error;

/// What is wrong with a unit. Its Display is one line without a newline.
#[derive(Clone, Copy, Debug, PartialEq, Eq)]
pub enum FaultKind {
    /// The initial length is 0xfffffff0 to 0xfffffffe. Section 7.4.
    ReservedLength,
    /// unit_length is above 2^40.
    UnitTooLong,
    /// The unit ends before header_length is complete.
    UnitOverrun,
    /// address_size isn't 1, 2, 4 or 8.
    AddressSize,
    /// header_length is above the bytes left in the unit.
    HeaderBeyondUnit,
    /// The header ends, by header_length, before its last field does.
    HeaderOverrun,
    /// maximum_operations_per_instruction is 0.
    MaxOps,
    /// line_range is 0.
    LineRange,
    /// opcode_base is 0.
    OpcodeBase,
    /// This standard opcode has another number of operands than in section 6.2.5.2.
    StandardLength(u8),
    /// This code is no form's that a line table may use.
    UnknownForm(u64),
    /// There are directories or files, and their format has no pairs.
    EmptyFormat,
    /// A number in LEB128 doesn't fit 64 bits.
    LebRange,
    /// An extended opcode has the length 0.
    ExtendedEmpty,
    /// The operand of an extended opcode doesn't fill its length.
    ExtendedLength,
    /// The unit ends inside an opcode.
    OpcodeOverrun,
    /// The input ends inside a unit.
    Truncated,
}

impl fmt::Display for FaultKind {
    ghost use Rattle.std.specs.Prelude.{Some};
    ghost use Rattle.dl_table.specs.FaultText.{fault_text};

    ghost output = { λ kind. Some (fault_text kind) };

    fn fmt<W: fmt::Write>(&self, f: &mut fmt::Formatter<W>) -> fmt::Result {
        let text = match self {
            FaultKind::ReservedLength => "reserved initial length",
            FaultKind::UnitTooLong => "unit too long",
            FaultKind::UnitOverrun => "unit ends in its header",
            FaultKind::AddressSize => "bad address size",
            FaultKind::HeaderBeyondUnit => "header goes past the unit",
            FaultKind::HeaderOverrun => "header ends too soon",
            FaultKind::MaxOps => "maximum operations is 0",
            FaultKind::LineRange => "line range is 0",
            FaultKind::OpcodeBase => "opcode base is 0",
            FaultKind::StandardLength(opcode) => {
                return write!(f, "wrong length of standard opcode {opcode}");
            }
            FaultKind::UnknownForm(code) => return write!(f, "unknown form 0x{code:x}"),
            FaultKind::EmptyFormat => "entries without a format",
            FaultKind::LebRange => "number out of range",
            FaultKind::ExtendedEmpty => "empty extended opcode",
            FaultKind::ExtendedLength => "wrong length of extended opcode",
            FaultKind::OpcodeOverrun => "unit ends inside an opcode",
            FaultKind::Truncated => "input ends inside a unit",
        };
        f.write_str(text)
    }
}

/// Why a table or an entry was refused.
#[derive(Clone, Copy, Debug, PartialEq, Eq, Error)]
pub enum BuildFault {
    /// The table has no pairs, so it takes no entries.
    #[error("the table has no pairs")]
    EmptyFormat,
    /// The least place at which a value is missing, is too many, or isn't one of its pair's form.
    #[error("wrong value at place {0}")]
    WrongValue(usize),
    #[error("out of memory")]
    NoMemory,
    /// There are more than 255 pairs.
    #[error("too many pairs")]
    TooManyFormats,
}
