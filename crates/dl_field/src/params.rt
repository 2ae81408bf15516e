//! The fields of a header that are numbers. Section 6.2.4.

ghost use Rattle.std.specs.Prelude.{◌≡◌, [], ◌≤◌, IsTrue, Some, None, if◌then◌else◌};
ghost use Rattle.dl_field.specs.Layout.{objection, opcode_length, standard_params};
ghost use Rattle.dl_table.specs.declared.fault.FaultKind.TheVariants as fault;
ghost use Rattle.dl_field.specs.Usable.{IsUsable};

use arrayvec::ArrayVec;
use dl_table::Format;

/// The fields of a header that are numbers. Section 6.2.4.
#[derive(Debug, PartialEq, Eq, Drop)]
pub struct Params {
    /// Whether offsets and lengths have four bytes or eight. Section 7.4.
    pub format: Format,
    /// The version of the unit: 5, or 2 to 4 where those are read.
    pub version: u16,
    /// The size of an address in bytes: 1, 2, 4 or 8 in a header.
    pub address_size: u8,
    /// The size of a segment selector in bytes.
    pub segment_selector_size: u8,
    /// The size in bytes of the smallest instruction: how far an operation advance of one moves an address
    /// on where an instruction has one operation.
    pub minimum_instruction_length: u8,
    /// How many operations an instruction has at most; not 0 in a header. It is 1 but for VLIW machines.
    pub maximum_operations_per_instruction: u8,
    /// Whether a row is a statement before is_stmt is turned over: true where it isn't 0.
    pub default_is_stmt: u8,
    /// The least number of lines that a special opcode adds.
    pub line_base: i8,
    /// How many numbers of lines the special opcodes tell apart; not 0 in a header.
    pub line_range: u8,
    /// The number of the first special opcode; not 0 in a header.
    pub opcode_base: u8,
    /// How many LEB128 operands each standard opcode has, from opcode 1 on: `opcode_base - 1` of
    /// them in a header, the first twelve as in section 6.2.5.2.
    pub lengths: ArrayVec<u8, 254>,
}

/// How many operands each of the standard opcodes 1 to 12 has. Section 6.2.5.2.
const STANDARD_LENGTHS: [u8; 12] = [0, 1, 1, 1, 1, 0, 0, 0, 1, 0, 0, 1];

impl Params {
    /// The params of a header of which only the format was read: the least that a header may have.
    pub fn least(format: Format) -> Params
        ensures usable { IsUsable result }
        ensures no_lengths { result.lengths.items ≡ [] }
        ensures format { result.format ≡ format }
        ensures version { result.version ≡ 5 }
        ensures segments { result.segment_selector_size ≡ 0 }
        ensures operations { result.maximum_operations_per_instruction ≡ 1 }
    {
        Params {
            format,
            version: 5,
            address_size: 1,
            segment_selector_size: 0,
            minimum_instruction_length: 0,
            maximum_operations_per_instruction: 1,
            default_is_stmt: 0,
            line_base: 0,
            line_range: 1,
            opcode_base: 1,
            lengths: ArrayVec::new(),
        }
    }

    /// The same with opcode_base 13 and the twelve lengths of section 6.2.5.2.
    pub fn with_standard_opcodes(&self) -> Params
        ensures value { result ≡ standard_params self.now }
        ensures usable { IsUsable self.now → IsUsable result }
    {
        Params {
            format: self.format,
            version: self.version,
            address_size: self.address_size,
            segment_selector_size: self.segment_selector_size,
            minimum_instruction_length: self.minimum_instruction_length,
            maximum_operations_per_instruction: self.maximum_operations_per_instruction,
            default_is_stmt: self.default_is_stmt,
            line_base: self.line_base,
            line_range: self.line_range,
            opcode_base: 13,
            lengths: standard_lengths(),
        }
    }
}

/// The lengths of the standard opcodes 1 to 12. Section 6.2.5.2.
pub fn standard_lengths() -> ArrayVec<u8, 254>
    ensures { result.items ≡ STANDARD_LENGTHS }
{
    ArrayVec::try_from(STANDARD_LENGTHS.as_slice()).unwrap()
}

/// Whether a standard opcode, from 1 on, has another length than in section 6.2.5.2.
pub fn is_wrong_length(opcode: usize, length: u8) -> bool
    requires { 1 ≤ opcode }
    ensures standard { IsTrue result → opcode ≤ 12 }
    ensures value { objection (opcode_length opcode) length
        ≡ (if result then Some (fault.StandardLength opcode) else None) }
{
    match STANDARD_LENGTHS.get(opcode - 1) {
        Some(standard) => *standard != length,
        None => false,
    }
}
