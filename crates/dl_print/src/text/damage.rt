//! The text of a damaged unit.
ghost use Rattle.std.specs.Prelude.{◌≡◌, ◌+◌, ◌≤◌, ◌++◌, length, take};
ghost use Rattle.dl_table.specs.FaultText.{fault_text};
ghost use Rattle.dl_print.specs.Text.{damage_text};

use crate::text::digits::{write_bytes, write_hexadecimal_number, write_number};
use dl_head::FaultKind;

/// Writes what is wrong with a unit, and answers where it ends.
fn write_fault(buffer: &mut [u8], at: usize, kind: FaultKind) -> usize
    requires { at + 64 ≤ length buffer.old }
    ensures written { take result buffer.new ≡ take at buffer.old ++ fault_text kind }
    ensures room { result ≤ at + 64 }
{
    match kind {
        FaultKind::ReservedLength => write_bytes(buffer, at, b"reserved initial length"),
        FaultKind::UnitTooLong => write_bytes(buffer, at, b"unit too long"),
        FaultKind::UnitOverrun => write_bytes(buffer, at, b"unit ends in its header"),
        FaultKind::AddressSize => write_bytes(buffer, at, b"bad address size"),
        FaultKind::HeaderBeyondUnit => write_bytes(buffer, at, b"header goes past the unit"),
        FaultKind::HeaderOverrun => write_bytes(buffer, at, b"header ends too soon"),
        FaultKind::MaxOps => write_bytes(buffer, at, b"maximum operations is 0"),
        FaultKind::LineRange => write_bytes(buffer, at, b"line range is 0"),
        FaultKind::OpcodeBase => write_bytes(buffer, at, b"opcode base is 0"),
        FaultKind::StandardLength(opcode) => {
            let words = b"wrong length of standard opcode ";
            write_number(buffer, at, words, opcode as u64)
        }
        FaultKind::UnknownForm(code) => {
            write_hexadecimal_number(buffer, at, b"unknown form 0x", code)
        }
        FaultKind::EmptyFormat => write_bytes(buffer, at, b"entries without a format"),
        FaultKind::LebRange => write_bytes(buffer, at, b"number out of range"),
        FaultKind::ExtendedEmpty => write_bytes(buffer, at, b"empty extended opcode"),
        FaultKind::ExtendedLength => write_bytes(buffer, at, b"wrong length of extended opcode"),
        FaultKind::OpcodeOverrun => write_bytes(buffer, at, b"unit ends inside an opcode"),
        FaultKind::Truncated => write_bytes(buffer, at, b"input ends inside a unit"),
    }
}

/// Writes where a unit is damaged, and how, and answers where the text ends.
pub fn write_damage(buffer: &mut [u8], at: usize, offset: u64, kind: FaultKind) -> usize
    requires { at + 128 ≤ length buffer.old }
    ensures written { take result buffer.new ≡ take at buffer.old ++ damage_text offset kind }
    ensures room { result ≤ at + 128 }
{
    let at = write_hexadecimal_number(buffer, at, b"damage at 0x", offset);
    let at = write_bytes(buffer, at, b": ");
    write_fault(buffer, at, kind)
}
