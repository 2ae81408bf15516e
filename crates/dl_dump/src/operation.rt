//! The line of an operation. Sections 6.2.5.1 to 6.2.5.3.

ghost use Rattle.std.specs.Prelude.{◌≡◌, ◌≤◌, ◌*◌, ◌==◌, ◌&&◌, ◌++◌, ◌+ℤ◌, ◌-ℤ◌, codes, nat_lt, pos};
ghost use Rattle.dl_field.specs.Usable.{IsUsable};
ghost use Rattle.dl_print.specs.Digits.{hexadecimal, hexadecimal_bytes, hexadecimal_of};
ghost use Rattle.dl_print.specs.Output.{BlamesWriter, Prints};
ghost use Rattle.dl_dump.specs.OperationText.{address_step, extended_text, name_text, operand_text, operation_end};
ghost use Rattle.dl_dump.specs.OperationText.{operation_start, signed_operand_text, special_text, start_text, unknown_text};

use crate::reached::{Opcode, Reached, op_index_with};
use dl_head::{Header, Params};
use dl_output::Destination;
use dl_print::{Printer, WriteFault};
use dl_rows::Operation;

/// Prints the next bytes of an operation, and before the first one where its line begins.
#[inline(never)]
pub fn print_bytes<W: Destination>(
    printer: &mut Printer,
    output: &mut W,
    at: &Reached,
    bytes: &[u8],
) -> Result<(), WriteFault>
    ensures printed { Prints (W.contents output.old) (W.contents output.new) printer.old printer.new
        (start_text at.now.opcode at.now.offset ++ hexadecimal_bytes bytes.now) result }
    ensures blames { BlamesWriter W.fails result }
{
    print_start(printer, output, at)?;
    printer.hexadecimal_bytes(output, bytes)
}

/// Prints where the line of an operation begins, of which no byte has come.
fn print_start<W: Destination>(
    printer: &mut Printer,
    output: &mut W,
    at: &Reached,
) -> Result<(), WriteFault>
    ensures printed { Prints (W.contents output.old) (W.contents output.new) printer.old printer.new
        (start_text at.now.opcode at.now.offset) result }
    ensures blames { BlamesWriter W.fails result }
{
    match at.opcode {
        Opcode::Unread => print_offset(printer, output, at.offset),
        _ => printer.put(output, b""),
    }
}

/// Prints the offset of an operation.
#[tactic(auto, unfolding(crate::specs::OperationText::operation_start))]
fn print_offset<W: Destination>(
    printer: &mut Printer,
    output: &mut W,
    offset: u64,
) -> Result<(), WriteFault>
    ensures printed { Prints (W.contents output.old) (W.contents output.new) printer.old printer.new
        (operation_start offset) result }
    ensures blames { BlamesWriter W.fails result }
{
    printer.hexadecimal_number(output, b"operation 0x", offset)?;
    printer.put(output, b" ")
}

/// Prints the name of an operation, its operands, and the end of its line.
#[inline(never)]
pub fn print_operation<W: Destination>(
    printer: &mut Printer,
    output: &mut W,
    header: &Header,
    at: &Reached,
    operation: Operation,
) -> Result<(), WriteFault>
    ensures printed { Prints (W.contents output.old) (W.contents output.new) printer.old printer.new
        (operation_end header.now.params at.now operation) result }
    ensures blames { BlamesWriter W.fails result }
{
    print_name(printer, output, header, at, operation)?;
    printer.put(output, b"\n")
}

/// Prints the name of an operation and its operands.
fn print_name<W: Destination>(
    printer: &mut Printer,
    output: &mut W,
    header: &Header,
    at: &Reached,
    operation: Operation,
) -> Result<(), WriteFault>
    ensures printed { Prints (W.contents output.old) (W.contents output.new) printer.old printer.new
        (name_text header.now.params at.now operation) result }
    ensures blames { BlamesWriter W.fails result }
{
    match operation {
        Operation::Special(opcode) => print_special(printer, output, header, at.op_index, opcode),
        Operation::Copy => printer.put(output, b" DW_LNS_copy"),
        Operation::AdvancePc(by) => print_operand(printer, output, b" DW_LNS_advance_pc", by),
        Operation::AdvanceLine(by) => print_signed(printer, output, b" DW_LNS_advance_line", by),
        Operation::SetFile(file) => print_operand(printer, output, b" DW_LNS_set_file", file),
        Operation::SetColumn(column) => {
            print_operand(printer, output, b" DW_LNS_set_column", column)
        }
        Operation::NegateStatement => printer.put(output, b" DW_LNS_negate_stmt"),
        Operation::SetBasicBlock => printer.put(output, b" DW_LNS_set_basic_block"),
        Operation::ConstAddPc => printer.put(output, b" DW_LNS_const_add_pc"),
        Operation::FixedAdvancePc(by) => {
            print_operand(printer, output, b" DW_LNS_fixed_advance_pc", by)
        }
        Operation::SetPrologueEnd => printer.put(output, b" DW_LNS_set_prologue_end"),
        Operation::SetEpilogueBegin => printer.put(output, b" DW_LNS_set_epilogue_begin"),
        Operation::SetIsa(isa) => print_operand(printer, output, b" DW_LNS_set_isa", isa),
        Operation::EndSequence => printer.put(output, b" DW_LNE_end_sequence"),
        Operation::SetAddress(address) => print_address(printer, output, address),
        Operation::SetDiscriminator(discriminator) => {
            print_operand(printer, output, b" DW_LNE_set_discriminator", discriminator)
        }
        Operation::Skipped => print_unknown(printer, output, header.params().version, at.opcode),
    }
}

/// Prints a name and an operand that is a number.
#[tactic(auto, unfolding(crate::specs::OperationText::operand_text))]
fn print_operand<W: Destination>(
    printer: &mut Printer,
    output: &mut W,
    name: &[u8],
    operand: u64,
) -> Result<(), WriteFault>
    ensures printed { Prints (W.contents output.old) (W.contents output.new) printer.old printer.new
        (operand_text name.now operand) result }
    ensures blames { BlamesWriter W.fails result }
{
    printer.put(output, name)?;
    printer.number(output, b" ", operand)
}

/// Prints a name and an operand that may be below zero.
#[tactic(auto, unfolding(crate::specs::OperationText::signed_operand_text))]
fn print_signed<W: Destination>(
    printer: &mut Printer,
    output: &mut W,
    name: &[u8],
    operand: i64,
) -> Result<(), WriteFault>
    ensures printed { Prints (W.contents output.old) (W.contents output.new) printer.old printer.new
        (signed_operand_text name.now operand) result }
    ensures blames { BlamesWriter W.fails result }
{
    printer.put(output, name)?;
    printer.signed(output, operand)
}

/// Prints DW_LNE_set_address.
fn print_address<W: Destination>(
    printer: &mut Printer,
    output: &mut W,
    address: u64,
) -> Result<(), WriteFault>
    ensures printed { Prints (W.contents output.old) (W.contents output.new) printer.old printer.new
        (codes " DW_LNE_set_address " ++ (codes "0x" ++ hexadecimal_of 16 address)) result }
    ensures blames { BlamesWriter W.fails result }
{
    printer.put(output, b" DW_LNE_set_address ")?;
    printer.address(output, address)
}

/// Prints a special opcode, and what it adds to address, op_index and line. Section 6.2.5.1.
#[tactic(auto, unfolding(crate::specs::OperationText::special_text))]
fn print_special<W: Destination>(
    printer: &mut Printer,
    output: &mut W,
    header: &Header,
    op_index: u8,
    opcode: u8,
) -> Result<(), WriteFault>
    ensures printed { Prints (W.contents output.old) (W.contents output.new) printer.old printer.new
        (special_text header.now.params op_index opcode) result }
    ensures blames { BlamesWriter W.fails result }
{
    let params = header.params();
    printer.hexadecimal_number(output, b" special 0x", u64::from(opcode))?;
    print_operand(
        printer,
        output,
        b" address",
        address_step(params, op_index, opcode),
    )?;
    let new = op_index_with(params, op_index, Operation::Special(opcode));
    print_change(printer, output, op_index, new)?;
    let adjusted = opcode.saturating_sub(params.opcode_base);
    print_lines(
        printer,
        output,
        params.line_base,
        adjusted % params.line_range,
    )
}

/// Prints what is added to the register op_index.
fn print_change<W: Destination>(
    printer: &mut Printer,
    output: &mut W,
    old: u8,
    new: u8,
) -> Result<(), WriteFault>
    ensures printed { Prints (W.contents output.old) (W.contents output.new) printer.old printer.new
        (signed_operand_text (codes " op_index") (pos new -ℤ pos old)) result }
    ensures blames { BlamesWriter W.fails result }
{
    print_signed(
        printer,
        output,
        b" op_index",
        i64::from(new) - i64::from(old),
    )
}

/// Prints what is added to the register line.
fn print_lines<W: Destination>(
    printer: &mut Printer,
    output: &mut W,
    line_base: i8,
    lines: u8,
) -> Result<(), WriteFault>
    ensures printed { Prints (W.contents output.old) (W.contents output.new) printer.old printer.new
        (signed_operand_text (codes " line") (line_base +ℤ pos lines)) result }
    ensures blames { BlamesWriter W.fails result }
{
    print_signed(
        printer,
        output,
        b" line",
        i64::from(line_base) + i64::from(lines),
    )
}

/// What a special opcode adds to the address. Section 6.2.5.1.
fn address_step(params: &Params, op_index: u8, opcode: u8) -> u64
    requires { IsUsable params.now }
    ensures { result ≡ address_step params.now op_index opcode }
{
    let adjusted = opcode.saturating_sub(params.opcode_base);
    let operations = u64::from(op_index) + u64::from(adjusted / params.line_range);
    let instructions = operations / u64::from(params.maximum_operations_per_instruction);
    length_of(params.minimum_instruction_length, instructions)
}

/// How long so many instructions of this length are.
fn length_of(length: u8, instructions: u64) -> u64
    requires { instructions ≤ 511 }
    ensures { result ≡ length * instructions }
{
    u64::from(length) * instructions
}

/// Prints the name of an opcode that is passed over.
fn print_unknown<W: Destination>(
    printer: &mut Printer,
    output: &mut W,
    version: u16,
    opcode: Opcode,
) -> Result<(), WriteFault>
    ensures printed { Prints (W.contents output.old) (W.contents output.new) printer.old printer.new
        (unknown_text version opcode) result }
    ensures blames { BlamesWriter W.fails result }
{
    match opcode {
        Opcode::Single(number) => print_number(printer, output, b" DW_LNS_unknown", number),
        Opcode::Extended(number) => print_extended(printer, output, version, number),
        Opcode::Unread => printer.put(output, b" unknown"),
        Opcode::Length => printer.put(output, b" unknown"),
        Opcode::Number => printer.put(output, b" unknown"),
    }
}

/// Prints the name of an extended opcode that is passed over.
#[tactic(auto, unfolding(crate::specs::OperationText::extended_text))]
fn print_extended<W: Destination>(
    printer: &mut Printer,
    output: &mut W,
    version: u16,
    number: u8,
) -> Result<(), WriteFault>
    ensures printed { Prints (W.contents output.old) (W.contents output.new) printer.old printer.new
        (extended_text version number) result }
    ensures blames { BlamesWriter W.fails result }
{
    if is_define_file(version, number) {
        printer.put(output, b" DW_LNE_define_file")
    } else {
        print_number(printer, output, b" DW_LNE_unknown", number)
    }
}

/// Whether an extended opcode is DW_LNE_define_file.
fn is_define_file(version: u16, number: u8) -> bool
    ensures { result ≡ (number == 3) && nat_lt version 5 }
{
    number == 3 && version < 5
}

/// Prints a name and the number of an opcode.
fn print_number<W: Destination>(
    printer: &mut Printer,
    output: &mut W,
    name: &[u8],
    number: u8,
) -> Result<(), WriteFault>
    ensures printed { Prints (W.contents output.old) (W.contents output.new) printer.old printer.new
        (name.now ++ (codes " 0x" ++ hexadecimal number)) result }
    ensures blames { BlamesWriter W.fails result }
{
    printer.put(output, name)?;
    printer.hexadecimal_number(output, b" 0x", u64::from(number))
}
