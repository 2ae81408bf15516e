//! The fields of a header as members of an object. Section 6.2.4.

ghost use Rattle.std.specs.Prelude.{◌≡◌, ◌++◌, codes};
ghost use Rattle.dl_print.specs.Output.{BlamesWriter, Prints};
ghost use Rattle.dl_dump_json.specs.Fields.{fields_members, formats_members, instructions_members, lengths_members, lines_members};
ghost use Rattle.dl_dump_json.specs.Fields.{opcodes_members, operations_member, params_members, segments_member, sizes_members};
ghost use Rattle.dl_dump_json.specs.Members.{array_member, number_member, signed_member};

use crate::array::{print_bytes, print_format};
use crate::member::{print_byte, print_number, print_signed};
use dl_head::{Header, HeaderLengths, Params};
use dl_output::Destination;
use dl_print::{Printer, WriteFault};

/// Prints all fields, and how many bytes stand between the tables and the program.
#[tactic(auto, unfolding(crate::specs::Fields::fields_members))]
pub fn print_fields<W: Destination>(
    printer: &mut Printer,
    output: &mut W,
    lengths: &HeaderLengths,
    header: &Header,
) -> Result<(), WriteFault>
    ensures printed { Prints (W.contents output.old) (W.contents output.new) printer.old printer.new
        (fields_members lengths.now header.now) result }
    ensures blames { BlamesWriter W.fails result }
{
    let params = header.params();
    print_lengths(printer, output, lengths, params)?;
    print_params(printer, output, header)?;
    print_formats(printer, output, header)?;
    print_number(printer, output, b"padding", lengths.padding)
}

/// Prints how long the unit and the header are, and what stands between.
#[tactic(auto, unfolding(crate::specs::Fields::lengths_members))]
fn print_lengths<W: Destination>(
    printer: &mut Printer,
    output: &mut W,
    lengths: &HeaderLengths,
    params: &Params,
) -> Result<(), WriteFault>
    ensures printed { Prints (W.contents output.old) (W.contents output.new) printer.old printer.new
        (lengths_members lengths.now params.now) result }
    ensures blames { BlamesWriter W.fails result }
{
    print_number(printer, output, b"unit_length", lengths.unit_length)?;
    print_sizes(printer, output, params)?;
    print_number(printer, output, b"header_length", lengths.header_length)
}

/// Prints the fields after header_length that are numbers.
#[tactic(auto, unfolding(crate::specs::Fields::params_members))]
fn print_params<W: Destination>(
    printer: &mut Printer,
    output: &mut W,
    header: &Header,
) -> Result<(), WriteFault>
    ensures printed { Prints (W.contents output.old) (W.contents output.new) printer.old printer.new
        (params_members header.now.params) result }
    ensures blames { BlamesWriter W.fails result }
{
    let params = header.params();
    print_instructions(printer, output, params)?;
    print_lines(printer, output, header)?;
    print_opcodes(printer, output, params)
}

/// Prints the version, and the sizes of addresses and of segment selectors.
#[tactic(auto, unfolding(crate::specs::Fields::sizes_members))]
fn print_sizes<W: Destination>(
    printer: &mut Printer,
    output: &mut W,
    params: &Params,
) -> Result<(), WriteFault>
    ensures printed { Prints (W.contents output.old) (W.contents output.new) printer.old printer.new
        (sizes_members params.now) result }
    ensures blames { BlamesWriter W.fails result }
{
    print_number(printer, output, b"version", params.version as u64)?;
    print_byte(printer, output, b"address_size", params.address_size)?;
    print_segments(printer, output, params)
}

/// Prints the size of a segment selector, in version 5.
#[tactic(auto, unfolding(crate::specs::Fields::segments_member))]
fn print_segments<W: Destination>(
    printer: &mut Printer,
    output: &mut W,
    params: &Params,
) -> Result<(), WriteFault>
    ensures printed { Prints (W.contents output.old) (W.contents output.new) printer.old printer.new
        (segments_member params.now) result }
    ensures blames { BlamesWriter W.fails result }
{
    if params.version != 5 {
        return Ok(());
    }
    let size = params.segment_selector_size;
    print_byte(printer, output, b"segment_selector_size", size)
}

/// Prints the fields of instructions.
#[tactic(auto, unfolding(crate::specs::Fields::instructions_members))]
fn print_instructions<W: Destination>(
    printer: &mut Printer,
    output: &mut W,
    params: &Params,
) -> Result<(), WriteFault>
    ensures printed { Prints (W.contents output.old) (W.contents output.new) printer.old printer.new
        (instructions_members params.now) result }
    ensures blames { BlamesWriter W.fails result }
{
    let least = params.minimum_instruction_length;
    print_byte(printer, output, b"minimum_instruction_length", least)?;
    print_operations(printer, output, params)
}

/// Prints maximum_operations_per_instruction, from version 4 on.
#[tactic(auto, unfolding(crate::specs::Fields::operations_member))]
fn print_operations<W: Destination>(
    printer: &mut Printer,
    output: &mut W,
    params: &Params,
) -> Result<(), WriteFault>
    ensures printed { Prints (W.contents output.old) (W.contents output.new) printer.old printer.new
        (operations_member params.now) result }
    ensures blames { BlamesWriter W.fails result }
{
    if params.version < 4 {
        return Ok(());
    }
    let most = params.maximum_operations_per_instruction;
    print_byte(printer, output, b"maximum_operations_per_instruction", most)
}

/// Prints default_is_stmt, line_base and line_range.
#[tactic(auto, unfolding(crate::specs::Fields::lines_members))]
fn print_lines<W: Destination>(
    printer: &mut Printer,
    output: &mut W,
    header: &Header,
) -> Result<(), WriteFault>
    ensures printed { Prints (W.contents output.old) (W.contents output.new) printer.old printer.new
        (lines_members header.now.params) result }
    ensures blames { BlamesWriter W.fails result }
{
    let params = header.params();
    print_byte(printer, output, b"default_is_stmt", params.default_is_stmt)?;
    print_signed(printer, output, b"line_base", params.line_base)?;
    print_byte(printer, output, b"line_range", params.line_range)
}

/// Prints opcode_base, and the lengths of the standard opcodes.
#[tactic(auto, unfolding(crate::specs::Fields::opcodes_members))]
fn print_opcodes<W: Destination>(
    printer: &mut Printer,
    output: &mut W,
    params: &Params,
) -> Result<(), WriteFault>
    ensures printed { Prints (W.contents output.old) (W.contents output.new) printer.old printer.new
        (opcodes_members params.now) result }
    ensures blames { BlamesWriter W.fails result }
{
    print_byte(printer, output, b"opcode_base", params.opcode_base)?;
    print_bytes(printer, output, b"lengths", params.lengths.as_slice())
}

/// Prints the formats of both tables, in version 5.
#[tactic(auto, unfolding(crate::specs::Fields::formats_members))]
fn print_formats<W: Destination>(
    printer: &mut Printer,
    output: &mut W,
    header: &Header,
) -> Result<(), WriteFault>
    ensures printed { Prints (W.contents output.old) (W.contents output.new) printer.old printer.new
        (formats_members header.now) result }
    ensures blames { BlamesWriter W.fails result }
{
    if header.params().version != 5 {
        return Ok(());
    }
    let directories = header.directories().pairs();
    print_format(printer, output, b"directory_format", directories)?;
    print_format(printer, output, b"file_format", header.files().pairs())
}
