//! The JSON object of a row. Section 6.2.2.

ghost use Rattle.std.specs.Prelude.{◌≡◌, ◌++◌, codes, decimal};
ghost use Rattle.dl_print.specs.Digits.{hexadecimal_of};
ghost use Rattle.dl_print.specs.Output.{BlamesWriter, Prints};
ghost use Rattle.dl_dump_json.specs.Members.{boolean};
ghost use Rattle.dl_dump_json.specs.Rows.{address_member, flag_member, flags_members, has_flags, last_members, numbers_members, row_object};

use dl_output::Destination;
use dl_print::{Printer, WriteFault};
use dl_rows::Row;

/// Prints the object of a row.
#[inline]
pub fn print_row<W: Destination>(
    printer: &mut Printer,
    output: &mut W,
    row: &Row,
) -> Result<(), WriteFault>
    ensures printed { Prints (W.contents output.old) (W.contents output.new) printer.old printer.new
        (row_object row.now) result }
    ensures blames { BlamesWriter W.fails result }
{
    print_address(printer, output, row.address)?;
    print_numbers(printer, output, row)?;
    print_flags(printer, output, row)?;
    print_last(printer, output, row.isa, row.discriminator)
}

/// Prints the address.
#[tactic(auto, unfolding(crate::specs::Rows::address_member))]
fn print_address<W: Destination>(
    printer: &mut Printer,
    output: &mut W,
    address: u64,
) -> Result<(), WriteFault>
    ensures printed { Prints (W.contents output.old) (W.contents output.new) printer.old printer.new
        (address_member address) result }
    ensures blames { BlamesWriter W.fails result }
{
    printer.put(output, b"{\"kind\":\"row\",\"address\":\"")?;
    printer.address(output, address)?;
    printer.put(output, b"\"")
}

/// Prints the registers that are numbers.
#[tactic(auto, unfolding(crate::specs::Rows::numbers_members))]
fn print_numbers<W: Destination>(
    printer: &mut Printer,
    output: &mut W,
    row: &Row,
) -> Result<(), WriteFault>
    ensures printed { Prints (W.contents output.old) (W.contents output.new) printer.old printer.new
        (numbers_members row.now) result }
    ensures blames { BlamesWriter W.fails result }
{
    printer.number(output, b",\"op_index\":", row.op_index as u64)?;
    printer.number(output, b",\"file\":", row.file)?;
    printer.number(output, b",\"line\":", row.line)?;
    printer.number(output, b",\"column\":", row.column)
}

/// Prints the flags. Few rows have one beside is_stmt, so of the others all are printed at once.
fn print_flags<W: Destination>(
    printer: &mut Printer,
    output: &mut W,
    row: &Row,
) -> Result<(), WriteFault>
    ensures printed { Prints (W.contents output.old) (W.contents output.new) printer.old printer.new
        (flags_members row.now) result }
    ensures blames { BlamesWriter W.fails result }
{
    if has_flags(row) {
        print_each_flag(printer, output, row)
    } else {
        printer.put(output, flags_of(row.is_stmt))
    }
}

/// Whether a row has a flag beside is_stmt.
fn has_flags(row: &Row) -> bool
    ensures { result ≡ has_flags row.now }
{
    row.basic_block || row.end_sequence || row.prologue_end || row.epilogue_begin
}

/// The flags of a row that has none beside is_stmt.
#[tactic(auto, unfolding(crate::specs::Rows::flag_member))]
fn flags_of(is_stmt: bool) -> &'static [u8]
    ensures { result.now ≡ flag_member (codes ",\"is_stmt\":") is_stmt
        ++ codes ",\"basic_block\":false,\"end_sequence\":false,\"prologue_end\":false,\"epilogue_begin\":false" }
{
    if is_stmt {
        b",\"is_stmt\":true,\"basic_block\":false,\"end_sequence\":false,\"prologue_end\":false,\"epilogue_begin\":false"
    } else {
        b",\"is_stmt\":false,\"basic_block\":false,\"end_sequence\":false,\"prologue_end\":false,\"epilogue_begin\":false"
    }
}

/// Prints the flags, one after the other.
#[tactic(auto, unfolding(crate::specs::Rows::flags_members))]
#[inline(never)]
fn print_each_flag<W: Destination>(
    printer: &mut Printer,
    output: &mut W,
    row: &Row,
) -> Result<(), WriteFault>
    ensures printed { Prints (W.contents output.old) (W.contents output.new) printer.old printer.new
        (flags_members row.now) result }
    ensures blames { BlamesWriter W.fails result }
{
    print_flag(printer, output, b",\"is_stmt\":", row.is_stmt)?;
    print_flag(printer, output, b",\"basic_block\":", row.basic_block)?;
    print_flag(printer, output, b",\"end_sequence\":", row.end_sequence)?;
    print_flag(printer, output, b",\"prologue_end\":", row.prologue_end)?;
    print_flag(printer, output, b",\"epilogue_begin\":", row.epilogue_begin)
}

#[tactic(auto, unfolding(crate::specs::Rows::flag_member))]
fn print_flag<W: Destination>(
    printer: &mut Printer,
    output: &mut W,
    name: &[u8],
    is_set: bool,
) -> Result<(), WriteFault>
    ensures printed { Prints (W.contents output.old) (W.contents output.new) printer.old printer.new
        (flag_member name.now is_set) result }
    ensures blames { BlamesWriter W.fails result }
{
    printer.put(output, name)?;
    printer.put(output, boolean(is_set))
}

fn boolean(is_set: bool) -> &'static [u8]
    ensures { result.now ≡ boolean is_set }
{
    if is_set { b"true" } else { b"false" }
}

/// Prints the instruction set architecture and the block. Few rows have one, so both zeros are printed at once.
fn print_last<W: Destination>(
    printer: &mut Printer,
    output: &mut W,
    isa: u64,
    discriminator: u64,
) -> Result<(), WriteFault>
    ensures printed { Prints (W.contents output.old) (W.contents output.new) printer.old printer.new
        (last_members isa discriminator) result }
    ensures blames { BlamesWriter W.fails result }
{
    if isa == 0 && discriminator == 0 {
        printer.put(output, b",\"isa\":0,\"discriminator\":0}\n")
    } else {
        print_both(printer, output, isa, discriminator)
    }
}

#[tactic(auto, unfolding(crate::specs::Rows::last_members))]
fn print_both<W: Destination>(
    printer: &mut Printer,
    output: &mut W,
    isa: u64,
    discriminator: u64,
) -> Result<(), WriteFault>
    ensures printed { Prints (W.contents output.old) (W.contents output.new) printer.old printer.new
        (last_members isa discriminator) result }
    ensures blames { BlamesWriter W.fails result }
{
    printer.number(output, b",\"isa\":", isa)?;
    printer.put(output, b",\"discriminator\":")?;
    printer.number(output, b"", discriminator)?;
    printer.put(output, b"}\n")
}
