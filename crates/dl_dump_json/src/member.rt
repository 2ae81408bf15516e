//! Members of JSON objects. RFC 8259, sections 4 to 7.

ghost use Rattle.std.specs.Prelude.{◌≡◌, ◌++◌, codes, decimal};
ghost use Rattle.dl_print.specs.Output.{BlamesWriter, Prints};
ghost use Rattle.dl_dump_json.specs.Members.{json_string, name_start, number_member, signed_member, signed_number};

use dl_output::Destination;
use dl_path::print_json_text;
use dl_print::{Printer, WriteFault};

/// Prints the JSON string of a text; U+FFFD stands for what isn't UTF-8.
pub fn print_string<W: Destination>(
    printer: &mut Printer,
    output: &mut W,
    text: &[u8],
) -> Result<(), WriteFault>
    ensures printed { Prints (W.contents output.old) (W.contents output.new) printer.old printer.new
        (json_string text.now) result }
    ensures blames { BlamesWriter W.fails result }
{
    printer.put(output, b"\"")?;
    print_json_text(printer, output, text)?;
    printer.put(output, b"\"")
}

/// Prints the name of a member after others, up to its value.
#[tactic(auto, unfolding(crate::specs::Members::name_start))]
pub fn print_name<W: Destination>(
    printer: &mut Printer,
    output: &mut W,
    name: &[u8],
) -> Result<(), WriteFault>
    ensures printed { Prints (W.contents output.old) (W.contents output.new) printer.old printer.new
        (name_start name.now) result }
    ensures blames { BlamesWriter W.fails result }
{
    printer.put(output, b",\"")?;
    printer.put(output, name)?;
    printer.put(output, b"\":")
}

/// Prints a member that is a number.
#[tactic(auto, unfolding(crate::specs::Members::number_member))]
pub fn print_number<W: Destination>(
    printer: &mut Printer,
    output: &mut W,
    name: &[u8],
    number: u64,
) -> Result<(), WriteFault>
    ensures printed { Prints (W.contents output.old) (W.contents output.new) printer.old printer.new
        (number_member name.now number) result }
    ensures blames { BlamesWriter W.fails result }
{
    print_name(printer, output, name)?;
    printer.number(output, b"", number)
}

/// Prints a member that is a number of one byte.
pub fn print_byte<W: Destination>(
    printer: &mut Printer,
    output: &mut W,
    name: &[u8],
    number: u8,
) -> Result<(), WriteFault>
    ensures printed { Prints (W.contents output.old) (W.contents output.new) printer.old printer.new
        (number_member name.now number) result }
    ensures blames { BlamesWriter W.fails result }
{
    print_number(printer, output, name, number as u64)
}

/// Prints a member that is a number and may be below zero.
#[tactic(auto, unfolding(crate::specs::Members::signed_member))]
pub fn print_signed<W: Destination>(
    printer: &mut Printer,
    output: &mut W,
    name: &[u8],
    number: i8,
) -> Result<(), WriteFault>
    ensures printed { Prints (W.contents output.old) (W.contents output.new) printer.old printer.new
        (signed_member name.now number) result }
    ensures blames { BlamesWriter W.fails result }
{
    print_name(printer, output, name)?;
    print_signed_number(printer, output, number)
}

/// Prints a number that may be below zero.
#[tactic(auto, unfolding(crate::specs::Members::signed_number))]
fn print_signed_number<W: Destination>(
    printer: &mut Printer,
    output: &mut W,
    number: i8,
) -> Result<(), WriteFault>
    ensures printed { Prints (W.contents output.old) (W.contents output.new) printer.old printer.new
        (signed_number number) result }
    ensures blames { BlamesWriter W.fails result }
{
    let size = u64::from(number.unsigned_abs());
    if number < 0 {
        printer.number(output, b"-", size)
    } else {
        printer.number(output, b"", size)
    }
}
