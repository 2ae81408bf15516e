//! The members of a JSON object, in one line.

ghost use Rattle.std.specs.Prelude.{◌≡◌, ◌++◌, [], codes, decimal};
ghost use Rattle.dl_print.specs.Digits.{hexadecimal, hexadecimal_of};
ghost use Rattle.dl_print.specs.Output.{BlamesWriter as PrintBlames, Prints};
ghost use Rattle.std.specs.Option.{option_copied};
ghost use Rattle.dl_addr.specs.Json.{json_address, json_asked, json_is_stmt, json_position, json_row, json_section, json_string};
ghost use Rattle.dl_addr.specs.declared.style.AnswerForm.TheVariants as all_forms;
ghost use Rattle.dl_addr.specs.Answers.{answer_seen};
ghost use Rattle.dl_addr.specs.Texts.{path_kept};
ghost use Rattle.dl_addr.specs.Printing.{named_text};

use crate::kept::KeptPath;
use crate::locating::Answer;
use crate::path_text::print_path;
use crate::style::AnswerForm;
use dl_output::Destination;
use dl_path::print_json_text;
use dl_print::{Printer, WriteFault};

/// Prints the beginning of an object: the address as it was given, and the section where it is named, or null of a
/// line that is no address.
pub fn print_json_asked<W: Destination>(
    printer: &mut Printer,
    output: &mut W,
    address: Option<u64>,
    section: Option<&str>,
) -> Result<(), WriteFault>
    ensures printed { Prints (W.contents output.old) (W.contents output.new) printer.old printer.new
        (json_asked address (option_copied section.entry)) result }
    ensures blames_writer { PrintBlames W.fails result }
{
    print_json_address(printer, output, address)?;
    print_section(printer, output, address, section)
}

/// Prints the section after an address, where it is named.
fn print_section<W: Destination>(
    printer: &mut Printer,
    output: &mut W,
    address: Option<u64>,
    section: Option<&str>,
) -> Result<(), WriteFault>
    ensures printed { Prints (W.contents output.old) (W.contents output.new) printer.old printer.new
        (json_section address (option_copied section.entry)) result }
    ensures blames_writer { PrintBlames W.fails result }
{
    match (address, section) {
        (Some(_), Some(name)) => print_name(printer, output, name),
        _ => printer.put(output, b""),
    }
}

fn print_name<W: Destination>(
    printer: &mut Printer,
    output: &mut W,
    name: &str,
) -> Result<(), WriteFault>
    ensures printed { Prints (W.contents output.old) (W.contents output.new) printer.old printer.new
        (codes ",\"section\":" ++ json_string name.now) result }
    ensures blames_writer { PrintBlames W.fails result }
{
    printer.put(output, b",\"section\":\"")?;
    print_json_text(printer, output, name.as_bytes())?;
    printer.put(output, b"\"")
}

/// Prints the address as it was given, or null of a line that is none.
fn print_json_address<W: Destination>(
    printer: &mut Printer,
    output: &mut W,
    address: Option<u64>,
) -> Result<(), WriteFault>
    ensures printed { Prints (W.contents output.old) (W.contents output.new) printer.old printer.new
        (json_address address) result }
    ensures blames_writer { PrintBlames W.fails result }
{
    match address {
        Some(address) => print_given(printer, output, address),
        None => printer.put(output, b"{\"address\":null"),
    }
}

fn print_given<W: Destination>(
    printer: &mut Printer,
    output: &mut W,
    address: u64,
) -> Result<(), WriteFault>
    ensures printed { Prints (W.contents output.old) (W.contents output.new) printer.old printer.new
        ((codes "{\"address\":\"" ++ (codes "0x" ++ hexadecimal_of 16 address)) ++ codes "\"") result }
    ensures blames_writer { PrintBlames W.fails result }
{
    print_address_open(printer, output, address)?;
    printer.put(output, b"\"")
}

/// The same of an address, up to its last digit.
fn print_address_open<W: Destination>(
    printer: &mut Printer,
    output: &mut W,
    address: u64,
) -> Result<(), WriteFault>
    ensures printed { Prints (W.contents output.old) (W.contents output.new) printer.old printer.new
        (codes "{\"address\":\"" ++ (codes "0x" ++ hexadecimal_of 16 address)) result }
    ensures blames_writer { PrintBlames W.fails result }
{
    printer.put(output, b"{\"address\":\"")?;
    printer.address(output, address)
}

/// Prints the members that tell of a row, under its path.
pub fn print_json_row<W: Destination>(
    printer: &mut Printer,
    output: &mut W,
    answer: &Answer<'_, '_>,
) -> Result<(), WriteFault>
    ensures printed { Prints (W.contents output.old) (W.contents output.new) printer.old printer.new
        (json_row (named_text all_forms.Json (path_kept answer.now.path)) (answer_seen answer.now)) result }
    ensures blames_writer { PrintBlames W.fails result }
{
    print_path_member(printer, output, answer.path)?;
    print_position(printer, output, answer)?;
    let unit = answer.path.file.unit;
    print_end(printer, output, answer.position.is_stmt, unit.offset)
}

fn print_path_member<W: Destination>(
    printer: &mut Printer,
    output: &mut W,
    path: KeptPath<'_, '_>,
) -> Result<(), WriteFault>
    ensures printed { Prints (W.contents output.old) (W.contents output.new) printer.old printer.new
        (codes ",\"path\":" ++ named_text all_forms.Json (path_kept path.entry)) result }
    ensures blames_writer { PrintBlames W.fails result }
{
    printer.put(output, b",\"path\":")?;
    print_path(printer, output, AnswerForm::Json, path)
}

/// Prints the line, the column and the discriminator.
fn print_position<W: Destination>(
    printer: &mut Printer,
    output: &mut W,
    answer: &Answer<'_, '_>,
) -> Result<(), WriteFault>
    ensures printed { Prints (W.contents output.old) (W.contents output.new) printer.old printer.new
        (json_position (answer_seen answer.now)) result }
    ensures blames_writer { PrintBlames W.fails result }
{
    printer.number(output, b",\"line\":", answer.position.line)?;
    printer.number(output, b",\"column\":", answer.position.column)?;
    print_discriminator(printer, output, answer.position.discriminator)
}

fn print_discriminator<W: Destination>(
    printer: &mut Printer,
    output: &mut W,
    discriminator: u64,
) -> Result<(), WriteFault>
    ensures printed { Prints (W.contents output.old) (W.contents output.new) printer.old printer.new
        (codes ",\"discriminator\":" ++ decimal discriminator) result }
    ensures blames_writer { PrintBlames W.fails result }
{
    printer.put(output, b",\"discriminator\":")?;
    printer.number(output, b"", discriminator)
}

/// Prints whether the row is a statement, and the offset of its unit.
fn print_end<W: Destination>(
    printer: &mut Printer,
    output: &mut W,
    is_stmt: bool,
    unit: u64,
) -> Result<(), WriteFault>
    ensures printed { Prints (W.contents output.old) (W.contents output.new) printer.old printer.new
        (json_is_stmt is_stmt ++ ((codes ",\"unit\":\"0x" ++ hexadecimal unit) ++ codes "\"")) result }
    ensures blames_writer { PrintBlames W.fails result }
{
    print_is_stmt(printer, output, is_stmt)?;
    print_unit(printer, output, unit)
}

fn print_is_stmt<W: Destination>(
    printer: &mut Printer,
    output: &mut W,
    is_stmt: bool,
) -> Result<(), WriteFault>
    ensures printed { Prints (W.contents output.old) (W.contents output.new) printer.old printer.new
        (json_is_stmt is_stmt) result }
    ensures blames_writer { PrintBlames W.fails result }
{
    if is_stmt {
        printer.put(output, b",\"is_stmt\":true")
    } else {
        printer.put(output, b",\"is_stmt\":false")
    }
}

fn print_unit<W: Destination>(
    printer: &mut Printer,
    output: &mut W,
    unit: u64,
) -> Result<(), WriteFault>
    ensures printed { Prints (W.contents output.old) (W.contents output.new) printer.old printer.new
        ((codes ",\"unit\":\"0x" ++ hexadecimal unit) ++ codes "\"") result }
    ensures blames_writer { PrintBlames W.fails result }
{
    printer.hexadecimal_number(output, b",\"unit\":\"0x", unit)?;
    printer.put(output, b"\"")
}
