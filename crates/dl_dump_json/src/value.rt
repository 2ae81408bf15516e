//! The values of entries as JSON values. Sections 6.2.4.1 and 7.5.4 to 7.5.6.

ghost use Rattle.std.specs.Prelude.{◌≡◌, ◌++◌, codes, decimal};
ghost use Rattle.std.specs.Option.{option_copied};
ghost use Rattle.dl_table.specs.Held.{value_lent};
ghost use Rattle.dl_print.specs.Digits.{hexadecimal, hexadecimal_bytes};
ghost use Rattle.dl_print.specs.Output.{BlamesWriter, Prints};
ghost use Rattle.dl_print.specs.ValueText.{content_name, strings_of, text_in_section};
ghost use Rattle.dl_dump_json.specs.Values.{block_object, digits_string, offset_object, text_or_offset, value_json};

use crate::member::print_string;
use dl_head::ValueRef;
use dl_output::Destination;
use dl_print::{Printer, StringSection, StringSections, WriteFault, text_in_section};

/// Prints a value. Texts are looked up in the string sections.
pub fn print_value<W: Destination>(
    printer: &mut Printer,
    output: &mut W,
    strings: &StringSections<'_>,
    value: ValueRef<'_>,
) -> Result<(), WriteFault>
    ensures printed { Prints (W.contents output.old) (W.contents output.new) printer.old printer.new
        (value_json (strings_of strings.now) (value_lent value.entry)) result }
    ensures blames { BlamesWriter W.fails result }
{
    match value {
        ValueRef::Text(text) => print_string(printer, output, text),
        ValueRef::LineStr(at) => {
            let section = strings.debug_line_str.as_ref();
            print_text_at(printer, output, b"line_strp", section, at)
        }
        ValueRef::Str(at) => {
            print_text_at(printer, output, b"strp", strings.debug_str.as_ref(), at)
        }
        ValueRef::StrSup(at) => print_offset(printer, output, b"strp_sup", at),
        ValueRef::Number(number) => printer.number(output, b"", number),
        ValueRef::Block(bytes) => print_block(printer, output, bytes),
        ValueRef::Data16(bytes) => print_digits(printer, output, &bytes),
    }
}

/// Prints the text at an offset of a section, or the offset where there is none.
fn print_text_at<W: Destination>(
    printer: &mut Printer,
    output: &mut W,
    name: &[u8],
    section: Option<&StringSection<'_>>,
    offset: u64,
) -> Result<(), WriteFault>
    ensures printed { Prints (W.contents output.old) (W.contents output.new) printer.old printer.new
        (text_or_offset name.now offset (text_in_section (option_copied section.entry) offset)) result }
    ensures blames { BlamesWriter W.fails result }
{
    match text_in_section(section, offset) {
        Some(text) => print_string(printer, output, text),
        None => print_offset(printer, output, name, offset),
    }
}

/// Prints an offset into a section, by the name of its form.
#[tactic(auto, unfolding(crate::specs::Values::offset_object))]
fn print_offset<W: Destination>(
    printer: &mut Printer,
    output: &mut W,
    name: &[u8],
    offset: u64,
) -> Result<(), WriteFault>
    ensures printed { Prints (W.contents output.old) (W.contents output.new) printer.old printer.new
        (offset_object name.now offset) result }
    ensures blames { BlamesWriter W.fails result }
{
    printer.put(output, b"{\"")?;
    printer.put(output, name)?;
    printer.put(output, b"\":")?;
    printer.number(output, b"", offset)?;
    printer.put(output, b"}")
}

/// Prints the digits of the bytes of a block.
#[tactic(auto, unfolding(crate::specs::Values::block_object))]
fn print_block<W: Destination>(
    printer: &mut Printer,
    output: &mut W,
    bytes: &[u8],
) -> Result<(), WriteFault>
    ensures printed { Prints (W.contents output.old) (W.contents output.new) printer.old printer.new
        (block_object bytes.now) result }
    ensures blames { BlamesWriter W.fails result }
{
    printer.put(output, b"{\"block\":\"")?;
    printer.hexadecimal_bytes(output, bytes)?;
    printer.put(output, b"\"}")
}

/// Prints a string of two digits for each byte.
#[tactic(auto, unfolding(crate::specs::Values::digits_string))]
fn print_digits<W: Destination>(
    printer: &mut Printer,
    output: &mut W,
    bytes: &[u8],
) -> Result<(), WriteFault>
    ensures printed { Prints (W.contents output.old) (W.contents output.new) printer.old printer.new
        (digits_string bytes.now) result }
    ensures blames { BlamesWriter W.fails result }
{
    printer.put(output, b"\"")?;
    printer.hexadecimal_bytes(output, bytes)?;
    printer.put(output, b"\"")
}

/// Prints the name of a content code. Section 6.2.4.1.
#[tactic(auto, unfolding(dl_print::specs::ValueText::content_name))]
pub fn print_content_name<W: Destination>(
    printer: &mut Printer,
    output: &mut W,
    content: u64,
) -> Result<(), WriteFault>
    ensures printed { Prints (W.contents output.old) (W.contents output.new) printer.old printer.new
        (content_name content) result }
    ensures blames { BlamesWriter W.fails result }
{
    match content {
        1 => printer.put(output, b"path"),
        2 => printer.put(output, b"dir"),
        3 => printer.put(output, b"time"),
        4 => printer.put(output, b"size"),
        5 => printer.put(output, b"md5"),
        _ => printer.hexadecimal_number(output, b"0x", content),
    }
}
