//! JSON arrays. RFC 8259, section 5.

ghost use Rattle.std.specs.Prelude.{◌≡◌, ◌++◌, codes, decimal};
ghost use Rattle.dl_print.specs.HeaderFields.{form_name};
ghost use Rattle.dl_print.specs.Output.{BlamesWriter, Prints};
ghost use Rattle.dl_print.specs.ValueText.{content_name};
ghost use Rattle.dl_dump_json.specs.Fields.{pair_object};
ghost use Rattle.dl_dump_json.specs.Members.{array, array_member, comma_before, elements};

use crate::member::print_name;
use crate::value::print_content_name;
use dl_head::{Form, Pair};
use dl_output::Destination;
use dl_print::{Printer, WriteFault};

/// Prints what stands before the element at this place, from 0 on.
pub fn print_comma<W: Destination>(
    printer: &mut Printer,
    output: &mut W,
    place: usize,
) -> Result<(), WriteFault>
    ensures printed { Prints (W.contents output.old) (W.contents output.new) printer.old printer.new
        (comma_before place) result }
    ensures blames { BlamesWriter W.fails result }
{
    if place == 0 {
        printer.put(output, b"")
    } else {
        printer.put(output, b",")
    }
}

/// Prints a member that is an array of numbers of one byte.
#[tactic(auto, unfolding(crate::specs::Members::array_member, crate::specs::Members::array))]
pub fn print_bytes<W: Destination>(
    printer: &mut Printer,
    output: &mut W,
    name: &[u8],
    bytes: &[u8],
) -> Result<(), WriteFault>
    ensures printed { Prints (W.contents output.old) (W.contents output.new) printer.old printer.new
        (array_member name.now (λ place n. decimal n) bytes.now) result }
    ensures blames { BlamesWriter W.fails result }
{
    print_name(printer, output, name)?;
    printer.put(output, b"[")?;
    print_each_byte(printer, output, bytes)?;
    printer.put(output, b"]")
}

/// Prints numbers of one byte, the elements of an array.
fn print_each_byte<W: Destination>(
    printer: &mut Printer,
    output: &mut W,
    bytes: &[u8],
) -> Result<(), WriteFault>
    ensures printed { Prints (W.contents output.old) (W.contents output.new) printer.old printer.new
        (elements (λ place n. decimal n) 0 bytes.now) result }
    ensures blames { BlamesWriter W.fails result }
{
    for place in 0..bytes.len() {
        print_one_byte(printer, output, place, bytes[place])?;
    }
    Ok(())
}

fn print_one_byte<W: Destination>(
    printer: &mut Printer,
    output: &mut W,
    place: usize,
    byte: u8,
) -> Result<(), WriteFault>
    ensures printed { Prints (W.contents output.old) (W.contents output.new) printer.old printer.new
        (comma_before place ++ decimal byte) result }
    ensures blames { BlamesWriter W.fails result }
{
    print_comma(printer, output, place)?;
    printer.number(output, b"", byte as u64)
}

/// Prints a member that is the format of a table. Section 6.2.4.1.
#[tactic(auto, unfolding(crate::specs::Members::array_member, crate::specs::Members::array))]
pub fn print_format<W: Destination>(
    printer: &mut Printer,
    output: &mut W,
    name: &[u8],
    pairs: &[Pair],
) -> Result<(), WriteFault>
    ensures printed { Prints (W.contents output.old) (W.contents output.new) printer.old printer.new
        (array_member name.now (λ place p. pair_object p) pairs.now) result }
    ensures blames { BlamesWriter W.fails result }
{
    print_name(printer, output, name)?;
    printer.put(output, b"[")?;
    print_pairs(printer, output, pairs)?;
    printer.put(output, b"]")
}

fn print_pairs<W: Destination>(
    printer: &mut Printer,
    output: &mut W,
    pairs: &[Pair],
) -> Result<(), WriteFault>
    ensures printed { Prints (W.contents output.old) (W.contents output.new) printer.old printer.new
        (elements (λ place p. pair_object p) 0 pairs.now) result }
    ensures blames { BlamesWriter W.fails result }
{
    for place in 0..pairs.len() {
        print_one_pair(printer, output, place, pairs[place])?;
    }
    Ok(())
}

fn print_one_pair<W: Destination>(
    printer: &mut Printer,
    output: &mut W,
    place: usize,
    pair: Pair,
) -> Result<(), WriteFault>
    ensures printed { Prints (W.contents output.old) (W.contents output.new) printer.old printer.new
        (comma_before place ++ pair_object pair) result }
    ensures blames { BlamesWriter W.fails result }
{
    print_comma(printer, output, place)?;
    print_pair(printer, output, pair)
}

/// Prints a content code and the name of its form.
#[tactic(auto, unfolding(crate::specs::Fields::pair_object))]
fn print_pair<W: Destination>(
    printer: &mut Printer,
    output: &mut W,
    pair: Pair,
) -> Result<(), WriteFault>
    ensures printed { Prints (W.contents output.old) (W.contents output.new) printer.old printer.new
        (pair_object pair) result }
    ensures blames { BlamesWriter W.fails result }
{
    printer.put(output, b"{\"content\":\"")?;
    print_content_name(printer, output, pair.content)?;
    printer.put(output, b"\",\"form\":\"")?;
    printer.put(output, form_name(pair.form))?;
    printer.put(output, b"\"}")
}

/// The name of a form without `DW_FORM_`. Section 7.5.6, table 7.6.
fn form_name(form: Form) -> &'static [u8]
    ensures { result.now ≡ form_name form }
{
    match form {
        Form::Block2 => b"block2",
        Form::Block4 => b"block4",
        Form::Data2 => b"data2",
        Form::Data4 => b"data4",
        Form::Data8 => b"data8",
        Form::String => b"string",
        Form::Block => b"block",
        Form::Block1 => b"block1",
        Form::Data1 => b"data1",
        Form::Strp => b"strp",
        Form::Udata => b"udata",
        Form::StrpSup => b"strp_sup",
        Form::Data16 => b"data16",
        Form::LineStrp => b"line_strp",
    }
}
