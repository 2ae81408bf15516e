//! The JSON objects of units. Section 6.2.4.

ghost use Rattle.std.specs.Prelude.{◌≡◌, ◌++◌, codes, decimal};
ghost use Rattle.dl_head.specs.Numbers.{first_number};
ghost use Rattle.dl_print.specs.Output.{BlamesWriter, Prints};
ghost use Rattle.dl_print.specs.Text.{format_name};
ghost use Rattle.dl_print.specs.ValueText.{strings_of};
ghost use Rattle.dl_dump_json.specs.Units.{open_object, skipped_object, table_member, tables_members, unit_object, unit_start};

use crate::entry::print_table;
use crate::fields::print_fields;
use dl_head::{Format, Header, HeaderLengths};
use dl_output::Destination;
use dl_print::{Printer, StringSections, WriteFault};

/// Prints the object of a unit that begins at `offset` of its section.
pub fn print_unit<W: Destination>(
    printer: &mut Printer,
    output: &mut W,
    strings: &StringSections<'_>,
    offset: u64,
    lengths: &HeaderLengths,
    header: &Header,
) -> Result<(), WriteFault>
    ensures printed { Prints (W.contents output.old) (W.contents output.new) printer.old printer.new
        (unit_object (strings_of strings.now) offset lengths.now header.now) result }
    ensures blames { BlamesWriter W.fails result }
{
    print_start(printer, output, offset, header.params().format)?;
    print_fields(printer, output, lengths, header)?;
    print_tables(printer, output, strings, header)?;
    printer.put(output, b"}\n")
}

/// Prints where a unit begins, and its format.
#[tactic(auto, unfolding(crate::specs::Units::unit_start))]
fn print_start<W: Destination>(
    printer: &mut Printer,
    output: &mut W,
    offset: u64,
    format: Format,
) -> Result<(), WriteFault>
    ensures printed { Prints (W.contents output.old) (W.contents output.new) printer.old printer.new
        (unit_start offset format) result }
    ensures blames { BlamesWriter W.fails result }
{
    printer.put(output, b"{\"kind\":\"unit\",\"offset\":")?;
    printer.number(output, b"", offset)?;
    printer.put(output, b",\"format\":\"")?;
    printer.put(output, format_name(format))?;
    printer.put(output, b"\"")
}

/// The name of a format. Section 7.4.
fn format_name(format: Format) -> &'static [u8]
    ensures { result.now ≡ format_name format }
{
    match format {
        Format::Dwarf32 => b"dwarf32",
        Format::Dwarf64 => b"dwarf64",
    }
}

/// Prints both tables of a header.
#[tactic(auto, unfolding(crate::specs::Units::tables_members))]
fn print_tables<W: Destination>(
    printer: &mut Printer,
    output: &mut W,
    strings: &StringSections<'_>,
    header: &Header,
) -> Result<(), WriteFault>
    ensures printed { Prints (W.contents output.old) (W.contents output.new) printer.old printer.new
        (tables_members (strings_of strings.now) header.now) result }
    ensures blames { BlamesWriter W.fails result }
{
    let first = header.first_number();
    print_table(
        printer,
        output,
        strings,
        b"directories",
        first,
        header.directories(),
    )?;
    print_table(printer, output, strings, b"files", first, header.files())
}

/// Prints the object of a unit that is passed over for its version.
#[tactic(auto, unfolding(crate::specs::Units::skipped_object))]
pub fn print_skipped<W: Destination>(
    printer: &mut Printer,
    output: &mut W,
    offset: u64,
    version: u16,
) -> Result<(), WriteFault>
    ensures printed { Prints (W.contents output.old) (W.contents output.new) printer.old printer.new
        (skipped_object offset version) result }
    ensures blames { BlamesWriter W.fails result }
{
    printer.put(output, b"{\"kind\":\"skipped\",\"offset\":")?;
    printer.number(output, b"", offset)?;
    printer.number(output, b",\"version\":", version as u64)?;
    printer.put(output, b"}\n")
}

/// Prints the object of a sequence that has no end row.
pub fn print_open<W: Destination>(printer: &mut Printer, output: &mut W) -> Result<(), WriteFault>
    ensures printed { Prints (W.contents output.old) (W.contents output.new) printer.old printer.new
        open_object result }
    ensures blames { BlamesWriter W.fails result }
{
    printer.put(output, b"{\"kind\":\"open\"}\n")
}
