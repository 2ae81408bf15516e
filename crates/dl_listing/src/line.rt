//! The line of a stretch.

ghost use Rattle.std.specs.Prelude.{◌≡◌, ◌^◌, flat_map, unwrap_or};
ghost use Rattle.std.specs.Option.{option_map};
ghost use Rattle.dl_index.specs.Shown.{text_told, texts_told, told};
ghost use Rattle.dl_path.specs.Shown.{shown};
ghost use Rattle.dl_print.specs.Output.{BlamesWriter, Prints};
ghost use Rattle.dl_listing.specs.Lines.{has_texts};
ghost use Rattle.dl_listing.specs.Listing.{address_text, addresses_text, column_text, location_text};
ghost use Rattle.dl_listing.specs.Listing.{path_text, place_text, stretch_line};

use dl_index::{FoundLine, Listed, PathTexts};
use dl_output::Destination;
use dl_path::print_shown;
use dl_print::{Printer, WriteFault};

/// Prints the line of a stretch.
pub(crate) fn print_stretch<W: Destination>(
    printer: &mut Printer,
    output: &mut W,
    stretch: Listed<'_>,
) -> Result<(), WriteFault>
    ensures printed { Prints (W.contents output.old) (W.contents output.new) printer.old printer.new
        (stretch_line stretch.entry.start (unwrap_or stretch.entry.end (2 ^ 64))
        (option_map told stretch.entry.found)) result }
    ensures blames { BlamesWriter W.fails result }
{
    print_addresses(printer, output, stretch.start, stretch.end)?;
    print_location(printer, output, stretch.found)?;
    printer.put(output, b"\n")
}

/// Prints the first address of a stretch and the first one after it, with a space after each.
fn print_addresses<W: Destination>(
    printer: &mut Printer,
    output: &mut W,
    start: u64,
    end: Option<u64>,
) -> Result<(), WriteFault>
    ensures printed { Prints (W.contents output.old) (W.contents output.new) printer.old printer.new
        (addresses_text start (unwrap_or end (2 ^ 64))) result }
    ensures blames { BlamesWriter W.fails result }
{
    printer.address(output, start)?;
    printer.put(output, b" ")?;
    print_end(printer, output, end)?;
    printer.put(output, b" ")
}

/// Prints the first address after a stretch; 2^64 after the last one.
fn print_end<W: Destination>(
    printer: &mut Printer,
    output: &mut W,
    end: Option<u64>,
) -> Result<(), WriteFault>
    ensures printed { Prints (W.contents output.old) (W.contents output.new) printer.old printer.new
        (address_text (unwrap_or end (2 ^ 64))) result }
    ensures blames { BlamesWriter W.fails result }
{
    match end {
        Some(end) => printer.address(output, end),
        None => printer.put(output, b"0x10000000000000000"),
    }
}

/// Prints the location that is told, or that nothing is.
fn print_location<W: Destination>(
    printer: &mut Printer,
    output: &mut W,
    found: Option<FoundLine<'_>>,
) -> Result<(), WriteFault>
    ensures printed { Prints (W.contents output.old) (W.contents output.new) printer.old printer.new
        (location_text (option_map told found.entry)) result }
    ensures blames { BlamesWriter W.fails result }
{
    match found {
        Some(found) => print_place(printer, output, found),
        None => printer.put(output, b"??:0"),
    }
}

/// Prints a path, a line, and a column where it isn't 0.
fn print_place<W: Destination>(
    printer: &mut Printer,
    output: &mut W,
    found: FoundLine<'_>,
) -> Result<(), WriteFault>
    ensures printed { Prints (W.contents output.old) (W.contents output.new) printer.old printer.new
        (place_text (told found.entry)) result }
    ensures blames { BlamesWriter W.fails result }
{
    print_path(printer, output, found.texts)?;
    printer.number(output, b":", found.line)?;
    print_column(printer, output, found.column)
}

fn print_column<W: Destination>(
    printer: &mut Printer,
    output: &mut W,
    column: u64,
) -> Result<(), WriteFault>
    ensures printed { Prints (W.contents output.old) (W.contents output.new) printer.old printer.new
        (column_text column) result }
    ensures blames { BlamesWriter W.fails result }
{
    if column == 0 {
        printer.put(output, b"")
    } else {
        printer.number(output, b":", column)
    }
}

/// Prints the path of these texts, or what stands for one that isn't known.
fn print_path<W: Destination>(
    printer: &mut Printer,
    output: &mut W,
    texts: PathTexts<'_>,
) -> Result<(), WriteFault>
    ensures printed { Prints (W.contents output.old) (W.contents output.new) printer.old printer.new
        (path_text (texts_told texts.entry)) result }
    ensures blames { BlamesWriter W.fails result }
{
    if is_known(texts) {
        print_texts(printer, output, texts)
    } else {
        printer.put(output, b"??")
    }
}

/// Whether there is a text.
fn is_known(texts: PathTexts<'_>) -> bool
    ensures { result ≡ has_texts (texts_told texts.entry) }
{
    texts.first.is_some() || texts.second.is_some() || texts.third.is_some()
}

/// Prints the texts that there are, one after the other.
fn print_texts<W: Destination>(
    printer: &mut Printer,
    output: &mut W,
    texts: PathTexts<'_>,
) -> Result<(), WriteFault>
    ensures printed { Prints (W.contents output.old) (W.contents output.new) printer.old printer.new
        (flat_map shown (texts_told texts.entry)) result }
    ensures blames { BlamesWriter W.fails result }
{
    print_text(printer, output, texts.first)?;
    print_text(printer, output, texts.second)?;
    print_text(printer, output, texts.third)
}

/// Prints a text of a path, where there is one.
fn print_text<W: Destination>(
    printer: &mut Printer,
    output: &mut W,
    text: Option<&[u8]>,
) -> Result<(), WriteFault>
    ensures printed { Prints (W.contents output.old) (W.contents output.new) printer.old printer.new
        (flat_map shown (text_told text.entry)) result }
    ensures blames { BlamesWriter W.fails result }
{
    match text {
        Some(text) => print_shown(printer, output, text),
        None => printer.put(output, b""),
    }
}
