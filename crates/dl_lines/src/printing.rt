//! The lines of the places that answer.

ghost use Rattle.std.specs.Prelude.{◌≡◌, ◌<◌, if◌then◌else◌, length, slice_get, Some};
ghost use Rattle.std.specs.Option.{option_copied};
ghost use Rattle.dl_print.specs.Output.{BlamesWriter as PrintBlames, Prints};
ghost use Rattle.dl_print.specs.Text.{line};
ghost use Rattle.dl_addr.specs.declared.question.WhichFound.TheVariants as all_found;
ghost use Rattle.dl_addr.specs.Locations.{address_text, column_text};
ghost use Rattle.dl_lines.specs.Answers.{is_same_path};
ghost use Rattle.dl_lines.specs.Kept.{Rises};
ghost use Rattle.dl_lines.specs.Lines.{path_text, place_text, position_text, prologue_text};
ghost use Rattle.dl_lines.specs.Printing.{AllRise, PrintsText, found_by, found_place, found_places, is_same_there, is_told_before, once_text};
ghost use Rattle.dl_lines.specs.Printing.{search_text, searches_text};
ghost use Rattle.dl_lines.specs.Searching.{texts_of};

use crate::best::KeptPlace;
use crate::search::Search;
use dl_addr::WhichFound;
use dl_output::Destination;
use dl_path::print_shown;
use dl_print::{Printer, WriteFault};

/// Prints the lines of each search, whose places are in order.
pub fn print_all<W: Destination>(
    searches: &[Search<'_>],
    output: &mut W,
) -> Result<WhichFound, WriteFault>
    requires { AllRise searches.now }
    ensures printed { PrintsText (W.contents output.old) (W.contents output.new) (searches_text searches.now)
        (found_by searches.now) result }
    ensures blames_writer { PrintBlames W.fails result }
{
    let mut printer = Printer::new();
    let mut found = WhichFound::All;
    let mut number = 0;
    while number < searches.len() {
        let search = &searches[number];
        found = also(found, !search.kept.places.is_empty());
        print_search(&mut printer, output, search)?;
        number += 1;
    }
    printer.flush(output)?;
    Ok(found)
}

/// Whether all are found, with one more.
fn also(found: WhichFound, is_found: bool) -> WhichFound
    ensures { result ≡ (if is_found then found else all_found.NotAll) }
{
    if is_found { found } else { WhichFound::NotAll }
}

/// Prints the lines of a search.
fn print_search<W: Destination>(
    printer: &mut Printer,
    output: &mut W,
    search: &Search<'_>,
) -> Result<(), WriteFault>
    requires { Rises search.now.kept.places.items }
    ensures printed { Prints (W.contents output.old) (W.contents output.new) printer.old printer.new
        (search_text search.now) result }
    ensures blames_writer { PrintBlames W.fails result }
{
    if search.kept.places.is_empty() {
        return printer.put(output, b"??\n");
    }
    let mut number = 0;
    while number < search.kept.places.len() {
        print_once(printer, output, search, number)?;
        number += 1;
    }
    Ok(())
}

/// Prints the line of the place of this number, where no place before it has the same.
fn print_once<W: Destination>(
    printer: &mut Printer,
    output: &mut W,
    search: &Search<'_>,
    number: usize,
) -> Result<(), WriteFault>
    requires rises { Rises search.now.kept.places.items }
    requires within { number < length search.now.kept.places.items }
    ensures printed { Prints (W.contents output.old) (W.contents output.new) printer.old printer.new
        (once_text search.now number) result }
    ensures blames_writer { PrintBlames W.fails result }
{
    if is_repeated(search, number) {
        return printer.put(output, b"");
    }
    print_line(printer, output, search, &search.kept.places[number])
}

/// Whether a place before the one of this number has the same line. They are in order, so that it has the same address.
pub fn is_repeated(search: &Search<'_>, number: usize) -> bool
    requires rises { Rises search.now.kept.places.items }
    requires within { number < length search.now.kept.places.items }
    ensures { result ≡ is_told_before (found_places search.now) number }
{
    let place = search.kept.places[number];
    let mut at = number;
    while 0 < at {
        at -= 1;
        let other = search.kept.places[at];
        if other.address != place.address {
            return false;
        }
        if is_same(search, place, other) {
            return true;
        }
    }
    false
}

/// Whether the same is told of two places of one address.
fn is_same(search: &Search<'_>, place: KeptPlace, other: KeptPlace) -> bool
    ensures { result ≡ is_same_there (found_place search.now place) (found_place search.now other) }
{
    place.column == other.column
        && place.prologue_end == other.prologue_end
        && is_same_path(path_at(search, place.path), path_at(search, other.path))
}

/// Whether two paths are the same.
fn is_same_path(path: Option<&[u8]>, other: Option<&[u8]>) -> bool
    ensures { result ≡ is_same_path (option_copied path.entry) (option_copied other.entry) }
{
    match (path, other) {
        (Some(path), Some(other)) => path == other,
        (None, None) => true,
        _ => false,
    }
}

/// The path of this number.
fn path_at<'a>(search: &'a Search<'_>, number: usize) -> Option<&'a [u8]>
    ensures { option_copied result ≡ slice_get (texts_of search.now.paths) number }
{
    match search.paths.as_slice().get(number) {
        Some(path) => Some(path.as_slice()),
        None => None,
    }
}

/// Prints the line of a place.
fn print_line<W: Destination>(
    printer: &mut Printer,
    output: &mut W,
    search: &Search<'_>,
    place: &KeptPlace,
) -> Result<(), WriteFault>
    ensures printed { Prints (W.contents output.old) (W.contents output.new) printer.old printer.new
        (line (place_text (found_place search.now place.now))) result }
    ensures blames_writer { PrintBlames W.fails result }
{
    print_place(printer, output, search, place)?;
    printer.put(output, b"\n")
}

/// Prints what is told of a place.
fn print_place<W: Destination>(
    printer: &mut Printer,
    output: &mut W,
    search: &Search<'_>,
    place: &KeptPlace,
) -> Result<(), WriteFault>
    ensures printed { Prints (W.contents output.old) (W.contents output.new) printer.old printer.new
        (place_text (found_place search.now place.now)) result }
    ensures blames_writer { PrintBlames W.fails result }
{
    print_position(printer, output, search, place)?;
    print_column(printer, output, place.column)?;
    print_prologue(printer, output, place.prologue_end)
}

/// Prints the address, the path and the line of a place.
fn print_position<W: Destination>(
    printer: &mut Printer,
    output: &mut W,
    search: &Search<'_>,
    place: &KeptPlace,
) -> Result<(), WriteFault>
    ensures printed { Prints (W.contents output.old) (W.contents output.new) printer.old printer.new
        (position_text (found_place search.now place.now)) result }
    ensures blames_writer { PrintBlames W.fails result }
{
    print_address(printer, output, place.address)?;
    print_path(printer, output, path_at(search, place.path))?;
    printer.number(output, b":", search.kept.line)
}

fn print_address<W: Destination>(
    printer: &mut Printer,
    output: &mut W,
    address: u64,
) -> Result<(), WriteFault>
    ensures printed { Prints (W.contents output.old) (W.contents output.new) printer.old printer.new
        (address_text (Some address)) result }
    ensures blames_writer { PrintBlames W.fails result }
{
    printer.address(output, address)?;
    printer.put(output, b" ")
}

fn print_path<W: Destination>(
    printer: &mut Printer,
    output: &mut W,
    path: Option<&[u8]>,
) -> Result<(), WriteFault>
    ensures printed { Prints (W.contents output.old) (W.contents output.new) printer.old printer.new
        (path_text (option_copied path.entry)) result }
    ensures blames_writer { PrintBlames W.fails result }
{
    match path {
        Some(path) => print_shown(printer, output, path),
        None => printer.put(output, b""),
    }
}

fn print_column<W: Destination>(
    printer: &mut Printer,
    output: &mut W,
    column: u64,
) -> Result<(), WriteFault>
    ensures printed { Prints (W.contents output.old) (W.contents output.new) printer.old printer.new
        (column_text column) result }
    ensures blames_writer { PrintBlames W.fails result }
{
    if column == 0 {
        printer.put(output, b"")
    } else {
        printer.number(output, b":", column)
    }
}

fn print_prologue<W: Destination>(
    printer: &mut Printer,
    output: &mut W,
    prologue_end: bool,
) -> Result<(), WriteFault>
    ensures printed { Prints (W.contents output.old) (W.contents output.new) printer.old printer.new
        (prologue_text prologue_end) result }
    ensures blames_writer { PrintBlames W.fails result }
{
    if prologue_end {
        printer.put(output, b" prologue")
    } else {
        printer.put(output, b"")
    }
}
