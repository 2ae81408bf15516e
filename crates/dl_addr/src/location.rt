//! What is told of an address, and its line. Section 6.2.2.

ghost use Rattle.std.specs.Prelude.{◌≡◌, [], Some, if◌then◌else◌, option_map, unwrap_or};
ghost use Rattle.std.specs.Option.{option_copied};
ghost use Rattle.dl_print.specs.Output.{BlamesWriter as PrintBlames, Prints};
ghost use Rattle.dl_path.specs.Shown.{basename};
ghost use Rattle.dl_addr.specs.Locations.{location_line, location_seen};

use crate::kept::{FilePath, KeptBytes, KeptPath, KeptText, PathUnit};
use crate::locating::{Answer, Position};
use crate::printing::print_line;
use crate::style::Style;
use dl_look::Asked;
use dl_output::Destination;
use dl_path::basename;
use dl_print::{Printer, WriteFault};

/// What is told of an address: of the row that answers it, and of its file.
#[derive(Clone, Copy, Debug, PartialEq, Eq)]
pub struct Location<'a> {
    /// The offset of the unit in the line section.
    pub unit: u64,
    /// The whole path of the file, under the compilation directory. None where it isn't known.
    pub path: Option<&'a [u8]>,
    pub line: u64,
    /// 0 where it isn't known.
    pub column: u64,
    pub discriminator: u64,
    pub is_stmt: bool,
}

/// Prints the line of what is asked, where this is told of it: the one that `addr` prints where its units answer so.
pub fn print_location<W: Destination>(
    printer: &mut Printer,
    output: &mut W,
    style: Style<'_>,
    asked: Asked,
    location: Option<Location<'_>>,
) -> Result<(), WriteFault>
    ensures printed { Prints (W.contents output.old) (W.contents output.new) printer.old printer.new
        (location_line style.entry asked (option_map location_seen location.entry)) result }
    ensures blames_writer { PrintBlames W.fails result }
{
    match location {
        Some(location) => print_told(printer, output, style, asked, location),
        None => print_line(printer, output, style, asked, None),
    }
}

/// Prints the line of what is told, whose path lies in one text.
fn print_told<W: Destination>(
    printer: &mut Printer,
    output: &mut W,
    style: Style<'_>,
    asked: Asked,
    location: Location<'_>,
) -> Result<(), WriteFault>
    ensures printed { Prints (W.contents output.old) (W.contents output.new) printer.old printer.new
        (location_line style.entry asked (Some (location_seen location.entry))) result }
    ensures blames_writer { PrintBlames W.fails result }
{
    let path = printed_path(style.basenames, location.path);
    let texts = [KeptText::new(KeptBytes::Lent(bytes_or_none(path)))];
    let file = FilePath {
        unit: PathUnit {
            offset: location.unit,
            has_directory_0: false,
        },
        base: None,
        directory: None,
        name: name_number(path),
    };
    let answer = Answer {
        position: Position {
            line: location.line,
            column: location.column,
            discriminator: location.discriminator,
            is_stmt: location.is_stmt,
        },
        path: KeptPath {
            texts: &texts,
            file: &file,
            root: None,
        },
    };
    print_line(printer, output, style, asked, Some(answer))
}

/// The bytes of a path; none where it isn't known.
fn bytes_or_none(path: Option<&[u8]>) -> &[u8]
    ensures { result.now ≡ unwrap_or (option_copied path.entry) [] }
{
    match path {
        Some(path) => path,
        None => b"",
    }
}

/// The number of a path's text, which is the first; None where the path isn't known.
fn name_number(path: Option<&[u8]>) -> Option<usize>
    ensures { result ≡ option_map (λ p. 0) (option_copied path.entry) }
{
    match path {
        Some(_) => Some(0),
        None => None,
    }
}

/// What is printed of a path.
fn printed_path(basenames: bool, path: Option<&[u8]>) -> Option<&[u8]>
    ensures { option_copied result
        ≡ option_map (λ p. if basenames then basename p else p) (option_copied path.entry) }
{
    let path = path?;
    if basenames {
        Some(basename(path))
    } else {
        Some(path)
    }
}
