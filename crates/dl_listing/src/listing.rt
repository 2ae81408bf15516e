//! All stretches of an index, a line each.

ghost use Rattle.std.specs.Prelude.{◌<◌, MatchResult};
ghost use Rattle.std.specs.Io.KnownBytes.{Appends};
ghost use Rattle.dl_index.specs.IsIndex.{IsIndex};
ghost use Rattle.dl_index.specs.Layout.{count_in};
ghost use Rattle.dl_index.specs.Shown.{bytes_of};
ghost use Rattle.dl_print.specs.Output.{BlamesWriter, Prints, TellsOut};
ghost use Rattle.dl_listing.specs.Listing.{listing};
ghost use Rattle.dl_listing.specs.Lines.{line_of};

use crate::line::print_stretch;
use dl_index::IndexRef;
use dl_output::Destination;
use dl_print::{Printer, WriteFault};

/// Prints the stretches of an index, a line each: its first address, the first one after it, and the location that is
/// told, as `addr` prints it, but that each text of a path is shown on its own. All that is printed is written out.
///
/// `WriteFault` where the writer fails.
pub fn list<W: Destination>(index: &IndexRef<'_>, output: &mut W) -> Result<(), WriteFault>
    ensures printed { IsIndex (bytes_of index.now) → MatchResult result
        (λ _. Appends (W.contents output.old) (W.contents output.new) (listing (bytes_of index.now)))
        (TellsOut (W.contents output.old) (W.contents output.new) (listing (bytes_of index.now))) }
    ensures blames { BlamesWriter W.fails result }
{
    let mut printer = Printer::new();
    match print_all(&mut printer, output, index) {
        Ok(()) => printer.flush(output),
        Err(lost) => Err(lost),
    }
}

/// Prints the line of each stretch.
fn print_all<W: Destination>(
    printer: &mut Printer,
    output: &mut W,
    index: &IndexRef<'_>,
) -> Result<(), WriteFault>
    ensures printed { IsIndex (bytes_of index.now) → Prints (W.contents output.old) (W.contents output.new)
        printer.old printer.new (listing (bytes_of index.now)) result }
    ensures blames { BlamesWriter W.fails result }
{
    for k in 0..index.count() {
        print_line(printer, output, index, k)?;
    }
    Ok(())
}

/// Prints the line of stretch `k`.
fn print_line<W: Destination>(
    printer: &mut Printer,
    output: &mut W,
    index: &IndexRef<'_>,
    k: usize,
) -> Result<(), WriteFault>
    ensures printed { IsIndex (bytes_of index.now) → k < count_in (bytes_of index.now)
        → Prints (W.contents output.old) (W.contents output.new) printer.old printer.new
        (line_of (bytes_of index.now) k) result }
    ensures blames { BlamesWriter W.fails result }
{
    match index.stretch(k) {
        Some(stretch) => print_stretch(printer, output, stretch),
        None => Ok(()),
    }
}
