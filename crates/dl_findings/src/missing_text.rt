//! The words of a text that a section doesn't have.

ghost use Rattle.dl_print.specs.Output.{BlamesWriter, Prints};
ghost use Rattle.dl_findings.specs.FindingText.{entry_text, missing_text};

use crate::finding::{TableEntry, TextSection};
use crate::parts::{print_number, print_section};
use dl_output::Destination;
use dl_print::{Printer, WriteFault};

/// Prints where a section has no text.
#[tactic(auto, unfolding(crate::specs::FindingText::missing_text))]
pub(crate) fn print_missing<W: Destination>(
    printer: &mut Printer,
    output: &mut W,
    entry: TableEntry,
    section: TextSection,
    offset: u64,
) -> Result<(), WriteFault>
    ensures printed { Prints (W.contents output.old) (W.contents output.new) printer.old printer.new
        (missing_text entry section offset) result }
    ensures blames { BlamesWriter W.fails result }
{
    print_entry(printer, output, entry)?;
    printer.put(output, b" has a text at ")?;
    printer.hexadecimal_number(output, b"0x", offset)?;
    printer.put(output, b" of ")?;
    print_section(printer, output, section)?;
    printer.put(output, b", which has none there")
}

/// Prints which entry of a table it is.
fn print_entry<W: Destination>(
    printer: &mut Printer,
    output: &mut W,
    entry: TableEntry,
) -> Result<(), WriteFault>
    ensures printed { Prints (W.contents output.old) (W.contents output.new) printer.old printer.new
        (entry_text entry) result }
    ensures blames { BlamesWriter W.fails result }
{
    match entry {
        TableEntry::Directory(number) => print_number(printer, output, b"directory ", number),
        TableEntry::File(number) => print_number(printer, output, b"file ", number),
    }
}
