//! Parts that the lines and the objects of findings share.

ghost use Rattle.std.specs.Prelude.{◌++◌, decimal};
ghost use Rattle.dl_print.specs.Output.{BlamesWriter, Prints};
ghost use Rattle.dl_findings.specs.FindingText.{section_name, two_numbers};

use crate::finding::TextSection;
use dl_output::Destination;
use dl_print::{Printer, WriteFault};

/// Prints a number after this name.
pub(crate) fn print_number<W: Destination>(
    printer: &mut Printer,
    output: &mut W,
    name: &[u8],
    number: u64,
) -> Result<(), WriteFault>
    ensures printed { Prints (W.contents output.old) (W.contents output.new) printer.old printer.new
        (name.now ++ decimal number) result }
    ensures blames { BlamesWriter W.fails result }
{
    printer.put(output, name)?;
    printer.number(output, b"", number)
}

/// Prints two numbers, each after a name.
#[tactic(auto, unfolding(crate::specs::FindingText::two_numbers))]
pub(crate) fn print_numbers<W: Destination>(
    printer: &mut Printer,
    output: &mut W,
    name: &[u8],
    number: u64,
    other: &[u8],
    second: u64,
) -> Result<(), WriteFault>
    ensures printed { Prints (W.contents output.old) (W.contents output.new) printer.old printer.new
        (two_numbers name.now number other.now second) result }
    ensures blames { BlamesWriter W.fails result }
{
    print_number(printer, output, name, number)?;
    print_number(printer, output, other, second)
}

/// Prints the name of a section.
pub(crate) fn print_section<W: Destination>(
    printer: &mut Printer,
    output: &mut W,
    section: TextSection,
) -> Result<(), WriteFault>
    ensures printed { Prints (W.contents output.old) (W.contents output.new) printer.old printer.new
        (section_name section) result }
    ensures blames { BlamesWriter W.fails result }
{
    printer.put(output, section.name())
}
