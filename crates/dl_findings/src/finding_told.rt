//! How a finding is told.

ghost use Rattle.dl_print.specs.Output.{BlamesWriter, Prints};
ghost use Rattle.dl_findings.specs.FindingTold.{finding_told};

use crate::finding::Finding;
use crate::finding_json::print_object;
use crate::finding_record::print_record;
use crate::finding_text::print_line;
use dl_output::Destination;
use dl_print::{Printer, WriteFault};

/// The form in which findings are told.
#[derive(Clone, Copy, Debug, PartialEq, Eq)]
pub enum FindingForm {
    /// A line of words each.
    Line,
    /// A JSON object in a line each. RFC 8259.
    Object,
    /// A record of 72 bytes each: nine numbers of eight bytes, the least significant byte first. They are the offset; the place
    /// of the rule in `RULES`; the number, address and op_index of the row, or 0 where it is about none; and four numbers of
    /// what is found, those of the fields of `Found` in their order and 0 behind them. There a place is its address and
    /// op_index, an entry is 0 for a directory or 1 for a file and its number, `.debug_line_str` is 0 and `.debug_str` 1, and
    /// what is passed over is 0 for a standard opcode, 1 for an extended one or 2 for a content code, and its number.
    Record,
}

/// Prints a finding in this form.
pub fn print_finding<W: Destination>(
    printer: &mut Printer,
    output: &mut W,
    form: FindingForm,
    finding: &Finding,
) -> Result<(), WriteFault>
    ensures printed { Prints (W.contents output.old) (W.contents output.new) printer.old printer.new
        (finding_told form finding.now) result }
    ensures blames { BlamesWriter W.fails result }
{
    match form {
        FindingForm::Line => print_line(printer, output, finding),
        FindingForm::Object => print_object(printer, output, finding),
        FindingForm::Record => print_record(printer, output, finding),
    }
}
