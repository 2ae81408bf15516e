//! The line of a path.

ghost use Rattle.std.specs.Prelude.{◌≡◌, ◌++◌, codes, decimal};
ghost use Rattle.std.specs.Option.{option_copied};
ghost use Rattle.dl_print.specs.Output.{BlamesWriter as PrintBlames, Prints};
ghost use Rattle.dl_print.specs.Digits.{hexadecimal_bytes};
ghost use Rattle.dl_print.specs.Text.{line};
ghost use Rattle.dl_path.specs.Shown.{shown};
ghost use Rattle.dl_addr.specs.Json.{json_string};
ghost use Rattle.dl_sources.specs.Report.{counts_text, json_counts, json_line, json_sum, json_sum_value, one_line};
ghost use Rattle.dl_sources.specs.Report.{plain_line, sum_digits, sum_text};

use crate::counting::Counts;
use crate::question::SourcesQuestion;
use dl_output::Destination;
use dl_path::{print_json_text, print_shown};
use dl_print::{Printer, WriteFault};

/// Prints the line of a path, with what is asked of it.
pub(crate) fn print_one<W: Destination>(
    printer: &mut Printer,
    output: &mut W,
    question: &SourcesQuestion<'_>,
    path: &[u8],
    counts: Counts,
    sum: Option<&[u8; 16]>,
) -> Result<(), WriteFault>
    ensures printed { Prints (W.contents output.old) (W.contents output.new) printer.old printer.new
        (one_line question.now path.now counts (option_copied sum.entry)) result }
    ensures blames_writer { PrintBlames W.fails result }
{
    if question.json {
        print_object(printer, output, question, path, counts, sum)
    } else {
        print_plain(printer, output, question, path, counts, sum)
    }
}

fn print_plain<W: Destination>(
    printer: &mut Printer,
    output: &mut W,
    question: &SourcesQuestion<'_>,
    path: &[u8],
    counts: Counts,
    sum: Option<&[u8; 16]>,
) -> Result<(), WriteFault>
    ensures printed { Prints (W.contents output.old) (W.contents output.new) printer.old printer.new
        (plain_line question.now path.now counts (option_copied sum.entry)) result }
    ensures blames_writer { PrintBlames W.fails result }
{
    print_counts(printer, output, question.rows, counts)?;
    print_sum(printer, output, question.md5, sum)?;
    print_path(printer, output, path)
}

/// Prints a path and ends its line.
fn print_path<W: Destination>(
    printer: &mut Printer,
    output: &mut W,
    path: &[u8],
) -> Result<(), WriteFault>
    ensures printed { Prints (W.contents output.old) (W.contents output.new) printer.old printer.new
        (line (shown path.now)) result }
    ensures blames_writer { PrintBlames W.fails result }
{
    print_shown(printer, output, path)?;
    printer.put(output, b"\n")
}

/// Prints the counts, where they are asked for.
fn print_counts<W: Destination>(
    printer: &mut Printer,
    output: &mut W,
    rows: bool,
    counts: Counts,
) -> Result<(), WriteFault>
    ensures printed { Prints (W.contents output.old) (W.contents output.new) printer.old printer.new
        (counts_text rows counts) result }
    ensures blames_writer { PrintBlames W.fails result }
{
    if rows {
        print_both(printer, output, counts)
    } else {
        printer.put(output, b"")
    }
}

fn print_both<W: Destination>(
    printer: &mut Printer,
    output: &mut W,
    counts: Counts,
) -> Result<(), WriteFault>
    ensures printed { Prints (W.contents output.old) (W.contents output.new) printer.old printer.new
        ((decimal counts.rows ++ codes " ") ++ (decimal counts.bytes ++ codes " ")) result }
    ensures blames_writer { PrintBlames W.fails result }
{
    print_count(printer, output, counts.rows)?;
    print_count(printer, output, counts.bytes)
}

fn print_count<W: Destination>(
    printer: &mut Printer,
    output: &mut W,
    count: u64,
) -> Result<(), WriteFault>
    ensures printed { Prints (W.contents output.old) (W.contents output.new) printer.old printer.new
        (decimal count ++ codes " ") result }
    ensures blames_writer { PrintBlames W.fails result }
{
    printer.number(output, b"", count)?;
    printer.put(output, b" ")
}

/// Prints a sum, where sums are asked for.
fn print_sum<W: Destination>(
    printer: &mut Printer,
    output: &mut W,
    md5: bool,
    sum: Option<&[u8; 16]>,
) -> Result<(), WriteFault>
    ensures printed { Prints (W.contents output.old) (W.contents output.new) printer.old printer.new
        (sum_text md5 (option_copied sum.entry)) result }
    ensures blames_writer { PrintBlames W.fails result }
{
    if !md5 {
        return printer.put(output, b"");
    }
    print_digits(printer, output, sum)?;
    printer.put(output, b" ")
}

/// Prints the digits of a sum, or what stands for none.
fn print_digits<W: Destination>(
    printer: &mut Printer,
    output: &mut W,
    sum: Option<&[u8; 16]>,
) -> Result<(), WriteFault>
    ensures printed { Prints (W.contents output.old) (W.contents output.new) printer.old printer.new
        (sum_digits (option_copied sum.entry)) result }
    ensures blames_writer { PrintBlames W.fails result }
{
    match sum {
        Some(sum) => printer.put(output, &digits_of(sum)),
        None => printer.put(output, b"-"),
    }
}

/// Two digits for each byte of a sum.
fn digits_of(sum: &[u8; 16]) -> [u8; 32]
    ensures { result ≡ hexadecimal_bytes sum.now }
{
    let mut digits = [0; 32];
    // The digits fit, so there is no error.
    let _ = hex::encode_to_slice(sum.as_slice(), &mut digits);
    digits
}

/// Prints a path and what is asked of it as a JSON object.
fn print_object<W: Destination>(
    printer: &mut Printer,
    output: &mut W,
    question: &SourcesQuestion<'_>,
    path: &[u8],
    counts: Counts,
    sum: Option<&[u8; 16]>,
) -> Result<(), WriteFault>
    ensures printed { Prints (W.contents output.old) (W.contents output.new) printer.old printer.new
        (json_line question.now path.now counts (option_copied sum.entry)) result }
    ensures blames_writer { PrintBlames W.fails result }
{
    print_json_start(printer, output, question.rows, path, counts)?;
    print_json_end(printer, output, question.md5, sum)
}

fn print_json_start<W: Destination>(
    printer: &mut Printer,
    output: &mut W,
    rows: bool,
    path: &[u8],
    counts: Counts,
) -> Result<(), WriteFault>
    ensures printed { Prints (W.contents output.old) (W.contents output.new) printer.old printer.new
        ((codes "{\"path\":" ++ json_string path.now) ++ json_counts rows counts) result }
    ensures blames_writer { PrintBlames W.fails result }
{
    print_json_path(printer, output, path)?;
    print_json_counts(printer, output, rows, counts)
}

fn print_json_path<W: Destination>(
    printer: &mut Printer,
    output: &mut W,
    path: &[u8],
) -> Result<(), WriteFault>
    ensures printed { Prints (W.contents output.old) (W.contents output.new) printer.old printer.new
        (codes "{\"path\":" ++ json_string path.now) result }
    ensures blames_writer { PrintBlames W.fails result }
{
    printer.put(output, b"{\"path\":\"")?;
    print_json_text(printer, output, path)?;
    printer.put(output, b"\"")
}

fn print_json_counts<W: Destination>(
    printer: &mut Printer,
    output: &mut W,
    rows: bool,
    counts: Counts,
) -> Result<(), WriteFault>
    ensures printed { Prints (W.contents output.old) (W.contents output.new) printer.old printer.new
        (json_counts rows counts) result }
    ensures blames_writer { PrintBlames W.fails result }
{
    if !rows {
        return printer.put(output, b"");
    }
    printer.number(output, b",\"rows\":", counts.rows)?;
    printer.number(output, b",\"bytes\":", counts.bytes)
}

fn print_json_end<W: Destination>(
    printer: &mut Printer,
    output: &mut W,
    md5: bool,
    sum: Option<&[u8; 16]>,
) -> Result<(), WriteFault>
    ensures printed { Prints (W.contents output.old) (W.contents output.new) printer.old printer.new
        (json_sum md5 (option_copied sum.entry) ++ codes "}\n") result }
    ensures blames_writer { PrintBlames W.fails result }
{
    print_json_sum(printer, output, md5, sum)?;
    printer.put(output, b"}\n")
}

/// Prints the sum, where sums are asked for; null where there is none.
fn print_json_sum<W: Destination>(
    printer: &mut Printer,
    output: &mut W,
    md5: bool,
    sum: Option<&[u8; 16]>,
) -> Result<(), WriteFault>
    ensures printed { Prints (W.contents output.old) (W.contents output.new) printer.old printer.new
        (json_sum md5 (option_copied sum.entry)) result }
    ensures blames_writer { PrintBlames W.fails result }
{
    if !md5 {
        return printer.put(output, b"");
    }
    match sum {
        Some(sum) => print_json_digits(printer, output, sum),
        None => printer.put(output, b",\"md5\":null"),
    }
}

fn print_json_digits<W: Destination>(
    printer: &mut Printer,
    output: &mut W,
    sum: &[u8; 16],
) -> Result<(), WriteFault>
    ensures printed { Prints (W.contents output.old) (W.contents output.new) printer.old printer.new
        ((codes ",\"md5\":\"" ++ hexadecimal_bytes sum.now) ++ codes "\"") result }
    ensures blames_writer { PrintBlames W.fails result }
{
    printer.put(output, b",\"md5\":\"")?;
    printer.put(output, &digits_of(sum))?;
    printer.put(output, b"\"")
}
