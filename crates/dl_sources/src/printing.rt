//! The lines of all paths.

ghost use Rattle.std.specs.Prelude.{◌≡◌, List, map, Some};
ghost use Rattle.std.specs.List.{flat_map};
ghost use Rattle.std.specs.BTreeMap.{IsOrdered, values};
ghost use Rattle.std.specs.Cmp.Lexicographic.{slice_cmp};
ghost use Rattle.std.specs.Ordering.{nat_cmp};
ghost use Rattle.dl_print.specs.Output.{BlamesWriter as PrintBlames, Prints};
ghost use Rattle.dl_sources.specs.Holding.{Holds};
ghost use Rattle.dl_sources.specs.Report.{one_line, path_lines};
ghost use Rattle.dl_sources.specs.Reporting.{PrintsReport, entries_text, sums_in};
ghost use Rattle.dl_sources.specs.SourceFiles.{totals_seen};
ghost use Rattle.dl_sources.specs.Sources.{Mention};

use crate::line::print_one;
use crate::question::{SourcesQuestion, Sums};
use crate::table::{PathTotals, SourceTable};
use dl_output::Destination;
use dl_print::{Printer, WriteFault};

/// Prints the lines of all paths, and tells whether some path has two sums.
pub(crate) fn print_table<W: Destination>(
    table: &SourceTable,
    output: &mut W,
    question: &SourcesQuestion<'_>,
) -> Result<Sums, WriteFault>
    ensures printed { (mentions : List Mention) → Holds table.now mentions
        → PrintsReport (W.contents output.old) (W.contents output.new) question.now mentions result }
    ensures blames_writer { PrintBlames W.fails result }
{
    let sums = sums_of(table);
    let mut printer = Printer::new();
    print_paths(&mut printer, output, table, question)?;
    printer.flush(output)?;
    Ok(sums)
}

/// Prints the lines of all paths.
fn print_paths<W: Destination>(
    printer: &mut Printer,
    output: &mut W,
    table: &SourceTable,
    question: &SourcesQuestion<'_>,
) -> Result<(), WriteFault>
    ensures printed { Prints (W.contents output.old) (W.contents output.new) printer.old printer.new
        (entries_text question.now table.now.paths.entries) result }
    ensures blames_writer { PrintBlames W.fails result }
{
    for (path, totals) in &table.paths {
        print_totals(printer, output, question, path.as_slice(), totals)?;
    }
    Ok(())
}

/// Prints the lines of a path.
fn print_totals<W: Destination>(
    printer: &mut Printer,
    output: &mut W,
    question: &SourcesQuestion<'_>,
    path: &[u8],
    totals: &PathTotals,
) -> Result<(), WriteFault>
    ensures printed { Prints (W.contents output.old) (W.contents output.new) printer.old printer.new
        (path_lines question.now path.now (totals_seen totals.now)) result }
    ensures blames_writer { PrintBlames W.fails result }
{
    if totals.sums.is_empty() {
        print_one(printer, output, question, path, totals.counts, None)
    } else {
        print_sums(printer, output, question, path, totals)
    }
}

/// Prints a line of a path for each of its sums.
fn print_sums<W: Destination>(
    printer: &mut Printer,
    output: &mut W,
    question: &SourcesQuestion<'_>,
    path: &[u8],
    totals: &PathTotals,
) -> Result<(), WriteFault>
    ensures printed { Prints (W.contents output.old) (W.contents output.new) printer.old printer.new
        (flat_map (one_line question.now path.now totals.now.counts) (map (λ w. Some w) totals.now.sums.keys)) result }
    ensures blames_writer { PrintBlames W.fails result }
{
    for sum in &totals.sums {
        print_one(printer, output, question, path, totals.counts, Some(sum))?;
    }
    Ok(())
}

/// Whether some path has two sums.
fn sums_of(table: &SourceTable) -> Sums
    ensures sums { result ≡ sums_in (values table.now.paths) }
    ensures ordered { IsOrdered (λ x y. slice_cmp nat_cmp x.items y.items) table.now.paths }
{
    for totals in table.paths.values() {
        if totals.sums.len() > 1 {
            return Sums::Differ;
        }
    }
    Sums::Agree
}
