//! How many findings there are, in words.
ghost use Rattle.std.specs.Prelude.{MatchResult};
ghost use Rattle.std.specs.Io.KnownBytes.{Appends};
ghost use Rattle.dl_print.specs.Output.{BlamesWriter, Prints, TellsOut};
ghost use Rattle.dl_linting.specs.CountText.{count_text, counts_line, counts_text, some_text};

use dl_lint::{FindingCounts, RULES, Rule};
use dl_output::Destination;
use dl_print::{Printer, WriteFault};

/// Writes the line that says how many findings of each rule there are, of rules that have some.
///
/// `WriteFault` where the writer fails.
#[inline(never)]
pub fn write_counts<W: Destination>(
    output: &mut W,
    counts: &FindingCounts,
) -> Result<(), WriteFault>
    ensures written { MatchResult result
        (λ _. Appends (W.contents output.old) (W.contents output.new) (counts_line counts.now))
        (TellsOut (W.contents output.old) (W.contents output.new) (counts_line counts.now)) }
    ensures blames { BlamesWriter W.fails result }
{
    let mut printer = Printer::new();
    match print_line(&mut printer, output, counts) {
        Ok(()) => printer.flush(output),
        Err(lost) => Err(lost),
    }
}

/// Prints the name of a rule, and how many findings of it there are.
#[tactic(auto, unfolding(crate::specs::CountText::some_text))]
fn print_some<W: Destination>(
    printer: &mut Printer,
    output: &mut W,
    name: &[u8],
    count: u64,
) -> Result<(), WriteFault>
    ensures printed { Prints (W.contents output.old) (W.contents output.new) printer.old printer.new
        (some_text name.now count) result }
    ensures blames { BlamesWriter W.fails result }
{
    printer.put(output, b" ")?;
    printer.put(output, name)?;
    printer.number(output, b"=", count)
}

/// Prints how many findings of a rule there are, where there are some.
fn print_count<W: Destination>(
    printer: &mut Printer,
    output: &mut W,
    name: &[u8],
    count: u64,
) -> Result<(), WriteFault>
    ensures printed { Prints (W.contents output.old) (W.contents output.new) printer.old printer.new
        (count_text name.now count) result }
    ensures blames { BlamesWriter W.fails result }
{
    if count == 0 {
        return printer.put(output, b"");
    }
    print_some(printer, output, name, count)
}

/// Prints how many findings of each of these rules there are.
fn print_counts<W: Destination>(
    printer: &mut Printer,
    output: &mut W,
    rules: &[Rule],
    counts: &FindingCounts,
) -> Result<(), WriteFault>
    ensures printed { Prints (W.contents output.old) (W.contents output.new) printer.old printer.new
        (counts_text counts.now rules.now) result }
    ensures blames { BlamesWriter W.fails result }
{
    for rule in rules {
        print_count(printer, output, rule.name(), counts.of(*rule))?;
    }
    Ok(())
}

/// Prints the line that says how many findings of each rule there are.
fn print_line<W: Destination>(
    printer: &mut Printer,
    output: &mut W,
    counts: &FindingCounts,
) -> Result<(), WriteFault>
    ensures printed { Prints (W.contents output.old) (W.contents output.new) printer.old printer.new
        (counts_line counts.now) result }
    ensures blames { BlamesWriter W.fails result }
{
    printer.put(output, b"findings:")?;
    print_counts(printer, output, &RULES, counts)?;
    printer.put(output, b"\n")
}
