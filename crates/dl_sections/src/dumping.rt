//! The command that prints a section.

ghost use Rattle.dl_input.specs.Failing.{Blames};
ghost use Rattle.dl_sections.specs.Blaming.{BlamesWriter};
ghost use Rattle.dl_sections.specs.Ending.{WhereWhole};
ghost use Rattle.std.specs.Prelude.{◌≡◌, ◌≤◌, [], ℕ, List, OnOk};
ghost use Rattle.std.specs.Io.KnownBytes.{Consumes};
ghost use Rattle.dl_sections.specs.AroundCommands.{DumpsAround};
ghost use Rattle.dl_sections.specs.Commands.{Dumps, style_in};
ghost use Rattle.dl_sections.specs.SectionText.{header_shown};
ghost use Rattle.dl_print.specs.Output.{BlamesWriter as BlamesPrinted, Prints};
ghost use Rattle.dl_print.specs.ValueText.{strings_of};

use crate::around::{AroundDamage, Damage, Survey, read_units_around};
use crate::fault::RunFault;
use crate::options::{Detail, Options, PLAIN, SECTION_LIMIT};
use crate::reporting::{DamageSink, NoneTold};
use crate::section::{Visitor, read_units};
use dl_head::{Header, HeaderLengths};
use dl_input::Source;
use dl_output::Destination;
use dl_print::{Printer, StringSections, Summary, WriteFault};
use dl_rows::{Flow, Operation, Row};
use std::alloc::Global;

/// Prints the events of units, and tells of damaged ones.
#[derive(Drop)]
struct Dumper<'d, D> {
    printer: &'d mut Printer,
    strings: &'d StringSections<'d>,
    detail: Detail,
    damages: &'d mut D,
}

/// Prints the lines of a header whose unit begins at `offset` of its section, with its fields where they are shown.
fn print_header<W: Destination>(
    printer: &mut Printer,
    output: &mut W,
    strings: &StringSections<'_>,
    detail: Detail,
    offset: u64,
    lengths: &HeaderLengths,
    header: &Header,
) -> Result<(), WriteFault>
    ensures printed { Prints (W.contents output.old) (W.contents output.new) printer.old printer.new
        (header_shown (record { detail = detail; strings = strings_of strings.now }) offset lengths.now header.now) result }
    ensures blames { BlamesPrinted W.fails result }
{
    if detail.header {
        printer.full_header(output, strings, offset, lengths, header)
    } else {
        printer.header(output, strings, offset, header)
    }
}

impl<W: Destination, D: DamageSink> Visitor<W> for Dumper<'_, D> {
    ghost use Rattle.dl_sections.specs.Dumping.{dump_story};

    ghost story = { dump_story D.hears };

    fn header(
        &mut self,
        output: &mut W,
        offset: u64,
        lengths: HeaderLengths,
        header: &Header,
    ) -> Result<(), RunFault> {
        Ok(print_header(
            self.printer,
            output,
            self.strings,
            self.detail,
            offset,
            &lengths,
            header,
        )?)
    }

    fn foreign(&mut self, output: &mut W, offset: u64, version: u16) -> Result<(), RunFault> {
        Ok(self.printer.foreign_unit(output, offset, version)?)
    }

    #[inline(always)]
    fn bytes(&mut self, _output: &mut W, _bytes: &[u8]) -> Result<(), WriteFault> {
        Ok(())
    }

    #[inline(always)]
    fn operation(
        &mut self,
        _output: &mut W,
        _header: &Header,
        _operation: Operation,
    ) -> Result<(), WriteFault> {
        Ok(())
    }

    #[inline]
    fn row(&mut self, output: &mut W, _header: &Header, row: &Row) -> Result<(), RunFault> {
        Ok(self.printer.row(output, row)?)
    }

    fn unterminated(&mut self, output: &mut W) -> Result<(), RunFault> {
        Ok(self.printer.open_sequence(output)?)
    }

    fn end(&mut self, _output: &mut W, _header: Option<Header>) -> Result<Flow, RunFault> {
        Ok(Flow::On)
    }

    fn flush(&mut self, output: &mut W) -> Result<(), RunFault> {
        Ok(self.printer.flush(output)?)
    }
}

impl<W: Destination, D: DamageSink> AroundDamage<W> for Dumper<'_, D> {
    fn damaged(&mut self, _unit: u64, damage: Damage) {
        self.damages.damaged(damage);
    }
}

/// Prints the lines of all units of the input.
///
/// What comes before a fault is printed. The faults are those of `RunFault`; each growth of memory is
/// one of `Reader::feed`.
pub fn dump<R: Source, W: Destination>(
    alloc: Global,
    input: &mut R,
    output: &mut W,
    options: &Options<'_>,
) -> Result<Summary, RunFault>
    requires { options.now.limit ≤ SECTION_LIMIT }
    ensures ran { (bs : List ℕ) × Consumes (R.remaining input.old) (R.remaining input.new) bs
        × Dumps options.now.dialect (style_in PLAIN options.now) options.now.limit bs
        (R.remaining input.new) (W.contents output.old) (W.contents output.new) result }
    ensures blames { Blames R.follows R.fails input.old input.new
        (result ≡ Err RunFault.Read) }
    ensures blames_writer { BlamesWriter W.fails result }
    ensures over { OnOk result (R.over input.new) }
{
    dump_with(alloc, input, output, options, PLAIN)
}

/// Prints the lines of all units of the input, and what is shown besides.
///
/// The answer and its faults are those of `dump`.
pub fn dump_with<R: Source, W: Destination>(
    alloc: Global,
    input: &mut R,
    output: &mut W,
    options: &Options<'_>,
    detail: Detail,
) -> Result<Summary, RunFault>
    requires { options.now.limit ≤ SECTION_LIMIT }
    ensures ran { (bs : List ℕ) × Consumes (R.remaining input.old) (R.remaining input.new) bs
        × Dumps options.now.dialect (style_in detail options.now) options.now.limit bs
        (R.remaining input.new) (W.contents output.old) (W.contents output.new) result }
    ensures blames { Blames R.follows R.fails input.old input.new
        (result ≡ Err RunFault.Read) }
    ensures blames_writer { BlamesWriter W.fails result }
    ensures over { OnOk result (R.over input.new) }
{
    let strings = StringSections::new(options.debug_line_str, options.debug_str);
    let mut dumper = Dumper {
        printer: &mut Printer::new(),
        strings: &strings,
        detail,
        damages: &mut NoneTold,
    };
    read_units(alloc, input, output, options, &mut dumper)
}

/// Prints the lines of all units of the input, of those that are damaged up to their faults, and what is shown besides.
/// `damages` hears of each damaged unit, once what comes before its fault is printed and out.
///
/// The answer tells what the units come to, and how many are damaged; the faults are those of `read_units_around`, and
/// failed writes.
pub fn dump_around<R: Source, W: Destination, D: DamageSink>(
    alloc: Global,
    input: &mut R,
    output: &mut W,
    options: &Options<'_>,
    detail: Detail,
    damages: &mut D,
) -> Result<Survey, RunFault>
    requires { options.now.limit ≤ SECTION_LIMIT }
    ensures ran { (bs : List ℕ) × Consumes (R.remaining input.old) (R.remaining input.new) bs
        × (D.hears damages.old damages.old [] → DumpsAround options.now.dialect (style_in detail options.now)
        options.now.limit bs (R.remaining input.new) (W.contents output.old) (W.contents output.new)
        (D.hears damages.old damages.new) result) }
    ensures blames { Blames R.follows R.fails input.old input.new
        ((D.hears damages.old damages.old []) × (result ≡ Err RunFault.Read)) }
    ensures blames_writer { D.hears damages.old damages.old [] → BlamesWriter W.fails result }
    ensures over { D.hears damages.old damages.old [] → WhereWhole (R.over input.new) result }
{
    let strings = StringSections::new(options.debug_line_str, options.debug_str);
    let mut printer = Printer::new();
    let mut dumper = Dumper {
        printer: &mut printer,
        strings: &strings,
        detail,
        damages,
    };
    read_units_around(alloc, input, output, options, &mut dumper)
}
