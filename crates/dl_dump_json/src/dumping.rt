//! The commands that print a section as JSON Lines.

ghost use Rattle.std.specs.Prelude.{◌≡◌, ◌≤◌, [], ℕ, List, OnOk};
ghost use Rattle.std.specs.Io.KnownBytes.{Consumes};
ghost use Rattle.dl_input.specs.Failing.{Blames};
ghost use Rattle.dl_sections.specs.Blaming.{BlamesWriter};
ghost use Rattle.dl_sections.specs.Commands.{strings_in};
ghost use Rattle.dl_sections.specs.Ending.{WhereWhole};
ghost use Rattle.dl_dump_json.specs.Commands.{DumpsJson, DumpsJsonAround};

use crate::row::print_row;
use crate::unit::{print_open, print_skipped, print_unit};
use dl_head::{Header, HeaderLengths};
use dl_input::Source;
use dl_output::Destination;
use dl_print::{Printer, StringSections, Summary, WriteFault};
use dl_rows::{Flow, Operation, Row};
use dl_sections::{
    AroundDamage, Damage, DamageSink, Options, RunFault, SECTION_LIMIT, Survey, Visitor,
    read_units, read_units_around,
};
use std::alloc::Global;

/// Prints the objects of units and rows, and tells of damaged units.
#[derive(Drop)]
struct JsonDumper<'d, D> {
    printer: &'d mut Printer,
    strings: &'d StringSections<'d>,
    damages: &'d mut D,
}

impl<W: Destination, D: DamageSink> Visitor<W> for JsonDumper<'_, D> {
    ghost use Rattle.dl_dump_json.specs.Dumping.{dump_story};

    ghost story = { dump_story D.hears };

    fn header(
        &mut self,
        output: &mut W,
        offset: u64,
        lengths: HeaderLengths,
        header: &Header,
    ) -> Result<(), RunFault> {
        Ok(print_unit(self.printer, output, self.strings, offset, &lengths, header)?)
    }

    fn foreign(&mut self, output: &mut W, offset: u64, version: u16) -> Result<(), RunFault> {
        Ok(print_skipped(self.printer, output, offset, version)?)
    }

    #[inline(always)]
    fn bytes(&mut self, _output: &mut W, _bytes: &[u8]) -> Result<(), WriteFault> {
        Ok(())
    }

    #[inline(always)]
    fn operation(
        &mut self,
        _output: &mut W,
        _header: &Header,
        _operation: Operation,
    ) -> Result<(), WriteFault> {
        Ok(())
    }

    #[inline]
    fn row(&mut self, output: &mut W, _header: &Header, row: &Row) -> Result<(), RunFault> {
        Ok(print_row(self.printer, output, row)?)
    }

    fn unterminated(&mut self, output: &mut W) -> Result<(), RunFault> {
        Ok(print_open(self.printer, output)?)
    }

    fn end(&mut self, _output: &mut W, _header: Option<Header>) -> Result<Flow, RunFault> {
        Ok(Flow::On)
    }

    fn flush(&mut self, output: &mut W) -> Result<(), RunFault> {
        Ok(self.printer.flush(output)?)
    }
}

impl<W: Destination, D: DamageSink> AroundDamage<W> for JsonDumper<'_, D> {
    fn damaged(&mut self, _unit: u64, damage: Damage) {
        self.damages.damaged(damage);
    }
}

/// Hears of no unit, where the first damaged one is the fault.
#[derive(Drop)]
struct NoneTold;

impl DamageSink for NoneTold {
    ghost use Rattle.std.specs.Prelude.{⊤};

    ghost hears = { λ first new told. ⊤ };

    fn damaged(&mut self, _damage: Damage) {}
}

/// Prints an object of each unit of the input and of each row, each in a line.
///
/// What comes before a fault is printed. The faults are those of `RunFault`; each growth of memory is one of
/// `Reader::feed`.
pub fn dump_json<R: Source, W: Destination>(
    alloc: Global,
    input: &mut R,
    output: &mut W,
    options: &Options<'_>,
) -> Result<Summary, RunFault>
    requires { options.now.limit ≤ SECTION_LIMIT }
    ensures ran { (bs : List ℕ) × Consumes (R.remaining input.old) (R.remaining input.new) bs
        × DumpsJson options.now.dialect (strings_in options.now) options.now.limit bs
        (R.remaining input.new) (W.contents output.old) (W.contents output.new) result }
    ensures blames { Blames R.follows R.fails input.old input.new
        (result ≡ Err RunFault.Read) }
    ensures blames_writer { BlamesWriter W.fails result }
    ensures over { OnOk result (R.over input.new) }
{
    let strings = StringSections::new(options.debug_line_str, options.debug_str);
    let mut dumper = JsonDumper {
        printer: &mut Printer::new(),
        strings: &strings,
        damages: &mut NoneTold,
    };
    read_units(alloc, input, output, options, &mut dumper)
}

/// Prints an object of each unit of the input and of each row, each in a line, of units that are damaged up to their faults.
/// `damages` hears of each damaged unit, once what comes before its fault is printed and out.
///
/// The answer tells what the units come to, and how many are damaged; the faults are those of `read_units_around`, and
/// failed writes.
pub fn dump_json_around<R: Source, W: Destination, D: DamageSink>(
    alloc: Global,
    input: &mut R,
    output: &mut W,
    options: &Options<'_>,
    damages: &mut D,
) -> Result<Survey, RunFault>
    requires { options.now.limit ≤ SECTION_LIMIT }
    ensures ran { (bs : List ℕ) × Consumes (R.remaining input.old) (R.remaining input.new) bs
        × (D.hears damages.old damages.old [] → DumpsJsonAround options.now.dialect (strings_in options.now)
        options.now.limit bs (R.remaining input.new) (W.contents output.old) (W.contents output.new)
        (D.hears damages.old damages.new) result) }
    ensures blames { Blames R.follows R.fails input.old input.new
        ((D.hears damages.old damages.old []) × (result ≡ Err RunFault.Read)) }
    ensures blames_writer { D.hears damages.old damages.old [] → BlamesWriter W.fails result }
    ensures over { D.hears damages.old damages.old [] → WhereWhole (R.over input.new) result }
{
    let strings = StringSections::new(options.debug_line_str, options.debug_str);
    let mut printer = Printer::new();
    let mut dumper = JsonDumper {
        printer: &mut printer,
        strings: &strings,
        damages,
    };
    read_units_around(alloc, input, output, options, &mut dumper)
}
