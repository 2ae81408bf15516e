//! The commands that print the sequences that cover an address of a range. Sections 2.17.3, 6.2.2 and 6.2.5.

ghost use Rattle.std.specs.Prelude.{◌≡◌, ◌≤◌, ◌+◌, ◌++◌, ◌∷◌, [], ℕ, List, OnOk, OnErr, length, map};
ghost use Rattle.std.specs.Io.KnownBytes.{Consumes};
ghost use Rattle.dl_input.specs.Failing.{Blames};
ghost use Rattle.dl_memory.specs.Refusals.{IsRefused};
ghost use Rattle.dl_print.specs.Output.{BlamesWriter as BlamesPrinted};
ghost use Rattle.dl_sections.specs.Blaming.{BlamesWriter};
ghost use Rattle.dl_sections.specs.Ending.{WhereWhole};
ghost use Rattle.dl_dump.specs.Commands.{style_in};
ghost use Rattle.dl_dump.specs.RangeCommands.{DumpsRange, DumpsRangeAround};
ghost use Rattle.dl_dump.specs.declared.held_sequence.HeldItem.TheVariants as item;

use crate::details::Details;
use crate::dumping::NoneTold;
use crate::held_sequence::{HeldItem, covers_between, first_place_of, pass_items, print_sequence};
use crate::reached::{BEFORE_UNITS, Reached};
use dl_head::{Header, HeaderLengths};
use dl_input::Source;
use dl_look::{AddressRange, Place};
use dl_memory::{Memory, NoMemory};
use dl_output::Destination;
use dl_print::{Printer, StringSections, Summary, WriteFault};
use dl_rows::{Flow, Operation, Row};
use dl_sections::{
    AroundDamage, Damage, DamageSink, Options, RunFault, SECTION_LIMIT, Survey, Visitor,
    read_units, read_units_around,
};

/// Holds what is told of a sequence until its end row, and prints it where it covers an address of the range.
#[derive(Drop)]
struct RangeDumper<'d, 'p, 'm, M, D> {
    memory: &'m M,
    range: AddressRange,
    printer: &'d mut Printer,
    strings: &'d StringSections<'d>,
    details: &'d Details<'p>,
    /// How far the section had come where the current sequence begins.
    at: Reached,
    damages: &'d mut D,
    /// How long the current unit is, whose lines aren't printed.
    unit: Option<HeaderLengths>,
    /// What was told of the current sequence.
    items: &'d mut Vec<HeldItem>,
    /// Memory was refused for a part of it.
    is_refused: bool,
}

/// Holds bytes of an operation too.
fn hold_bytes<M: Memory>(
    memory: &M,
    items: &mut Vec<HeldItem>,
    bytes: &[u8],
) -> Result<(), NoMemory>
    ensures held { OnOk result (items.new.items ≡ items.old.items ++ map item.Byte bytes.now) }
    ensures refused { OnErr result (IsRefused (M.refuses memory.now) (length items.old.items + length bytes.now)) }
{
    for byte in bytes {
        memory.push(items, HeldItem::Byte(*byte))?;
    }
    Ok(())
}

impl<M: Memory, D> RangeDumper<'_, '_, '_, M, D> {
    ghost use Rattle.std.specs.Prelude.{◌≡◌, ◌+◌, ◌++◌, ◌∷◌, [], false, true, Err, OnErr, OnOk, Option, length};
    ghost use Rattle.dl_memory.specs.Refusals.{IsRefused};
    ghost use Rattle.dl_sections.specs.declared.fault.RunFault.TheVariants as fault;
    ghost use Rattle.dl_look.specs.declared.place.Place.{Place};
    ghost use Rattle.dl_dump.specs.declared.held_sequence.HeldItem.TheVariants as item;
    ghost use Rattle.dl_dump.specs.RangeDumping.{HasBegunUnit, HoldsRow, EndsSequence};

    /// Begins the sequences of a unit that is so long, where its lines are wanted before the first of them.
    fn begin(&mut self, unit: Option<HeaderLengths>)
        ensures { HasBegunUnit self.old self.new unit }
    {
        self.unit = unit;
        self.items.clear();
        self.is_refused = false;
    }

    /// Holds a row too.
    #[inline]
    fn hold_row(&mut self, row: &Row) -> Result<(), RunFault>
        ensures { HoldsRow M.refuses self.old self.new row.now result }
    {
        if self.is_refused {
            return Err(RunFault::NoMemory);
        }
        match self.memory.push(self.items, HeldItem::Row(*row)) {
            Ok(()) => Ok(()),
            Err(NoMemory) => Err(RunFault::NoMemory),
        }
    }

    /// Prints the current sequence, which ends at this place, where it covers an address of the range.
    fn end_sequence<W: Destination>(
        &mut self,
        output: &mut W,
        header: &Header,
        end: Place,
    ) -> Result<(), WriteFault>
        ensures ended { EndsSequence self.old self.new (W.contents output.old) (W.contents output.new) header.now end result }
        ensures blames { BlamesPrinted W.fails result }
    {
        let items = self.items.as_slice();
        let details = self.details;
        let at = self.at;
        if covers_between(self.range, first_place_of(items), end) {
            let strings = self.strings;
            let unit = self.unit;
            self.at = print_sequence(
                self.printer,
                output,
                strings,
                details,
                at,
                header,
                unit,
                items,
            )?;
            self.unit = None;
        } else {
            self.at = pass_items(details, at, header, items);
        }
        self.items.clear();
        Ok(())
    }
}

impl<W: Destination, M: Memory, D: DamageSink> Visitor<W> for RangeDumper<'_, '_, '_, M, D> {
    ghost use Rattle.dl_dump.specs.RangeDumping.{range_story};

    ghost story = { range_story D.hears M.refuses };

    fn header(
        &mut self,
        _output: &mut W,
        offset: u64,
        lengths: HeaderLengths,
        header: &Header,
    ) -> Result<(), RunFault> {
        self.begin(Some(lengths));
        self.at = Reached::at_program(offset, &lengths, header);
        Ok(())
    }

    fn foreign(&mut self, _output: &mut W, _offset: u64, _version: u16) -> Result<(), RunFault> {
        self.begin(None);
        Ok(())
    }

    #[inline(always)]
    fn bytes(&mut self, _output: &mut W, bytes: &[u8]) -> Result<(), WriteFault> {
        if !self.details.operations || self.is_refused {
            return Ok(());
        }
        self.is_refused = hold_bytes(self.memory, self.items, bytes).is_err();
        Ok(())
    }

    #[inline(always)]
    fn operation(
        &mut self,
        _output: &mut W,
        _header: &Header,
        operation: Operation,
    ) -> Result<(), WriteFault> {
        if !self.details.operations || self.is_refused {
            return Ok(());
        }
        let held = self.memory.push(self.items, HeldItem::Operation(operation));
        self.is_refused = held.is_err();
        Ok(())
    }

    #[inline(always)]
    fn row(&mut self, output: &mut W, header: &Header, row: &Row) -> Result<(), RunFault> {
        self.hold_row(row)?;
        if !row.end_sequence {
            return Ok(());
        }
        Ok(self.end_sequence(output, header, Place::of(row))?)
    }

    fn unterminated(&mut self, _output: &mut W) -> Result<(), RunFault> {
        Ok(())
    }

    fn end(&mut self, _output: &mut W, _header: Option<Header>) -> Result<Flow, RunFault> {
        Ok(Flow::On)
    }

    fn flush(&mut self, output: &mut W) -> Result<(), RunFault> {
        Ok(self.printer.flush(output)?)
    }
}

impl<W: Destination, M: Memory, D: DamageSink> AroundDamage<W> for RangeDumper<'_, '_, '_, M, D> {
    fn damaged(&mut self, _unit: u64, damage: Damage) {
        self.damages.damaged(damage);
    }
}

/// Prints the sequences that cover an address of the range, each whole, and before the first one of a unit the lines of the
/// unit, all with these details; `header` of these counts. A sequence covers from its first row's place up to below its end
/// row's; one without an end row covers nothing.
///
/// What comes before a fault is printed. The faults are those of `RunFault`; each growth of memory is one of `Reader::feed`, or
/// for what is told of one sequence, which is held until its end row.
pub fn dump_range<M: Memory, R: Source, W: Destination>(
    memory: &M,
    input: &mut R,
    output: &mut W,
    options: &Options<'_>,
    details: &Details<'_>,
    range: AddressRange,
) -> Result<Summary, RunFault>
    requires { options.now.limit ≤ SECTION_LIMIT }
    ensures ran { (bs : List ℕ) × Consumes (R.remaining input.old) (R.remaining input.new) bs
        × DumpsRange (M.refuses memory.now) options.now.dialect (style_in details.now options.now) range options.now.limit bs
        (R.remaining input.new) (W.contents output.old) (W.contents output.new) result }
    ensures blames { Blames R.follows R.fails input.old input.new
        (result ≡ Err RunFault.Read) }
    ensures blames_writer { BlamesWriter W.fails result }
    ensures over { OnOk result (R.over input.new) }
{
    let strings = StringSections::new(options.debug_line_str, options.debug_str);
    let mut dumper = RangeDumper {
        memory,
        range,
        printer: &mut Printer::new(),
        strings: &strings,
        details,
        at: BEFORE_UNITS,
        damages: &mut NoneTold,
        unit: None,
        items: &mut Vec::new(memory.alloc()),
        is_refused: false,
    };
    read_units(memory.alloc(), input, output, options, &mut dumper)
}

/// The same with an empty list, in which a sequence is held.
#[inline(never)]
fn show_around<M: Memory, R: Source, W: Destination, D: DamageSink>(
    memory: &M,
    input: &mut R,
    output: &mut W,
    options: &Options<'_>,
    details: &Details<'_>,
    range: AddressRange,
    items: &mut Vec<HeldItem>,
    damages: &mut D,
) -> Result<Survey, RunFault>
    requires limit { options.now.limit ≤ SECTION_LIMIT }
    requires none { items.old.items ≡ [] }
    ensures ran { (bs : List ℕ) × Consumes (R.remaining input.old) (R.remaining input.new) bs
        × (D.hears damages.old damages.old [] → DumpsRangeAround (M.refuses memory.now) options.now.dialect
        (style_in details.now options.now) range options.now.limit bs (R.remaining input.new) (W.contents output.old)
        (W.contents output.new) (D.hears damages.old damages.new) result) }
    ensures blames { Blames R.follows R.fails input.old input.new
        ((D.hears damages.old damages.old []) × (result ≡ Err RunFault.Read)) }
    ensures blames_writer { D.hears damages.old damages.old [] → BlamesWriter W.fails result }
    ensures over { D.hears damages.old damages.old [] → WhereWhole (R.over input.new) result }
{
    let strings = StringSections::new(options.debug_line_str, options.debug_str);
    let mut printer = Printer::new();
    let mut dumper = RangeDumper {
        memory,
        range,
        printer: &mut printer,
        strings: &strings,
        details,
        at: BEFORE_UNITS,
        damages,
        unit: None,
        items,
        is_refused: false,
    };
    read_units_around(memory.alloc(), input, output, options, &mut dumper)
}

/// The same around damaged units, of which the sequences before their faults are printed. `damages` hears of each damaged unit,
/// once what comes before its fault is printed and out.
///
/// The answer tells what the units come to, and how many are damaged; the faults are those of `read_units_around`, failed writes,
/// and memory that is refused for what is told of a sequence.
pub fn dump_range_around<M: Memory, R: Source, W: Destination, D: DamageSink>(
    memory: &M,
    input: &mut R,
    output: &mut W,
    options: &Options<'_>,
    details: &Details<'_>,
    range: AddressRange,
    damages: &mut D,
) -> Result<Survey, RunFault>
    requires { options.now.limit ≤ SECTION_LIMIT }
    ensures ran { (bs : List ℕ) × Consumes (R.remaining input.old) (R.remaining input.new) bs
        × (D.hears damages.old damages.old [] → DumpsRangeAround (M.refuses memory.now) options.now.dialect
        (style_in details.now options.now) range options.now.limit bs (R.remaining input.new) (W.contents output.old)
        (W.contents output.new) (D.hears damages.old damages.new) result) }
    ensures blames { Blames R.follows R.fails input.old input.new
        ((D.hears damages.old damages.old []) × (result ≡ Err RunFault.Read)) }
    ensures blames_writer { D.hears damages.old damages.old [] → BlamesWriter W.fails result }
    ensures over { D.hears damages.old damages.old [] → WhereWhole (R.over input.new) result }
{
    let mut items = Vec::new(memory.alloc());
    show_around(
        memory, input, output, options, details, range, &mut items, damages,
    )
}
