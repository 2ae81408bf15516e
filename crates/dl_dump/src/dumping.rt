//! The commands that print a section with details.

ghost use Rattle.std.specs.Prelude.{◌≡◌, ◌≤◌, ◌++◌, [], ℕ, List, OnOk, codes, if◌then◌else◌};
ghost use Rattle.std.specs.Io.KnownBytes.{Consumes};
ghost use Rattle.dl_input.specs.Failing.{Blames};
ghost use Rattle.dl_print.specs.Output.{BlamesWriter as BlamesPrinted, Prints};
ghost use Rattle.dl_print.specs.Text.{row_text};
ghost use Rattle.dl_print.specs.ValueText.{strings_of};
ghost use Rattle.dl_sections.specs.Blaming.{BlamesWriter};
ghost use Rattle.dl_sections.specs.Ending.{WhereWhole};
ghost use Rattle.dl_dump.specs.Commands.{DumpsDetails, DumpsDetailsAround, style_in};
ghost use Rattle.dl_dump.specs.DetailText.{header_shown, line_end, row_path};

use crate::details::Details;
use crate::operation::{print_bytes, print_operation};
use crate::path::print_path;
use crate::reached::{BEFORE_UNITS, Opcode, Reached, op_index_with};
use dl_head::{Header, HeaderLengths};
use dl_input::Source;
use dl_output::Destination;
use dl_print::{Printer, StringSections, Summary, WriteFault};
use dl_rows::{Flow, Operation, Row};
use dl_sections::{
    AroundDamage, Damage, DamageSink, Detail, Options, RunFault, SECTION_LIMIT, Survey, Visitor,
    dump_around, dump_with, read_units, read_units_around,
};
use std::alloc::Global;

/// Prints what is told of units with details, and tells of damaged ones.
#[derive(Drop)]
pub struct Dumper<'d, 'p, D> {
    pub printer: &'d mut Printer,
    pub strings: &'d StringSections<'d>,
    pub details: &'d Details<'p>,
    /// How far the current unit has come.
    pub at: Reached,
    pub damages: &'d mut D,
}

/// Prints the end of the line of an operation that was cut off.
fn print_line_end<W: Destination>(
    printer: &mut Printer,
    output: &mut W,
    opcode: Opcode,
) -> Result<(), WriteFault>
    ensures printed { Prints (W.contents output.old) (W.contents output.new) printer.old printer.new
        (line_end opcode) result }
    ensures blames { BlamesPrinted W.fails result }
{
    match opcode {
        Opcode::Unread => printer.put(output, b""),
        _ => printer.put(output, b"\n"),
    }
}

/// Prints the lines of a header whose unit begins at `offset` of its section, with its fields where they are shown.
pub fn print_header<W: Destination>(
    printer: &mut Printer,
    output: &mut W,
    strings: &StringSections<'_>,
    details: &Details<'_>,
    offset: u64,
    lengths: &HeaderLengths,
    header: &Header,
) -> Result<(), WriteFault>
    ensures printed { Prints (W.contents output.old) (W.contents output.new) printer.old printer.new
        (header_shown (record { details = details.now; strings = strings_of strings.now }) offset lengths.now header.now) result }
    ensures blames { BlamesPrinted W.fails result }
{
    if details.header {
        printer.full_header(output, strings, offset, lengths, header)
    } else {
        printer.header(output, strings, offset, header)
    }
}

/// Prints a space and the path of the file of a row, where paths are shown.
#[inline(never)]
fn print_row_path<W: Destination>(
    printer: &mut Printer,
    output: &mut W,
    strings: &StringSections<'_>,
    details: &Details<'_>,
    at: &Reached,
    header: &Header,
    row: &Row,
) -> Result<(), WriteFault>
    ensures printed { Prints (W.contents output.old) (W.contents output.new) printer.old printer.new
        (row_path (record { details = details.now; strings = strings_of strings.now }) at.now header.now row.now) result }
    ensures blames { BlamesPrinted W.fails result }
{
    if !details.paths {
        return printer.put(output, b"");
    }
    printer.put(output, b" ")?;
    print_path(
        printer,
        output,
        strings,
        details.directories,
        at.unit,
        header,
        row.file,
    )
}

/// Prints the line of a row, with its path where paths are shown.
#[inline]
pub fn print_row<W: Destination>(
    printer: &mut Printer,
    output: &mut W,
    strings: &StringSections<'_>,
    details: &Details<'_>,
    at: &Reached,
    header: &Header,
    row: &Row,
) -> Result<(), WriteFault>
    ensures printed { Prints (W.contents output.old) (W.contents output.new) printer.old printer.new
        (row_text row.now ++ (row_path (record { details = details.now; strings = strings_of strings.now }) at.now header.now
        row.now ++ codes "\n")) result }
    ensures blames { BlamesPrinted W.fails result }
{
    if !details.paths {
        return printer.row(output, row);
    }
    printer.row_text(output, row)?;
    print_row_path(printer, output, strings, details, at, header, row)?;
    printer.put(output, b"\n")
}

impl<W: Destination, D: DamageSink> Visitor<W> for Dumper<'_, '_, D> {
    ghost use Rattle.dl_dump.specs.Dumping.{dump_story};

    ghost story = { dump_story D.hears };

    fn header(
        &mut self,
        output: &mut W,
        offset: u64,
        lengths: HeaderLengths,
        header: &Header,
    ) -> Result<(), RunFault> {
        print_line_end(self.printer, output, self.at.opcode)?;
        print_header(
            self.printer,
            output,
            self.strings,
            self.details,
            offset,
            &lengths,
            header,
        )?;
        self.at = Reached::at_program(offset, &lengths, header);
        Ok(())
    }

    fn foreign(&mut self, output: &mut W, offset: u64, version: u16) -> Result<(), RunFault> {
        print_line_end(self.printer, output, self.at.opcode)?;
        self.printer.foreign_unit(output, offset, version)?;
        self.at.opcode = Opcode::Unread;
        Ok(())
    }

    #[inline(always)]
    fn bytes(&mut self, output: &mut W, bytes: &[u8]) -> Result<(), WriteFault> {
        if !self.details.operations || bytes.is_empty() {
            return Ok(());
        }
        print_bytes(self.printer, output, &self.at, bytes)?;
        self.at = self.at.with_bytes(bytes);
        Ok(())
    }

    #[inline(always)]
    fn operation(
        &mut self,
        output: &mut W,
        header: &Header,
        operation: Operation,
    ) -> Result<(), WriteFault> {
        if !self.details.operations {
            return Ok(());
        }
        print_operation(self.printer, output, header, &self.at, operation)?;
        self.at.op_index = op_index_with(header.params(), self.at.op_index, operation);
        self.at.opcode = Opcode::Unread;
        Ok(())
    }

    #[inline(always)]
    fn row(&mut self, output: &mut W, header: &Header, row: &Row) -> Result<(), RunFault> {
        Ok(print_row(
            self.printer,
            output,
            self.strings,
            self.details,
            &self.at,
            header,
            row,
        )?)
    }

    fn unterminated(&mut self, output: &mut W) -> Result<(), RunFault> {
        Ok(self.printer.open_sequence(output)?)
    }

    fn end(&mut self, _output: &mut W, _header: Option<Header>) -> Result<Flow, RunFault> {
        Ok(Flow::On)
    }

    fn flush(&mut self, output: &mut W) -> Result<(), RunFault> {
        Ok(self.printer.flush(output)?)
    }
}

impl<W: Destination, D: DamageSink> AroundDamage<W> for Dumper<'_, '_, D> {
    fn damaged(&mut self, _unit: u64, damage: Damage) {
        self.damages.damaged(damage);
    }
}

/// Hears of no unit, where the first damaged one is the fault.
#[derive(Drop)]
pub struct NoneTold;

impl DamageSink for NoneTold {
    ghost use Rattle.std.specs.Prelude.{⊤};

    ghost hears = { λ first new told. ⊤ };

    fn damaged(&mut self, _damage: Damage) {}
}

/// Prints them with each operation or path that is shown.
#[inline(never)]
fn show<R: Source, W: Destination>(
    alloc: Global,
    input: &mut R,
    output: &mut W,
    options: &Options<'_>,
    details: &Details<'_>,
) -> Result<Summary, RunFault>
    requires { options.now.limit ≤ SECTION_LIMIT }
    ensures ran { (bs : List ℕ) × Consumes (R.remaining input.old) (R.remaining input.new) bs
        × DumpsDetails options.now.dialect (style_in details.now options.now) options.now.limit bs
        (R.remaining input.new) (W.contents output.old) (W.contents output.new) result }
    ensures blames { Blames R.follows R.fails input.old input.new
        (result ≡ Err RunFault.Read) }
    ensures blames_writer { BlamesWriter W.fails result }
    ensures over { OnOk result (R.over input.new) }
{
    let strings = StringSections::new(options.debug_line_str, options.debug_str);
    let mut dumper = Dumper {
        printer: &mut Printer::new(),
        strings: &strings,
        details,
        at: BEFORE_UNITS,
        damages: &mut NoneTold,
    };
    read_units(alloc, input, output, options, &mut dumper)
}

/// The same around damaged units.
#[inline(never)]
fn show_around<R: Source, W: Destination, D: DamageSink>(
    alloc: Global,
    input: &mut R,
    output: &mut W,
    options: &Options<'_>,
    details: &Details<'_>,
    damages: &mut D,
) -> Result<Survey, RunFault>
    requires { options.now.limit ≤ SECTION_LIMIT }
    ensures ran { (bs : List ℕ) × Consumes (R.remaining input.old) (R.remaining input.new) bs
        × (D.hears damages.old damages.old [] → DumpsDetailsAround options.now.dialect
        (style_in details.now options.now) options.now.limit bs (R.remaining input.new) (W.contents output.old)
        (W.contents output.new) (D.hears damages.old damages.new) result) }
    ensures blames { Blames R.follows R.fails input.old input.new
        ((D.hears damages.old damages.old []) × (result ≡ Err RunFault.Read)) }
    ensures blames_writer { D.hears damages.old damages.old [] → BlamesWriter W.fails result }
    ensures over { D.hears damages.old damages.old [] → WhereWhole (R.over input.new) result }
{
    let strings = StringSections::new(options.debug_line_str, options.debug_str);
    let mut printer = Printer::new();
    let mut dumper = Dumper {
        printer: &mut printer,
        strings: &strings,
        details,
        at: BEFORE_UNITS,
        damages,
    };
    read_units_around(alloc, input, output, options, &mut dumper)
}

/// Prints the lines of all units of the input, with these details.
///
/// What comes before a fault is printed; of an operation that is bad or cut off, the bytes that were read. The faults are
/// those of `RunFault`; each growth of memory is one of `Reader::feed`.
pub fn dump_details<R: Source, W: Destination>(
    alloc: Global,
    input: &mut R,
    output: &mut W,
    options: &Options<'_>,
    details: &Details<'_>,
) -> Result<Summary, RunFault>
    requires { options.now.limit ≤ SECTION_LIMIT }
    ensures ran { (bs : List ℕ) × Consumes (R.remaining input.old) (R.remaining input.new) bs
        × DumpsDetails options.now.dialect (style_in details.now options.now) options.now.limit bs
        (R.remaining input.new) (W.contents output.old) (W.contents output.new) result }
    ensures blames { Blames R.follows R.fails input.old input.new
        (result ≡ Err RunFault.Read) }
    ensures blames_writer { BlamesWriter W.fails result }
    ensures over { OnOk result (R.over input.new) }
{
    if details.operations || details.paths {
        return show(alloc, input, output, options, details);
    }
    let detail = Detail {
        header: details.header,
    };
    dump_with(alloc, input, output, options, detail)
}

/// Prints the lines of all units of the input, of those that are damaged up to their faults, with these details. `damages`
/// hears of each damaged unit, once what comes before its fault is printed and out.
///
/// The answer tells what the units come to, and how many are damaged; the faults are those of `read_units_around`, and
/// failed writes.
pub fn dump_details_around<R: Source, W: Destination, D: DamageSink>(
    alloc: Global,
    input: &mut R,
    output: &mut W,
    options: &Options<'_>,
    details: &Details<'_>,
    damages: &mut D,
) -> Result<Survey, RunFault>
    requires { options.now.limit ≤ SECTION_LIMIT }
    ensures ran { (bs : List ℕ) × Consumes (R.remaining input.old) (R.remaining input.new) bs
        × (D.hears damages.old damages.old [] → DumpsDetailsAround options.now.dialect
        (style_in details.now options.now) options.now.limit bs (R.remaining input.new) (W.contents output.old)
        (W.contents output.new) (D.hears damages.old damages.new) result) }
    ensures blames { Blames R.follows R.fails input.old input.new
        ((D.hears damages.old damages.old []) × (result ≡ Err RunFault.Read)) }
    ensures blames_writer { D.hears damages.old damages.old [] → BlamesWriter W.fails result }
    ensures over { D.hears damages.old damages.old [] → WhereWhole (R.over input.new) result }
{
    if details.operations || details.paths {
        return show_around(alloc, input, output, options, details, damages);
    }
    let detail = Detail {
        header: details.header,
    };
    dump_around(alloc, input, output, options, detail, damages)
}
