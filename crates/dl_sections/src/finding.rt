//! The command that looks an address up.

ghost use Rattle.dl_input.specs.Failing.{Blames};
ghost use Rattle.dl_sections.specs.Blaming.{BlamesWriter};
ghost use Rattle.std.specs.Prelude.{◌≡◌, ◌≤◌, ℕ, List};
ghost use Rattle.std.specs.Io.KnownBytes.{Consumes};
ghost use Rattle.dl_sections.specs.Commands.{Finds, strings_in};

use crate::fault::RunFault;
use crate::options::{Options, SECTION_LIMIT};
use crate::section::{Visitor, read_units};
use dl_head::{Header, HeaderLengths};
use dl_input::Source;
use dl_look::{Finder, Place};
use dl_output::Destination;
use dl_print::{Printer, StringSections, Summary, WriteFault};
use dl_rows::{Flow, Operation, Row};
use std::alloc::Global;

/// Looks a place up in the rows of each unit, and prints the first answer.
#[derive(Drop)]
struct Seeker<'a> {
    printer: Printer,
    strings: StringSections<'a>,
    place: Place,
    /// Was given the rows of the current unit.
    finder: Finder,
    found: bool,
}

impl<W: Destination> Visitor<W> for Seeker<'_> {
    ghost use Rattle.dl_sections.specs.Finding.{find_story};

    ghost story = { find_story };

    fn header(
        &mut self,
        _output: &mut W,
        _offset: u64,
        _lengths: HeaderLengths,
        _header: &Header,
    ) -> Result<(), RunFault> {
        Ok(())
    }

    fn foreign(&mut self, _output: &mut W, _offset: u64, _version: u16) -> Result<(), RunFault> {
        Ok(())
    }

    #[inline(always)]
    fn bytes(&mut self, _output: &mut W, _bytes: &[u8]) -> Result<(), WriteFault> {
        Ok(())
    }

    #[inline(always)]
    fn operation(
        &mut self,
        _output: &mut W,
        _header: &Header,
        _operation: Operation,
    ) -> Result<(), WriteFault> {
        Ok(())
    }

    #[inline(always)]
    fn row(&mut self, _output: &mut W, _header: &Header, row: &Row) -> Result<(), RunFault> {
        self.finder.row(row);
        Ok(())
    }

    fn unterminated(&mut self, _output: &mut W) -> Result<(), RunFault> {
        Ok(())
    }

    fn end(&mut self, output: &mut W, header: Option<Header>) -> Result<Flow, RunFault> {
        let answer = self.finder.answer();
        self.finder = Finder::new(self.place);
        let (Some(row), Some(header)) = (answer, header) else {
            return Ok(Flow::On);
        };
        self.printer.file(output, &self.strings, &header, row.file)?;
        self.printer.row(output, &row)?;
        self.found = true;
        Ok(Flow::Stop)
    }

    fn flush(&mut self, output: &mut W) -> Result<(), RunFault> {
        Ok(self.printer.flush(output)?)
    }
}

/// Prints two lines for the place, from the first whole unit whose rows answer for it: the line of the
/// row's file, or that the unit's table has no such file, and the line of the row. The rest of the input
/// isn't looked at.
///
/// The counts are those of the units up to this one. A fault in one of these units, or before them, is
/// answered with nothing printed; where no unit answers, and none is damaged, it is `NotFound`. Each
/// growth of memory is one of `Reader::feed`.
pub fn find<R: Source, W: Destination>(
    alloc: Global,
    input: &mut R,
    output: &mut W,
    place: Place,
    options: &Options<'_>,
) -> Result<Summary, RunFault>
    requires { options.now.limit ≤ SECTION_LIMIT }
    ensures ran { (bs : List ℕ) × Consumes (R.remaining input.old) (R.remaining input.new) bs
        × Finds options.now.dialect (strings_in options.now) place options.now.limit bs
        (R.remaining input.new) (W.contents output.old) (W.contents output.new) result }
    ensures blames { Blames R.follows R.fails input.old input.new
        (result ≡ Err RunFault.Read) }
    ensures blames_writer { BlamesWriter W.fails result }
    ensures over { result ≡ Err RunFault.NotFound → R.over input.new }
{
    let strings = StringSections::new(options.debug_line_str, options.debug_str);
    let mut seeker = Seeker {
        printer: Printer::new(),
        strings,
        place,
        finder: Finder::new(place),
        found: false,
    };
    let summary = read_units(alloc, input, output, options, &mut seeker)?;
    if seeker.found {
        Ok(summary)
    } else {
        Err(RunFault::NotFound)
    }
}
