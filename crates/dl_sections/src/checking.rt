//! The command that counts units, sequences and rows.

ghost use Rattle.dl_input.specs.Failing.{Blames};
ghost use Rattle.dl_sections.specs.Blaming.{BlamesWriter};
ghost use Rattle.dl_sections.specs.Ending.{WhereWhole};
ghost use Rattle.std.specs.Prelude.{◌≡◌, ◌≤◌, [], ℕ, List, OnOk};
ghost use Rattle.std.specs.Io.KnownBytes.{Consumes};
ghost use Rattle.dl_sections.specs.AroundCommands.{ChecksAround};
ghost use Rattle.dl_sections.specs.Commands.{Checks};

use crate::around::{AroundDamage, Damage, Survey, read_units_around};
use crate::fault::RunFault;
use crate::options::{Options, SECTION_LIMIT};
use crate::reporting::{DamageSink, NoneTold};
use crate::section::{Visitor, read_units};
use dl_head::{Header, HeaderLengths};
use dl_input::Source;
use dl_output::Destination;
use dl_print::{Printer, Summary, WriteFault};
use dl_rows::{Flow, Operation, Row};
use std::alloc::Global;

/// Prints nothing, and tells of damaged units.
#[derive(Drop)]
struct Checker<'a, D> {
    damages: &'a mut D,
}

impl<W: Destination, D: DamageSink> Visitor<W> for Checker<'_, D> {
    ghost use Rattle.dl_sections.specs.Checking.{check_story};

    ghost story = { check_story D.hears };

    fn header(
        &mut self,
        _output: &mut W,
        _offset: u64,
        _lengths: HeaderLengths,
        _header: &Header,
    ) -> Result<(), RunFault> {
        Ok(())
    }

    fn foreign(&mut self, _output: &mut W, _offset: u64, _version: u16) -> Result<(), RunFault> {
        Ok(())
    }

    #[inline(always)]
    fn bytes(&mut self, _output: &mut W, _bytes: &[u8]) -> Result<(), WriteFault> {
        Ok(())
    }

    #[inline(always)]
    fn operation(
        &mut self,
        _output: &mut W,
        _header: &Header,
        _operation: Operation,
    ) -> Result<(), WriteFault> {
        Ok(())
    }

    #[inline(always)]
    fn row(&mut self, _output: &mut W, _header: &Header, _row: &Row) -> Result<(), RunFault> {
        Ok(())
    }

    fn unterminated(&mut self, _output: &mut W) -> Result<(), RunFault> {
        Ok(())
    }

    fn end(&mut self, _output: &mut W, _header: Option<Header>) -> Result<Flow, RunFault> {
        Ok(Flow::On)
    }

    fn flush(&mut self, _output: &mut W) -> Result<(), RunFault> {
        Ok(())
    }
}

impl<W: Destination, D: DamageSink> AroundDamage<W> for Checker<'_, D> {
    fn damaged(&mut self, _unit: u64, damage: Damage) {
        self.damages.damaged(damage);
    }
}

/// Reads all units of the input, and prints one line with their counts where none is damaged.
///
/// Before the input's end nothing is printed. The faults are those of `RunFault`; each growth of
/// memory is one of `Reader::feed`.
pub fn check<R: Source, W: Destination>(
    alloc: Global,
    input: &mut R,
    output: &mut W,
    options: &Options<'_>,
) -> Result<Summary, RunFault>
    requires { options.now.limit ≤ SECTION_LIMIT }
    ensures ran { (bs : List ℕ) × Consumes (R.remaining input.old) (R.remaining input.new) bs
        × Checks options.now.dialect options.now.limit bs
        (R.remaining input.new) (W.contents output.old) (W.contents output.new) result }
    ensures blames { Blames R.follows R.fails input.old input.new
        (result ≡ Err RunFault.Read) }
    ensures blames_writer { BlamesWriter W.fails result }
    ensures over { OnOk result (R.over input.new) }
{
    let mut checker = Checker {
        damages: &mut NoneTold,
    };
    let summary = read_units(alloc, input, output, options, &mut checker)?;
    let mut printer = Printer::new();
    printer.summary(output, &summary)?;
    printer.flush(output)?;
    Ok(summary)
}

/// Reads all units of the input around those that are damaged, and prints one line with their counts, those of the whole
/// units first. `damages` hears of each damaged unit.
///
/// Before the input's end nothing is printed. The answer tells how many units are damaged; the faults are those of
/// `read_units_around`, and failed writes.
pub fn check_around<R: Source, W: Destination, D: DamageSink>(
    alloc: Global,
    input: &mut R,
    output: &mut W,
    options: &Options<'_>,
    damages: &mut D,
) -> Result<Survey, RunFault>
    requires { options.now.limit ≤ SECTION_LIMIT }
    ensures ran { (bs : List ℕ) × Consumes (R.remaining input.old) (R.remaining input.new) bs
        × (D.hears damages.old damages.old [] → ChecksAround options.now.dialect options.now.limit bs
        (R.remaining input.new) (W.contents output.old) (W.contents output.new) (D.hears damages.old damages.new)
        result) }
    ensures blames { Blames R.follows R.fails input.old input.new
        ((D.hears damages.old damages.old []) × (result ≡ Err RunFault.Read)) }
    ensures blames_writer { D.hears damages.old damages.old [] → BlamesWriter W.fails result }
    ensures over { D.hears damages.old damages.old [] → WhereWhole (R.over input.new) result }
{
    let mut checker = Checker { damages };
    let survey = read_units_around(alloc, input, output, options, &mut checker)?;
    let mut printer = Printer::new();
    printer.survey(output, &survey.summary, survey.damaged_units())?;
    printer.flush(output)?;
    Ok(survey)
}
