//! The command that prints one unit of a section. Sections 3.1.1 and 6.2.4.

ghost use Rattle.std.specs.Prelude.{◌≡◌, ◌≤◌, ◌==◌, [], ℕ, List, Ok, if◌then◌else◌};
ghost use Rattle.std.specs.Io.KnownBytes.{Consumes};
ghost use Rattle.dl_input.specs.Failing.{Blames};
ghost use Rattle.dl_sections.specs.Blaming.{BlamesWriter};
ghost use Rattle.dl_dump.specs.Commands.{style_in};
ghost use Rattle.dl_dump.specs.UnitCommand.{DumpsUnit, told_by};

use crate::details::Details;
use crate::dumping::{Dumper, NoneTold};
use crate::reached::BEFORE_UNITS;
use dl_head::{Header, HeaderLengths};
use dl_input::Source;
use dl_output::Destination;
use dl_print::{Printer, StringSections, WriteFault};
use dl_rows::{Flow, Operation, Row};
use dl_sections::{
    AroundDamage, Damage, DamagedUnits, Options, RunFault, SECTION_LIMIT, Visitor,
    read_units_around,
};
use std::alloc::Global;

/// What a section has at an offset.
#[derive(Clone, Copy, Debug, PartialEq, Eq)]
pub enum UnitAt {
    /// A unit begins there, which is whole.
    Whole,
    /// No unit begins there.
    NoUnit,
}

/// Prints what is told of one unit.
#[derive(Drop)]
struct UnitDumper<'d, 'p> {
    dumper: Dumper<'d, 'p, NoneTold>,
    /// The offset of the unit.
    unit: u64,
    /// The current unit is the one.
    is_current: bool,
    /// Something was told of it.
    has_begun: bool,
    /// What is wrong with it.
    damage: Option<Damage>,
}

impl UnitDumper<'_, '_> {
    ghost use Rattle.std.specs.Prelude.{◌≡◌, ◌==◌, ◌||◌};

    /// The unit at this offset is the current one.
    fn begin(&mut self, offset: u64)
        ensures { self.new ≡ record self.old {
          is_current = offset == self.old.unit;
          has_begun = self.old.has_begun || (offset == self.old.unit);
        } }
    {
        self.is_current = offset == self.unit;
        self.has_begun = self.has_begun || self.is_current;
    }
}

/// What is answered of a unit, of which something was told or nothing, and which may be damaged, of a section with these damaged
/// units: where some are and it isn't there, it isn't known where units begin.
fn unit_at(
    has_begun: bool,
    damage: Option<Damage>,
    damaged: Option<DamagedUnits>,
) -> Result<UnitAt, RunFault>
    ensures { result ≡ told_by has_begun damage damaged }
{
    let first = damaged.map(|units| units.first);
    let fault = damage.or(if has_begun { None } else { first });
    match fault {
        Some(Damage { offset, kind }) => Err(RunFault::Damage { offset, kind }),
        None if has_begun => Ok(UnitAt::Whole),
        None => Ok(UnitAt::NoUnit),
    }
}

impl<W: Destination> Visitor<W> for UnitDumper<'_, '_> {
    ghost use Rattle.dl_dump.specs.UnitDumping.{unit_story};

    ghost story = { unit_story };

    fn header(
        &mut self,
        output: &mut W,
        offset: u64,
        lengths: HeaderLengths,
        header: &Header,
    ) -> Result<(), RunFault> {
        self.begin(offset);
        if !self.is_current {
            return Ok(());
        }
        self.dumper.header(output, offset, lengths, header)
    }

    fn foreign(&mut self, output: &mut W, offset: u64, version: u16) -> Result<(), RunFault> {
        self.begin(offset);
        if !self.is_current {
            return Ok(());
        }
        self.dumper.foreign(output, offset, version)
    }

    #[inline(always)]
    fn bytes(&mut self, output: &mut W, bytes: &[u8]) -> Result<(), WriteFault> {
        if !self.is_current {
            return Ok(());
        }
        self.dumper.bytes(output, bytes)
    }

    #[inline(always)]
    fn operation(
        &mut self,
        output: &mut W,
        header: &Header,
        operation: Operation,
    ) -> Result<(), WriteFault> {
        if !self.is_current {
            return Ok(());
        }
        self.dumper.operation(output, header, operation)
    }

    #[inline(always)]
    fn row(&mut self, output: &mut W, header: &Header, row: &Row) -> Result<(), RunFault> {
        if !self.is_current {
            return Ok(());
        }
        self.dumper.row(output, header, row)
    }

    fn unterminated(&mut self, output: &mut W) -> Result<(), RunFault> {
        if !self.is_current {
            return Ok(());
        }
        self.dumper.unterminated(output)
    }

    fn end(&mut self, _output: &mut W, _header: Option<Header>) -> Result<Flow, RunFault> {
        if self.has_begun {
            return Ok(Flow::Stop);
        }
        Ok(Flow::On)
    }

    fn flush(&mut self, output: &mut W) -> Result<(), RunFault> {
        self.dumper.flush(output)
    }
}

impl<W: Destination> AroundDamage<W> for UnitDumper<'_, '_> {
    fn damaged(&mut self, unit: u64, damage: Damage) {
        self.begin(unit);
        if self.is_current {
            self.damage = self.damage.or(Some(damage));
        }
    }
}

/// Prints the lines of the unit at this offset of the section, as a DIE's DW_AT_stmt_list names it, with these details. Units
/// before it may be damaged, as long as their initial lengths are good; nothing is read after it.
///
/// The fault is that of the unit itself, where it is damaged, and what comes before is printed; where no unit is known to begin
/// there, it is that of the first damaged unit, if there is one. Else the faults are those of `read_units_around`, and failed writes.
pub fn dump_unit<R: Source, W: Destination>(
    alloc: Global,
    input: &mut R,
    output: &mut W,
    options: &Options<'_>,
    details: &Details<'_>,
    unit: u64,
) -> Result<UnitAt, RunFault>
    requires { options.now.limit ≤ SECTION_LIMIT }
    ensures ran { (bs : List ℕ) × Consumes (R.remaining input.old) (R.remaining input.new) bs
        × DumpsUnit options.now.dialect (style_in details.now options.now) unit options.now.limit bs
        (R.remaining input.new) (W.contents output.old) (W.contents output.new) result }
    ensures blames { Blames R.follows R.fails input.old input.new (result ≡ Err RunFault.Read) }
    ensures blames_writer { BlamesWriter W.fails result }
    ensures over { result ≡ Ok UnitAt.NoUnit → R.over input.new }
{
    let strings = StringSections::new(options.debug_line_str, options.debug_str);
    let mut dumper = UnitDumper {
        dumper: Dumper {
            printer: &mut Printer::new(),
            strings: &strings,
            details,
            at: BEFORE_UNITS,
            damages: &mut NoneTold,
        },
        unit,
        is_current: false,
        has_begun: false,
        damage: None,
    };
    let survey = read_units_around(alloc, input, output, options, &mut dumper)?;
    unit_at(dumper.has_begun, dumper.damage, survey.damaged)
}
