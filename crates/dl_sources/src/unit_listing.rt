//! The source files of one unit of a section. Sections 3.1.1 and 6.2.4.

ghost use Rattle.std.specs.Prelude.{◌≡◌, ◌≤◌, ℕ, List, Err};
ghost use Rattle.std.specs.Io.KnownBytes.{Consumes};
ghost use Rattle.dl_input.specs.Failing.{Blames};
ghost use Rattle.dl_sections.specs.Blaming.{BlamesWriter};
ghost use Rattle.dl_sections.specs.Commands.{strings_in};
ghost use Rattle.dl_sections.specs.Visiting.{as_run};
ghost use Rattle.dl_sources.specs.UnitCommand.{ListsUnit};
ghost use Rattle.dl_sources.specs.UnitListing.{after_another, not_whole};

use crate::lister::Lister;
use crate::listing::lacks_memory;
use crate::map_memory::MapMemory;
use crate::printing::print_table;
use crate::question::{SourcesQuestion, Sums};
use dl_head::{Header, HeaderLengths};
use dl_input::Source;
use dl_memory::NoMemory;
use dl_output::Destination;
use dl_print::{StringSections, WriteFault};
use dl_rows::{Flow, Operation, Row};
use dl_sections::{
    AroundDamage, Damage, DamagedUnits, Options, RunFault, SECTION_LIMIT, Visitor,
    read_units_around,
};

/// What the current unit is, as far as it is known.
#[derive(Clone, Copy)]
enum Current {
    /// Another unit than the one that is asked for, or none.
    Other,
    /// That one, which is of a version that isn't read.
    Foreign,
    /// That one, which has a header.
    Own,
}

impl Current {
    ghost use Rattle.std.specs.Prelude.{◌≡◌};
    ghost use Rattle.dl_sources.specs.UnitListing.{is_own};

    /// Whether it is the one that is asked for, and has a header.
    #[inline(always)]
    fn is_own(self) -> bool
        ensures { result ≡ is_own self }
    {
        matches!(self, Current::Own)
    }
}

/// Tells a lister of one unit alone.
#[derive(Drop)]
struct UnitLister<'s, 'o, 'q, M> {
    lister: Lister<'s, 'o, 'q, M>,
    /// The offset of the unit.
    unit: u64,
    current: Current,
    /// The unit is whole.
    is_whole: bool,
    /// What is wrong with it.
    damage: Option<Damage>,
}

impl<W: Destination, M: MapMemory> Visitor<W> for UnitLister<'_, '_, '_, M> {
    ghost use Rattle.dl_sources.specs.UnitListing.{unit_story};

    ghost story = { unit_story M.refuses };

    fn header(
        &mut self,
        _output: &mut W,
        offset: u64,
        _lengths: HeaderLengths,
        header: &Header,
    ) -> Result<(), RunFault> {
        if offset != self.unit {
            self.current = Current::Other;
            return Ok(());
        }
        match self.lister.begin_unit(offset, header) {
            Ok(()) => {
                self.current = Current::Own;
                Ok(())
            }
            Err(NoMemory) => Err(RunFault::NoMemory),
        }
    }

    fn foreign(&mut self, _output: &mut W, offset: u64, _version: u16) -> Result<(), RunFault> {
        if offset == self.unit {
            self.current = Current::Foreign;
        } else {
            self.current = Current::Other;
        }
        Ok(())
    }

    #[inline(always)]
    fn bytes(&mut self, _output: &mut W, _bytes: &[u8]) -> Result<(), WriteFault> {
        Ok(())
    }

    #[inline(always)]
    fn operation(
        &mut self,
        _output: &mut W,
        _header: &Header,
        _operation: Operation,
    ) -> Result<(), WriteFault> {
        Ok(())
    }

    #[inline(always)]
    fn row(&mut self, _output: &mut W, _header: &Header, row: &Row) -> Result<(), RunFault> {
        if self.current.is_own() {
            self.lister.count_row(row);
        }
        Ok(())
    }

    fn unterminated(&mut self, _output: &mut W) -> Result<(), RunFault> {
        Ok(())
    }

    fn end(&mut self, _output: &mut W, header: Option<Header>) -> Result<Flow, RunFault> {
        match self.current {
            Current::Other => Ok(after_another(self.damage)),
            Current::Foreign => {
                self.is_whole = true;
                Ok(Flow::Stop)
            }
            Current::Own => {
                self.is_whole = true;
                self.lister.is_refused = self.lister.end_unit(header.as_ref()).is_err();
                Ok(Flow::Stop)
            }
        }
    }

    fn flush(&mut self, _output: &mut W) -> Result<(), RunFault> {
        Ok(())
    }
}

impl<W: Destination, M: MapMemory> AroundDamage<W> for UnitLister<'_, '_, '_, M> {
    fn damaged(&mut self, unit: u64, damage: Damage) {
        self.current = Current::Other;
        if unit == self.unit {
            self.damage = self.damage.or(Some(damage));
        }
    }
}

/// What is done at the end of another unit than the one that is asked for: that one, where it is damaged, comes before it.
fn after_another(damage: Option<Damage>) -> Flow
    ensures { result ≡ after_another damage }
{
    if damage.is_some() {
        Flow::Stop
    } else {
        Flow::On
    }
}

/// The fault where no whole unit begins at an offset: what is wrong with the unit there, or else with the first damaged unit, by
/// which it isn't known where units begin; where none is damaged, no unit begins there.
fn not_whole(own: Option<Damage>, damaged: Option<DamagedUnits>) -> RunFault
    ensures { result ≡ not_whole own damaged }
{
    let first = damaged.map(|units| units.first);
    match own.or(first) {
        Some(Damage { offset, kind }) => RunFault::Damage { offset, kind },
        None => RunFault::NoUnit,
    }
}

/// Prints each path that the table of files of one unit names, as `sources` prints them of all units: of the unit that begins at
/// this offset of the section, as a DIE's DW_AT_stmt_list names it. It answers whether some path has two MD5 sums.
///
/// Units before it may be damaged, as long as their initial lengths are good. Nothing is read after it where it is whole, and
/// nothing is printed where it isn't: the fault is that of the unit itself where it is damaged, and else that of the first damaged
/// unit, if there is one. `NoUnit` where none is damaged, and no unit begins there. `NoMemory` where a growth is refused for the
/// header of a unit up to this one, or for what is told of this one. Else the faults are those of `read_units_around`.
#[inline(never)]
pub fn sources_of_unit<M: MapMemory, R: Source, W: Destination>(
    memory: &M,
    input: &mut R,
    output: &mut W,
    question: &SourcesQuestion<'_>,
    options: &Options<'_>,
    unit: u64,
) -> Result<Sums, RunFault>
    requires { options.now.limit ≤ SECTION_LIMIT }
    ensures ran { (bs : List ℕ) × Consumes (R.remaining input.old) (R.remaining input.new) bs
        × ListsUnit (M.refuses memory.now) options.now.dialect (strings_in options.now) question.now unit options.now.limit bs
        (R.remaining input.new) (W.contents output.old) (W.contents output.new) result }
    ensures blames { Blames R.follows R.fails input.old input.new (result ≡ Err RunFault.Read) }
    ensures blames_writer { BlamesWriter W.fails result }
    ensures over { result ≡ Err RunFault.NoUnit → R.over input.new }
{
    let strings = StringSections::new(options.debug_line_str, options.debug_str);
    let mut lister = UnitLister {
        lister: Lister::new(memory, &strings, *question),
        unit,
        current: Current::Other,
        is_whole: false,
        damage: None,
    };
    let ended = read_units_around(memory.alloc(), input, output, options, &mut lister);
    if lacks_memory(lister.lister.is_refused, &ended) {
        return Err(RunFault::NoMemory);
    }
    let survey = ended?;
    if !lister.is_whole {
        return Err(not_whole(lister.damage, survey.damaged));
    }
    as_run(print_table(&lister.lister.table, output, question))
}

/// What was printed, a failed write being the fault.
fn as_run(printed: Result<Sums, WriteFault>) -> Result<Sums, RunFault>
    ensures { result ≡ as_run printed }
{
    Ok(printed?)
}
