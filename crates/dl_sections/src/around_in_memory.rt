//! The units of a section that lies in memory, around those that are damaged. Section 6.2.4.

ghost use Rattle.std.specs.Prelude.{◌≡◌, []};
ghost use Rattle.dl_head.specs.declared.dialect.Dialect.{Dialect};
ghost use Rattle.dl_sections.specs.AroundInMemory.{ReadsAround};
ghost use Rattle.dl_sections.specs.GoingOn.{BeginsAround};
ghost use Rattle.dl_sections.specs.Telling.{PassesOnAround};

use crate::around::{AroundDamage, Damage, Survey, UnitsAround, finish};
use crate::in_memory::{Telling, UnitSink};
use dl_head::Dialect;
use dl_output::Destination;
use dl_rows::Flow;
use std::alloc::{AllocError, Global};
use std::io;

/// What hears the rows of the units of a section, each unit once it is whole, and where a unit is damaged.
pub trait UnitSinkAround: UnitSink {
    ghost use Rattle.std.specs.Prelude.{[], List};
    ghost use Rattle.dl_rows.specs.declared.row.Row.{Row};
    ghost use Rattle.dl_sections.specs.InMemory.{UnitTold};

    /// The current unit is damaged: the rows that were told of it aren't those of a whole unit.
    fn damaged(&mut self, damage: Damage)
        ensures { (first : Self) (units : List UnitTold) (rows : List Row) → Self.story.hears first self.old units rows
            → Self.story.hears first self.new units [] };
}

impl<W: Destination, U: UnitSinkAround> AroundDamage<W> for Telling<'_, U> {
    fn damaged(&mut self, _unit: u64, damage: Damage) {
        self.sink.damaged(damage);
    }
}

/// Reads the units of a section to its end, or to where the sink wants nothing more, and tells the sink their rows, and
/// each unit once it is whole. After a unit that is damaged it goes on with the next one, which begins where the initial
/// length of the damaged one says.
///
/// After a unit whose initial length isn't good, none is known to follow: it is the last. A unit that the section's end
/// cuts off is damaged too. `AllocError` where a growth of `Reader::feed` is refused: then the sink was told of all whole
/// units before the one whose header wants memory.
pub fn read_section_around<U: UnitSinkAround>(
    alloc: Global,
    dialect: Dialect,
    section: &[u8],
    sink: &mut U,
) -> Result<Survey, AllocError>
    ensures { U.story.hears sink.old sink.old [] []
        → ReadsAround U.story dialect section.now sink.old sink.new result }
{
    let mut units = UnitsAround::new(alloc, dialect);
    let mut telling = Telling {
        sink,
        offset: 0,
        version: None,
    };
    read_known_around(&mut units, section, &mut telling)
}

/// Reads the units of a section, of which nothing was read yet.
fn read_known_around<U: UnitSinkAround>(
    units: &mut UnitsAround,
    section: &[u8],
    telling: &mut Telling<'_, U>,
) -> Result<Survey, AllocError>
    requires { units.old.read ≡ 0 }
    ensures { (dialect : Dialect) → BeginsAround dialect units.old
        → U.story.hears telling.old.sink.now telling.old.sink.now [] []
        → PassesOnAround U.story dialect section.now telling.old telling.new result }
{
    match units.feed(&mut io::sink(), telling, section) {
        Ok(Flow::On) => Ok(finish::<io::Sink, Telling<'_, U>>(units, telling)),
        Ok(Flow::Stop) => Ok(units.survey()),
        Err(_) => Err(AllocError),
    }
}
