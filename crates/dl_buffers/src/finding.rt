//! The call that looks one place up.

ghost use Rattle.std.specs.Prelude.{ℕ, List};
ghost use Rattle.dl_buffers.specs.Calls.{dialect_of};
ghost use Rattle.dl_buffers.specs.FindCalls.{Finds, Seeks};

use crate::checking::dialect_of;
use crate::record::{FaultRecord, RowRecord};
use crate::status::Status;
use crate::stop::tell_stop;
use dl_head::Dialect;
use dl_look::{Finder, Place};
use dl_rows::{Flow, Row};
use dl_sections::{SectionStop, UnitSink, WholeUnit, read_section};
use std::alloc::Global;

/// The row that answers for a place, and the offset of its unit.
#[derive(Clone, Copy)]
pub struct FoundRow {
    pub row: Row,
    pub unit: u64,
}

/// Looks a place up in the units of a section.
#[derive(Drop)]
struct Seeker {
    place: Place,
    /// Was given the rows of the current unit.
    finder: Finder,
    found: Option<FoundRow>,
}

impl UnitSink for Seeker {
    ghost use Rattle.dl_buffers.specs.Seekers.{seeker_story};

    ghost story = { seeker_story };

    #[inline(always)]
    fn row(&mut self, row: &Row) {
        self.finder.row(row);
    }

    fn end(&mut self, unit: WholeUnit) -> Flow {
        let Some(row) = self.finder.answer() else {
            self.finder = Finder::new(self.place);
            return Flow::On;
        };
        self.found = Some(FoundRow {
            row,
            unit: unit.offset,
        });
        Flow::Stop
    }
}

/// Looks up the row that answers for an address and an operation of its instruction: that of the first
/// whole unit whose rows do. What follows this unit isn't looked at.
///
/// Done: the row and the offset of its unit are told. NoAnswer: no unit answers. Fault: before any unit
/// answers one is damaged, and the fault is told. What isn't told stays as it was.
pub fn find(
    alloc: Global,
    section: &[u8],
    how: u8,
    place: Place,
    row: &mut RowRecord,
    unit: &mut u64,
    fault: &mut FaultRecord,
) -> Status
    ensures { Finds (dialect_of how) section.now place row.old row.new unit.old unit.new fault.old fault.new result }
{
    match seek(alloc, dialect_of(how), section, place) {
        Ok(Some(found)) => {
            *row = RowRecord::of(&found.row);
            *unit = found.unit;
            Status::Done
        }
        Ok(None) => Status::NoAnswer,
        Err(stop) => tell_stop(stop, 0, fault),
    }
}

/// The row of the first unit that answers for the place.
fn seek(
    alloc: Global,
    dialect: Dialect,
    section: &[u8],
    place: Place,
) -> Result<Option<FoundRow>, SectionStop>
    ensures { Seeks dialect section.now place result }
{
    let mut seeker = Seeker {
        place,
        finder: Finder::new(place),
        found: None,
    };
    read_section(alloc, dialect, section, &mut seeker)?;
    Ok(seeker.found)
}
