//! The call that lists the rows of the unit at an offset.

ghost use Rattle.std.specs.Prelude.{◌≡◌, drop};
ghost use Rattle.dl_buffers.specs.Calls.{dialect_of};
ghost use Rattle.dl_buffers.specs.Stops.{count_told};
ghost use Rattle.dl_buffers.specs.UnitCalls.{Lists};

use crate::checking::dialect_of;
use crate::record::{FaultRecord, RowRecord};
use crate::status::Status;
use crate::stop::tell_stop;
use crate::unit::rest_from;
use dl_rows::{Flow, Row};
use dl_sections::{SectionStop, UnitSink, WholeUnit, read_section};
use std::alloc::Global;

/// Keeps the rows of the first unit, as many as there is room for, and counts all.
#[derive(Drop)]
struct RowRoom<'a> {
    rows: &'a mut [RowRecord],
    count: usize,
    /// The unit is whole.
    is_whole: bool,
}

impl UnitSink for RowRoom<'_> {
    ghost use Rattle.dl_buffers.specs.RowRooms.{room_story};

    ghost story = { room_story };

    #[inline(always)]
    fn row(&mut self, row: &Row) {
        let place = self.count;
        self.count = place.saturating_add(1);
        if place < self.rows.len() {
            self.rows[place] = RowRecord::of(row);
        }
    }

    fn end(&mut self, _unit: WholeUnit) -> Flow {
        self.is_whole = true;
        Flow::Stop
    }
}

/// Lists the rows of the unit that begins at an offset of a section, as many as there is room for.
///
/// Done: the rows are told, and how many the unit has. NoAnswer: the section has no byte there. Fault: the
/// rows before it are told, how many these are, and the fault. What isn't told stays as it was. What comes
/// before the offset, and after the unit, isn't looked at.
pub fn rows_at(
    alloc: Global,
    section: &[u8],
    how: u8,
    offset: u64,
    rows: &mut [RowRecord],
    count: &mut usize,
    fault: &mut FaultRecord,
) -> Status
    ensures { Lists (dialect_of how) (drop offset section.now) offset rows.old rows.new count.old count.new fault.old
        fault.new result }
{
    let mut room = RowRoom {
        rows,
        count: 0,
        is_whole: false,
    };
    let bytes = rest_from(section, offset);
    let read = read_section(alloc, dialect_of(how), bytes, &mut room);
    let RowRoom {
        rows: _,
        count: found,
        is_whole,
    } = room;
    match read {
        Ok(_) if is_whole => {
            *count = found;
            Status::Done
        }
        Ok(_) => Status::NoAnswer,
        Err(stop) => {
            *count = count_told(stop, found, *count);
            tell_stop(stop, offset, fault)
        }
    }
}

/// How many rows are told where the reading stops: those that were found before damage; else it stays as it was.
fn count_told(stop: SectionStop, found: usize, count: usize) -> usize
    ensures { result ≡ count_told stop found count }
{
    match stop {
        SectionStop::Damaged { .. } => found,
        SectionStop::NoMemory => count,
    }
}
