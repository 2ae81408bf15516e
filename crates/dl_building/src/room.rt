//! The index in the caller's room.

ghost use Rattle.dl_building.specs.Putting.{PutsIndex};

use dl_buffers::room::fill;
use dl_buffers::{FaultRecord, Status};
use dl_sections::DamagedUnits;

/// Puts an index into a room, where there is room for it, and tells the first of the units that are damaged.
pub fn put(
    index: &[u8],
    damaged: Option<DamagedUnits>,
    room: &mut [u8],
    len: &mut usize,
    fault: &mut FaultRecord,
) -> Status
    ensures { PutsIndex index.now damaged room.old room.new len.new fault.old fault.new result }
{
    *len = index.len();
    if room.len() < index.len() {
        return Status::NoRoom;
    }
    fill(room, index);
    match damaged {
        Some(units) => {
            *fault = FaultRecord::of(units.first.offset, units.first.kind);
            Status::Fault
        }
        None => Status::Done,
    }
}
