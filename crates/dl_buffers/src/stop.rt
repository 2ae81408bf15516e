//! Why a section isn't read to its end, as a call tells it.

ghost use Rattle.std.specs.Prelude.{◌≡◌};
ghost use Rattle.dl_buffers.specs.Stops.{fault_told, status_of, damage_told, status_around};

use crate::record::FaultRecord;
use crate::status::Status;
use dl_sections::{DamagedUnits, SectionStop};

/// Tells the fault by which the bytes from an offset of a section on aren't read to their end.
pub fn tell_stop(stop: SectionStop, offset: u64, fault: &mut FaultRecord) -> Status
    ensures told { fault.new ≡ fault_told stop offset fault.old }
    ensures status { result ≡ status_of stop }
{
    match stop {
        SectionStop::Damaged { offset: at, kind } => {
            *fault = FaultRecord::of(offset.saturating_add(at), kind);
            Status::Fault
        }
        SectionStop::NoMemory => Status::NoMemory,
    }
}

/// Tells the fault of the first of the damaged units after which the reading of a section went on.
pub fn tell_damage(damaged: Option<DamagedUnits>, fault: &mut FaultRecord) -> Status
    ensures told { fault.new ≡ damage_told damaged fault.old }
    ensures status { result ≡ status_around damaged }
{
    match damaged {
        Some(units) => {
            *fault = FaultRecord::of(units.first.offset, units.first.kind);
            Status::Fault
        }
        None => Status::Done,
    }
}
