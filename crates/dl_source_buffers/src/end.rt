//! How the reading of a section in memory ends.

ghost use Rattle.std.specs.Prelude.{◌≡◌};
ghost use Rattle.dl_source_buffers.specs.Ends.{damage_end, end_around, end_of, fault_end};

use dl_buffers::FaultRecord;
use dl_print::Summary;
use dl_sections::{DamagedUnits, RunFault, Survey};

/// The kind of the fault of a section that has more than 2^44 bytes.
const SECTION_TOO_LONG: u32 = 39;

/// How the reading of a section ends.
#[derive(Clone, Copy)]
pub enum End {
    /// It is read to its end, and no unit is damaged.
    Whole,
    /// This is its first fault.
    Fault(FaultRecord),
    /// Memory was refused.
    NoMemory,
}

/// How a reading up to the first fault ends.
pub fn end_of(end: &Result<Summary, RunFault>) -> End
    ensures { result ≡ end_of end.now }
{
    match end {
        Ok(_) => End::Whole,
        Err(fault) => fault_end(*fault),
    }
}

/// How a reading around damaged units ends.
pub fn end_around(end: &Result<Survey, RunFault>) -> End
    ensures { result ≡ end_around end.now }
{
    match end {
        Ok(survey) => damage_end(survey.damaged),
        Err(fault) => fault_end(*fault),
    }
}

/// How it ends where these units are damaged.
pub fn damage_end(damaged: Option<DamagedUnits>) -> End
    ensures { result ≡ damage_end damaged }
{
    match damaged {
        Some(units) => End::Fault(FaultRecord::of(units.first.offset, units.first.kind)),
        None => End::Whole,
    }
}

/// How it ends for this fault. Where it is none of a section, memory is to blame.
pub fn fault_end(fault: RunFault) -> End
    ensures { result ≡ fault_end fault }
{
    match fault {
        RunFault::Damage { offset, kind } => End::Fault(FaultRecord::of(offset, kind)),
        RunFault::SectionTooLong => End::Fault(FaultRecord {
            offset: 0,
            detail: 0,
            kind: SECTION_TOO_LONG,
        }),
        _ => End::NoMemory,
    }
}
