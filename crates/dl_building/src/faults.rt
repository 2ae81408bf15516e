//! Why no index is made, in numbers.

ghost use Rattle.std.specs.Prelude.{◌≡◌, unwrap_or};
ghost use Rattle.dl_building.specs.FileFaults.{elf_record, kind_record, run_record, status_by, stop_record};

use dl_buffers::{FaultRecord, Status};
use dl_elf::ElfFault;
use dl_open::FileFault;
use dl_program::Stop;
use dl_sections::RunFault;

/// A fault of this kind, which says nothing besides.
fn kind_record(kind: u32) -> FaultRecord
    ensures { result ≡ kind_record kind }
{
    FaultRecord {
        offset: 0,
        detail: 0,
        kind,
    }
}

/// What is wrong with an ELF file; None where memory or a read is to blame.
fn elf_record(fault: &ElfFault) -> Option<FaultRecord>
    ensures { result ≡ elf_record fault.now }
{
    match fault {
        ElfFault::NotElf => Some(kind_record(32)),
        ElfFault::Damaged(_) => Some(kind_record(33)),
        ElfFault::NoLineSection(_) => Some(kind_record(34)),
        ElfFault::Compressed(_, _) => Some(kind_record(35)),
        ElfFault::DamagedStream(_, at) => Some(FaultRecord {
            offset: *at,
            detail: 0,
            kind: 36,
        }),
        ElfFault::UnknownRelocation { number, .. } => Some(FaultRecord {
            offset: 0,
            detail: *number,
            kind: 37,
        }),
        ElfFault::RelocationOutside(_) => Some(kind_record(38)),
        ElfFault::Read(_) | ElfFault::NoMemory => None,
    }
}

/// What is wrong with a section; None where memory is to blame.
fn run_record(fault: RunFault) -> Option<FaultRecord>
    ensures { result ≡ run_record fault }
{
    match fault {
        RunFault::Damage { offset, kind } => Some(FaultRecord::of(offset, kind)),
        RunFault::SectionTooLong => Some(kind_record(39)),
        _ => None,
    }
}

/// What is wrong with a file; None where memory is to blame.
fn stop_record(stop: &Stop<'_>) -> Option<FaultRecord>
    ensures { result ≡ stop_record stop.now }
{
    match stop {
        Stop::Run(fault) => run_record(*fault),
        Stop::File {
            fault: FileFault::Elf(fault),
            ..
        } => elf_record(fault),
        _ => None,
    }
}

/// Tells a fault, where it is one.
fn tell(told: Option<FaultRecord>, fault: &mut FaultRecord) -> Status
    ensures told { fault.new ≡ unwrap_or told fault.old }
    ensures status { result ≡ status_by told }
{
    match told {
        Some(told) => {
            *fault = told;
            Status::Fault
        }
        None => Status::NoMemory,
    }
}

/// Tells why no index of a file is made.
pub fn tell_stop(stop: &Stop<'_>, fault: &mut FaultRecord) -> Status
    ensures told { fault.new ≡ unwrap_or (stop_record stop.now) fault.old }
    ensures status { result ≡ status_by (stop_record stop.now) }
{
    tell(stop_record(stop), fault)
}

/// Tells why no index of a section is made.
pub fn tell_run(run: RunFault, fault: &mut FaultRecord) -> Status
    ensures told { fault.new ≡ unwrap_or (run_record run) fault.old }
    ensures status { result ≡ status_by (run_record run) }
{
    tell(run_record(run), fault)
}
