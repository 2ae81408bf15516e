//! The call that writes all units anew.

ghost use Rattle.std.specs.Prelude.{◌≡◌, ℕ, List, IfOk, OnErr};
ghost use Rattle.dl_buffers.specs.Calls.{dialect_of};
ghost use Rattle.dl_buffers.specs.CopyCalls.{Copies, IsHeld, Puts, Runs};

use crate::checking::dialect_of;
use crate::record::FaultRecord;
use crate::room::fill;
use crate::status::Status;
use dl_head::FaultKind;
use dl_held::{Held, Refusing};
use dl_memory::{Memory, NoMemory};
use dl_print::Summary;
use dl_sections::{Options, RunFault, SECTION_LIMIT};
use std::marker::Brand;

/// What came of a copy: how the command ended, and what it wrote where that is held.
#[derive(Drop)]
struct Copied {
    end: Result<Summary, RunFault>,
    bytes: Result<Vec<u8>, NoMemory>,
}

/// Writes all units of a section anew, as `dl_sections::copy` does.
///
/// Done: the copy stands in the room's first bytes, and how many these are is told. NoRoom: this alone is
/// told. OtherVersion: a unit isn't of version 5. Fault: the first fault is told; UnitTooLong also where a
/// copy would have it, at the unit's offset. NoMemory: also where memory is refused for the copy, which is held until
/// it is whole, and where the section has more than 2^44 bytes; a fault of the section comes before want of memory for
/// the copy. What isn't told stays as it was.
pub fn copy<M: Memory>(
    memory: &M,
    section: &[u8],
    how: u8,
    room: &mut [u8],
    len: &mut usize,
    fault: &mut FaultRecord,
) -> Status
    ensures { Copies (M.refuses memory.now) (dialect_of how) section.now room.old room.new len.old len.new fault.old fault.new result }
{
    let copied = copy_in_memory::<M, Brand>(memory, section, how);
    match copied.end {
        Ok(_) => put(copied.bytes, room, len),
        Err(RunFault::Damage { offset, kind }) => {
            *fault = FaultRecord::of(offset, kind);
            Status::Fault
        }
        Err(RunFault::Emit { unit, .. }) => {
            *fault = FaultRecord::of(unit, FaultKind::UnitTooLong);
            Status::Fault
        }
        Err(RunFault::ForeignUnit { .. }) => Status::OtherVersion,
        Err(RunFault::NoMemory) => Status::NoMemory,
        Err(RunFault::Write { .. }) => Status::NoMemory,
        Err(RunFault::SectionTooLong) => Status::NoMemory,
        Err(RunFault::Read) => unreachable!(),
        Err(RunFault::NotFound) => unreachable!(),
        Err(RunFault::TwoSums) => unreachable!(),
        Err(RunFault::NoUnit) => unreachable!(),
    }
}

/// Writes all units of a section anew into memory.
fn copy_in_memory<M: Memory, K: Refusing>(memory: &M, section: &[u8], how: u8) -> Copied
    requires { (n : ℕ) → M.refuses memory.now n → K.refuses n }
    ensures copied { (v : List ℕ) × Runs (M.refuses memory.now) (dialect_of how) section.now v result.end
        × IsHeld K.refuses v result.end result.bytes }
    ensures read { result.end ≡ Err RunFault.Read → ⊥ }
{
    let options = Options {
        dialect: dialect_of(how),
        debug_line_str: None,
        debug_str: None,
        limit: SECTION_LIMIT,
    };
    let mut input = section;
    let mut held = Held::<'_, M, K>::new(memory);
    let end = dl_sections::copy(memory, &mut input, &mut held, &options);
    Copied {
        end,
        bytes: held.whole(),
    }
}

/// Tells a copy, where it is held and there is room for it.
fn put(copied: Result<Vec<u8>, NoMemory>, room: &mut [u8], len: &mut usize) -> Status
    ensures held { IfOk copied (λ list. Puts list.items room.old room.new len.new result) }
    ensures refused { OnErr copied ((result ≡ Status.NoMemory) × (room.new ≡ room.old) × (len.new ≡ len.old)) }
{
    let Ok(copied) = copied else {
        return Status::NoMemory;
    };
    *len = copied.len();
    if room.len() < copied.len() {
        return Status::NoRoom;
    }
    fill(room, copied.as_slice());
    Status::Done
}
