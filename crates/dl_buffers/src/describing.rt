//! The call that describes the unit at an offset.

ghost use Rattle.std.specs.Prelude.{◌≡◌, ◌≤◌, ◌++◌, ℕ, List, drop, length};
ghost use Rattle.dl_head.specs.declared.dialect.Dialect.{Dialect};
ghost use Rattle.dl_buffers.specs.Calls.{dialect_of};
ghost use Rattle.dl_buffers.specs.UnitCalls.{Describes, unit_record};
ghost use Rattle.dl_buffers.specs.UnitReading.{IsAtFront};

use crate::checking::dialect_of;
use crate::record::{FaultRecord, UnitRecord};
use crate::status::Status;
use crate::stop::tell_stop;
use crate::unit::{UnitAtFront, rest_from, unit_at_front};
use std::alloc::Global;

/// What the first four bytes of a unit of the 64-bit DWARF format are. Section 7.4.
const DWARF64_MARK: [u8; 4] = [0xff; 4];

/// Reads the unit that begins at an offset of a section, and describes it.
///
/// Done: the unit is told. NoAnswer: the section has no byte there. Fault: the fault is told. What isn't
/// told stays as it was. What comes before the offset, and after the unit, isn't looked at.
pub fn unit_at(
    alloc: Global,
    section: &[u8],
    how: u8,
    offset: u64,
    unit: &mut UnitRecord,
    fault: &mut FaultRecord,
) -> Status
    ensures { Describes (dialect_of how) (drop offset section.now) offset unit.old unit.new fault.old fault.new result }
{
    let bytes = rest_from(section, offset);
    match unit_at_front(alloc, dialect_of(how), bytes) {
        Ok(Some(front)) => {
            *unit = describe(offset, bytes, &front);
            Status::Done
        }
        Ok(None) => Status::NoAnswer,
        Err(stop) => tell_stop(stop, offset, fault),
    }
}

/// The unit that the bytes begin with.
fn describe(offset: u64, bytes: &[u8], front: &UnitAtFront) -> UnitRecord
    requires { front.now.read.end ≤ length bytes.now }
    ensures { (dialect : Dialect) (u back : List ℕ) → bytes.now ≡ u ++ back → IsAtFront dialect u front.now
        → result ≡ unit_record dialect offset u }
{
    let len = front.read.end;
    let mut unit = UnitRecord {
        offset,
        length: len,
        rows: front.read.summary.rows,
        directories: 0,
        files: 0,
        version: front.unit.version.unwrap_or(0),
        address_size: 0,
        is_dwarf64: u8::from(bytes[..len as usize].starts_with(&DWARF64_MARK)),
    };
    if let Some(header) = &front.unit.header {
        unit.version = header.params().version;
        unit.directories = header.directories().len() as u64;
        unit.files = header.files().len() as u64;
        unit.address_size = header.params().address_size;
    }
    unit
}
