//! The call that counts units, sequences and rows.

ghost use Rattle.std.specs.Prelude.{◌≡◌};
ghost use Rattle.dl_buffers.specs.AroundCalls.{ChecksAround, ChecksBy};
ghost use Rattle.dl_buffers.specs.Calls.{Checks, dialect_of, goes_on};

use crate::record::{Counts, FaultRecord};
use crate::status::Status;
use crate::stop::{tell_damage, tell_stop};
use dl_head::{Dialect, Older};
use dl_num::Order;
use dl_rows::{Flow, Row};
use dl_sections::{Damage, UnitSink, UnitSinkAround, WholeUnit, read_section, read_section_around};
use std::alloc::{AllocError, Global};

/// Keeps nothing of the units.
#[derive(Drop)]
struct Unkept;

impl UnitSink for Unkept {
    ghost use Rattle.dl_buffers.specs.Unkept.{unkept_story};

    ghost story = { unkept_story };

    #[inline(always)]
    fn row(&mut self, _row: &Row) {}

    fn end(&mut self, _unit: WholeUnit) -> Flow {
        Flow::On
    }
}

impl UnitSinkAround for Unkept {
    fn damaged(&mut self, _damage: Damage) {}
}

/// What is added to `how` for the calls that go on after damaged units.
const KEEP_GOING: u8 = 128;

/// What is read of a section. An odd number says that the highest byte of a number stands first; the half of what 128
/// leaves of it, that units of versions 2 to 4 are read too, where it is the size of an address in bytes: 1, 2, 4 or 8.
pub fn dialect_of(how: u8) -> Dialect
    ensures { result ≡ dialect_of how }
{
    let order = if how % 2 == 1 {
        Order::Big
    } else {
        Order::Little
    };
    Dialect {
        order,
        older: Older::of_size(how % KEEP_GOING / 2),
    }
}

/// Whether the calls that may do so go on after damaged units.
pub fn goes_on(how: u8) -> bool
    ensures { result ≡ goes_on how }
{
    how / KEEP_GOING == 1
}

/// Reads all units of a section, and counts them, their sequences and their rows.
///
/// Done: the counts are told. Fault: the first fault is told. Where `how` says that it goes on after damaged units, Fault
/// tells the counts too: those of the units that are whole, and how many are damaged. Each growth of memory is one of
/// `Reader::feed`. What isn't told stays as it was. Section 6.2.4.
pub fn check(
    alloc: Global,
    section: &[u8],
    how: u8,
    counts: &mut Counts,
    fault: &mut FaultRecord,
) -> Status
    ensures { ChecksBy (goes_on how) (dialect_of how) section.now counts.old counts.new fault.old fault.new result }
{
    if goes_on(how) {
        check_around(alloc, dialect_of(how), section, counts, fault)
    } else {
        check_to_fault(alloc, dialect_of(how), section, counts, fault)
    }
}

/// Counts the units of a section up to the first fault.
fn check_to_fault(
    alloc: Global,
    dialect: Dialect,
    section: &[u8],
    counts: &mut Counts,
    fault: &mut FaultRecord,
) -> Status
    ensures { Checks dialect section.now counts.old counts.new fault.old fault.new result }
{
    match read_section(alloc, dialect, section, &mut Unkept) {
        Ok(read) => {
            *counts = Counts::of(&read.summary, 0);
            Status::Done
        }
        Err(stop) => tell_stop(stop, 0, fault),
    }
}

/// Counts the units of a section around those that are damaged.
fn check_around(
    alloc: Global,
    dialect: Dialect,
    section: &[u8],
    counts: &mut Counts,
    fault: &mut FaultRecord,
) -> Status
    ensures { ChecksAround dialect section.now counts.old counts.new fault.old fault.new result }
{
    match read_section_around(alloc, dialect, section, &mut Unkept) {
        Ok(survey) => {
            *counts = Counts::of(&survey.summary, survey.damaged_units());
            tell_damage(survey.damaged, fault)
        }
        Err(AllocError) => Status::NoMemory,
    }
}
