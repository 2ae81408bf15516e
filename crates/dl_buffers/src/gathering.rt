//! The call that looks many addresses up.

ghost use Rattle.std.specs.Prelude.{◌≡◌, ◌==◌, ◌<◌, ◌+◌, ◌-◌, ◌^◌, ℕ, List, IfOk, OnErr, [], length, map, slice_get};
ghost use Rattle.dl_memory.specs.Refusals.{IsRefused};
ghost use Rattle.std.specs.Prelude.{Some, None, if◌then◌else◌};
ghost use Rattle.dl_look.specs.FindersRows.{Stand};
ghost use Rattle.dl_buffers.specs.AllCalls.{Answers, EndsWith, Fit, found_in, place_of_address, placed};
ghost use Rattle.dl_buffers.specs.AroundCalls.{FindsAllBy, found_around};
ghost use Rattle.dl_buffers.specs.Calls.{dialect_of, goes_on};
ghost use Rattle.dl_buffers.specs.Gatherers.{EndsAroundWith, row_after, unit_after};

use crate::checking::{dialect_of, goes_on};
use crate::record::{FaultRecord, RowRecord};
use crate::status::Status;
use crate::stop::{tell_damage, tell_stop};
use dl_head::Dialect;
use dl_look::{Answered, Finders, Place};
use dl_memory::{Memory, NoMemory};
use dl_rows::{Flow, Row};
use dl_sections::{
    Damage, DamagedUnits, SectionStop, UnitSink, UnitSinkAround, WholeUnit, read_section,
    read_section_around,
};
use std::alloc::{AllocError, Global};

/// The offset that stands for no unit.
const NO_UNIT: u64 = u64::MAX;

/// Looks addresses up in the units of a section, and tells what each unit is the first to answer.
#[derive(Drop)]
struct Gatherer<'a> {
    /// Was given the rows of the units.
    finders: &'a mut Finders,
    rows: &'a mut [RowRecord],
    units: &'a mut [u64],
}

impl UnitSink for Gatherer<'_> {
    ghost use Rattle.dl_buffers.specs.Gatherers.{gatherer_story};

    ghost story = { gatherer_story };

    #[inline(always)]
    fn row(&mut self, row: &Row) {
        self.finders.row(row);
    }

    fn end(&mut self, unit: WholeUnit) -> Flow {
        self.finders.end_unit();
        let rows = &mut *self.rows;
        let units = &mut *self.units;
        tell(self.finders.answered(), unit.offset, rows, units);
        Flow::On
    }
}

impl UnitSinkAround for Gatherer<'_> {
    fn damaged(&mut self, _damage: Damage) {
        self.finders.forget_unit();
    }
}

/// Looks up the row that answers for each address, in one pass: that of the first whole unit whose rows do.
///
/// Done: for each address its row and the offset of its unit are told; where no unit answers, the offset 2^64 - 1
/// alone. Fault, and NoMemory once the section is read: the same by the units before it, and the fault; but where `how`
/// says that it goes on after damaged units, Fault tells the first fault, and what all whole units answer. NoMemory where
/// it was refused for the addresses, and NoRoom where there aren't as many rows and offsets as addresses: nothing is
/// told. What isn't told stays as it was. Section 6.2.2.
pub fn find_all<M: Memory>(
    memory: &M,
    section: &[u8],
    how: u8,
    addresses: &[u64],
    rows: &mut [RowRecord],
    units: &mut [u64],
    fault: &mut FaultRecord,
) -> Status
    ensures { FindsAllBy (M.refuses memory.now) (goes_on how) (dialect_of how) section.now addresses.now rows.old rows.new
        units.old units.new fault.old fault.new result }
{
    if rows.len() != addresses.len() || units.len() != addresses.len() {
        return Status::NoRoom;
    }
    let Ok(mut finders) = finders_of(memory, addresses) else {
        return Status::NoMemory;
    };
    answer_all(memory, section, how, &mut finders, rows, units, fault)
}

/// Looks up the rows that answer for the addresses of finders, which were given no row yet.
fn answer_all<M: Memory>(
    memory: &M,
    section: &[u8],
    how: u8,
    finders: &mut Finders,
    rows: &mut [RowRecord],
    units: &mut [u64],
    fault: &mut FaultRecord,
) -> Status
    ensures { (addresses : List ℕ) → Stand finders.old (map place_of_address addresses) [] []
        → Fit addresses rows.old units.old
        → FindsAllBy (M.refuses memory.now) (goes_on how) (dialect_of how) section.now addresses rows.old rows.new
        units.old units.new fault.old fault.new result }
{
    forget(units);
    if goes_on(how) {
        match gather_around(
            memory.alloc(),
            dialect_of(how),
            section,
            finders,
            rows,
            units,
        ) {
            Ok(damaged) => tell_damage(damaged, fault),
            Err(AllocError) => Status::NoMemory,
        }
    } else {
        match gather(
            memory.alloc(),
            dialect_of(how),
            section,
            finders,
            rows,
            units,
        ) {
            Ok(()) => Status::Done,
            Err(stop) => tell_stop(stop, 0, fault),
        }
    }
}

/// Finders of the addresses, each at the first operation of its instruction.
fn finders_of<M: Memory>(memory: &M, addresses: &[u64]) -> Result<Finders, NoMemory>
    ensures stand { IfOk result (λ finders. Stand finders (map place_of_address addresses.now) [] []) }
    ensures refused { OnErr result (IsRefused (M.refuses memory.now) (length addresses.now + 1)) }
{
    let mut places = memory.with_capacity(addresses.len())?;
    for address in addresses {
        places.push_reserved(Place {
            address: *address,
            op_index: 0,
        });
    }
    Finders::build_in(memory, places.as_slice())
}

/// Tells what the units of a section answer, unit by unit.
fn gather(
    alloc: Global,
    dialect: Dialect,
    section: &[u8],
    finders: &mut Finders,
    rows: &mut [RowRecord],
    units: &mut [u64],
) -> Result<(), SectionStop>
    ensures { (addresses : List ℕ) → Stand finders.old (map place_of_address addresses) [] []
        → ((i : ℕ) → i < length addresses → slice_get units.old i ≡ Some (2 ^ 64 - 1))
        → EndsWith dialect section.now (λ found. Answers (found_in dialect found) addresses rows.old rows.new units.new)
        result }
{
    let mut gatherer = Gatherer {
        finders,
        rows,
        units,
    };
    let read = read_section(alloc, dialect, section, &mut gatherer);
    let Gatherer {
        finders: _,
        rows: _,
        units: _,
    } = gatherer;
    match read {
        Ok(_) => Ok(()),
        Err(stop) => Err(stop),
    }
}

/// Tells what the whole units of a section answer, unit by unit, and which are damaged.
fn gather_around(
    alloc: Global,
    dialect: Dialect,
    section: &[u8],
    finders: &mut Finders,
    rows: &mut [RowRecord],
    units: &mut [u64],
) -> Result<Option<DamagedUnits>, AllocError>
    ensures { (addresses : List ℕ) → Stand finders.old (map place_of_address addresses) [] []
        → ((i : ℕ) → i < length addresses → slice_get units.old i ≡ Some (2 ^ 64 - 1))
        → EndsAroundWith dialect section.now
        (λ blocks. Answers (found_around dialect blocks) addresses rows.old rows.new units.new) result }
{
    let mut gatherer = Gatherer {
        finders,
        rows,
        units,
    };
    let read = read_section_around(alloc, dialect, section, &mut gatherer);
    let Gatherer {
        finders: _,
        rows: _,
        units: _,
    } = gatherer;
    match read {
        Ok(survey) => Ok(survey.damaged),
        Err(AllocError) => Err(AllocError),
    }
}

/// Tells the rows of the places that a unit is the first to answer, and its offset.
fn tell(answered: &[Answered], unit: u64, rows: &mut [RowRecord], units: &mut [u64])
    ensures rows { (i : ℕ) → slice_get rows.new i ≡ row_after answered.now (length answered.now) rows.old i }
    ensures units { (i : ℕ) → slice_get units.new i ≡ unit_after answered.now unit (length answered.now) units.old i }
{
    for answer in answered {
        put(rows, answer.number, RowRecord::of(&answer.row));
        put(units, answer.number, unit);
    }
}

/// Puts an item in the place of another one, where there is one.
fn put<T: Copy>(items: &mut [T], at: usize, item: T)
    ensures { (i : ℕ) → slice_get items.new i
        ≡ placed (if at == i then Some item else None) (slice_get items.old i) }
{
    if at < items.len() {
        items[at] = item;
    }
}

/// Each offset stands for no unit.
fn forget(units: &mut [u64])
    ensures len { length units.new ≡ length units.old }
    ensures none { (i : ℕ) → i < length units.old → slice_get units.new i ≡ Some (2 ^ 64 - 1) }
{
    units.fill(NO_UNIT);
}
