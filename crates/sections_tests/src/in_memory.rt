//! Sections that lie in memory, read up to where the sink wants nothing more.

ghost use Rattle.std.specs.Prelude.{⊤};

use crate::vectors::{SIX_ROWS, VERSION_4, VERSIONS_5_AND_4};
use dl_head::{Dialect, FaultKind};
use dl_num::Order;
use dl_rows::{Flow, Row};
use dl_sections::{SectionStop, UnitSink, WholeUnit, read_section};
use std::alloc::Global;
use std::process::Abort;

/// Counts units and rows, with the last unit's offset and its version where that isn't read, and wants no more than so many
/// units.
#[derive(Drop)]
struct Counter {
    wanted: u64,
    told: [u64; 3],
    version: Option<u16>,
}

impl UnitSink for Counter {
    ghost story = { record { hears = λ first now units rows. ⊤; is_done = λ first now units. ⊤ } };

    fn row(&mut self, _row: &Row) {
        let [units, rows, offset] = self.told;
        self.told = [units, rows.saturating_add(1), offset];
    }

    fn end(&mut self, unit: WholeUnit) -> Flow {
        let [units, rows, _] = self.told;
        let units = units.saturating_add(1);
        self.told = [units, rows, unit.offset];
        self.version = unit.version;
        if units < self.wanted {
            Flow::On
        } else {
            Flow::Stop
        }
    }
}

/// What is answered: units of version 5, others, rows, and where they end; or the place of a fault and its kind.
type Answer = Result<[u64; 4], (u64, FaultKind)>;

/// A section, how many units are wanted, what is told, the version, and what is answered.
type Case<'a> = (&'a [u8], u64, [u64; 3], Option<u16>, Answer);

const TRUNCATED: FaultKind = FaultKind::Truncated;

const CASES: &[Case<'static>] = &[
    (&[], 9, [0, 0, 0], None, Ok([0, 0, 0, 0])),
    (SIX_ROWS, 9, [2, 6, 52], None, Ok([2, 0, 6, 104])),
    (SIX_ROWS, 1, [1, 3, 0], None, Ok([1, 0, 3, 52])),
    (SIX_ROWS, 2, [2, 6, 52], None, Ok([2, 0, 6, 104])),
    (VERSIONS_5_AND_4, 9, [2, 1, 37], Some(4), Ok([1, 1, 1, 47])),
    (VERSION_4, 9, [2, 0, 10], Some(4), Err((27, TRUNCATED))),
];

fn assert_read(rt: &impl Abort, alloc: Global, case: Case<'_>) {
    let (section, wanted, told, version, answer) = case;
    let mut counter = Counter {
        wanted,
        told: [0, 0, 0],
        version: None,
    };
    let dialect = Dialect::version_5(Order::Little);
    let found = match read_section(alloc, dialect, section, &mut counter) {
        Ok(read) => {
            let summary = read.summary;
            Ok([summary.units, summary.skipped, summary.rows, read.end])
        }
        Err(SectionStop::Damaged { offset, kind }) => Err((offset, kind)),
        Err(SectionStop::NoMemory) => Err((0, TRUNCATED)),
    };
    assert!(rt;
        counter.told == told && counter.version == version,
        "{:?}",
        counter.told
    );
    assert!(rt; found == answer);
}

#[test]
fn units_are_told_up_to_what_is_wanted(rt: HostRuntime) {
    for case in CASES {
        assert_read(&rt, rt.alloc(), *case);
    }
}

/// The last byte of six rows is missing, which is that of the last row.
#[test]
fn rows_before_a_fault_are_told(rt: HostRuntime) {
    let cut = SIX_ROWS.get(..103).unwrap_or(SIX_ROWS);
    let case: Case<'_> = (cut, 9, [1, 5, 0], None, Err((103, TRUNCATED)));
    assert_read(&rt, rt.alloc(), case);
}
