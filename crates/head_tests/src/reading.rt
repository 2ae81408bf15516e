//! Headers that are read in turns.

use crate::vectors::{EACH_FORM, EMPTY_PROGRAM};
use dl_head::{AddressSize, Dialect, Fault, FaultKind, HeadReader, HeadStep, Older};
use dl_num::Order;
use std::alloc::Global;
use std::process::Abort;

/// The first bytes of a unit of version 4.
const FOREIGN: &[u8] = &[0x21, 0x00, 0x00, 0x00, 0x04, 0x00];

/// A header of version 2 with two directories and three files, as clang 14 writes it.
const VERSION_2: &[u8] = b"\x78\0\0\0\x02\0\x30\0\0\0\x01\x01\xfb\x0e\x0d\
    \0\x01\x01\x01\x01\0\0\0\x01\0\0\x01.\0./sub\0\0t.c\0\0\0\0a.h\0\x01\0\0b.h\0\x02\0\0\0";

const RESERVED: &[u8] = &[0xf0, 0xff, 0xff, 0xff];

const RESERVED_LENGTH: HeadStep = HeadStep::Fault(Fault {
    offset: 0,
    kind: FaultKind::ReservedLength,
});

/// Bytes, the turns in which they are offered, how many of them are taken, and the last answer.
type Run<'a> = (&'a [u8], &'a [usize], usize, HeadStep);

const RUNS: &[Run<'static>] = &[
    (EMPTY_PROGRAM, &[], 0, HeadStep::More),
    (EMPTY_PROGRAM, &[4, 0, 2], 6, HeadStep::More),
    (EMPTY_PROGRAM, &[6, 100, 1], 34, HeadStep::Done),
    (EACH_FORM, &[156], 156, HeadStep::More),
    (EACH_FORM, &[156, 4], 160, HeadStep::Done),
    (FOREIGN, &[100], 6, HeadStep::Foreign(4)),
    (VERSION_2, &[100], 6, HeadStep::Foreign(2)),
    (RESERVED, &[1, 1, 1, 1, 1], 4, RESERVED_LENGTH),
];

/// Those of a dialect that reads versions 2 to 4.
const OLDER_RUNS: &[Run<'static>] = &[
    (EMPTY_PROGRAM, &[100], 34, HeadStep::Done),
    (FOREIGN, &[100], 6, HeadStep::More),
    (VERSION_2, &[57], 57, HeadStep::More),
    (VERSION_2, &[57, 1], 58, HeadStep::Done),
];

/// How many bytes are taken in these turns, up to an end or a fault, and the last answer. A turn offers at most its
/// number of the bytes that aren't taken.
fn run(reader: &mut HeadReader, bytes: &[u8], turns: &[usize]) -> (usize, HeadStep) {
    let mut rest = bytes;
    let mut last = HeadStep::More;
    for turn in turns {
        let (used, answer) = reader.offer(rest.get(..*turn).unwrap_or(rest));
        rest = rest.get(used..).unwrap_or(rest);
        last = answer;
        if last != HeadStep::More {
            break;
        }
    }
    (bytes.len().saturating_sub(rest.len()), last)
}

/// Asserts what the bytes in these turns come to.
fn assert_run(rt: &impl Abort, reader: &mut HeadReader, vector: &Run<'_>) {
    let (bytes, turns, taken, last) = *vector;
    let answer = run(reader, bytes, turns);
    assert!(rt; answer == (taken, last), "{answer:?}");
}

/// Asserts the same of each of these, which has a reader of its own.
fn assert_runs(rt: &impl Abort, alloc: Global, dialect: Dialect, runs: &[Run<'_>]) {
    for run in runs {
        assert_run(rt, &mut HeadReader::new(alloc, dialect), run);
    }
}

#[test]
fn a_run_takes_what_its_turns_offer(rt: HostRuntime) {
    assert_runs(&rt, rt.alloc(), Dialect::version_5(Order::Little), RUNS);
    let dialect = Dialect {
        order: Order::Little,
        older: Older::Read(AddressSize::Eight),
    };
    assert_runs(&rt, rt.alloc(), dialect, OLDER_RUNS);
}
