//! How a reader stands after pieces of a unit.

use dl_head::{Fault, FaultKind, HeaderLengths};
use dl_num::Order;
use dl_rows::{Event, Finish, Reader, Row};
use std::alloc::Global;
use std::process::Abort;

/// A unit of two rows, and a byte.
const TWO_ROWS: &[u8] = b"\x22\0\0\0\x05\0\x08\0\x16\0\0\0\x01\x01\x01\xfb\x0e\x0d\0\x01\
    \x01\x01\x01\0\0\0\x01\0\0\x01\0\0\0\0\x01\0\x01\x01\x05";

/// A unit without rows, whose header has three bytes after the last entry of its tables.
const PADDED: &[u8] = b"\x21\0\0\0\x05\0\x08\0\x19\0\0\0\x01\x01\x01\xfb\x0e\x0d\0\x01\
    \x01\x01\x01\0\0\0\x01\0\0\x01\0\0\0\0\xff\0\x80";

/// A unit of version 4, and a byte.
const FOREIGN: &[u8] = b"\x06\0\0\0\x04\0\xaa\xbb\xcc\xdd\x05";

/// A unit whose first opcode is faulty.
const DAMAGED: &[u8] = b"\x22\0\0\0\x05\0\x08\0\x16\0\0\0\x01\x01\x01\xfb\x0e\x0d\0\x01\
    \x01\x01\x01\0\0\0\x01\0\0\x01\0\0\0\0\0\0\0\0";

/// What a call answers: how many bytes of the piece it used, and what came of them; or the fault.
pub type Answer = Result<(usize, Event), Fault>;

/// How a reader stands after a call, and what the call answered.
#[derive(Debug, Clone, Copy, PartialEq, Eq)]
pub struct Standing {
    pub answer: Answer,
    pub has_header: bool,
    pub in_sequence: bool,
    pub taken: u64,
    pub cells: u64,
    pub finish: Result<Finish, Fault>,
}

/// What a call answers.
pub fn feed(reader: &mut Reader, piece: &[u8]) -> Answer {
    match reader.feed(piece) {
        Ok(fed) => Ok((fed.used, fed.event)),
        Err(fault) => Err(fault),
    }
}

/// How the reader stands after it is given the piece.
pub fn stand(reader: &mut Reader, piece: &[u8]) -> Standing {
    let answer = feed(reader, piece);
    Standing {
        answer,
        has_header: reader.header().is_some(),
        in_sequence: reader.in_sequence(),
        taken: reader.taken(),
        cells: reader.cells(),
        finish: reader.finish(),
    }
}

/// How a reader stands before any byte.
const NEW: Standing = Standing {
    answer: Ok((0, Event::More)),
    has_header: false,
    in_sequence: false,
    taken: 0,
    cells: 0,
    finish: Ok(Finish::Empty),
};

/// How a reader stands after the header of a unit without directories and files.
const AFTER_HEADER: Standing = Standing {
    answer: Ok((34, Event::Header)),
    has_header: true,
    taken: 34,
    finish: Err(Fault {
        offset: 34,
        kind: FaultKind::Truncated,
    }),
    ..NEW
};

/// The same after three bytes of padding, where the unit ends.
const WHOLE: Standing = Standing {
    answer: Ok((37, Event::Header)),
    taken: 37,
    ..LAST_ROW
};

const END_ROW: Row = Row {
    address: 0,
    file: 1,
    line: 1,
    column: 0,
    isa: 0,
    discriminator: 0,
    op_index: 0,
    is_stmt: true,
    basic_block: false,
    end_sequence: true,
    prologue_end: false,
    epilogue_begin: false,
};

const ROW: Standing = Standing {
    answer: Ok((
        1,
        Event::Row(Row {
            end_sequence: false,
            ..END_ROW
        }),
    )),
    in_sequence: true,
    taken: 35,
    finish: Err(Fault {
        offset: 35,
        kind: FaultKind::Truncated,
    }),
    ..AFTER_HEADER
};

const LAST_ROW: Standing = Standing {
    answer: Ok((3, Event::Row(END_ROW))),
    taken: 38,
    finish: Ok(Finish::Whole),
    ..AFTER_HEADER
};

/// After the unit and its rows.
const AFTER_ROWS: Standing = Standing {
    answer: Ok((0, Event::End)),
    ..LAST_ROW
};

const FOREIGN_VERSION: Standing = Standing {
    answer: Ok((6, Event::Foreign(4))),
    taken: 6,
    finish: Err(Fault {
        offset: 6,
        kind: FaultKind::Truncated,
    }),
    ..NEW
};

const PASSED_OVER: Standing = Standing {
    answer: Ok((4, Event::End)),
    taken: 10,
    finish: Ok(Finish::Whole),
    ..NEW
};

const EMPTY_OPCODE: Fault = Fault {
    offset: 34,
    kind: FaultKind::ExtendedEmpty,
};

const REFUSED: Standing = Standing {
    answer: Err(EMPTY_OPCODE),
    taken: 36,
    finish: Err(EMPTY_OPCODE),
    ..AFTER_HEADER
};

/// How long the header without directories and files is, in a unit of this length.
const LENGTHS: HeaderLengths = HeaderLengths {
    unit_length: 34,
    header_length: 22,
    padding: 0,
};

const OF_PADDED: HeaderLengths = HeaderLengths {
    unit_length: 33,
    header_length: 25,
    padding: 3,
};

/// The bytes of a unit and any after it; the places from which they are given one after the other, with how the reader
/// stands then; and how long the unit and its header are, where it gives a header in the end.
type Case<'a> = (&'a [u8], &'a [(usize, Standing)], Option<HeaderLengths>);

const OF_ROWS: &[(usize, Standing)] = &[
    (0, AFTER_HEADER),
    (34, ROW),
    (35, LAST_ROW),
    (38, AFTER_ROWS),
];

const OF_FOREIGN: &[(usize, Standing)] = &[(0, FOREIGN_VERSION), (6, PASSED_OVER)];

const OF_DAMAGED: &[(usize, Standing)] = &[(0, AFTER_HEADER), (34, REFUSED), (35, REFUSED)];

const CASES: &[Case<'static>] = &[
    (PADDED, &[(37, NEW), (0, WHOLE)], Some(OF_PADDED)),
    (TWO_ROWS, OF_ROWS, Some(LENGTHS)),
    (FOREIGN, OF_FOREIGN, None),
    (DAMAGED, OF_DAMAGED, Some(LENGTHS)),
];

/// Asserts how the reader stands after it is given the bytes from each of these places on.
fn assert_standings(
    rt: &impl Abort,
    reader: &mut Reader,
    bytes: &[u8],
    standings: &[(usize, Standing)],
) {
    for (place, wanted) in standings {
        let standing = stand(reader, bytes.get(*place..).unwrap_or(&[]));
        assert!(rt; standing == *wanted, "{standing:?}");
    }
}

fn assert_case(rt: &impl Abort, alloc: Global, case: &Case<'_>) {
    let (bytes, standings, lengths) = *case;
    let mut reader = Reader::new(alloc, Order::Little);
    assert_standings(rt, &mut reader, bytes, standings);
    assert!(rt; reader.lengths() == lengths);
    assert!(rt; reader.into_header().is_some() == lengths.is_some());
}

/// A piece is used as far as its next event, and no byte after the unit is. A fault is answered again.
#[test]
fn readers_stand(rt: HostRuntime) {
    for case in CASES {
        assert_case(&rt, rt.alloc(), case);
    }
}
