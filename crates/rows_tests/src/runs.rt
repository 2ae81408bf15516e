//! Units in turns, and what a listener hears.

ghost use Rattle.std.specs.Prelude.{◌≡◌, ◌-◌, ◌^◌, length, min};

use dl_head::{Fault, FaultKind};
use dl_num::Order;
use dl_rows::{Event, Listener, Reader, Run};
use std::alloc::Global;
use std::process::Abort;

/// Counts what it hears.
#[derive(Drop)]
struct Counter {
    events: u64,
}

impl Listener for Counter {
    ghost heard = { λ counter events. counter.events ≡ min (length events) (2 ^ 64 - 1) };

    fn hear(&mut self, _event: Event) {
        self.events = self.events.saturating_add(1);
    }
}

/// A unit of three rows, and two bytes.
const THREE_ROWS: &[u8] = b"\x30\0\0\0\x05\0\x08\0\x16\0\0\0\x01\x01\x01\xfb\x0e\x0d\0\x01\
    \x01\x01\x01\0\0\0\x01\0\0\x01\0\0\0\0\0\x09\x02\0\x10\x40\
    \0\0\0\0\0\x13\x4b\x02\x02\0\x01\x01\x2c\0";

const RESERVED: &[u8] = b"\xf0\xff\xff\xff\0";

const RESERVED_LENGTH: Fault = Fault {
    offset: 0,
    kind: FaultKind::ReservedLength,
};

const WHOLE: Run = Run {
    taken: 52,
    refused: 0,
    ended: true,
};

/// A run that takes nothing.
const NOTHING: Run = Run {
    taken: 0,
    refused: 0,
    ended: false,
};

/// Bytes, the turns in which they are offered, what that comes to, and how many bytes were taken and events heard.
type Case<'a> = (&'a [u8], &'a [usize], Result<Run, Fault>, [u64; 2]);

const CASES: &[Case<'static>] = &[
    (THREE_ROWS, &[1; 80], Ok(WHOLE), [52, 4]),
    (THREE_ROWS, &[100; 8], Ok(WHOLE), [52, 4]),
    (
        THREE_ROWS,
        &[20, 0, 100, 100, 100, 100, 1, 1],
        Ok(WHOLE),
        [52, 4],
    ),
    (THREE_ROWS, &[], Ok(NOTHING), [0, 0]),
    (RESERVED, &[3, 3], Err(RESERVED_LENGTH), [4, 0]),
];

fn assert_run(rt: &impl Abort, reader: &mut Reader, counter: &mut Counter, case: &Case<'_>) {
    let (bytes, turns, wanted, counts) = *case;
    let run = reader.run(bytes, turns, counter);
    assert!(rt; run == wanted, "{run:?}");
    assert!(rt; [reader.taken(), counter.events] == counts);
}

fn assert_new(rt: &impl Abort, alloc: Global, case: &Case<'_>) {
    let mut reader = Reader::new(alloc, Order::Little);
    assert_run(rt, &mut reader, &mut Counter { events: 0 }, case);
}

#[test]
fn a_unit_in_turns_is_heard_whole(rt: HostRuntime) {
    for case in CASES {
        assert_new(&rt, rt.alloc(), case);
    }
}
