//! Sections and texts that go past the limit, or meet it exactly.

use crate::vectors::{CUT_OFF, SIX_ROWS, SMALLEST, THREE_ROWS};
use dl_head::Dialect;
use dl_input::Source;
use dl_look::Place;
use dl_memory::System;
use dl_num::Order;
use dl_sections::{
    Options, RunFault, SECTION_LIMIT, Summary, check, copy, dump, find, read_strings,
};
use std::alloc::Global;
use std::process::Abort;
use test_support::{Repeated, Sink};

/// A command.
#[derive(Clone, Copy)]
enum Command {
    Dump,
    Check,
    Find(Place),
    Copy,
}

const THREE_LINES: &[u8] = b"unit 0x0 dwarf32 version 5 address_size 8\n\
                             row 0x0000000000401000 0 1 2 0 stmt\n\
                             row 0x0000000000401004 0 1 3 0 stmt\n\
                             row 0x0000000000401006 0 1 3 0 stmt end\n";

/// The lines of the first 51 bytes of three rows.
const TWO_LINES: &[u8] = b"unit 0x0 dwarf32 version 5 address_size 8\n\
                           row 0x0000000000401000 0 1 2 0 stmt\n\
                           row 0x0000000000401004 0 1 3 0 stmt\n";

/// The lines of the smallest unit and of one after it.
const SMALLEST_LINES: &[u8] = b"unit 0x0 dwarf32 version 5 address_size 8\n\
                                row 0x0000000000000000 0 1 1 0 stmt end\n\
                                unit 0x25 dwarf32 version 5 address_size 8\n\
                                row 0x0000000000000000 0 1 1 0 stmt end\n";

const FOUND_LINES: &[u8] = b"file 1 missing\nrow 0x0000000000401000 0 1 2 0 stmt\n";

const FIRST: Command = Command::Find(Place {
    address: 0x401000,
    op_index: 0,
});

const NOWHERE: Command = Command::Find(Place {
    address: 1,
    op_index: 0,
});

const WHOLE: Result<Summary, RunFault> = Ok(Summary {
    units: 1,
    skipped: 0,
    sequences: 1,
    rows: 3,
});

const TOO_LONG: Result<Summary, RunFault> = Err(RunFault::SectionTooLong);

const IS_FOREIGN: Result<Summary, RunFault> = Err(RunFault::ForeignUnit { unit: 0 });

/// A command, a section, a limit, and what is answered and written.
type Case<'a> = (Command, &'a [u8], u64, Result<Summary, RunFault>, &'a [u8]);

/// The limit is met exactly, and a whole unit before it is told.
const SECTIONS: &[Case<'static>] = &[
    (Command::Dump, THREE_ROWS, 52, WHOLE, THREE_LINES),
    (Command::Dump, THREE_ROWS, 51, TOO_LONG, TWO_LINES),
    (Command::Copy, THREE_ROWS, 51, TOO_LONG, &[]),
    (Command::Copy, SIX_ROWS, 52, TOO_LONG, THREE_ROWS),
    (Command::Copy, CUT_OFF, 6, IS_FOREIGN, &[]),
];

/// The same of a unit that is repeated without end, of which `find` reads no more than it has to.
const UNITS: &[Case<'static>] = &[
    (Command::Dump, SMALLEST, 74, TOO_LONG, SMALLEST_LINES),
    (Command::Check, SMALLEST, 74, TOO_LONG, &[]),
    (FIRST, THREE_ROWS, SECTION_LIMIT, WHOLE, FOUND_LINES),
    (FIRST, THREE_ROWS, 52, WHOLE, FOUND_LINES),
    (FIRST, THREE_ROWS, 51, TOO_LONG, &[]),
    (NOWHERE, THREE_ROWS, 120, TOO_LONG, &[]),
];

/// What comes of a command over a section in Little of at most this many bytes, without string sections.
fn run<R: Source>(
    alloc: Global,
    command: Command,
    limit: u64,
    input: &mut R,
    output: &mut Sink,
) -> Result<Summary, RunFault> {
    let options = Options {
        dialect: Dialect::version_5(Order::Little),
        debug_line_str: None,
        debug_str: None,
        limit: limit.min(SECTION_LIMIT),
    };
    match command {
        Command::Dump => dump(alloc, input, output, &options),
        Command::Check => check(alloc, input, output, &options),
        Command::Find(place) => find(alloc, input, output, place, &options),
        Command::Copy => copy(&System::new(alloc), input, output, &options),
    }
}

fn assert_limit<R: Source>(rt: &impl Abort, alloc: Global, input: &mut R, case: &Case<'_>) {
    let (command, _, limit, wanted, text) = *case;
    let output = &mut Sink::new(alloc, 1 << 20, 1 << 20);
    let answer = run(alloc, command, limit, input, output);
    assert!(rt;
        answer == wanted && output.held.as_slice() == text,
        "{answer:?}"
    );
}

#[test]
fn sections_have_limits(rt: HostRuntime) {
    assert!(rt; SECTION_LIMIT == 17_592_186_044_416);
    for case in SECTIONS {
        let (_, mut section, _, _, _) = *case;
        assert_limit(&rt, rt.alloc(), &mut section, case);
    }
    for case in UNITS {
        let (_, unit, _, _, _) = *case;
        assert_limit(&rt, rt.alloc(), &mut Repeated::new(unit), case);
    }
}

/// Whether so many bytes are read as the texts that they are, under this limit.
fn is_read(alloc: Global, text: &[u8], limit: u64) -> Result<bool, RunFault> {
    let mut input = text;
    let read = read_strings(&System::new(alloc), &mut input, limit)?;
    Ok(read.as_slice() == text)
}

#[test]
fn texts_have_limits(rt: HostRuntime) {
    assert!(rt; is_read(rt.alloc(), b"hello, world", 12) == Ok(true));
    assert!(rt; is_read(rt.alloc(), b"hello, world", 11) == Err(RunFault::SectionTooLong));
    assert!(rt; is_read(rt.alloc(), b"", 0) == Ok(true));
}
