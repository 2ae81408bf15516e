//! Writers that fail, are interrupted or take little.

use crate::refusals::{EMPTY_PROGRAM, header};
use dl_emit::{EmitFault, measure, write_unit};
use dl_head::Header;
use dl_num::Order;
use dl_rows::Row;
use std::alloc::Global;
use std::process::Abort;
use test_support::{Sink, end, row};

/// A unit of three rows.
const THREE_ROWS: &[u8] = b"\x30\0\0\0\x05\0\x08\0\x16\0\0\0\x01\x01\x01\xfb\x0e\x0d\0\x01\
    \x01\x01\x01\0\0\0\x01\0\0\x01\0\0\0\0\0\x09\x02\0\x10\x40\
    \0\0\0\0\0\x13\x4b\x02\x02\0\x01\x01";

/// The rows of `THREE_ROWS`.
fn three_rows() -> [Row; 3] {
    [
        row(0x401000, 0, 2),
        row(0x401004, 0, 3),
        end(0x401006, 0, 3),
    ]
}

/// Asserts what is answered where the unit of `THREE_ROWS` is written, and that the writer then holds its first `len`
/// bytes.
fn assert_write(
    rt: &impl Abort,
    output: &mut Sink,
    head: &Header,
    wanted: Result<u64, EmitFault>,
    len: usize,
) {
    let written = write_unit(output, Order::Little, head, &three_rows());
    assert!(rt; written == wanted, "{written:?}");
    assert!(rt; Some(output.held.as_slice()) == THREE_ROWS.get(..len));
}

/// Asserts that a writer with so much room, which fails or takes nothing after it, holds the bytes before it.
fn assert_front(rt: &impl Abort, alloc: Global, head: &Header, room: usize, fails: bool) {
    let mut output = Sink::new(alloc, room, 3);
    output.fails = fails;
    let failed = Err(EmitFault::Write { out: room as u64 });
    assert_write(rt, &mut output, head, failed, room);
}

fn assert_fronts(rt: &impl Abort, alloc: Global, head: &Header) {
    for room in 0..52usize {
        assert_front(rt, alloc, head, room, true);
        assert_front(rt, alloc, head, room, false);
    }
}

/// Asserts what is answered where each write is interrupted that many times.
fn assert_interrupted(
    rt: &impl Abort,
    alloc: Global,
    head: &Header,
    times: u32,
    wanted: Result<u64, EmitFault>,
    len: usize,
) {
    let output = &mut Sink::interrupted(alloc, 7, times);
    assert_write(rt, output, head, wanted, len);
}

/// Whatever the place at which the writer fails or takes nothing, it holds the bytes before it. Interruptions are
/// repeated.
#[test]
fn failed_writes(rt: HostRuntime) {
    let head = header(&rt, rt.alloc(), &EMPTY_PROGRAM);
    assert!(rt; measure(&head, &three_rows()) == Ok(52));
    assert_fronts(&rt, rt.alloc(), &head);
    assert_interrupted(&rt, rt.alloc(), &head, 1000, Ok(52), 52);
    let failed = Err(EmitFault::Write { out: 0 });
    assert_interrupted(&rt, rt.alloc(), &head, 1001, failed, 0);
}
