//! Growths that are refused: of a header each once, after it all, of which there are none.

use crate::standing::{Answer, Standing, feed, stand};
use dl_num::Order;
use dl_rows::{Event, Finish, Reader};
use std::alloc::Global;
use std::process::Abort;
use std::test::Fail;
use test_support::{end, hoard, row, unit_of};

/// A unit of the 64-bit format with an empty program: the directory `/s`, and the file `a.c` in it with its MD5. Little.
const DWARF64_WITH_MD5: &[u8] = b"\xff\xff\xff\xff\x42\0\0\0\0\0\0\0\x05\0\x08\0\x36\0\0\0\
    \0\0\0\0\x01\x01\x01\xfb\x0e\x0d\0\x01\x01\x01\x01\0\0\0\x01\0\
    \0\x01\x01\x01\x08\x01/s\0\x03\x01\x08\x02\x0f\x05\x1e\x01a.c\
    \0\0\0\x01\x02\x03\x04\x05\x06\x07\x08\x09\x0a\x0b\x0c\x0d\x0e\x0f";

/// How many bytes the reader took, and how many cells.
fn counts(reader: &Reader) -> (u64, u64) {
    (reader.taken(), reader.cells())
}

/// What the reader answers to a byte while all memory is taken.
fn feed_without_memory(rt: &impl Abort, alloc: Global, reader: &mut Reader, byte: u8) -> Answer {
    let blocks = hoard(alloc).expect(rt, "memory");
    let answer = feed(reader, &[byte]);
    drop(blocks);
    answer
}

/// What the reader answers to a byte that was refused, which left it as it was. Then a cell is taken.
fn feed_again(rt: &impl Abort, reader: &mut Reader, byte: u8, before: (u64, u64)) -> Answer {
    let (taken, cells) = before;
    assert!(rt; counts(reader) == before);
    let answer = feed(reader, &[byte]);
    let after = (taken.saturating_add(1), cells.saturating_add(1));
    assert!(rt; counts(reader) == after);
    answer
}

/// What the reader answers to a byte, which is fed without memory, and again where it was refused; and how many times
/// it was.
fn feed_twice(rt: &impl Abort, alloc: Global, reader: &mut Reader, byte: u8) -> (Answer, u64) {
    let before = counts(reader);
    match feed_without_memory(rt, alloc, reader, byte) {
        Ok((_, Event::NoMemory)) => (feed_again(rt, reader, byte, before), 1),
        answer => (answer, 0),
    }
}

/// How many growths of a unit are refused, each once, none of whose bytes is faulty.
fn feed_all(rt: &impl Abort, alloc: Global, reader: &mut Reader, unit: &[u8]) -> u64 {
    let mut refused = 0u64;
    for byte in unit {
        let (answer, refusals) = feed_twice(rt, alloc, reader, *byte);
        assert!(rt; matches!(answer, Ok((1, Event::More | Event::Header))));
        refused = refused.saturating_add(refusals);
    }
    refused
}

/// How a reader stands after the unit of `DWARF64_WITH_MD5`.
const GROWN: Standing = Standing {
    answer: Ok((0, Event::End)),
    has_header: true,
    in_sequence: false,
    taken: 78,
    cells: 13,
    finish: Ok(Finish::Whole),
};

fn assert_grows(rt: &impl Abort, alloc: Global, reader: &mut Reader) {
    let refused = feed_all(rt, alloc, reader, DWARF64_WITH_MD5);
    assert!(rt; 0 < refused && stand(reader, &[]) == GROWN);
}

#[test]
fn each_growth_of_a_unit_is_refused_once(rt: HostRuntime) {
    assert_grows(&rt, rt.alloc(), &mut Reader::new(rt.alloc(), Order::Little));
}

/// A unit of 99,997 special opcodes, which each add 1 to the address, and an end row.
fn many_rows(alloc: Global) -> Result<Vec<u8>, Fail> {
    let mut program = vec![in alloc; 0x20; 99_997]?;
    program.extend_from_slice(&[0, 1, 1])?;
    unit_of(alloc, program.as_slice())
}

/// What the reader tells of the bytes of a unit that it hasn't taken, and how many it has then.
fn feed_rest(rt: &impl Abort, reader: &mut Reader, unit: &[u8]) -> (Event, u64) {
    let taken = usize::try_from(reader.taken()).unwrap_or(usize::MAX);
    let (_, event) = feed(reader, unit.get(taken..).unwrap_or(&[])).expect(rt, "no fault");
    (event, reader.taken())
}

/// Asserts that the reader tells a header, the rows of `many_rows` and the end.
fn assert_many_rows(rt: &impl Abort, reader: &mut Reader, unit: &[u8]) {
    assert!(rt; feed_rest(rt, reader, unit) == (Event::Header, 34));
    for n in 1..=99_997u64 {
        assert!(rt; feed_rest(rt, reader, unit) == (Event::Row(row(n, 0, 1)), 34 + n));
    }
    let last = Event::Row(end(99_997, 0, 1));
    assert!(rt; feed_rest(rt, reader, unit) == (last, 100_034));
    assert!(rt; feed_rest(rt, reader, unit) == (Event::End, 100_034));
}

/// Asserts what the reader tells of `many_rows` while all memory is taken.
fn assert_rows_without_memory(rt: &impl Abort, alloc: Global, reader: &mut Reader, unit: &[u8]) {
    let blocks = hoard(alloc).expect(rt, "memory");
    assert_many_rows(rt, reader, unit);
    drop(blocks);
}

#[test]
fn after_a_header_nothing_grows(rt: HostRuntime) -> Result<(), Fail> {
    let unit = many_rows(rt.alloc())?;
    let mut reader = Reader::new(rt.alloc(), Order::Little);
    assert_rows_without_memory(&rt, rt.alloc(), &mut reader, unit.as_slice());
    Ok(())
}
