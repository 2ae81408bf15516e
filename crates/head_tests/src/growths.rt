//! Growths that are refused: of a table, and of the header that a reader holds.

use crate::building::{PAIRS, assert_pushed, why_refused};
use crate::vectors::{EACH_FORM, HUGE_DIRECTORY_COUNT, TWO_THOUSAND_DIRECTORIES, is_header_of};
use dl_head::{
    BuildFault, Dialect, Fault, FaultKind, Format, HeadReader, HeadStep, Table, ValueRef,
};
use dl_num::Order;
use std::alloc::{AllocError, Global};
use std::process::Abort;
use std::test::Fail;
use test_support::{hoard, hoard_but, hoard_most};

fn empty(alloc: Global) -> Result<Table, BuildFault> {
    Table::new(alloc, Format::Dwarf32, PAIRS)
}

/// Why a table of two pairs is refused while all memory is taken, and why one without pairs is.
fn why_refused_without_memory(rt: &impl Abort, alloc: Global) -> [Option<BuildFault>; 2] {
    let blocks = hoard(alloc).expect(rt, "memory");
    let refused = [why_refused(alloc, PAIRS), why_refused(alloc, &[])];
    drop(blocks);
    refused
}

#[test]
fn a_format_needs_memory(rt: HostRuntime) {
    let refused = why_refused_without_memory(&rt, rt.alloc());
    assert!(rt; refused == [Some(BuildFault::NoMemory), None]);
}

/// The size of the first growth of a table's values.
const VALUES_SIZE: usize = 68;

const ENTRY: &[ValueRef<'static>] = &[ValueRef::Text(b"ab"), ValueRef::Block(b"c")];

const WITHOUT_BYTES: &[ValueRef<'static>] = &[ValueRef::Text(b""), ValueRef::Block(b"")];

/// What the table answers to an entry while all memory is taken but for one block of `spare` bytes.
fn push_with(
    rt: &impl Abort,
    alloc: Global,
    spare: usize,
    table: &mut Table,
    values: &[ValueRef<'_>],
) -> Result<(), BuildFault> {
    let blocks = hoard_but(alloc, spare).expect(rt, "memory");
    let pushed = table.push_entry(values);
    drop(blocks);
    pushed
}

/// Whether the table is as a new one.
fn is_new(rt: &impl Abort, alloc: Global, table: &Table) -> bool {
    *table == empty(alloc).expect(rt, "a table")
}

/// Asserts that the entry is refused at its first growth, and at its second, which leaves the table as it was, and is taken
/// where there is memory.
fn assert_needs_memory(rt: &impl Abort, alloc: Global, table: &mut Table) {
    for spare in [0, VALUES_SIZE] {
        let refused = push_with(rt, alloc, spare, table, ENTRY);
        assert!(rt; refused == Err(BuildFault::NoMemory) && is_new(rt, alloc, table));
    }
    assert_pushed(rt, table, ENTRY, Ok(()));
}

#[test]
fn an_entry_needs_memory(rt: HostRuntime) -> Result<(), Fail> {
    let mut table = empty(rt.alloc())?;
    assert_needs_memory(&rt, rt.alloc(), &mut table);
    Ok(())
}

/// An entry without bytes takes no second growth.
#[test]
fn an_entry_without_bytes(rt: HostRuntime) -> Result<(), Fail> {
    let mut table = empty(rt.alloc())?;
    let pushed = push_with(&rt, rt.alloc(), VALUES_SIZE, &mut table, WITHOUT_BYTES);
    assert_eq!(rt; pushed, Ok(()));
    Ok(())
}

/// Room for the 2,000 values that a header claims.
const CLAIMED_ROOM: usize = 34_000;

/// Whether a block of this size can be had.
fn has_room(alloc: Global, size: usize) -> bool {
    let block: Result<Vec<u8>, AllocError> = Vec::with_capacity(alloc, size);
    block.is_ok()
}

/// What the reader answers to a count and then to an entry where one block is free; and whether that can be had after the
/// count, and most of it after the entry.
fn feed_claim(
    rt: &impl Abort,
    alloc: Global,
    reader: &mut HeadReader,
    count: &[u8],
    entry: &[u8],
) -> [(HeadStep, bool); 2] {
    let blocks = hoard_but(alloc, CLAIMED_ROOM).expect(rt, "memory");
    let (_, counted) = reader.offer(count);
    let after_count = has_room(alloc, CLAIMED_ROOM);
    let (_, ended) = reader.offer(entry);
    let after_entry = has_room(alloc, 33_000);
    drop(blocks);
    [(counted, after_count), (ended, after_entry)]
}

/// Asserts that the count of `TWO_THOUSAND_DIRECTORIES` takes no memory; its header ends after its first directory, which takes
/// three bytes.
fn assert_claim(rt: &impl Abort, alloc: Global, reader: &mut HeadReader, header: &[u8]) {
    assert!(rt; header.len() > 36);
    let (before, claim) = header.split_at(33);
    let (count, entry) = claim.split_at(claim.len() - 3);
    reader.offer(before);
    let overrun = HeadStep::Fault(Fault {
        offset: 38,
        kind: FaultKind::HeaderOverrun,
    });
    let fed = feed_claim(rt, alloc, reader, count, entry);
    assert!(rt; fed == [(HeadStep::More, true), (overrun, true)], "{fed:?}");
}

/// A count that is claimed takes no memory, also where there is enough: the one free block stays free until the bytes of an
/// entry come, and these take no more than a small part of it.
#[test]
fn a_claimed_count_takes_no_room(rt: HostRuntime) {
    let reader = &mut HeadReader::new(rt.alloc(), Dialect::version_5(Order::Little));
    assert_claim(&rt, rt.alloc(), reader, TWO_THOUSAND_DIRECTORIES);
}

/// How many bytes the reader took, and how many cells it holds.
fn counts(reader: &HeadReader) -> (u64, u64) {
    (reader.taken(), reader.cells())
}

/// What the reader answers to a byte that is given while all memory is taken.
fn step_without_memory(
    rt: &impl Abort,
    alloc: Global,
    reader: &mut HeadReader,
    byte: u8,
) -> HeadStep {
    let blocks = hoard(alloc).expect(rt, "memory");
    let step = reader.step(byte);
    drop(blocks);
    step
}

/// What the reader answers to a byte that was refused, which leaves it as it was. Then a cell is taken.
fn step_again(rt: &impl Abort, reader: &mut HeadReader, byte: u8, before: (u64, u64)) -> HeadStep {
    let (taken, cells) = before;
    assert!(rt; counts(reader) == before);
    let step = reader.step(byte);
    let after = (taken.saturating_add(1), cells.saturating_add(1));
    assert!(rt; counts(reader) == after);
    step
}

/// What the reader answers to a byte, which is given without memory, and again where it was refused; and how many
/// times it was.
fn step_twice(
    rt: &impl Abort,
    alloc: Global,
    reader: &mut HeadReader,
    byte: u8,
) -> (HeadStep, u64) {
    let before = counts(reader);
    match step_without_memory(rt, alloc, reader, byte) {
        HeadStep::NoMemory => (step_again(rt, reader, byte, before), 1),
        step => (step, 0),
    }
}

/// The last answer to the bytes, whose growths are each refused once, and how many were.
fn step_all(
    rt: &impl Abort,
    alloc: Global,
    reader: &mut HeadReader,
    bytes: &[u8],
) -> (HeadStep, u64) {
    let mut last = HeadStep::More;
    let mut refused = 0u64;
    for byte in bytes {
        let (step, refusals) = step_twice(rt, alloc, reader, *byte);
        last = step;
        refused = refused.saturating_add(refusals);
    }
    (last, refused)
}

/// Asserts that growths of `EACH_FORM` are refused, and that the reader has its header in the end.
fn assert_grows(rt: &impl Abort, alloc: Global, reader: &mut HeadReader) {
    let (last, refused) = step_all(rt, alloc, reader, EACH_FORM);
    assert!(rt; last == HeadStep::Done && counts(reader) == (160, 47));
    assert!(rt; 0 < refused && is_header_of(alloc, EACH_FORM, reader.header()));
}

/// The same where most memory is taken.
fn assert_growths(rt: &impl Abort, alloc: Global, reader: &mut HeadReader) {
    let most = hoard_most(alloc).expect(rt, "memory");
    assert_grows(rt, alloc, reader);
    drop(most);
}

#[test]
fn each_growth_of_a_header_is_refused_once(rt: HostRuntime) {
    let reader = &mut HeadReader::new(rt.alloc(), Dialect::version_5(Order::Little));
    assert_growths(&rt, rt.alloc(), reader);
}

/// Asserts that the last byte of a huge count is refused without memory, and is taken when it is given again.
fn assert_entered_later(rt: &impl Abort, alloc: Global, reader: &mut HeadReader) {
    let (last, before) = HUGE_DIRECTORY_COUNT.split_last().expect(rt, "bytes");
    reader.offer(before);
    assert!(rt; counts(reader) == (44, 3));
    let overrun = HeadStep::Fault(Fault {
        offset: 45,
        kind: FaultKind::HeaderOverrun,
    });
    assert!(rt; step_twice(rt, alloc, reader, *last) == (overrun, 1));
}

#[test]
fn a_value_that_is_refused_is_entered_later(rt: HostRuntime) {
    let mut reader = HeadReader::new(rt.alloc(), Dialect::version_5(Order::Little));
    assert_entered_later(&rt, rt.alloc(), &mut reader);
}
