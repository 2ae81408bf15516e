//! Finder, finders and index on some thousand rows, at each of their places and around it.
use crate::rows::{found, place};
use dl_look::{Finders, Index, Place, Probed, search};
use dl_rows::Row;
use std::alloc::{AllocError, Global};
use std::process::Abort;
use std::test::Fail;
use test_support::{end, row};

const ROWS: u64 = 2_000;

/// The next of some numbers without an order.
fn next_number(number: u64) -> u64 {
    number
        .wrapping_mul(6_364_136_223_846_793_005)
        .wrapping_add(1_442_695_040_888_963_407)
}

/// Sequences of about twenty rows, every fourth of which falls somewhere.
fn mixed_rows(alloc: Global) -> Result<Vec<Row>, AllocError> {
    let mut rows = Vec::new(alloc);
    let mut number = 1u64;
    let mut address = 0x1000u64;
    let mut falls = false;
    for line in 0..ROWS {
        number = next_number(number);
        let draw = number >> 32;
        address = address.wrapping_add(draw % 3);
        if falls && draw % 16 == 3 {
            address = address.wrapping_sub(2);
        }
        let op_index = ((draw >> 8) % 4) as u8;
        if draw % 20 == 7 {
            rows.push(end(address.wrapping_add(1), op_index, line))?;
            address = 0x1000 + (draw >> 16) % 0x400;
            falls = (draw >> 10) % 4 == 0;
        } else {
            rows.push(row(address, if falls { op_index } else { 0 }, line))?;
        }
    }
    Ok(rows)
}

/// They agree on a place, and the search keeps to its probes.
fn agree(rt: &impl Abort, index: &Index, rows: &[Row], place: Place) -> bool {
    let answer = found(rows, place);
    assert_eq!(rt; index.find(place), answer);
    let mut probe = index.probe();
    assert_eq!(rt; search(&mut probe, place), answer);
    let sequences = probe.sequences() as u128;
    assert!(rt; probe.count() <= sequences.saturating_add(12));
    answer.is_some()
}

#[test]
fn finder_and_index_agree(rt: HostRuntime) -> Result<(), Fail> {
    let rows = mixed_rows(rt.alloc())?;
    let rows = rows.as_slice();
    let index = Index::build(rt.alloc(), rows).ok().ok_or("memory")?;
    let mut answered = 0u32;
    let mut asked = 0u32;
    for row in rows {
        let Row {
            address,
            op_index,
            ..
        } = *row;
        for near in [
            place(address, op_index),
            place(address, op_index.wrapping_add(1)),
            place(address, op_index.wrapping_sub(1)),
            place(address.wrapping_add(1), op_index),
            place(address.wrapping_sub(1), op_index),
        ] {
            asked = asked.saturating_add(1);
            if agree(&rt, &index, rows, near) {
                answered = answered.saturating_add(1);
            }
        }
    }
    assert!(rt; asked == 10_000 && 1_000 < answered && answered < 9_999);
    Ok(())
}

/// The places of all rows and some around them, in the order of the rows, each twice.
fn places_around(alloc: Global, rows: &[Row]) -> Result<Vec<Place>, AllocError> {
    let mut places = Vec::new(alloc);
    for _ in 0..2u8 {
        for row in rows {
            places.push(place(row.address, row.op_index))?;
            places.push(place(row.address.wrapping_sub(1), row.op_index))?;
        }
    }
    Ok(places)
}

#[test]
fn finders_and_index_agree(rt: HostRuntime) -> Result<(), Fail> {
    let rows = mixed_rows(rt.alloc())?;
    let rows = rows.as_slice();
    let index = Index::build(rt.alloc(), rows).ok().ok_or("memory")?;
    let places = places_around(rt.alloc(), rows)?;
    let mut finders = Finders::build(rt.alloc(), places.as_slice())
        .ok()
        .ok_or("memory")?;
    for row in rows {
        finders.row(row);
    }
    finders.end_unit();
    let mut answered = 0usize;
    for (number, place) in places.iter().enumerate() {
        let answer = finders.answer(number);
        assert_eq!(rt; answer, index.find(*place));
        if answer.is_some() {
            answered = answered.saturating_add(1);
        }
    }
    assert_eq!(rt; finders.answered().len(), answered);
    assert!(rt; 1_000 < answered && answered < places.len());
    Ok(())
}
