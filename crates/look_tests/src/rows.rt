//! Places, and what looks them up in rows.
use dl_look::{Finder, Index, Place, Probed, search};
use dl_rows::Row;
use std::process::Abort;

pub fn place(address: u64, op_index: u8) -> Place {
    Place { address, op_index }
}

/// The answer of a finder that is given these rows.
pub fn found(rows: &[Row], place: Place) -> Option<Row> {
    let mut finder = Finder::new(place);
    for row in rows {
        finder.row(row);
    }
    finder.answer()
}

/// Finder, index and search answer a row of this line, or None, by at most `most` probes.
pub fn answers(
    rt: &impl Abort,
    index: &Index,
    rows: &[Row],
    place: Place,
    line: Option<u64>,
    most: u128,
) {
    let answer = index.find(place);
    assert_eq!(rt; answer.map(|row| row.line), line, "{place:?}");
    assert_eq!(rt; found(rows, place), answer);
    let mut probe = index.probe();
    assert_eq!(rt; probe.count(), 0);
    assert_eq!(rt; search(&mut probe, place), answer);
    assert!(rt; probe.count() <= most, "{place:?}");
}
