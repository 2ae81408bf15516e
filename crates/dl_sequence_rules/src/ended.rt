//! Sequences that have ended. Sections 6.2.2 and 6.2.5.3.

use dl_findings::RowSeen;
use dl_look::Place;

/// A live rising sequence that has ended.
#[derive(Clone, Copy)]
pub struct Ended {
    /// The offset of its unit in the section.
    pub unit: u64,
    /// The offset in the section of the first byte of the operation that appends its end row.
    pub offset: u64,
    /// Its end row, whose place is the first one after the sequence.
    pub row: RowSeen,
    /// The place of its first row.
    pub first: Place,
}
