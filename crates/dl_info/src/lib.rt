//! Units of `.debug_info`, as far as their first entries: which line table a unit has, and its compilation directory.
//!
//! [`unit_length`] says how long a unit is, [`first_entry`] reads the first entry of one from a front of its bytes, and
//! [`string_place`] and [`string_offset`] find the text that an index stands for. Units of versions 2 to 5 are read.
#![tactic(auto)]

mod abbreviation;
mod abbreviations;
mod entry;
mod form;
mod front;
mod head;
pub mod laws;
mod unit;

pub use abbreviations::Abbreviations;
pub use entry::{FirstEntry, Text};
pub use head::UnitLength;
pub use unit::{Answer, first_entry, string_offset, string_place, unit_length};
