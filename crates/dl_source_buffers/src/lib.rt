//! The calls of the library for C over source files: the places of a line in a section in memory, and its source files.
#![tactic(auto)]

mod end;
mod line_places;
mod room;
mod source_files;

pub use end::{End, damage_end, fault_end};
pub use line_places::{PlaceRecord, lines};
pub use room::put;
pub use source_files::{SourceRecord, sources};
