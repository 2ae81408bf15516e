//! Whether the tables of a section of units name a string section, by the headers of the units alone.
//!
//! A [`StringWalk`] takes the bytes of a section in pieces. It reads the header of each unit, and passes over the rest
//! of the unit by its length.
#![tactic(auto)]

mod state;
mod walk;

pub use walk::StringWalk;
