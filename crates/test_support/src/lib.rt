//! What the tests of several crates share: a reader that doesn't end, a writer that isn't perfect, want of memory, a
//! worked unit, params of headers, and rows.
#![tactic(auto)]

mod headers;
mod memory;
mod readers;
mod rows;
mod units;
mod writers;

pub use headers::{header_of, opcode_lengths, params};
pub use memory::{hoard, hoard_but, hoard_most};
pub use readers::Repeated;
pub use rows::{end, row};
pub use units::unit_of;
pub use writers::Sink;
