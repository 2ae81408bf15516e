//! Units of a line table of DWARF 5, written from their header and rows. Section 6.2.
#![tactic(auto)]

mod bytes;
mod conversion;
mod fault;
mod growing;
pub mod laws;
mod new_tables;
mod program;
mod unit;

pub use conversion::{into_version_5, into_version_5_in};
pub use fault::EmitFault;
pub use growing::Program;
pub use unit::{measure, write_unit};
