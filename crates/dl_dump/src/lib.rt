//! What `dump` shows of a section beside its units, tables and rows: operations, and the paths of rows. Sections 6.2.4
//! and 6.2.5.
#![tactic(auto)]

mod details;
mod dumping;
mod held_sequence;
pub mod laws;
mod operation;
mod path;
mod range_dumping;
mod reached;
mod unit_dumping;

pub use details::Details;
pub use dl_dirs::CompilationDirectories;
pub use dumping::{dump_details, dump_details_around};
pub use range_dumping::{dump_range, dump_range_around};
pub use unit_dumping::{UnitAt, dump_unit};
