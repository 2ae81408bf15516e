//! The fields of a DWARF 5 header: its numbers, and its tables read byte by byte. Sections 6.2.4 and 7.5.5.
#![tactic(auto)]

pub mod field_step;
pub mod list_reader;
pub mod params;
mod sixteen;
pub mod table_reader;
mod value_phase;
mod value_reader;
mod value_run;
mod whole_listed;
mod whole_value;

pub use field_step::FieldStep;
pub use list_reader::{ListKind, ListReader};
pub use params::Params;
pub use table_reader::TableReader;
