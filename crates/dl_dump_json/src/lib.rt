//! A section as JSON objects, one in each line: units with their headers and tables, and rows. Sections 6.2.2 and 6.2.4;
//! RFC 8259.
#![tactic(auto)]

mod array;
mod dumping;
mod entry;
mod fields;
mod member;
mod row;
mod unit;
mod value;

pub use dumping::{dump_json, dump_json_around};
