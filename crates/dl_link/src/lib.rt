//! The name of a file's debug information in another file, and the check value of the bytes of a file.
//!
//! [`read_debug_link`] reads the section `.gnu_debuglink` of an ELF file, and [`crc_of`] computes the check value that it has of
//! the file that it names. Nothing is allocated.
#![tactic(auto)]

mod check_value;
mod link;

pub use check_value::crc_of;
pub use link::{DebugLink, read_debug_link};
