//! The calls of the library for C that make an index: of an ELF file, or of a section with its strings, whose bytes lie in
//! memory. The index is put into a room of the caller.
#![tactic(auto)]

mod faults;
mod file;
mod one_file;
mod room;
mod section;
mod words;

pub use file::build_file;
pub use section::{CodeRange, build_section};
pub use words::file_fault_text;
