//! The line table of an ELF file: its sections, and their bytes as readers.
//!
//! [`open_line_file`] reads the headers of a file and finds the section with the line table and,
//! where they are wanted, its string sections. What it answers has a reader for each; that of
//! a section that is compressed with zlib gives what its stream inflates to, and that of the line section of
//! an object file the bytes with its relocations applied.
//! [`find_code`] tells at which addresses a file has code, and [`find_places`] which places of the line section of
//! an object file its relocations change, and by symbols of which sections.
//! System V ABI, chapter 4.
#![tactic(auto)]

mod code;
mod content_reader;
mod inflated_reader;
mod info_file;
mod line_file;
mod line_reader;
mod places;
mod read_fault;
mod relocating;
mod section_bytes;
mod stream_reader;
mod whole_bytes;

pub use code::{Code, CodeFault, ExecutableRange, find_code};
pub use content_reader::ContentReader;
pub use inflated_reader::InflatedReader;
pub use info_file::{InfoFile, open_info};
pub use line_file::{LineFile, Wanted, open_line_file};
pub use line_reader::LineReader;
pub use places::find_places;
pub use read_fault::ReadFault;
