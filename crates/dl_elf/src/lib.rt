//! ELF files: their headers, the sections of a line table by their names, and a section's bytes as a reader.
//!
//! [`open_elf`] reads the headers of a file, [`find_sections`] finds the sections with the names of a line
//! table, and a [`SectionReader`] reads the bytes of one.
//! System V ABI, chapter 4.
#![tactic(auto)]

mod build_id;
mod compression;
mod fault;
mod file;
mod header;
mod interruptions;
mod name;
mod named;
mod numbered;
mod reader;
mod section;
mod source;
mod window;

pub use build_id::{BuildId, read_build_id};
pub use compression::{Compression, CompressionHeader, compression_header, section_damage};
pub use fault::{ElfFault, Part};
pub use file::{Elf, Range, open_elf, section_at, section_range};
pub use header::{Class, FileHeader};
pub use name::SectionName;
pub use named::{NamedSection, Sections, find_sections};
pub use numbered::{code_section, section_number};
pub use reader::SectionReader;
pub use section::SectionHeader;
pub use source::{ReadAt, fill, fill_whole, lies_within};
pub use window::Window;
