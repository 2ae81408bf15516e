//! The files that the program is given, and what commands look into of them: the line table of an ELF file with its
//! string sections, where the file has code, and the sequences of one section of an object file.
//!
//! A [`FileSource`] opens files by their paths. What is wrong with one is a [`FileFault`], and what stops the work over
//! one, with its path, a [`FileStop`].
#![tactic(auto)]

mod build_id;
mod code;
mod dialect;
mod directories;
mod fault;
mod files;
pub mod laws;
mod named;
mod not_read;
mod object_part;
mod section;
mod shown;
mod stop;
mod strings;

pub use build_id::build_id_of;
pub use code::{FileCode, code_of, file_code};
pub use dialect::{FileUnits, file_dialect};
pub use directories::directories_of;
pub use fault::FileFault;
pub use files::{FileSource, open_file};
pub use named::{Sections, open_table};
pub use not_read::{UnitsNotRead, units_not_read};
pub use object_part::{Part, kept_bytes, part_of};
pub use shown::{Shown, ShownBytes};
pub use stop::FileStop;
pub use strings::StringSections;
