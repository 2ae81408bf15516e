//! What the program does over files and sections with what a file tells beside its line table: it tells where addresses are, the
//! addresses of source lines and the source files, and makes the index of a file.
#![tactic(auto)]

mod addr_words;
mod answering;
mod code;
mod compiled;
mod indexing;
pub mod laws;
mod located;
mod locating;
mod opening;
mod over_elf_file;
mod over_index;
mod source_files;
mod source_lines;
mod with_table;

pub use indexing::index;
pub use located::Located;
pub use locating::locate;
pub use source_files::list_sources;
pub use source_lines::find_lines;
