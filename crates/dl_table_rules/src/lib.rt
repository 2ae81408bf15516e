//! What the rules find in the tables of a header, with what they keep of them. Sections 6.2.4 and 6.2.4.1.
#![tactic(auto)]

mod entry_order;
mod files_named;
mod header_rules;
mod md5_sums;
mod table_rules;
mod text_ends;
mod value_order;

pub use entry_order::EntryOrder;
pub use files_named::{FileNumbers, FilesNamed};
pub use header_rules::{content_count, directory_index, unknown_content};
pub use md5_sums::md5_missing;
pub use table_rules::{duplicate_file, missing_text, unused_file};
pub use text_ends::{NO_SECTIONS, TextEnds};
