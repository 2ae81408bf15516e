//! The paths of files under the headers of their units, and texts of paths as they are printed.
#![tactic(auto)]

mod compiled;
mod component;
mod json_text;
pub mod laws;
mod parts;
mod path;
mod shown;

pub use compiled::{beside_table, has_directory_0, is_whole_path};
pub use component::{basename, basename_under};
pub use json_text::print_json_text;
pub use parts::{Directory, Parts, Text, parts_of};
pub use path::{Path, path_of, slash_after, wants_slash};
pub use shown::{is_all_plain, print_shown};
