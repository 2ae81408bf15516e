//! The file in which the debug information of an ELF file stands.
//!
//! [`table_file`] tells which file's line table is read for another one: where that has no line section, [`follow`] looks for its
//! debug information: below folders for debug information by the build ID, under the name that a debug link has, and in a
//! cache of debuginfod. [`Candidates`] tells the places one after the other, and
//! [`path_of`] makes the path of one. Nothing is allocated, and nothing is fetched.
#![tactic(auto)]

mod candidates;
mod clues;
mod fit;
mod followed;
mod place;
mod search;
mod told;

pub use candidates::{Candidate, Candidates, Folders, Sought};
pub use clues::{Clues, read_clues};
pub use fit::Fit;
pub use followed::{Followed, table_file};
pub use place::{PATH_LIMIT, PathBytes, Place, TooLong, folder_of, path_of};
pub use search::{Taken, follow};
pub use told::{NotFound, write_passed};
