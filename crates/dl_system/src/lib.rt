//! The files of the system, and the one whose line table is read for FILE.
//!
//! [`SystemFiles`] opens them. [`Search::of`] looks for the file with the debug information of one that has no line table, by what the
//! system says of its folder and of caches.
#![tactic(auto)]

mod files;
mod following;

pub use files::{SystemFile, SystemFiles};
pub use following::Search;
