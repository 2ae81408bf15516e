//! The compilation directories that `.debug_info` says, by the offsets of line tables.
//!
//! A line table of a version before 5 doesn't have the directory of its compilation: it is DW_AT_comp_dir of the unit
//! whose DW_AT_stmt_list is the table's offset. A [`Walk`] takes the bytes of `.debug_info` in pieces, reads the first
//! entry of each unit, and passes over the rest by the unit's length. [`Places`] are what came of it: where the texts of
//! the directories stand. With the bytes of these sections they give the [`Directories`].
#![tactic(auto)]

mod compilation;
mod directories;
mod extent;
pub mod laws;
mod places;
mod texts;
mod walk;

pub use compilation::CompilationDirectories;
pub use directories::Directories;
pub use places::Places;
pub use texts::Texts;
pub use walk::Walk;
