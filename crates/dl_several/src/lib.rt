//! Files that are checked one after the other: some paths, and those of a list.
//!
//! [`check_several`] goes through the paths, and a [`CheckFiles`] does with each what is done.
#![tactic(auto)]

mod checker;
mod files;
mod list;
mod several;

pub use checker::CheckFiles;
pub use files::{PathList, Several};
pub use several::check_several;
