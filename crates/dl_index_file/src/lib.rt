//! An index that lies in a file, and isn't read whole: each look-up reads a few small pieces of it.
//!
//! [`open_index`] reads the header, [`FileFinder::find`] answers an address by at most 64 reads, and
//! [`IndexFile::read_text`] reads a text of the path. What stands after the header isn't checked: where it is damaged the
//! answers are wrong, or none, as those of `dl_index::open_unchecked`.
#![tactic(auto)]

mod fault;
mod filling;
mod finder;
mod index;
mod opening;
mod parts;
mod search;
mod text;

pub use fault::{OpenFault, TextFault};
pub use finder::FileFinder;
pub use index::{FileFound, IndexFile, TextPlaces};
pub use opening::{is_index, open_index};
