//! An index: bytes, made once of a file's line table, that answer each address.
//!
//! [`open`] checks the bytes of an index, in one pass; [`open_unchecked`] leaves out the pass over what stands after
//! the header. [`IndexRef::find`] answers an address, by at most as many looks at starts as their number has binary
//! digits, and [`IndexRef::stretch`] lists. Whatever the bytes are, nothing outside of them is looked at. Nothing is
//! allocated.
#![tactic(auto)]

mod checks;
mod column;
mod fault;
mod four;
mod header;
mod index;
mod layout;
mod numbers;
mod opening;
mod parts;
mod search;
mod width;

pub use fault::{IndexFault, IndexPart};
pub use four::Four;
pub use header::{HEADER_LEN, Header, Widths};
pub use index::{FoundLine, IndexRef, Listed, PathTexts, TextPlaces};
pub use layout::Layout;
pub use numbers::Numbers;
pub use opening::{has_magic, header_of, length_told, open, open_unchecked, reopen};
pub use search::{Starts, last_upto, last_upto_four};
pub use width::Width;
