//! The calls of the library for C over the bytes of an index: what it tells of addresses, its stretches, and what is
//! wrong with bytes that aren't one. What is kept of an index between calls is its layout, which the caller has. No call
//! takes memory.
#![tactic(auto)]

mod finding;
mod joining;
mod listing;
mod opening;
mod record;
mod telling;

pub use dl_index::Layout;
pub use finding::{find, find_many};
pub use joining::path;
pub use listing::stretch;
pub use opening::{open, open_unchecked};
pub use record::{IndexFaultRecord, IndexRecord, LocationRecord};
pub use telling::fault_text;
