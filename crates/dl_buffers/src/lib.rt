//! The calls of the library for C: line tables in bytes that are handed in, answered with numbers.
#![tactic(auto)]

mod checking;
mod copying;
mod describing;
mod finding;
mod gathering;
pub mod laws;
mod listing;
mod naming;
mod paths;
mod record;
pub mod room;
mod status;
mod stop;
mod telling;
mod unit;

pub use checking::{check, dialect_of, goes_on};
pub use copying::copy;
pub use describing::unit_at;
pub use dl_look::Place;
pub use finding::find;
pub use gathering::find_all;
pub use listing::rows_at;
pub use naming::path_at;
pub use paths::paths_at;
pub use record::{Counts, FaultRecord, RowRecord, UnitRecord};
pub use status::Status;
pub use telling::fault_text;
