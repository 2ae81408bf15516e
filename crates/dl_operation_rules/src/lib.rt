//! What the rules look at in the operations of a unit, with what is kept of them. Sections 6.2.2 and 6.2.5.1 to 6.2.5.3.
#![tactic(auto)]

mod advance;
mod byte_set;
mod judging;
mod operation_read;
mod operations;

pub use advance::{Moved, moved_by, place_after};
pub use judging::{is_long, is_unknown, wraps};
pub use operations::Operations;
