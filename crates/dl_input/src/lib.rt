//! Where input comes from. Each read of it goes through [`Source`], so that a contract can say that a read is blamed only
//! where the reader failed: of a source whose reads don't fail none is.
#![tactic(auto)]

mod input;
mod source;

pub use dl_output::INTERRUPTIONS;
pub use input::{Input, ReadFailed};
pub use source::Source;
