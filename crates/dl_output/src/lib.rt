//! Where output goes. Each write of it goes through [`Destination`], so that a contract can say that a write is blamed only
//! where the writer failed: of a destination whose writes don't fail none is.
#![tactic(auto)]

mod destination;

pub use destination::Destination;

/// How many interruptions in a row of a write, or of a read, are borne; the next one is a failure.
pub const INTERRUPTIONS: u32 = 1000;
