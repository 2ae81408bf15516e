//! What rules find in the sequences of a section, with what is kept of them. Sections 6.2.2 and 6.2.5.3.
#![tactic(auto)]

mod address_coverage;
mod coverage;
mod crowding;
mod cut_search;
mod dead;
mod ended;
pub mod laws;
mod spans;
mod touching;
mod uncovered;

pub use address_coverage::AddressCoverage;
pub use coverage::Coverage;
pub use crowding::crowded;
pub use dead::DeadSequences;
pub use ended::Ended;
pub use uncovered::no_code;
