//! Stretches: runs of addresses with the same answer, as long as can be, for an index of a line table. Section 6.2.2.
#![tactic(auto)]

mod file_and_statement;
pub mod laws;
mod reach;
mod run;
mod run_spans;
mod runs;
mod sequence;
mod sink;
mod stretch;
mod stretching;
mod told;

pub use run::Run;
pub use runs::Runs;
pub use sink::{StretchSink, Stretches};
pub use stretch::Stretch;
pub use stretching::RunStretches;
pub use told::Told;
