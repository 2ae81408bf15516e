//! What the program does for `lint`: it tells what in the line table of a file, or in a section on its input, misleads a debugger,
//! by the rules that words choose, and how many findings there are.
#![tactic(auto)]

mod counts;
mod job;
mod over_file;
mod over_input;
mod rules;
mod section;

pub use counts::write_counts;
pub use dl_lint::{FindingCounts, LintedAround, RULES};
pub use job::tell_findings;
