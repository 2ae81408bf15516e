//! The call of the library for C that tells what in a section misleads a debugger: the findings of `lint`, as records.
#![tactic(auto)]

mod records;
mod section_findings;

pub use section_findings::findings;
