//! Findings of rules about line tables, how they are told, and how many there are.
#![tactic(auto)]

mod counts;
mod finding;
mod finding_json;
mod finding_record;
mod finding_text;
mod finding_told;
mod missing_text;
mod parts;
mod rule;
mod rules;

pub use counts::FindingCounts;
pub use finding::{Finding, Found, Opcode, RowSeen, TableEntry, TextSection};
pub use finding_told::{FindingForm, print_finding};
pub use rule::{RULES, Rule};
pub use rules::Rules;
