//! What in a line table misleads a debugger although it reads well: findings by rules. Sections 6.2.2 to 6.2.5.
#![tactic(auto)]

mod finishing;
mod header_rules;
mod linting;
mod operation_rules;
mod question;
mod reached;
mod report;
mod row_rules;
mod section_report;
mod sequences_seen;
mod unit_files;

pub use dl_findings::{
    Finding, FindingCounts, FindingForm, Found, Opcode, RULES, RowSeen, Rule, Rules, TableEntry,
    TextSection,
};
pub use linting::{lint, lint_around};
pub use question::{LintQuestion, Linted, LintedAround};
