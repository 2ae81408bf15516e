//! The addresses that are asked for on an input, one a line.
#![tactic(auto)]

mod asked_lines;
mod line;
mod line_word;

pub use asked_lines::{CurrentLine, LastLine, OtherLine};
pub use line_word::LineWord;
