//! Addresses that are answered as they are asked, each by a line, from what tells of an address: an index in memory, one that
//! lies in a file, or nothing.
#![tactic(auto)]

mod answers;
mod dialogue;
mod fault;
mod index_file;
mod index_in_memory;
mod telling;

pub use answers::answer_all;
pub use dialogue::{Answered, Dialogue, answer_lines};
pub use fault::{AnswerFault, TellFault};
pub use telling::{Nothing, Tell};
