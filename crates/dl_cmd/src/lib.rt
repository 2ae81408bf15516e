//! The words of the command line that ask for the program's commands, and the addresses that words say.
#![tactic(auto)]

mod address;
mod job;
mod laws;
mod matched;
mod range;
mod refusal;
mod values;
mod words;

pub use address::{AddressText, read_address};
pub use job::{
    AddrWords, DumpWords, FilesWords, FollowWords, IndexWords, Job, LinesWords, LintWords,
    SourcesWords, UnitWords, Words,
};
pub use laws::{faultless_words, file_excludes_input, refused_words, worked_words};
pub use range::read_range;
pub use words::{read_words, word_status};
