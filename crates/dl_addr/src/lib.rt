//! Paths, lines and columns of addresses, of all units of a section in one pass.
#![tactic(auto)]

mod answering;
mod json_line;
mod kept;
pub mod laws;
mod locating;
mod location;
mod path_text;
mod printing;
mod question;
mod style;
mod texts;

pub use answering::{addr, addr_around};
pub use dl_dirs::CompilationDirectories;
pub use dl_look::Asked;
pub use locating::is_code;
pub use location::{Location, print_location};
pub use question::{FoundAround, Question, WhichFound};
pub use style::{AnswerForm, Style};
