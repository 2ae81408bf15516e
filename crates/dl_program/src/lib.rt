//! What the program does for a job over the line table of a file, or over a section on its input.
#![tactic(auto)]

mod answers;
mod asking;
mod command;
mod damages;
mod fault_line;
mod over_file;
mod over_input;
mod stop;
mod unit_words;
mod working;

pub use command::{Command, directory_said};
pub use damages::{StopLines, Unheard};
pub use dl_sources::MapMemory;
pub use over_file::on_file;
pub use over_input::{Section, on_input, stopped};
pub use stop::{Stop, answer_over_file};
pub use unit_words::{are_sizes, file_units, is_size, units_of_file};
pub use working::{INPUT, followed_path, looked_into, unless_input, work};
