//! The command line: its subcommands with their options and other arguments, as `clap` reads it.
#![tactic(auto)]

mod arguments;
mod command_line;
mod library;
mod parts;

pub use command_line::{
    addr, check, copy, dump, find, index, lines, lint, make_command_line, sources,
};
pub use library::refused;
