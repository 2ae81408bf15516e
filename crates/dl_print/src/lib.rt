//! Line tables as lines of text, printed through one buffer.
#![tactic(auto)]

mod fault;
mod output;
mod summary;
mod text;

pub use fault::WriteFault;
pub use output::{Printer, StringSection, StringSections, text_in_section};
pub use summary::Summary;
pub use text::{write_bytes, write_damage, write_hexadecimal_number};
