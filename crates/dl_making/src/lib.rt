//! The index of a line table, made of its units as they are read.
#![tactic(auto)]

mod files;
pub mod laws;
mod maker;
mod making;
mod numbers;
mod until;
mod writing;
mod writing_until;

pub use dl_pack::SetMemory;
pub use files::{put_folder, root_of};
pub use making::{Made, MadeAround, Table, id_front, make_index, make_index_around};
pub use numbers::files_end;
pub use until::{MadeUntil, MadeUntilAround, make_index_until, make_index_until_around};
pub use writing::{write_index, write_index_around};
pub use writing_until::{write_index_until, write_index_until_around};
