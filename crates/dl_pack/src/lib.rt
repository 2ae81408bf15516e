//! The bytes of an index, made of stretches and of what the numbers of their files stand for.
#![tactic(auto)]

mod columns;
mod fault;
mod file_order;
mod header;
pub mod laws;
mod layout;
mod making;
mod mentions;
mod names;
mod set_memory;
mod tables;
mod totals;
mod writer;

pub use fault::PackFault;
pub use making::index_bytes;
pub use names::{FileTexts, Names};
pub use set_memory::SetMemory;
