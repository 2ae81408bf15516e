//! Line tables of object files: the sequences of one section of the file.
//!
//! In an object file addresses are relative to sections, so sequences of several of them cover the same addresses. The
//! section of a sequence is that of the symbol of the relocation at its first DW_LNE_set_address. [`keep_section`]
//! makes of every other sequence an operation that is passed over, so that no row comes of it.
#![tactic(auto)]

mod head;
pub mod laws;
mod pass_over;
mod places;
mod program;
mod section;
mod sequence;

pub use section::keep_section;
