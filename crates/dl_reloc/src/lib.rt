//! Relocations of object files, applied to the bytes of a section.
//!
//! [`relocate`] applies the entries of one relocation section, in order, with the values of symbols that
//! [`push_symbol_values`] takes from their table; [`relocate_compact`] applies those of a section of compact
//! relocations. [`push_places`] and [`push_compact_places`] list the places that they change. What the types of relocations do is
//! told for the machines of `type_of` (specs/Types.antt), of those types that assemblers put into debug information.
//! System V ABI, chapter 4, and its supplements for these machines.
#![tactic(auto)]

mod apply;
mod change;
mod compact;
mod entry;
mod machine;
mod number;
mod placed;
mod places;
mod symbol;
mod table;
mod target;

pub use apply::{RelocationFault, relocate, relocate_compact};
pub use placed::Placed;
pub use places::{push_compact_places, push_places};
pub use symbol::{push_symbol_values, symbol_size};
pub use target::{AddendPlace, Class, Target};
