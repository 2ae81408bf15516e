//! What is written, held in memory. A write of it never fails: where memory is refused, that is told at the end.
#![tactic(auto)]

mod held;
mod written;

pub use held::{Held, Refusing};
