//! Where memory comes from. Each growth of a list goes through [`Memory`], so that a contract can say that memory is wanted
//! only where it was refused: over a memory that refuses nothing no such call wants any.
#![tactic(auto)]

mod memory;
mod system;

pub use memory::{Memory, NoMemory};
pub use system::System;
