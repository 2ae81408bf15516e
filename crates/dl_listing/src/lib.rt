//! What an index holds, printed as text.
#![tactic(auto)]

pub mod laws;
mod line;
mod listing;

pub use listing::list;
