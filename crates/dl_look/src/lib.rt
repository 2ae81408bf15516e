//! Look-up of addresses in the rows of a line table. Section 6.2.2.
#![tactic(auto)]

mod asked;
mod code_ranges;
mod cuts;
mod finder;
mod finders;
mod index;
pub mod laws;
mod ledger;
mod links;
mod live;
mod place;
mod probed;
mod searching;
mod sequence_so_far;
mod slots;
mod trail;

pub use asked::Asked;
pub use code_ranges::{AddressRange, CodeRanges};
pub use cuts::{Cut, cuts_of};
pub use finder::Finder;
pub use finders::Finders;
pub use index::{Index, Probe};
pub use ledger::Answered;
pub use live::LiveRows;
pub use place::Place;
pub use probed::{Probed, Span};
pub use searching::search;
