//! Numbers of a line table: LEB128 both ways, and numbers of fixed size; and where the first byte of a value stands.
#![tactic(auto)]

pub mod first_byte;
pub mod fixed;
pub mod front;
pub mod laws;
pub mod leb;
pub mod partial_bytes;
pub mod partial_number;
pub mod spell;

pub use first_byte::first_of;
pub use fixed::{Fixed, Order, fixed_at_front, fixed_bytes, number_of};
pub use front::{
    short_sleb_at_front, short_uleb_at_front, sleb_at_front, sleb_read_back, uleb_at_front,
    uleb_read_back,
};
pub use leb::{LebRange, Skip, Sleb, Uleb};
pub use partial_bytes::PartialBytes;
pub use partial_number::PartialNumber;
pub use spell::{sleb_bytes, uleb_bytes};
