//! CRC-32, the check value of ISO 3309 and ITU-T V.42, as gzip has it (RFC 1952, section 8) and as the section
//! `.gnu_debuglink` does.
//!
//! [`crc_32`] computes it of bytes, [`Crc32`] of bytes that come in pieces. Nothing is allocated.
#![tactic(auto)]

mod crc;
pub mod laws;
mod table;

pub use crc::{Crc32, crc_32};
