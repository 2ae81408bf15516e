//! How printing fails.

use thiserror::Error;

/// The writer failed, or took nothing. Exactly the first `out` bytes of what was printed are out.
#[derive(Clone, Copy, Debug, PartialEq, Eq, Error)]
#[error("cannot write the output")]
pub struct WriteFault {
    pub out: u128,
}
