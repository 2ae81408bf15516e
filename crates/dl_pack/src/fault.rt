//! Why an index isn't made.

use dl_memory::NoMemory;
use thiserror::Error;

/// Why an index isn't made of stretches. Its Display is one line without a newline.
#[derive(Clone, Copy, Debug, PartialEq, Eq, Error)]
pub enum PackFault {
    /// A growth was refused.
    #[error("out of memory")]
    NoMemory,
    /// A stretch tells a file that has no name.
    #[error("a file without a name")]
    File,
    /// The build ID has more than 32 bytes.
    #[error("a build ID of more than 32 bytes")]
    BuildId,
    /// The stretches tell 2^32 files or more, or these have as many texts.
    #[error("2^32 files or texts, or more")]
    TooMany,
}

/// More items are mentioned than have numbers from 1 to 2^32 - 1.
#[derive(Clone, Copy, Debug, PartialEq, Eq)]
pub(crate) struct TooMany;

impl From<NoMemory> for PackFault {
    fn from(_: NoMemory) -> PackFault {
        PackFault::NoMemory
    }
}
