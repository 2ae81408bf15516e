//! Why an index in a file isn't opened, and why a text isn't read.

use dl_index::IndexFault;
use dl_memory::NoMemory;
use std::io;
use thiserror::Error;

/// Why a file isn't opened as an index. Its Display is one line without a newline.
#[derive(Debug, Drop, Error)]
pub enum OpenFault {
    /// A read failed, with this error.
    #[error("cannot read: {0}")]
    Read(io::Error),
    /// Its bytes aren't an index of version 1.
    #[error(transparent)]
    Index(IndexFault),
}

impl From<io::Error> for OpenFault {
    ghost use Rattle.std.specs.Prelude.{◌≡◌};
    ghost use Rattle.dl_index_file.specs.declared.fault.OpenFault.TheVariants.{Read};

    ghost from_gives = { λ error fault. fault ≡ Read error };

    fn from(error: io::Error) -> OpenFault {
        OpenFault::Read(error)
    }
}

impl From<IndexFault> for OpenFault {
    ghost use Rattle.std.specs.Prelude.{◌≡◌};
    ghost use Rattle.dl_index_file.specs.declared.fault.OpenFault.TheVariants.{Index};

    ghost from_gives = { λ fault given. given ≡ Index fault };

    fn from(fault: IndexFault) -> OpenFault {
        OpenFault::Index(fault)
    }
}

/// Why a text isn't read. Its Display is one line without a newline.
#[derive(Debug, Drop, Error)]
pub enum TextFault {
    /// A read failed, with this error.
    #[error("cannot read: {0}")]
    Read(io::Error),
    /// A growth was refused.
    #[error("out of memory")]
    NoMemory,
}

impl From<io::Error> for TextFault {
    ghost use Rattle.std.specs.Prelude.{◌≡◌};
    ghost use Rattle.dl_index_file.specs.declared.fault.TextFault.TheVariants.{Read};

    ghost from_gives = { λ error fault. fault ≡ Read error };

    fn from(error: io::Error) -> TextFault {
        TextFault::Read(error)
    }
}

impl From<NoMemory> for TextFault {
    ghost use Rattle.std.specs.Prelude.{◌≡◌};
    ghost use Rattle.dl_index_file.specs.declared.fault.TextFault.TheVariants as text;

    ghost from_gives = { λ refused fault. fault ≡ text.NoMemory };

    fn from(_refused: NoMemory) -> TextFault {
        TextFault::NoMemory
    }
}
