//! Why the next member of an archive isn't told.

use std::io;
use thiserror::Error;

/// Why the next member of an archive isn't told. Its Display is one line without a newline.
#[derive(Debug, Drop, Error)]
pub enum ArchiveFault {
    /// What stands at this offset is no entry of an archive, or doesn't lie in the file, or its name doesn't.
    #[error("damaged archive")]
    Damaged(u64),
    /// A read failed, with this error.
    #[error("cannot read: {0}")]
    Read(io::Error),
}

impl From<io::Error> for ArchiveFault {
    ghost use Rattle.std.specs.Prelude.{◌≡◌};
    ghost use Rattle.dl_archive.specs.declared.fault.ArchiveFault.TheVariants.{Read};

    ghost from_gives = { λ error fault. fault ≡ Read error };

    fn from(error: io::Error) -> ArchiveFault {
        ArchiveFault::Read(error)
    }
}
