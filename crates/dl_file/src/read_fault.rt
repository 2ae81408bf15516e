//! Why reads of a section's bytes fail.

use std::io;
use std::io::ErrorKind;

/// Why a read of a section's bytes failed.
#[derive(Clone, Copy, Debug)]
pub enum ReadFault {
    /// A read of the file failed, with this error.
    Read(io::Error),
    /// The section is compressed, and its stream isn't one of its bytes. The byte that shows it, counted from the first
    /// byte of the section as it stands in the file.
    DamagedStream(u64),
}

impl ReadFault {
    ghost use Rattle.dl_file.specs.Faults.{IsErrorOf};

    /// The error of a read that failed so.
    pub fn error(self) -> io::Error
        ensures { IsErrorOf self result }
    {
        match self {
            ReadFault::Read(error) => error,
            ReadFault::DamagedStream(_) => io::Error::from(ErrorKind::InvalidData),
        }
    }
}

impl From<io::Error> for ReadFault {
    ghost use Rattle.std.specs.Prelude.{◌≡◌};
    ghost use Rattle.dl_file.specs.declared.read_fault.ReadFault.TheVariants.{Read};

    ghost from_gives = { λ error fault. fault ≡ Read error };

    fn from(error: io::Error) -> ReadFault {
        ReadFault::Read(error)
    }
}
