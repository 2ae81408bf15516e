//! Why addresses aren't answered.

use dl_index_file::TextFault;
use dl_memory::NoMemory;
use dl_print::WriteFault;
use std::io;
use thiserror::Error;

/// Why nothing is told of an address. Its Display is one line without a newline.
#[derive(Debug, Drop, Error)]
pub enum TellFault {
    /// A read failed, with this error.
    #[error("cannot read: {0}")]
    Read(io::Error),
    /// A growth was refused.
    #[error("out of memory")]
    NoMemory,
}

impl From<io::Error> for TellFault {
    ghost use Rattle.std.specs.Prelude.{◌≡◌};
    ghost use Rattle.dl_dialogue.specs.declared.fault.TellFault.TheVariants.{Read};

    ghost from_gives = { λ error fault. fault ≡ Read error };

    fn from(error: io::Error) -> TellFault {
        TellFault::Read(error)
    }
}

impl From<TextFault> for TellFault {
    ghost use Rattle.std.specs.Prelude.{◌≡◌};
    ghost use Rattle.dl_dialogue.specs.Faults.{of_text};

    ghost from_gives = { λ fault given. given ≡ of_text fault };

    fn from(fault: TextFault) -> TellFault {
        match fault {
            TextFault::Read(error) => TellFault::Read(error),
            TextFault::NoMemory => TellFault::NoMemory,
        }
    }
}

impl From<NoMemory> for TellFault {
    ghost use Rattle.std.specs.Prelude.{◌≡◌};
    ghost use Rattle.dl_dialogue.specs.declared.fault.TellFault.TheVariants as tell;

    ghost from_gives = { λ refused fault. fault ≡ tell.NoMemory };

    fn from(_refused: NoMemory) -> TellFault {
        TellFault::NoMemory
    }
}

/// Why not all addresses are answered.
#[derive(Debug, Drop)]
pub enum AnswerFault {
    /// The input, which asks for them, can't be read.
    Input,
    /// Nothing can be told of one.
    Tell(TellFault),
    /// The writer failed.
    Write(WriteFault),
}

impl From<WriteFault> for AnswerFault {
    ghost use Rattle.std.specs.Prelude.{◌≡◌};
    ghost use Rattle.dl_dialogue.specs.declared.fault.AnswerFault.TheVariants.{Write};

    ghost from_gives = { λ lost fault. fault ≡ Write lost };

    fn from(lost: WriteFault) -> AnswerFault {
        AnswerFault::Write(lost)
    }
}
