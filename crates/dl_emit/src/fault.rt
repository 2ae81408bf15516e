//! Why a unit wasn't written.

use dl_head::HeadWrite;
use thiserror::Error;

/// Why a unit wasn't written.
#[derive(Clone, Copy, Debug, PartialEq, Eq, Error)]
pub enum EmitFault {
    /// The version of the header isn't 5; nothing was written.
    #[error("version is not 5")]
    Version,
    /// opcode_base isn't 13; nothing was written.
    #[error("opcode base is not 13")]
    OpcodeBase,
    /// The op_index of this row isn't below the maximum operations, or its address has too many
    /// bytes; nothing was written.
    #[error("row {0} is out of range")]
    RowRange(usize),
    /// The unit would be longer than its format allows; nothing was written.
    #[error("unit too long")]
    TooLong,
    /// The writer failed, or took nothing, after it took `out` bytes.
    #[error("cannot write the unit")]
    Write { out: u64 },
}

impl From<HeadWrite> for EmitFault {
    ghost use Rattle.std.specs.Prelude.{◌≡◌};
    ghost use Rattle.dl_emit.specs.HeadFault.{emit_fault};

    ghost from_gives = { λ head fault. fault ≡ emit_fault head };

    fn from(fault: HeadWrite) -> EmitFault {
        match fault {
            HeadWrite::TooLong => EmitFault::TooLong,
            HeadWrite::Write { out } => EmitFault::Write { out },
        }
    }
}
