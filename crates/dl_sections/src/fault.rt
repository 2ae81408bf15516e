//! How a command stops that doesn't end well, with its text and its status.

use crate::around::Damage;
use dl_emit::EmitFault;
use dl_head::FaultKind;
use dl_print::WriteFault;
use std::fmt;

/// The first fault that a command met.
#[derive(Clone, Copy, Debug, PartialEq, Eq)]
pub enum RunFault {
    /// A unit is damaged. The offset counts from the section's first byte.
    Damage { offset: u64, kind: FaultKind },
    /// A growth was refused.
    NoMemory,
    /// The reader failed.
    Read,
    /// The writer failed. Exactly the first `out` bytes of the output are out.
    Write { out: u128 },
    /// The section goes past the limit.
    SectionTooLong,
    /// No row answers for the address, or for one of those that were asked for. Of the commands here only `find` answers it.
    NotFound,
    /// Some path has two MD5 sums, which are those of two files. None of the commands here answers it.
    TwoSums,
    /// No unit begins at the offset that was asked for. None of the commands here answers it.
    NoUnit,
    /// A unit isn't of version 5, or, of `copy_to_5`, of a version that is read. Its offset counts from the section's
    /// first byte. Only `copy` and `copy_to_5` answer it, and the next one.
    ForeignUnit { unit: u64 },
    /// A unit isn't written, since it would be too long. Its offset counts from the section's first
    /// byte.
    Emit { unit: u64, fault: EmitFault },
}

impl RunFault {
    ghost use Rattle.std.specs.Prelude.{◌≡◌};
    ghost use Rattle.dl_sections.specs.GoingOn.{damage_in};
    ghost use Rattle.dl_sections.specs.RunText.{status};

    /// What is wrong with a unit, where that is the fault.
    pub(crate) fn damage(&self) -> Option<Damage>
        ensures { result ≡ damage_in self.now }
    {
        match self {
            RunFault::Damage { offset, kind } => Some(Damage {
                offset: *offset,
                kind: *kind,
            }),
            _ => None,
        }
    }

    /// The program's status: 1 where the section is to blame, 3 for memory, input and output.
    pub fn status(&self) -> u8
        ensures { result ≡ status self.now }
    {
        match self {
            RunFault::Damage { .. }
            | RunFault::SectionTooLong
            | RunFault::NotFound
            | RunFault::TwoSums
            | RunFault::NoUnit
            | RunFault::ForeignUnit { .. }
            | RunFault::Emit { .. } => 1,
            RunFault::NoMemory | RunFault::Read | RunFault::Write { .. } => 3,
        }
    }
}

impl fmt::Display for RunFault {
    ghost use Rattle.std.specs.Prelude.{Some};
    ghost use Rattle.dl_sections.specs.RunText.{run_fault_text};

    ghost output = { λ fault. Some (run_fault_text fault) };

    fn fmt<W: fmt::Write>(&self, f: &mut fmt::Formatter<W>) -> fmt::Result {
        match self {
            RunFault::Damage { offset, kind } => write!(f, "damage at 0x{offset:x}: {kind}"),
            RunFault::NoMemory => write!(f, "out of memory"),
            RunFault::Read => write!(f, "cannot read the input"),
            RunFault::Write { .. } => write!(f, "cannot write the output"),
            RunFault::SectionTooLong => write!(f, "section too long"),
            RunFault::NotFound => write!(f, "no line for this address"),
            RunFault::TwoSums => write!(f, "two MD5 sums of one path"),
            RunFault::NoUnit => write!(f, "no unit at this offset"),
            RunFault::ForeignUnit { unit } => write!(f, "unit 0x{unit:x} is not version 5"),
            RunFault::Emit { unit, .. } => {
                write!(f, "cannot write unit 0x{unit:x}: unit too long")
            }
        }
    }
}

impl From<WriteFault> for RunFault {
    ghost use Rattle.std.specs.Prelude.{◌≡◌};
    ghost use Rattle.dl_sections.specs.declared.fault.RunFault.TheVariants.{Write};

    ghost from_gives = { λ lost fault. fault ≡ Write lost.out };

    fn from(fault: WriteFault) -> RunFault {
        RunFault::Write { out: fault.out }
    }
}
