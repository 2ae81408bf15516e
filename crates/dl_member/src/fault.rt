//! Why there is no file of a member, and why a walk over members ends before the last one.

use dl_archive::ArchiveFault;
use dl_print::WriteFault;
use std::{fmt, io};

/// Why a member isn't found, or its file isn't opened. Its Display is one line without a newline.
#[derive(Debug, Drop)]
pub enum MemberFault {
    /// The file isn't an archive.
    NotArchive,
    /// The archive has no member of this name.
    NoMember,
    /// The archive is damaged before such a member, or a read of it failed.
    Archive(ArchiveFault),
    /// The file of the member can't be opened.
    Open(io::Error),
}

impl MemberFault {
    ghost use Rattle.std.specs.Prelude.{◌≡◌};
    ghost use Rattle.dl_member.specs.Faults.{member_fault_status};

    /// The program's status: 1 where the archive or the words are to blame, 3 for reads and opening.
    pub fn status(&self) -> u8
        ensures { result ≡ member_fault_status self.now }
    {
        match self {
            MemberFault::NotArchive
            | MemberFault::NoMember
            | MemberFault::Archive(ArchiveFault::Damaged(_)) => 1,
            MemberFault::Archive(ArchiveFault::Read(_)) | MemberFault::Open(_) => 3,
        }
    }
}

impl fmt::Display for MemberFault {
    ghost use Rattle.dl_member.specs.Faults.{member_fault_text};

    ghost output = { member_fault_text };

    fn fmt<W: fmt::Write>(&self, f: &mut fmt::Formatter<W>) -> fmt::Result {
        match self {
            MemberFault::NotArchive => write!(f, "not an archive"),
            MemberFault::NoMember => write!(f, "no such member"),
            MemberFault::Archive(ArchiveFault::Damaged(_)) => write!(f, "damaged archive"),
            MemberFault::Archive(ArchiveFault::Read(error)) => write!(f, "cannot read: {error}"),
            MemberFault::Open(error) => write!(f, "cannot open: {error}"),
        }
    }
}

impl From<io::Error> for MemberFault {
    ghost use Rattle.std.specs.Prelude.{◌≡◌};
    ghost use Rattle.dl_archive.specs.declared.fault.ArchiveFault.TheVariants as archive;
    ghost use Rattle.dl_member.specs.declared.fault.MemberFault.TheVariants as member;

    ghost from_gives = { λ error fault. fault ≡ member.Archive (archive.Read error) };

    fn from(error: io::Error) -> MemberFault {
        MemberFault::Archive(ArchiveFault::Read(error))
    }
}

impl From<ArchiveFault> for MemberFault {
    ghost use Rattle.std.specs.Prelude.{◌≡◌};
    ghost use Rattle.dl_member.specs.declared.fault.MemberFault.TheVariants as member;

    ghost from_gives = { λ error fault. fault ≡ member.Archive error };

    fn from(fault: ArchiveFault) -> MemberFault {
        MemberFault::Archive(fault)
    }
}

/// Why a walk over the members of an archive ends before the last one.
#[derive(Debug, Drop)]
pub enum WalkFault {
    /// The file isn't an archive.
    NotArchive,
    /// The archive is damaged behind these members, or a read of it failed.
    Archive(ArchiveFault),
    /// The line before a member can't be written.
    Unwritten(WriteFault),
}

impl WalkFault {
    ghost use Rattle.std.specs.Prelude.{◌≡◌};
    ghost use Rattle.dl_member.specs.Faults.{walk_fault_status};

    /// The program's status: 1 where the archive is to blame, 3 for reads and writes.
    pub fn status(&self) -> u8
        ensures { result ≡ walk_fault_status self.now }
    {
        match self {
            WalkFault::NotArchive | WalkFault::Archive(ArchiveFault::Damaged(_)) => 1,
            WalkFault::Archive(ArchiveFault::Read(_)) | WalkFault::Unwritten(_) => 3,
        }
    }
}

impl From<io::Error> for WalkFault {
    ghost use Rattle.std.specs.Prelude.{◌≡◌};
    ghost use Rattle.dl_archive.specs.declared.fault.ArchiveFault.TheVariants as archive;
    ghost use Rattle.dl_member.specs.declared.fault.WalkFault.TheVariants as walk;

    ghost from_gives = { λ error fault. fault ≡ walk.Archive (archive.Read error) };

    fn from(error: io::Error) -> WalkFault {
        WalkFault::Archive(ArchiveFault::Read(error))
    }
}

impl From<ArchiveFault> for WalkFault {
    ghost use Rattle.std.specs.Prelude.{◌≡◌};
    ghost use Rattle.dl_member.specs.declared.fault.WalkFault.TheVariants as walk;

    ghost from_gives = { λ error fault. fault ≡ walk.Archive error };

    fn from(fault: ArchiveFault) -> WalkFault {
        WalkFault::Archive(fault)
    }
}

impl From<WriteFault> for WalkFault {
    ghost use Rattle.std.specs.Prelude.{◌≡◌};
    ghost use Rattle.dl_member.specs.declared.fault.WalkFault.TheVariants as walk;

    ghost from_gives = { λ lost fault. fault ≡ walk.Unwritten lost };

    fn from(fault: WriteFault) -> WalkFault {
        WalkFault::Unwritten(fault)
    }
}
