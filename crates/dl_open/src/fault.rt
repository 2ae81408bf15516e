//! What is wrong with a file.
ghost use Rattle.std.specs.Prelude.{◌≡◌};
ghost use Rattle.dl_open.specs.Stops.{IsTold, file_fault_status, file_fault_text};

use dl_elf::{ElfFault, SectionName};
use dl_file::ReadFault;
use std::{fmt, io};

/// What is wrong with an ELF file, or with reading it.
#[derive(Debug, Drop)]
pub enum FileFault {
    /// It can't be opened.
    Open(io::Error),
    /// It has no line table that is read, or a read of it failed.
    Elf(ElfFault),
    /// It is an object file, which isn't copied. Nothing here answers it.
    ObjectCopy,
    /// A section is named of it, but its addresses aren't relative to sections.
    NotRelative,
    /// A growth was refused.
    NoMemory,
}

impl FileFault {
    /// The program's status: 1 where the file is to blame, 3 for memory and reads.
    pub fn status(&self) -> u8
        ensures { result ≡ file_fault_status self.now }
    {
        match self {
            FileFault::Open(_) | FileFault::NoMemory => 3,
            FileFault::Elf(ElfFault::Read(_) | ElfFault::NoMemory) => 3,
            FileFault::Elf(_) | FileFault::ObjectCopy | FileFault::NotRelative => 1,
        }
    }
}

impl fmt::Display for FileFault {
    ghost output = { file_fault_text };

    fn fmt<W: fmt::Write>(&self, f: &mut fmt::Formatter<W>) -> fmt::Result {
        match self {
            FileFault::Open(error) => write!(f, "cannot open: {error}"),
            FileFault::Elf(fault) => write!(f, "{fault}"),
            FileFault::ObjectCopy => {
                write!(f, "an object file; its copy would lose its relocations")
            }
            FileFault::NotRelative => write!(f, "its addresses are not relative to a section"),
            FileFault::NoMemory => write!(f, "out of memory"),
        }
    }
}

/// What is told of a file where a read of a section failed so.
pub(crate) fn read_fault(stream: Option<SectionName>, read: Option<ReadFault>) -> ElfFault
    ensures { IsTold stream read result }
{
    match (stream, read) {
        (Some(name), Some(ReadFault::DamagedStream(at))) => ElfFault::DamagedStream(name, at),
        (_, Some(ReadFault::Read(error))) => ElfFault::Read(error),
        _ => ElfFault::Read(io::Error::from(io::ErrorKind::Other)),
    }
}
