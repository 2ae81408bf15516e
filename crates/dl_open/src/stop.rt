//! Why the work over a file stops.
ghost use Rattle.dl_open.specs.Stops.{StopsAs};

use crate::fault::{FileFault, read_fault};
use dl_elf::SectionName;
use dl_file::ReadFault;
use dl_sections::RunFault;

/// Why the work over an ELF file stops.
#[derive(Drop)]
pub enum FileStop<'a> {
    /// What is wrong with a section of it, or with the output: the same as of a section that isn't in a file.
    Run(RunFault),
    /// The ELF file at this path stops it.
    File { path: &'a str, fault: FileFault },
    /// The ELF file at this path has no section of this name, in which addresses are to be looked up.
    NoSection { path: &'a str, name: &'a str },
}

impl<'a> FileStop<'a> {
    /// The stop of a run over a section of the file at this path. `stream` is the section's name where
    /// it is inflated as it is read, and `read` tells why its last read failed, where it did.
    ///
    /// What is wrong with a section is told without the path, as of a section that isn't in a file.
    pub fn at(
        path: &'a str,
        stream: Option<SectionName>,
        fault: RunFault,
        read: Option<ReadFault>,
    ) -> FileStop<'a>
        ensures { StopsAs path.entry.now stream read fault result }
    {
        match fault {
            RunFault::Read => FileStop::File {
                path,
                fault: FileFault::Elf(read_fault(stream, read)),
            },
            RunFault::NoMemory => FileStop::File {
                path,
                fault: FileFault::NoMemory,
            },
            fault => FileStop::Run(fault),
        }
    }
}
