//! The files of the system.

use dl_elf::ReadAt;
use dl_memory::Memory;
use dl_open::FileSource;
use dl_sections::{RunFault, read_strings};
use std::fs::File;
use std::io::ErrorKind;
use std::{fs, io};

/// A file of the system.
#[derive(Drop)]
pub enum SystemFile {
    Open(File),
    /// A pipe, a socket or a device: it has no places, or bytes without an end. It isn't opened, since that may wait for whoever
    /// writes into it.
    Stream,
}

impl ReadAt for SystemFile {
    fn read_at(&self, offset: u64, buffer: &mut [u8]) -> io::Result<usize> {
        match self {
            SystemFile::Open(file) => ReadAt::read_at(file, offset, buffer),
            SystemFile::Stream => Err(io::Error::from(ErrorKind::NotSeekable)),
        }
    }
}

/// The files of the system.
#[derive(Drop)]
pub struct SystemFiles<'a> {
    pub rt: &'a HostRuntime,
}

impl FileSource for SystemFiles<'_> {
    ghost use Rattle.std.specs.Prelude.{None};

    type File = SystemFile;

    ghost held = { λ system path. None };

    ghost fails_with = { λ system path error. Unit {0} };

    fn open(&self, path: &str) -> io::Result<SystemFile> {
        let metadata = fs::metadata(self.rt, path)?;
        if metadata.is_file() || metadata.is_dir() {
            return Ok(SystemFile::Open(File::open(self.rt, path)?));
        }
        Ok(SystemFile::Stream)
    }

    fn read_file<M: Memory>(
        &self,
        memory: &M,
        path: &str,
        limit: u64,
    ) -> Result<Vec<u8>, RunFault> {
        match File::open(self.rt, path) {
            Ok(mut file) => read_strings(memory, &mut file, limit),
            Err(_) => Err(RunFault::Read),
        }
    }
}
