//! Files, of which one is a member of an archive.

use crate::whole::read_whole;
use dl_elf::ReadAt;
use dl_memory::Memory;
use dl_open::FileSource;
use dl_sections::RunFault;
use std::io;

/// Files, of which the one at a path is this one.
#[derive(Clone, Copy)]
pub struct WithMember<'a, T, F> {
    pub path: &'a str,
    /// What is opened under the path.
    pub file: &'a T,
    /// What is opened under all others.
    pub files: &'a F,
}

/// One of these files, open to be read.
#[derive(Drop)]
pub enum MemberOrFile<'a, T, U> {
    Member(&'a T),
    File(U),
}

impl<T: ReadAt, U: ReadAt> ReadAt for MemberOrFile<'_, T, U> {
    ghost use Rattle.dl_member.specs.WithMember.{bytes_of_either, fails_of_either};

    ghost all_bytes = { bytes_of_either T.all_bytes U.all_bytes };

    ghost fails_with = { fails_of_either T.fails_with U.fails_with };

    fn read_at(&self, offset: u64, buffer: &mut [u8]) -> io::Result<usize> {
        match self {
            MemberOrFile::Member(file) => file.read_at(offset, buffer),
            MemberOrFile::File(file) => file.read_at(offset, buffer),
        }
    }
}

impl<'a, T: ReadAt, F: FileSource> FileSource for WithMember<'a, T, F> {
    ghost use Rattle.dl_member.specs.WithMember.{fails_by, held_by};

    type File = MemberOrFile<'a, T, F::File>;

    ghost held = { held_by T.all_bytes F.held };

    ghost fails_with = { fails_by T.fails_with F.fails_with };

    fn open(&self, path: &str) -> io::Result<MemberOrFile<'a, T, F::File>> {
        if path == self.path {
            return Ok(MemberOrFile::Member(self.file));
        }
        match self.files.open(path) {
            Ok(file) => Ok(MemberOrFile::File(file)),
            Err(error) => Err(error),
        }
    }

    fn read_file<M: Memory>(
        &self,
        memory: &M,
        path: &str,
        limit: u64,
    ) -> Result<Vec<u8>, RunFault> {
        if path == self.path {
            return read_whole(memory, self.file, limit);
        }
        self.files.read_file(memory, path, limit)
    }
}
