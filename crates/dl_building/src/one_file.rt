//! A file that lies in memory.

use dl_memory::Memory;
use dl_open::FileSource;
use dl_sections::RunFault;
use std::io;
use std::io::Cursor;

/// The bytes of a file, which stand under each path.
#[derive(Clone, Copy)]
pub struct OneFile<'a> {
    pub bytes: &'a [u8],
}

impl<'a> FileSource for OneFile<'a> {
    ghost use Rattle.std.specs.Prelude.{Some};

    type File = Cursor<&'a [u8]>;

    ghost held = { λ one path. Some one.bytes.now };

    ghost fails_with = { λ one path error. ⊥ };

    fn open(&self, _path: &str) -> io::Result<Cursor<&'a [u8]>> {
        Ok(Cursor::new(self.bytes))
    }

    fn read_file<M: Memory>(
        &self,
        memory: &M,
        _path: &str,
        limit: u64,
    ) -> Result<Vec<u8>, RunFault> {
        if self.bytes.len() as u64 > limit {
            return Err(RunFault::SectionTooLong);
        }
        let mut found = Vec::new(memory.alloc());
        match memory.extend_from_slice(&mut found, self.bytes) {
            Ok(()) => Ok(found),
            Err(_) => Err(RunFault::NoMemory),
        }
    }
}
