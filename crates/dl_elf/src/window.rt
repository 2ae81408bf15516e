//! A buffer for small reads that lie near one another.
ghost use Rattle.std.specs.Prelude.{◌≡◌, ◌≤◌, ℕ, List, Option, length, take, drop, IsTrue, OnOk, IfOk, IfErr};
ghost use Rattle.dl_elf.specs.Source.{ForBytes};

use crate::source::{ReadAt, fill};
use std::io;

/// How many bytes it holds.
const SIZE: usize = 16_384;

/// A window onto a file: some of its bytes that stand in a row.
#[derive(Drop)]
pub struct Window {
    /// Where they begin in the file.
    start: u64,
    filled: usize,
    buffer: [u8; SIZE],
    ghost room: { length buffer ≡ 16384 },
    ghost within: { filled ≤ 16384 },
}

impl Window {
    ghost use Rattle.dl_elf.specs.Window.{Shows, IsFull, Has, shown};

    /// A window that shows nothing yet.
    pub fn new() -> Window
        ensures { (known : Option (List ℕ)) → Shows known result }
    {
        Window {
            start: 0,
            filled: 0,
            buffer: [0; SIZE],
        }
    }

    /// Shows the bytes from the offset on.
    fn move_to<S: ReadAt>(&mut self, source: &S, offset: u64) -> io::Result<()>
        ensures shows { Shows (S.all_bytes source.now) self.new }
        ensures start { OnOk result (self.new.start ≡ offset) }
        ensures full { OnOk result (IsFull (S.all_bytes source.now) self.new) }
        ensures fails { IfErr result (S.fails_with source.now) }
    {
        self.start = offset;
        self.filled = 0;
        let n = fill(source, offset, &mut self.buffer)?;
        self.filled = n;
        Ok(())
    }

    /// Whether it shows this many bytes from the offset on.
    fn has(&self, offset: u64, len: usize) -> bool
        ensures { IsTrue result → Has self.now offset len }
    {
        if offset < self.start || self.filled < len {
            return false;
        }
        offset - self.start <= (self.filled - len) as u64
    }

    /// Shows the bytes from the offset on, and answers how many of `len` there are.
    pub(crate) fn show<S: ReadAt>(
        &mut self,
        source: &S,
        offset: u64,
        len: usize,
    ) -> io::Result<usize>
        requires shows { Shows (S.all_bytes source.now) self.old }
        requires short { len ≤ 4096 }
        ensures shows { Shows (S.all_bytes source.now) self.new }
        ensures has { IfOk result (λ n. Has self.new offset n) }
        ensures most { IfOk result (λ n. n ≤ len) }
        ensures len { IfOk result (λ n. length (shown self.new offset n) ≡ n) }
        ensures bytes { ForBytes (S.all_bytes source.now) (λ f.
            IfOk result (λ n. shown self.new offset n ≡ take len (drop offset f))) }
        ensures fails { IfErr result (S.fails_with source.now) }
    {
        if self.has(offset, len) {
            return Ok(len);
        }
        self.move_to(source, offset)?;
        Ok(self.filled.min(len))
    }

    /// Bytes that it shows.
    pub(crate) fn shown(&self, offset: u64, len: usize) -> &[u8]
        requires { Has self.now offset len }
        ensures bytes { result.now ≡ shown self.entry.now offset len }
        ensures len { length result.now ≡ len }
    {
        let from = (offset - self.start) as usize;
        &self.buffer[from..from + len]
    }
}
