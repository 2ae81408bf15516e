//! A reader that says of its reads which may fail.
ghost use Rattle.std.specs.Prelude.{◌≡◌, ℕ};
ghost use Rattle.std.specs.Io.{ReadsAtMost};
ghost use Rattle.std.specs.Io.KnownBytes.{ReadConsumes};
ghost use Rattle.dl_input.specs.Ending.{Ends};
ghost use Rattle.dl_input.specs.Failing.{Goes};

use std::fs::File;
use std::io;
use std::io::{AsBytes, Cursor, Read, Stdin};

/// A reader that says of its reads which may fail.
pub trait Source: Read {
    /// What a reader has become by reads, of which the last so many failed.
    ghost follows: { Self → ℕ → Self → Type 0 } = { λ _ _ _. Unit {0} };

    /// A read of it, or of what it becomes by reads, may fail otherwise than by an interruption.
    ghost fails: { Self → Type 0 } = { λ _. Unit {0} };

    /// What is known of a reader once a read gave no bytes though there was room for some.
    ghost over: { Self → Type 0 } = { λ _. Unit {0} };

    /// Reads bytes into the front of the buffer, and answers how many; 0 only at the end or where the buffer is empty.
    fn read_next(&mut self, buffer: &mut [u8]) -> io::Result<usize>
        ensures bound { ReadsAtMost result buffer.new }
        ensures bytes { ReadConsumes (Self.remaining self.old) (Self.remaining self.new) result buffer.new }
        ensures goes { Goes follows fails self.old self.new result }
        ensures ends { Ends over buffer.new self.new result };
}

impl Source for &[u8] {
    ghost follows = { λ first failed now. failed ≡ 0 };

    ghost fails = { λ bytes. ⊥ };

    fn read_next(&mut self, buffer: &mut [u8]) -> io::Result<usize> {
        self.read(buffer)
    }
}

impl<T: AsBytes> Source for Cursor<T> {
    ghost follows = { λ first failed now. failed ≡ 0 };

    ghost fails = { λ cursor. ⊥ };

    fn read_next(&mut self, buffer: &mut [u8]) -> io::Result<usize> {
        self.read(buffer)
    }
}

impl Source for File {
    fn read_next(&mut self, buffer: &mut [u8]) -> io::Result<usize> {
        self.read(buffer)
    }
}

impl Source for Stdin {
    fn read_next(&mut self, buffer: &mut [u8]) -> io::Result<usize> {
        self.read(buffer)
    }
}
