//! A writer that says of its writes whether they may fail.
ghost use Rattle.std.specs.Prelude.{◌≡◌, ℕ};
ghost use Rattle.std.specs.Io.{WritesAtMost};
ghost use Rattle.std.specs.Io.KnownBytes.{WriteAppends};
ghost use Rattle.dl_output.specs.Failing.{Goes};

use std::alloc::Allocator;
use std::fs::File;
use std::io;
use std::io::{Sink, Stderr, Stdout, Write};

/// A writer that says of its writes whether they may fail.
pub trait Destination: Write {
    /// The last so many writes of it failed.
    ghost failed: { Self → ℕ → Type 0 } = { λ _ _. Unit {0} };

    /// A write of such a writer may fail otherwise than by an interruption, may take nothing of bytes that are there, or
    /// more than 1,000 in a row may be interrupted.
    ghost fails: { Type 0 } = { Unit {0} };

    /// Writes bytes from the front of the buffer, and answers how many.
    fn write_next(&mut self, bytes: &[u8]) -> io::Result<usize>
        ensures bound { WritesAtMost result bytes.now }
        ensures bytes { WriteAppends (Self.contents self.old) (Self.contents self.new) result bytes.now }
        ensures goes { Goes failed fails self.old self.new bytes.now result };
}

impl Destination for Sink {
    ghost failed = { λ sink times. ⊥ };

    ghost fails = { ⊥ };

    fn write_next(&mut self, bytes: &[u8]) -> io::Result<usize> {
        Ok(bytes.len())
    }
}

impl<A: Allocator> Destination for Vec<u8, A> {
    fn write_next(&mut self, bytes: &[u8]) -> io::Result<usize> {
        self.write(bytes)
    }
}

impl Destination for &mut [u8] {
    fn write_next(&mut self, bytes: &[u8]) -> io::Result<usize> {
        self.write(bytes)
    }
}

impl Destination for File {
    fn write_next(&mut self, bytes: &[u8]) -> io::Result<usize> {
        self.write(bytes)
    }
}

impl Destination for Stdout {
    fn write_next(&mut self, bytes: &[u8]) -> io::Result<usize> {
        self.write(bytes)
    }
}

impl Destination for Stderr {
    fn write_next(&mut self, bytes: &[u8]) -> io::Result<usize> {
        self.write(bytes)
    }
}
