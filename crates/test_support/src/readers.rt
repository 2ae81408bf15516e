//! A reader that doesn't end.
use std::io;
use std::io::Read;

/// Gives the same bytes over and over, one at a time.
#[derive(Drop)]
pub struct Repeated<'a> {
    bytes: &'a [u8],
    rest: &'a [u8],
}

impl<'a> Repeated<'a> {
    pub fn new(bytes: &'a [u8]) -> Repeated<'a> {
        Repeated { bytes, rest: bytes }
    }
}

impl Read for Repeated<'_> {
    fn read(&mut self, buf: &mut [u8]) -> io::Result<usize> {
        if self.rest.is_empty() {
            self.rest = self.bytes;
        }
        let n = 1.min(self.rest.len()).min(buf.len());
        buf[..n].copy_from_slice(&self.rest[..n]);
        self.rest = &self.rest[n..];
        Ok(n)
    }
}

impl dl_input::Source for Repeated<'_> {
    fn read_next(&mut self, buffer: &mut [u8]) -> io::Result<usize> {
        self.read(buffer)
    }
}
