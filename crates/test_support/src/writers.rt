//! Writers that are short, are interrupted, fail or take nothing.
use dl_output::Destination;
use std::alloc::Global;
use std::io;
use std::io::{ErrorKind, Write};

/// Takes `room` bytes in all, `most` at a time, and then fails or takes nothing. Each call is interrupted so many times before.
#[derive(Drop)]
pub struct Sink {
    pub held: Vec<u8>,
    room: usize,
    most: usize,
    times: u32,
    /// How many times the current call was interrupted.
    interruptions: u32,
    pub fails: bool,
}

impl Sink {
    pub fn new(alloc: Global, room: usize, most: usize) -> Sink {
        Sink {
            held: Vec::new(alloc),
            room,
            most,
            times: 0,
            interruptions: 0,
            fails: true,
        }
    }

    /// Room for a megabyte, each call being interrupted that many times.
    pub fn interrupted(alloc: Global, most: usize, times: u32) -> Sink {
        Sink {
            times,
            ..Sink::new(alloc, 1 << 20, most)
        }
    }
}

impl Write for Sink {
    fn write(&mut self, buf: &[u8]) -> io::Result<usize> {
        if self.interruptions < self.times {
            self.interruptions += 1;
            return Err(io::Error::from(ErrorKind::Interrupted));
        }
        self.interruptions = 0;
        if self.held.len() >= self.room && self.fails {
            return Err(io::Error::from(ErrorKind::BrokenPipe));
        }
        let left = self.room.saturating_sub(self.held.len());
        let n = self.most.min(left).min(buf.len());
        self.held.extend_from_slice(&buf[..n])?;
        Ok(n)
    }

    fn flush(&mut self) -> io::Result<()> {
        Ok(())
    }
}

impl Destination for Sink {
    fn write_next(&mut self, bytes: &[u8]) -> io::Result<usize> {
        self.write(bytes)
    }
}
