//! An index of 2^59 stretches, in a file that has 1 in each byte behind the header.

use dl_crc::crc_32;
use dl_elf::ReadAt;
use dl_index_file::{FileFinder, open_index};
use std::cell::Cell;
use std::io;
use std::io::ErrorKind;
use std::test::Fail;

/// How many stretches there are.
const COUNT: u64 = 1 << 59;

/// How many texts there are: each file names text 0x01010101 three times.
const TEXTS: u64 = 0x0101_0101;

/// How many bytes of texts: each text has 0x0101010101010101 of them, from there on.
const TEXT_BYTES: u64 = 1 << 60;

/// How many bytes all are: starts of eight bytes, four more columns of one, a bit of each stretch, and the tables.
const LEN: u64 = 128 + COUNT * 8 + COUNT * 4 + COUNT / 8 + 24 + TEXTS * 16 + TEXT_BYTES;

/// Puts a number of eight bytes into a header.
fn put(header: &mut [u8; 128], place: usize, number: u64) {
    let bytes = number.to_le_bytes();
    for i in 0..8 {
        if place < 120 {
            header[place + i] = bytes[i];
        }
    }
}

/// The header.
fn header() -> [u8; 128] {
    let mut header = [0; 128];
    for i in 0..8 {
        header[i] = b"dlineidx"[i];
    }
    put(&mut header, 8, 1);
    put(&mut header, 16, LEN);
    put(&mut header, 32, COUNT);
    put(&mut header, 40, 1);
    put(&mut header, 48, TEXTS);
    put(&mut header, 56, TEXT_BYTES);
    put(&mut header, 64, 0x01_0101_0108);
    let sum = crc_32(&header).to_le_bytes();
    for i in 0..4 {
        header[76 + i] = sum[i];
    }
    header
}

/// The file, which counts its reads. Those from `fails_at` on fail.
#[derive(Drop)]
struct Ones {
    header: [u8; 128],
    count: Cell<u32>,
    fails_at: Cell<u32>,
}

impl Ones {
    fn new() -> Ones {
        Ones {
            header: header(),
            count: Cell::new(0),
            fails_at: Cell::new(u32::MAX),
        }
    }
}

impl ReadAt for Ones {
    fn read_at(&self, offset: u64, buffer: &mut [u8]) -> io::Result<usize> {
        let count = self.count.get();
        if self.fails_at.get() <= count {
            return Err(io::Error::from(ErrorKind::BrokenPipe));
        }
        self.count.set(count.wrapping_add(1));
        let n = buffer.len().min(LEN.saturating_sub(offset) as usize);
        for i in 0..n {
            let at = offset.wrapping_add(i as u64);
            buffer[i] = if at < 128 {
                self.header[at as usize]
            } else {
                1
            };
        }
        Ok(n)
    }
}

/// How many reads an address takes: 50 halvings leave 512 starts, one piece; then come that piece and nine numbers and rows.
const READS: u32 = 60;

#[test]
fn no_more_than_64_reads(rt: HostRuntime) -> Result<(), Fail> {
    let ones = Ones::new();
    let file = open_index(&ones)?;
    assert!(rt; file.count() == COUNT && !file.has_all_sequences());
    ones.count.set(0);
    let found = file.find(u64::MAX)?;
    let is_found = match found {
        Some(found) => found.line == 1 && !found.is_stmt && found.texts.third.is_some(),
        None => false,
    };
    assert!(rt; ones.count.get() == READS);
    assert!(rt; is_found);
    Ok(())
}

/// Whether an address isn't answered since a read fails.
fn fails(finder: &mut FileFinder<'_, '_, Ones>, address: u64) -> bool {
    match finder.find(address) {
        Ok(_) => false,
        Err(error) => error.kind() == ErrorKind::BrokenPipe,
    }
}

/// A read that fails leaves nothing behind that answers later.
#[test]
fn a_failure_is_not_kept(rt: HostRuntime) -> Result<(), Fail> {
    let ones = Ones::new();
    let file = open_index(&ones)?;
    for before in 0..READS {
        let mut finder = FileFinder::of(&file);
        ones.count.set(0);
        ones.fails_at.set(before);
        assert!(rt; fails(&mut finder, u64::MAX), "{before}");
        assert!(rt; fails(&mut finder, u64::MAX), "{before}");
        ones.fails_at.set(u32::MAX);
        assert!(rt; !fails(&mut finder, u64::MAX), "{before}");
    }
    Ok(())
}
