//! Prints address, file and line of each row of little-endian units on standard input.
#![tactic(auto)]

use dl_num::Order;
use dl_rows::{Event, Reader};
use std::io::{self, Read};
use std::process::ExitCode;

fn list(rt: &HostRuntime, reader: &mut Reader, bytes: &[u8]) -> io::Result<ExitCode> {
    let mut rest = bytes;
    for _ in 0..u64::MAX {
        let fed = match reader.feed(rest) {
            Ok(fed) => fed,
            Err(fault) => {
                eprintln!(rt; "byte {}: {}", fault.offset, fault.kind)?;
                return Ok(ExitCode::FAILURE);
            }
        };
        rest = &rest[fed.used..];
        match fed.event {
            Event::Row(row) => println!(rt; "{:#x} {} {}", row.address, row.file, row.line)?,
            Event::End => *reader = Reader::new(rt.alloc(), Order::Little),
            Event::Header | Event::Foreign(_) => {}
            Event::More | Event::NoMemory => break,
        }
    }
    Ok(ExitCode::SUCCESS)
}

fn main(rt: HostRuntime) -> io::Result<ExitCode> {
    let mut bytes = Vec::new(rt.alloc());
    rt.stdin().read_to_end(&mut bytes)?;
    list(&rt, &mut Reader::new(rt.alloc(), Order::Little), &bytes)
}
