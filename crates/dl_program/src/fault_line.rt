//! The line of a fault of a section, put together in a room of its own.
ghost use Rattle.std.specs.Prelude.{◌≡◌, ◌+◌, ◌≤◌, ◌++◌, length, take, OnErr, OnOk};
ghost use Rattle.std.specs.Io.KnownBytes.{Appends};
ghost use Rattle.dl_sections.specs.RunText.{run_fault_text};
ghost use Rattle.dl_open.specs.Stops.{stop_line};

use dl_head::counted::write_all;
use dl_output::Destination;
use dl_print::{write_bytes, write_damage, write_hexadecimal_number};
use dl_sections::RunFault;
use std::io;
use std::io::ErrorKind;

/// How many bytes the line of a fault has at most.
const ROOM: usize = 256;

/// Writes the text of a fault, and answers where it ends.
fn write_fault(buffer: &mut [u8], at: usize, fault: RunFault) -> usize
    requires { at + 128 ≤ length buffer.old }
    ensures written { take result buffer.new ≡ take at buffer.old ++ run_fault_text fault }
    ensures room { result ≤ at + 128 }
{
    match fault {
        RunFault::Damage { offset, kind } => write_damage(buffer, at, offset, kind),
        RunFault::NoMemory => write_bytes(buffer, at, b"out of memory"),
        RunFault::Read => write_bytes(buffer, at, b"cannot read the input"),
        RunFault::Write { .. } => write_bytes(buffer, at, b"cannot write the output"),
        RunFault::SectionTooLong => write_bytes(buffer, at, b"section too long"),
        RunFault::NotFound => write_bytes(buffer, at, b"no line for this address"),
        RunFault::TwoSums => write_bytes(buffer, at, b"two MD5 sums of one path"),
        RunFault::NoUnit => write_bytes(buffer, at, b"no unit at this offset"),
        RunFault::ForeignUnit { unit } => {
            let at = write_hexadecimal_number(buffer, at, b"unit 0x", unit);
            write_bytes(buffer, at, b" is not version 5")
        }
        RunFault::Emit { unit, .. } => {
            let at = write_hexadecimal_number(buffer, at, b"cannot write unit 0x", unit);
            write_bytes(buffer, at, b": unit too long")
        }
    }
}

/// Writes the line of a fault.
pub fn write_fault_line<W: Destination>(errors: &mut W, fault: RunFault) -> io::Result<()>
    ensures written { OnOk result
        (Appends (W.contents errors.old) (W.contents errors.new) (stop_line (run_fault_text fault))) }
    ensures blames { OnErr result W.fails }
{
    let mut line = [0; ROOM];
    let end = write_bytes(&mut line, 0, b"dwline: ");
    let end = write_fault(&mut line, end, fault);
    let end = write_bytes(&mut line, end, b"\n");
    match write_all(errors, &line[..end]) {
        Ok(()) => Ok(()),
        Err(_) => Err(io::Error::from(ErrorKind::WriteZero)),
    }
}
