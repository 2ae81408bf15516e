//! The output, printed through one buffer.
mod fields;
mod lines;
mod string_sections;
mod tables;
mod values;

ghost use Rattle.std.specs.Prelude.{◌≡◌, ◌+◌, ◌^◌, ◌<◌, ◌≤◌, ℕ, List, [], ◌++◌, Option, length, take, IfSome, IfNone};
ghost use Rattle.std.specs.Prelude.{IfOk, OnOk, IfErr, MatchResult};
ghost use Rattle.std.specs.Io.KnownBytes.{Appends, Keeps};
ghost use Rattle.dl_print.specs.Output.{BlamesWriter, HasOut, HasPrinted, TellsOut, Flushes, Prints, printed_len};

use crate::fault::WriteFault;
use crate::text::write_bytes;
use dl_head::counted::write_all;
use dl_output::Destination;
use std::marker::Model;
pub use string_sections::{StringSection, StringSections, text_in_section};

/// How many bytes a printer holds at most.
const BUFFER_LEN: usize = 65536;

/// How many bytes a text has at most that is written into the buffer itself.
const PIECE: usize = 256;

/// Prints through one buffer, and counts the bytes that are out.
///
/// The writer is lent at each call. After a fault nothing more is to be printed.
#[derive(Drop)]
pub struct Printer {
    buffer: [u8; BUFFER_LEN],
    held: usize,
    out: u128,
}

impl Model for Printer {
    ghost use Rattle.std.specs.Prelude.{◌≤◌, take};
    ghost use Rattle.dl_print.specs.Printed.{Printed};
    ghost use Rattle.dl_print.specs.declared.output.TheConstants.{BUFFER_LEN};

    ghost Value = { Printed };

    ghost view = { λ p. record { pending = take p.held p.buffer; out = p.out } };

    ghost invariant = { λ p. p.held ≤ BUFFER_LEN };
}

/// Writes bytes on top of the `out` that are out, and answers how many are out then. Where a count
/// of 128 bits can't tell that, it writes none of them.
fn write_on<W: Destination>(output: &mut W, out: u128, bytes: &[u8]) -> Result<u128, WriteFault>
    ensures printed { (start : Option (List ℕ)) (text : List ℕ)
        → HasPrinted start (W.contents output.old) text (record { pending = bytes.now; out = out })
        → MatchResult result
        (λ n. HasPrinted start (W.contents output.new) text (record { pending = []; out = n }))
        (λ f. TellsOut start (W.contents output.new) text f) }
    ensures blames { BlamesWriter W.fails result }
{
    let Some(all) = out.checked_add(bytes.len() as u128) else {
        return Err(WriteFault { out });
    };
    match write_all(output, bytes) {
        Ok(()) => Ok(all),
        Err(part) => Err(WriteFault {
            out: out + part as u128,
        }),
    }
}

impl Printer {
    /// Nothing was printed.
    pub fn new() -> Printer
        ensures nothing_pending { result.pending ≡ [] }
        ensures nothing_out { result.out ≡ 0 }
    {
        Printer {
            buffer: [0; BUFFER_LEN],
            held: 0,
            out: 0,
        }
    }

    /// Writes what is held.
    pub fn flush<W: Destination>(&mut self, output: &mut W) -> Result<(), WriteFault>
        ensures printed { Flushes (W.contents output.old) (W.contents output.new)
            self.old self.new result }
        ensures empty { OnOk result (self.new.pending ≡ []) }
        ensures blames { BlamesWriter W.fails result }
    {
        self.out = write_on(output, self.out, &self.buffer[..self.held])?;
        self.held = 0;
        Ok(())
    }

    /// How many bytes are out.
    pub fn out(&self) -> u128
        ensures { result ≡ self.now.out }
    {
        self.out
    }

    /// Counts bytes that the caller wrote on the output itself, where nothing was held; at most up to 2^128 - 1.
    pub fn count(&mut self, len: u64)
        ensures pending { self.new.pending ≡ self.old.pending }
        ensures out { self.old.out + 2 ^ 64 ≤ 2 ^ 128 → self.new.out ≡ self.old.out + len }
    {
        self.out = self.out.saturating_add(len as u128);
    }

    /// Writes the bytes themselves, where nothing is held.
    fn pass<W: Destination>(&mut self, output: &mut W, bytes: &[u8]) -> Result<(), WriteFault>
        requires empty { self.old.pending ≡ [] }
        ensures printed { Prints (W.contents output.old) (W.contents output.new)
            self.old self.new bytes.now result }
        ensures blames { BlamesWriter W.fails result }
    {
        self.out = write_on(output, self.out, bytes)?;
        Ok(())
    }

    /// Prints the bytes, and first writes what is held where they don't fit beside it.
    pub fn put<W: Destination>(&mut self, output: &mut W, bytes: &[u8]) -> Result<(), WriteFault>
        ensures printed { Prints (W.contents output.old) (W.contents output.new)
            self.old self.new bytes.now result }
        ensures blames { BlamesWriter W.fails result }
    {
        if BUFFER_LEN - self.held < bytes.len() {
            self.flush(output)?;
            if BUFFER_LEN < bytes.len() {
                return self.pass(output, bytes);
            }
        }
        self.held = write_bytes(&mut self.buffer, self.held, bytes);
        Ok(())
    }

    /// Writes what is held where the buffer has no room beside it for `PIECE` bytes.
    #[inline]
    fn make_room<W: Destination>(&mut self, output: &mut W) -> Result<(), WriteFault>
        ensures printed { Flushes (W.contents output.old) (W.contents output.new)
            self.old self.new result }
        ensures room { OnOk result (length self.new.pending + PIECE ≤ BUFFER_LEN) }
        ensures blames { BlamesWriter W.fails result }
    {
        if BUFFER_LEN - self.held < PIECE {
            self.flush(output)?;
        }
        Ok(())
    }
}
