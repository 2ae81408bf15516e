//! Bytes that are written, and counted.

ghost use Rattle.std.specs.Prelude.{◌≡◌, ◌<◌, ◌≤◌, ◌++◌, length, take, IfErr, IfNone, IfSome, OnErr, OnOk};
ghost use Rattle.std.specs.Io.KnownBytes.{Appends, Keeps};
ghost use Rattle.dl_num.specs.Fixed.{fixed_bytes as fixed_bytes_of};
ghost use Rattle.dl_table.specs.Writing.{Writes};

use dl_num::{Order, fixed_bytes};
use dl_output::{Destination, INTERRUPTIONS};
use std::io::ErrorKind;
use thiserror::Error;

/// Why a header wasn't written.
#[derive(Clone, Copy, Debug, PartialEq, Eq, Error)]
pub enum HeadWrite {
    /// The unit would be longer than its format allows; nothing was written.
    #[error("unit too long")]
    TooLong,
    /// The writer failed, or took nothing, after it took `out` bytes.
    #[error("cannot write the header")]
    Write { out: u64 },
}

/// One write, which is repeated where it was interrupted. None is a failed write.
fn write_some<W: Destination>(output: &mut W, bytes: &[u8]) -> Option<usize>
    ensures within { IfSome result (λ n. n ≤ length bytes.now) }
    ensures some { IfSome result (λ n.
        Appends (W.contents output.old) (W.contents output.new) (take n bytes.now)) }
    ensures none { IfNone result (Keeps (W.contents output.old) (W.contents output.new)) }
    ensures nothing { IfSome result (λ n. n ≡ 0 → 0 < length bytes.now → W.fails) }
    ensures blames { IfNone result W.fails }
{
    let mut interrupted = 0;
    loop {
        match output.write_next(bytes) {
            Ok(n) => return Some(n),
            Err(error) => {
                if error.kind() != ErrorKind::Interrupted || interrupted == INTERRUPTIONS {
                    return None;
                }
            }
        }
        interrupted += 1;
    }
}

/// Writes all of the bytes, or answers how many of them are out. A write that was interrupted is
/// repeated, a thousand times in a row; one that takes nothing has failed.
pub fn write_all<W: Destination>(output: &mut W, bytes: &[u8]) -> Result<(), usize>
    ensures ok { OnOk result (Appends (W.contents output.old) (W.contents output.new) bytes.now) }
    ensures err { IfErr result (λ out.
        Appends (W.contents output.old) (W.contents output.new) (take out bytes.now)) }
    ensures part { IfErr result (λ out. out < length bytes.now) }
    ensures blames { OnErr result W.fails }
{
    let mut out = 0;
    while out < bytes.len() {
        match write_some(output, &bytes[out..]) {
            None | Some(0) => return Err(out),
            Some(n) => out += n,
        }
    }
    Ok(())
}

/// Writes the bytes on top of the `out` that are out, and answers how many are out then; 2^64 - 1
/// where they are more.
pub fn put<W: Destination>(output: &mut W, out: u64, bytes: &[u8]) -> Result<u64, HeadWrite>
    ensures written { Writes (W.contents output.old) (W.contents output.new) out bytes.now result }
    ensures blames { OnErr result W.fails }
{
    match write_all(output, bytes) {
        Ok(()) => Ok(out.saturating_add(bytes.len() as u64)),
        Err(part) => Err(HeadWrite::Write {
            out: out.saturating_add(part as u64),
        }),
    }
}

/// Writes the lowest `size` bytes of a number, at most eight, as `put` does.
pub fn put_number<W: Destination>(
    output: &mut W,
    out: u64,
    order: Order,
    size: usize,
    number: u64,
) -> Result<u64, HeadWrite>
    requires { size ≤ 8 }
    ensures written { Writes (W.contents output.old) (W.contents output.new) out
        (fixed_bytes_of order size number) result }
    ensures blames { OnErr result W.fails }
{
    let bytes = fixed_bytes(order, size, number);
    put(output, out, bytes.as_slice())
}
