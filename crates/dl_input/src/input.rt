//! The input, read through one buffer.
ghost use Rattle.std.specs.Prelude.{◌≡◌, ◌<◌, ◌≤◌, [], length, take, IfOk, IsErr, OnErr};
ghost use Rattle.std.specs.Io.KnownBytes.{Consumes, Keeps, IsAtEnd};
ghost use Rattle.dl_input.specs.Ending.{Ends};
ghost use Rattle.dl_input.specs.Failing.{Blames};

use crate::source::Source;
use dl_output::INTERRUPTIONS;
use std::io::ErrorKind;

/// How many bytes one read gives at most.
const READ: usize = 4096;

/// The reader failed, or was interrupted too often.
#[derive(Clone, Copy, Debug, PartialEq, Eq)]
pub struct ReadFailed;

/// One read, which is repeated where it was interrupted. It answers how many bytes it gave.
fn read_some<R: Source>(reader: &mut R, buffer: &mut [u8]) -> Result<usize, ReadFailed>
    ensures within { IfOk result (λ n. n ≤ length buffer.new) }
    ensures ok { IfOk result (λ n.
        Consumes (R.remaining reader.old) (R.remaining reader.new) (take n buffer.new)) }
    ensures end { IfOk result (λ n.
        n ≡ 0 → 0 < length buffer.new → IsAtEnd (R.remaining reader.new)) }
    ensures err { OnErr result (Keeps (R.remaining reader.old) (R.remaining reader.new)) }
    ensures blames { Blames R.follows R.fails reader.old reader.new (IsErr result) }
    ensures over { Ends R.over buffer.new reader.new result }
{
    let mut interrupted = 0;
    loop {
        match reader.read_next(buffer) {
            Ok(n) => return Ok(n),
            Err(error) => {
                if error.kind() != ErrorKind::Interrupted || interrupted == INTERRUPTIONS {
                    return Err(ReadFailed);
                }
            }
        }
        interrupted += 1;
    }
}

/// The buffer through which an input is read.
#[derive(Drop)]
pub struct Input {
    buffer: [u8; READ],
}

impl Input {
    /// An empty buffer.
    pub fn new() -> Input {
        Input { buffer: [0; READ] }
    }

    /// The next bytes of the input, up to 4,096; none at its end.
    pub fn next_piece<R: Source>(&mut self, reader: &mut R) -> Result<&[u8], ReadFailed>
        ensures ok { IfOk result (λ piece.
            Consumes (R.remaining reader.old) (R.remaining reader.new) piece.now) }
        ensures end { IfOk result (λ piece.
            piece.now ≡ [] → IsAtEnd (R.remaining reader.new)) }
        ensures short { IfOk result (λ piece. length piece.now ≤ 4096) }
        ensures err { OnErr result (Keeps (R.remaining reader.old) (R.remaining reader.new)) }
        ensures blames { Blames R.follows R.fails reader.old reader.new (IsErr result) }
        ensures over { IfOk result (λ piece. piece.now ≡ [] → R.over reader.new) }
    {
        let n = read_some(reader, &mut self.buffer)?;
        Ok(&self.buffer[..n])
    }
}
