//! A string section, read whole.
ghost use Rattle.dl_input.specs.Failing.{Blames};
ghost use Rattle.std.specs.Prelude.{◌≡◌, ◌≤◌, ℕ, List, length, MatchResult, OnOk};
ghost use Rattle.std.specs.Io.KnownBytes.{Consumes, IsAtEnd};
ghost use Rattle.dl_sections.specs.Strings.{StopsReading};

use crate::fault::RunFault;
use dl_input::{Input, Source};
use dl_memory::Memory;

/// All bytes of a string section, of which there may be `limit`.
///
/// `SectionTooLong` where there are more, `Read` where the reader fails, `NoMemory` where memory
/// was refused for them.
pub fn read_strings<M: Memory, R: Source>(
    memory: &M,
    input: &mut R,
    limit: u64,
) -> Result<Vec<u8>, RunFault>
    ensures ran { (bs : List ℕ) × Consumes (R.remaining input.old) (R.remaining input.new) bs
        × MatchResult result
        (λ bytes. (bytes.items ≡ bs) × (length bs ≤ limit) × IsAtEnd (R.remaining input.new))
        (StopsReading (M.refuses memory.now) limit bs) }
    ensures blames { Blames R.follows R.fails input.old input.new
        (result ≡ Err RunFault.Read) }
    ensures over { OnOk result (R.over input.new) }
{
    let mut bytes = Vec::new(memory.alloc());
    let mut buffer = Input::new();
    loop {
        let Ok(piece) = buffer.next_piece(input) else {
            return Err(RunFault::Read);
        };
        if piece.is_empty() {
            return Ok(bytes);
        }
        if limit - (bytes.len() as u64) < piece.len() as u64 {
            return Err(RunFault::SectionTooLong);
        }
        let Ok(()) = memory.extend_from_slice(&mut bytes, piece) else {
            return Err(RunFault::NoMemory);
        };
    }
}
