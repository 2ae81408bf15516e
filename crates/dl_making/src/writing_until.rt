//! The index of the units of a section before its end or a fault, written.

ghost use Rattle.std.specs.Prelude.{◌≡◌, ◌≤◌, ℕ, List, OnOk};
ghost use Rattle.std.specs.Io.KnownBytes.{Consumes};
ghost use Rattle.dl_input.specs.Failing.{Blames};
ghost use Rattle.dl_sections.specs.Blaming.{BlamesWriter};
ghost use Rattle.dl_sections.specs.Commands.{strings_in};
ghost use Rattle.dl_sections.specs.Ending.{WhereWhole};
ghost use Rattle.dl_making.specs.WritesUntil.{WritesMade, WritesUntil, WritesUntilAround};

use crate::making::Table;
use crate::until::{make_index_until, make_index_until_around};
use crate::writing::put_bytes;
use dl_input::Source;
use dl_memory::NoMemory;
use dl_output::Destination;
use dl_pack::SetMemory;
use dl_print::Summary;
use dl_sections::{Options, RunFault, SECTION_LIMIT, Survey};

/// Makes the index of a section as `make_index_until` does, and writes it: also where the reading ended with a fault, which
/// is then answered. Where memory was refused nothing is written, and `NoMemory` answered.
///
/// The faults are those of `make_index_until`, `NoMemory` also where it is refused for the index alone, and before them
/// `Write` where the writer fails.
pub fn write_index_until<M: SetMemory, R: Source, W: Destination>(
    memory: &M,
    input: &mut R,
    output: &mut W,
    table: &Table<'_>,
    options: &Options<'_>,
) -> Result<Summary, RunFault>
    requires { options.now.limit ≤ SECTION_LIMIT }
    ensures ran { (bs : List ℕ) × Consumes (R.remaining input.old) (R.remaining input.new) bs
        × WritesUntil (M.refuses memory.now) options.now.dialect (strings_in options.now) table.now options.now.limit bs
        (R.remaining input.new) (W.contents output.old) (W.contents output.new) result }
    ensures blames { Blames R.follows R.fails input.old input.new (result ≡ Err RunFault.Read) }
    ensures blames_writer { BlamesWriter W.fails result }
    ensures over { OnOk result (R.over input.new) }
{
    let made = make_index_until(memory, input, table, options);
    put_made(output, &made.index, made.ended)
}

/// Makes the index of a section as `make_index_until_around` does, and writes it as `write_index_until` does.
///
/// The faults are those of `make_index_until_around`, `NoMemory` also where it is refused for the index alone, and before
/// them `Write` where the writer fails.
pub fn write_index_until_around<M: SetMemory, R: Source, W: Destination>(
    memory: &M,
    input: &mut R,
    output: &mut W,
    table: &Table<'_>,
    options: &Options<'_>,
) -> Result<Survey, RunFault>
    requires { options.now.limit ≤ SECTION_LIMIT }
    ensures ran { (bs : List ℕ) × Consumes (R.remaining input.old) (R.remaining input.new) bs
        × WritesUntilAround (M.refuses memory.now) options.now.dialect (strings_in options.now) table.now options.now.limit bs
        (R.remaining input.new) (W.contents output.old) (W.contents output.new) result }
    ensures blames { Blames R.follows R.fails input.old input.new (result ≡ Err RunFault.Read) }
    ensures blames_writer { BlamesWriter W.fails result }
    ensures over { WhereWhole (R.over input.new) result }
{
    let made = make_index_until_around(memory, input, table, options);
    put_made(output, &made.index, made.ended)
}

/// Writes an index, where there is one, beside which the reading ended so.
fn put_made<A: Copy, W: Destination>(
    output: &mut W,
    index: &Result<Vec<u8>, NoMemory>,
    ended: Result<A, RunFault>,
) -> Result<A, RunFault>
    ensures written { WritesMade ended index.now (W.contents output.old) (W.contents output.new) result }
    ensures blames_writer { BlamesWriter W.fails ended → BlamesWriter W.fails result }
{
    match index {
        Ok(index) => match put_bytes(output, index.as_slice()) {
            Ok(()) => ended,
            Err(lost) => Err(RunFault::Write { out: lost.out }),
        },
        Err(NoMemory) => Err(RunFault::NoMemory),
    }
}
