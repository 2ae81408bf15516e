//! The index of a section, written.

ghost use Rattle.std.specs.Prelude.{◌≡◌, ◌≤◌, ℕ, List, MatchResult, OnOk};
ghost use Rattle.std.specs.Io.KnownBytes.{Appends, Consumes};
ghost use Rattle.dl_input.specs.Failing.{Blames};
ghost use Rattle.dl_print.specs.Output.{BlamesWriter as PrintBlames, TellsOut};
ghost use Rattle.dl_sections.specs.Blaming.{BlamesWriter};
ghost use Rattle.dl_sections.specs.Commands.{strings_in};
ghost use Rattle.dl_sections.specs.Ending.{WhereWhole};
ghost use Rattle.dl_making.specs.Writes.{Writes, WritesAround};

use crate::making::{Table, make_index, make_index_around};
use dl_input::Source;
use dl_output::Destination;
use dl_pack::SetMemory;
use dl_print::{Printer, Summary, WriteFault};
use dl_sections::{Options, RunFault, SECTION_LIMIT, Survey};

/// Makes the index of a section as `make_index` does, and writes it. Where none can be made, nothing is written.
///
/// The faults are those of `make_index`, and `Write` where the writer fails.
pub fn write_index<M: SetMemory, R: Source, W: Destination>(
    memory: &M,
    input: &mut R,
    output: &mut W,
    table: &Table<'_>,
    options: &Options<'_>,
) -> Result<Summary, RunFault>
    requires { options.now.limit ≤ SECTION_LIMIT }
    ensures ran { (bs : List ℕ) × Consumes (R.remaining input.old) (R.remaining input.new) bs
        × Writes (M.refuses memory.now) options.now.dialect (strings_in options.now) table.now options.now.limit bs (R.remaining input.new)
        (W.contents output.old) (W.contents output.new) result }
    ensures blames { Blames R.follows R.fails input.old input.new (result ≡ Err RunFault.Read) }
    ensures blames_writer { BlamesWriter W.fails result }
    ensures over { OnOk result (R.over input.new) }
{
    let made = make_index(memory, input, table, options)?;
    match put_bytes(output, made.index.as_slice()) {
        Ok(()) => Ok(made.summary),
        Err(lost) => Err(RunFault::Write { out: lost.out }),
    }
}

/// Makes the index of a section as `make_index_around` does, and writes it. Where none can be made, nothing is written.
///
/// The faults are those of `make_index_around`, and `Write` where the writer fails.
pub fn write_index_around<M: SetMemory, R: Source, W: Destination>(
    memory: &M,
    input: &mut R,
    output: &mut W,
    table: &Table<'_>,
    options: &Options<'_>,
) -> Result<Survey, RunFault>
    requires { options.now.limit ≤ SECTION_LIMIT }
    ensures ran { (bs : List ℕ) × Consumes (R.remaining input.old) (R.remaining input.new) bs
        × WritesAround (M.refuses memory.now) options.now.dialect (strings_in options.now) table.now options.now.limit bs (R.remaining input.new)
        (W.contents output.old) (W.contents output.new) result }
    ensures blames { Blames R.follows R.fails input.old input.new (result ≡ Err RunFault.Read) }
    ensures blames_writer { BlamesWriter W.fails result }
    ensures over { WhereWhole (R.over input.new) result }
{
    let made = make_index_around(memory, input, table, options)?;
    match put_bytes(output, made.index.as_slice()) {
        Ok(()) => Ok(made.survey),
        Err(lost) => Err(RunFault::Write { out: lost.out }),
    }
}

/// Writes bytes, and all of them out.
pub(crate) fn put_bytes<W: Destination>(output: &mut W, bytes: &[u8]) -> Result<(), WriteFault>
    ensures written { MatchResult result (λ _. Appends (W.contents output.old) (W.contents output.new) bytes.now)
        (TellsOut (W.contents output.old) (W.contents output.new) bytes.now) }
    ensures blames_writer { PrintBlames W.fails result }
{
    let mut printer = Printer::new();
    match printer.put(output, bytes) {
        Ok(()) => printer.flush(output),
        Err(lost) => Err(lost),
    }
}
