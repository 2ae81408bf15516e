//! The source files of a section.

ghost use Rattle.std.specs.Prelude.{◌≡◌, ◌≤◌, ◌||◌, ℕ, List, None, IfOk, OnOk};
ghost use Rattle.std.specs.Io.KnownBytes.{Consumes};
ghost use Rattle.dl_input.specs.Failing.{Blames};
ghost use Rattle.dl_sections.specs.Blaming.{BlamesWriter};
ghost use Rattle.dl_sections.specs.Commands.{strings_in};
ghost use Rattle.dl_sources.specs.AroundCommands.{ListsAround};
ghost use Rattle.dl_sources.specs.Commands.{Lists};
ghost use Rattle.dl_sources.specs.Ended.{is_want, told, told_around};

use crate::lister::Lister;
use crate::map_memory::MapMemory;
use crate::printing::print_table;
use crate::question::{SourcesAround, SourcesQuestion, Sums};
use dl_input::Source;
use dl_output::Destination;
use dl_print::{StringSections, Summary, WriteFault};
use dl_sections::{Options, RunFault, SECTION_LIMIT, Survey, read_units, read_units_around};

/// Prints each path that a table of files of a unit of the section names, once, in the order of their bytes, with what is asked
/// of it, and answers whether some path has two MD5 sums.
///
/// The lines are printed once all units are read, or up to a fault: then those of the units before it, and the fault is
/// answered. The faults are those of `check`, and `Write` where the writer fails; `NoMemory` also where a growth is refused
/// for the counts of the files of a header, for a path or for what is told of one, and then nothing is printed. Each path is
/// held in memory once, with its counts and sums, and of the current unit the tables of its header and the counts of its
/// files.
#[inline(never)]
pub fn sources<M: MapMemory, R: Source, W: Destination>(
    memory: &M,
    input: &mut R,
    output: &mut W,
    question: &SourcesQuestion<'_>,
    options: &Options<'_>,
) -> Result<Sums, RunFault>
    requires { options.now.limit ≤ SECTION_LIMIT }
    ensures ran { (bs : List ℕ) × Consumes (R.remaining input.old) (R.remaining input.new) bs
        × Lists (M.refuses memory.now) options.now.dialect (strings_in options.now) question.now options.now.limit bs
        (R.remaining input.new) (W.contents output.old) (W.contents output.new) result }
    ensures blames { Blames R.follows R.fails input.old input.new (result ≡ Err RunFault.Read) }
    ensures blames_writer { BlamesWriter W.fails result }
    ensures over { OnOk result (R.over input.new) }
{
    let strings = StringSections::new(options.debug_line_str, options.debug_str);
    let mut lister = Lister::new(memory, &strings, *question);
    let ended = read_units(memory.alloc(), input, output, options, &mut lister);
    if lacks_memory(lister.is_refused, &ended) {
        return Err(RunFault::NoMemory);
    }
    let printed = print_table(&lister.table, output, question);
    told(ended, printed)
}

/// Prints the paths as `sources` does, and goes on after units that are damaged, of which nothing is told.
///
/// The section is read as `read_units_around` reads it. Then the lines are printed that the whole units before its end, or
/// before the fault, tell. The faults are those of `sources` but for `Damage`: of damaged units the answer says what is wrong
/// with the first, and how many others there are.
#[inline(never)]
pub fn sources_around<M: MapMemory, R: Source, W: Destination>(
    memory: &M,
    input: &mut R,
    output: &mut W,
    question: &SourcesQuestion<'_>,
    options: &Options<'_>,
) -> Result<SourcesAround, RunFault>
    requires { options.now.limit ≤ SECTION_LIMIT }
    ensures ran { (bs : List ℕ) × Consumes (R.remaining input.old) (R.remaining input.new) bs
        × ListsAround (M.refuses memory.now) options.now.dialect (strings_in options.now) question.now options.now.limit
        bs (R.remaining input.new) (W.contents output.old) (W.contents output.new) result }
    ensures blames { Blames R.follows R.fails input.old input.new (result ≡ Err RunFault.Read) }
    ensures blames_writer { BlamesWriter W.fails result }
    ensures over { IfOk result (λ around. around.damaged ≡ None → R.over input.new) }
{
    let strings = StringSections::new(options.debug_line_str, options.debug_str);
    let mut lister = Lister::new(memory, &strings, *question);
    let ended = read_units_around(memory.alloc(), input, output, options, &mut lister);
    if lacks_memory(lister.is_refused, &ended) {
        return Err(RunFault::NoMemory);
    }
    let printed = print_table(&lister.table, output, question);
    told_around(ended, printed)
}

/// Whether memory was refused, for what was told or for the reading.
pub(crate) fn lacks_memory<A>(is_refused: bool, ended: &Result<A, RunFault>) -> bool
    ensures { result ≡ (is_refused || is_want ended.now) }
{
    is_refused || matches!(ended, Err(RunFault::NoMemory))
}

/// What is answered where the reading ended so, and then the lines were printed.
fn told(
    ended: Result<Summary, RunFault>,
    printed: Result<Sums, WriteFault>,
) -> Result<Sums, RunFault>
    ensures { result ≡ told ended printed }
{
    let sums = printed?;
    ended?;
    Ok(sums)
}

/// What is answered where the reading around damaged units ended so, and then the lines were printed.
fn told_around(
    ended: Result<Survey, RunFault>,
    printed: Result<Sums, WriteFault>,
) -> Result<SourcesAround, RunFault>
    ensures { result ≡ told_around ended printed }
{
    let sums = printed?;
    let survey = ended?;
    Ok(SourcesAround {
        sums,
        damaged: survey.damaged,
    })
}
