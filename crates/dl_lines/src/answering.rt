//! The command that answers lines with addresses.

ghost use Rattle.std.specs.Prelude.{◌≡◌, ◌≤◌, [], ℕ, Bool, true, false, List, Option, Err, IfOk, IsOk, OnErr, OnOk, length};
ghost use Rattle.dl_memory.specs.Refusals.{IsRefused};
ghost use Rattle.std.specs.Io.KnownBytes.{Appends, Consumes};
ghost use Rattle.dl_input.specs.Failing.{Blames};
ghost use Rattle.dl_print.specs.ValueText.{strings_of};
ghost use Rattle.dl_print.specs.Output.{BlamesWriter as PrintBlames};
ghost use Rattle.dl_sections.specs.Blaming.{BlamesWriter};
ghost use Rattle.dl_sections.specs.Commands.{strings_in};
ghost use Rattle.dl_sections.specs.Section.{Visit};
ghost use Rattle.dl_addr.specs.Printing.{told};
ghost use Rattle.dl_lines.specs.declared.question.Wanted.{Wanted};
ghost use Rattle.dl_lines.specs.declared.seeker.LineSeeker as seekers;
ghost use Rattle.dl_lines.specs.Commands.{TellsLines, known_by};
ghost use Rattle.dl_lines.specs.Kept.{is_exact};
ghost use Rattle.dl_lines.specs.Printing.{Answered, is_no_memory, wanted_found, wanted_text};
ghost use Rattle.dl_lines.specs.Room.{told_room};
ghost use Rattle.dl_lines.specs.Seeking.{IsMadeFor, Seeking, heard_after, known_of, nothing_heard};

use crate::printing::print_all;
use crate::question::LinesQuestion;
use crate::search::Lines;
use crate::seeker::LineSeeker;
use dl_addr::WhichFound;
use dl_input::Source;
use dl_memory::{Memory, NoMemory};
use dl_output::Destination;
use dl_print::{StringSections, Summary, WriteFault};
use dl_sections::{Options, RunFault, SECTION_LIMIT, read_units};

/// Answers each line that is wanted with its places, in the order in which they are asked: of the files whose path is the
/// wanted one, or ends in it after a slash, the first statement of each run of rows that have the line. Where it has none there,
/// the least line above it answers that has one. The places of a line are told by their addresses, each once; of a line without
/// an answer it is told that there is none.
///
/// The lines are printed once all units are read, or up to a fault: then the units before it answer, and the fault is answered.
/// Where memory is refused, nothing is printed. Of each line that is wanted the places are held in memory of the line that
/// answers so far, with the paths of the files that match in their units, and what is known of the files of one header.
#[inline(never)]
pub fn lines<M: Memory, R: Source, W: Destination>(
    memory: &M,
    input: &mut R,
    output: &mut W,
    question: &LinesQuestion<'_>,
    options: &Options<'_>,
) -> Result<WhichFound, RunFault>
    requires { options.now.limit ≤ SECTION_LIMIT }
    ensures ran { (bs : List ℕ) × Consumes (R.remaining input.old) (R.remaining input.new) bs
        × TellsLines (M.refuses memory.now) options.now.dialect (strings_in options.now) question.now options.now.limit bs
        (R.remaining input.new) (W.contents output.old) (W.contents output.new) result }
    ensures blames { Blames R.follows R.fails input.old input.new (result ≡ Err RunFault.Read) }
    ensures blames_writer { BlamesWriter W.fails result }
    ensures over { OnOk result (R.over input.new) }
{
    let strings = StringSections::new(options.debug_line_str, options.debug_str);
    let Ok(mut seeker) = seeker_of(memory, &strings, question) else {
        return Err(RunFault::NoMemory);
    };
    let ended = read_units(memory.alloc(), input, output, options, &mut seeker);
    answer(&mut seeker, output, ended)
}

/// What is answered where the reading ended so.
fn answer<M: Memory, W: Destination>(
    seeker: &mut LineSeeker<'_, '_, '_, M>,
    output: &mut W,
    ended: Result<Summary, RunFault>,
) -> Result<WhichFound, RunFault>
    ensures refused { is_no_memory ended ≡ true
        → (result ≡ Err RunFault.NoMemory) × (W.contents output.new ≡ W.contents output.old) }
    ensures answered { (first : seekers.LineSeeker M) (start held : Option (List ℕ)) (visits : List Visit) (wanted : List Wanted)
        (exact : Bool) → is_no_memory ended ≡ false → Seeking M.refuses first seeker.old start held visits
        → IsMadeFor first wanted exact
        → Answered (IsRefused (M.refuses first.memory.now) (told_room (known_of first) visits)) (W.contents output.old)
        (W.contents output.new) (wanted_text exact (heard_after (known_of first) nothing_heard visits).ended wanted)
        (wanted_found exact (heard_after (known_of first) nothing_heard visits).ended wanted) ended result }
    ensures ends { OnOk result (IsOk ended) }
    ensures reads { result ≡ Err RunFault.Read → ended ≡ Err RunFault.Read }
    ensures blames_writer { BlamesWriter W.fails ended → BlamesWriter W.fails result }
{
    if is_no_memory(&ended) {
        return Err(RunFault::NoMemory);
    }
    let Ok(()) = seeker.order() else {
        return Err(RunFault::NoMemory);
    };
    let printed = print_all(seeker.searches(), output);
    told(ended, printed)
}

/// Whether memory was refused.
pub fn is_no_memory<T>(ended: &Result<T, RunFault>) -> bool
    ensures { result ≡ is_no_memory ended.now }
{
    match ended {
        Err(RunFault::NoMemory) => true,
        _ => false,
    }
}

/// What is answered where the reading ended so, and then the lines were printed.
fn told(
    ended: Result<Summary, RunFault>,
    printed: Result<WhichFound, WriteFault>,
) -> Result<WhichFound, RunFault>
    ensures { result ≡ told ended printed }
{
    let found = printed?;
    ended?;
    Ok(found)
}

/// A seeker for what is asked.
pub fn seeker_of<'s, 'o, 'q, M: Memory>(
    memory: &'q M,
    strings: &'s StringSections<'o>,
    question: &LinesQuestion<'q>,
) -> Result<LineSeeker<'s, 'o, 'q, M>, NoMemory>
    ensures made { IfOk result (λ l. IsMadeFor l question.now.wanted.now question.now.exact) }
    ensures begins { IfOk result (λ l. (start : Option (List ℕ)) → Appends start start [] → Seeking M.refuses l l start start []) }
    ensures known { IfOk result (λ l. known_of l ≡ known_by (strings_of strings.now) question.now) }
    ensures memory { IfOk result (λ l. l.memory.now ≡ memory.now) }
    ensures refused { OnErr result (IsRefused (M.refuses memory.now) (length question.now.wanted.now)) }
{
    LineSeeker::build(
        memory,
        strings,
        question.code,
        question.directories,
        question.wanted,
        lines_of(question.exact),
    )
}

/// Which lines may answer.
fn lines_of(exact: bool) -> Lines
    ensures { is_exact result ≡ exact }
{
    if exact {
        Lines::Exact
    } else {
        Lines::LeastAbove
    }
}
