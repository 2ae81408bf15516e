//! The command that answers lines with addresses, and goes on after damaged units.

ghost use Rattle.std.specs.Prelude.{◌≡◌, ◌≤◌, ℕ, Bool, true, false, List, Option, Err, None, IfOk, IsOk, OnOk};
ghost use Rattle.dl_memory.specs.Refusals.{IsRefused};
ghost use Rattle.std.specs.Io.KnownBytes.{Consumes};
ghost use Rattle.dl_input.specs.Failing.{Blames};
ghost use Rattle.dl_sections.specs.Blaming.{BlamesWriter};
ghost use Rattle.dl_sections.specs.Commands.{strings_in};
ghost use Rattle.dl_sections.specs.Section.{Visit};
ghost use Rattle.dl_addr.specs.Printing.{told_around};
ghost use Rattle.dl_lines.specs.declared.question.Wanted.{Wanted};
ghost use Rattle.dl_lines.specs.declared.seeker.LineSeeker as seekers;
ghost use Rattle.dl_lines.specs.AroundCommands.{TellsLinesAround};
ghost use Rattle.dl_lines.specs.Printing.{AnsweredAround, is_no_memory, wanted_found, wanted_text};
ghost use Rattle.dl_lines.specs.Room.{told_room};
ghost use Rattle.dl_lines.specs.Seeking.{IsMadeFor, Seeking, heard_after, known_of, nothing_heard};

use crate::answering::{is_no_memory, seeker_of};
use crate::printing::print_all;
use crate::question::LinesQuestion;
use crate::seeker::LineSeeker;
use dl_addr::{FoundAround, WhichFound};
use dl_input::Source;
use dl_memory::Memory;
use dl_output::Destination;
use dl_print::{StringSections, WriteFault};
use dl_sections::{Options, RunFault, SECTION_LIMIT, Survey, read_units_around};

/// Answers each line that is wanted as `lines` does, and goes on after units that are damaged, which have no places.
///
/// The section is read as `read_units_around` reads it. Then the lines are printed that the whole units before its end, or
/// before the fault, answer. The faults are those of `lines` but for `Damage`: of damaged units the answer says what is wrong
/// with the first, and how many others there are. Where memory is refused, nothing is printed.
#[inline(never)]
pub fn lines_around<M: Memory, R: Source, W: Destination>(
    memory: &M,
    input: &mut R,
    output: &mut W,
    question: &LinesQuestion<'_>,
    options: &Options<'_>,
) -> Result<FoundAround, RunFault>
    requires { options.now.limit ≤ SECTION_LIMIT }
    ensures ran { (bs : List ℕ) × Consumes (R.remaining input.old) (R.remaining input.new) bs
        × TellsLinesAround (M.refuses memory.now) options.now.dialect (strings_in options.now) question.now options.now.limit bs
        (R.remaining input.new) (W.contents output.old) (W.contents output.new) result }
    ensures blames { Blames R.follows R.fails input.old input.new (result ≡ Err RunFault.Read) }
    ensures blames_writer { BlamesWriter W.fails result }
    ensures over { IfOk result (λ around. around.damaged ≡ None → R.over input.new) }
{
    let strings = StringSections::new(options.debug_line_str, options.debug_str);
    let Ok(mut seeker) = seeker_of(memory, &strings, question) else {
        return Err(RunFault::NoMemory);
    };
    let ended = read_units_around(memory.alloc(), input, output, options, &mut seeker);
    answer_around(&mut seeker, output, ended)
}

/// What is answered where the reading around damaged units ended so.
fn answer_around<M: Memory, W: Destination>(
    seeker: &mut LineSeeker<'_, '_, '_, M>,
    output: &mut W,
    ended: Result<Survey, RunFault>,
) -> Result<FoundAround, RunFault>
    ensures refused { is_no_memory ended ≡ true
        → (result ≡ Err RunFault.NoMemory) × (W.contents output.new ≡ W.contents output.old) }
    ensures answered { (first : seekers.LineSeeker M) (start held : Option (List ℕ)) (visits : List Visit) (wanted : List Wanted)
        (exact : Bool) → is_no_memory ended ≡ false → Seeking M.refuses first seeker.old start held visits
        → IsMadeFor first wanted exact
        → AnsweredAround (IsRefused (M.refuses first.memory.now) (told_room (known_of first) visits)) (W.contents output.old)
        (W.contents output.new) (wanted_text exact (heard_after (known_of first) nothing_heard visits).ended wanted)
        (wanted_found exact (heard_after (known_of first) nothing_heard visits).ended wanted) ended result }
    ensures ends { IfOk result (λ around. IfOk ended (λ survey. around.damaged ≡ survey.damaged)) }
    ensures ok { OnOk result (IsOk ended) }
    ensures reads { result ≡ Err RunFault.Read → ended ≡ Err RunFault.Read }
    ensures blames_writer { BlamesWriter W.fails ended → BlamesWriter W.fails result }
{
    if is_no_memory(&ended) {
        return Err(RunFault::NoMemory);
    }
    let Ok(()) = seeker.order() else {
        return Err(RunFault::NoMemory);
    };
    let printed = print_all(seeker.searches(), output);
    told_around(ended, printed)
}

/// What is answered where the reading ended so, and then the lines were printed.
fn told_around(
    ended: Result<Survey, RunFault>,
    printed: Result<WhichFound, WriteFault>,
) -> Result<FoundAround, RunFault>
    ensures { result ≡ told_around ended printed }
{
    let found = printed?;
    let survey = ended?;
    Ok(FoundAround {
        found,
        damaged: survey.damaged,
    })
}
