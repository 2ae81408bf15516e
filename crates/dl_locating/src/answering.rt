//! Addresses that are answered by what tells of them: those among the words, or those on the input as they come.
ghost use Rattle.std.specs.Prelude.{◌≡◌, ℕ, List, Option};
ghost use Rattle.std.specs.Io.KnownBytes.{Consumes};
ghost use Rattle.dl_input.specs.Failing.{Blames};
ghost use Rattle.dl_dialogue.specs.Dialogues.{IsLong};
ghost use Rattle.dl_addr.specs.Location.{Location};
ghost use Rattle.dl_cmd.specs.Job.{addr_words_made};
ghost use Rattle.dl_dialogue.specs.Answers.{Determines};
ghost use Rattle.dl_dialogue.specs.Faults.{BlamesWriter};
ghost use Rattle.dl_locating.specs.Answering.{AnswersAsked, answered_given, stop_of_answer};
ghost use Rattle.dl_locating.specs.OverElfFile.{AnswersMade};
ghost use Rattle.dl_locating.specs.Understood.{IsUnderstood};

use crate::addr_words::{AskedWords, part_name, style};
use dl_addr::WhichFound;
use dl_cmd::AddrWords;
use dl_dialogue::{AnswerFault, Answered, Nothing, Tell, TellFault, answer_all, answer_lines};
use dl_index::open_unchecked;
use dl_index_file::OpenFault;
use dl_input::Source;
use dl_memory::Memory;
use dl_output::Destination;
use dl_program::Stop;
use dl_sections::RunFault;

/// Answers the addresses among the words, or where there are none those on the input, as they come, by what `teller`
/// tells.
pub fn answer_asked<M: Memory, T: Tell, R: Source, W: Destination>(
    memory: &M,
    words: &AddrWords<'_>,
    understood: &AskedWords,
    teller: &mut T,
    input: &mut R,
    output: &mut W,
) -> Result<Answered, AnswerFault>
    ensures answers { (bytes : List ℕ) × Consumes (R.remaining input.old) (R.remaining input.new) bytes
        × ((f : ℕ → Option Location) → Determines (T.tells teller.old) f
        → IsUnderstood (addr_words_made words.now) understood.now
        → AnswersAsked (M.refuses memory.now) (addr_words_made words.now) f (T.fails_with teller.old) (T.asks teller.old) bytes (R.remaining input.new)
        (W.contents output.old) (W.contents output.new) result) }
    ensures blames { Blames R.follows R.fails input.old input.new ((result ≡ Err AnswerFault.Input)
        × ¬ IsLong (R.remaining input.old) (R.remaining input.new)) }
    ensures blames_writer { BlamesWriter W.fails result }
{
    let style = style(words, part_name(words));
    if understood.asked.is_empty() {
        let base = understood.base;
        return answer_lines(memory, teller, style, base, words.hex, input, output);
    }
    answered_given(answer_all(
        memory,
        teller,
        style,
        understood.base,
        understood.asked.as_slice(),
        output,
    ))
}

/// Answers from the bytes of an index; where there are none, each address has no answer.
pub fn answer_made<M: Memory, R: Source, W: Destination>(
    memory: &M,
    words: &AddrWords<'_>,
    understood: &AskedWords,
    index: &[u8],
    input: &mut R,
    output: &mut W,
) -> Result<Answered, AnswerFault>
    ensures answers { (bytes : List ℕ) × Consumes (R.remaining input.old) (R.remaining input.new) bytes
        × (IsUnderstood (addr_words_made words.now) understood.now
        → AnswersMade (M.refuses memory.now) (addr_words_made words.now) index.now bytes (R.remaining input.new) (W.contents output.old)
        (W.contents output.new) result) }
    ensures blames { Blames R.follows R.fails input.old input.new ((result ≡ Err AnswerFault.Input)
        × ¬ IsLong (R.remaining input.old) (R.remaining input.new)) }
    ensures blames_writer { BlamesWriter W.fails result }
{
    match open_unchecked(index) {
        Ok(mut index) => answer_asked(memory, words, understood, &mut index, input, output),
        Err(_) => answer_asked(memory, words, understood, &mut Nothing, input, output),
    }
}

/// What came of addresses that were given among the words.
fn answered_given(found: Result<WhichFound, AnswerFault>) -> Result<Answered, AnswerFault>
    ensures { result ≡ answered_given found }
{
    match found {
        Ok(found) => Ok(Answered {
            found,
            no_address: None,
        }),
        Err(fault) => Err(fault),
    }
}

/// Why the program stops where not all addresses are answered from the file at this path.
pub fn stop_of_answer<'a>(path: &'a str, fault: AnswerFault) -> Stop<'a>
    ensures { result ≡ stop_of_answer path.entry fault }
{
    match fault {
        AnswerFault::Input => Stop::Run(RunFault::Read),
        AnswerFault::Tell(TellFault::Read(error)) => Stop::Index {
            path,
            fault: OpenFault::Read(error),
        },
        AnswerFault::Tell(TellFault::NoMemory) => Stop::Run(RunFault::NoMemory),
        AnswerFault::Write(lost) => Stop::Run(RunFault::Write { out: lost.out }),
    }
}
