//! What the program does for `addr` over an index.
ghost use Rattle.std.specs.Prelude.{◌≡◌, ◌==◌, ℕ, List, Bool, Some, IfOk, IfErr, MatchResult, option_map, true};
ghost use Rattle.std.specs.Option.{option_copied};
ghost use Rattle.std.specs.Io.KnownBytes.{Consumes};
ghost use Rattle.dl_input.specs.Failing.{Blames};
ghost use Rattle.dl_dialogue.specs.Dialogues.{IsLong};
ghost use Rattle.dl_program.specs.Blaming as stops;
ghost use Rattle.dl_locating.specs.Blaming.{IsFailedRead, IsNoRun};
ghost use Rattle.std.specs.declared.io.Error.{Error};
ghost use Rattle.dl_cmd.specs.Job.{addr_words_made};
ghost use Rattle.dl_elf.specs.Notes.{build_id_bytes};
ghost use Rattle.dl_elf.specs.Source.{ForBytes};
ghost use Rattle.dl_open.specs.BuildIds.{IsBuildId};
ghost use Rattle.dl_index.specs.IsIndex.{IsIndex};
ghost use Rattle.dl_index_file.specs.Opening.{source_of};
ghost use Rattle.dl_index_file.specs.Reading.{ReadFails};
ghost use Rattle.dl_dialogue.specs.Faults.{BlamesWriter};
ghost use Rattle.dl_locating.specs.Answering.{AnswersAsked, AsksOf, located_by};
ghost use Rattle.dl_locating.specs.Indexing.{RefusesNaming};
ghost use Rattle.dl_locating.specs.OverIndex.{LocatesInIndex, MadeOf, OwnIdRefused, has_id, location_in};
ghost use Rattle.dl_locating.specs.Understood.{IsUnderstood};

use crate::addr_words::{AskedWords, suits_index};
use crate::answering::{answer_asked, answer_made, stop_of_answer};
use crate::indexing::build_id;
use crate::located::Located;
use dl_cmd::AddrWords;
use dl_dialogue::{AnswerFault, Answered};
use dl_elf::{BuildId, ReadAt};
use dl_index_file::{FileFinder, IndexFile, open_index};
use dl_input::Source;
use dl_making::id_front;
use dl_memory::Memory;
use dl_open::{FileFault, FileSource, open_file};
use dl_output::Destination;
use dl_program::Stop;

/// From how many addresses among the words on an index is read whole: each takes some fifteen reads of a few bytes.
const FEW: usize = 64;

/// Answers from the index at this path, which is open.
pub fn in_index<'a, M: Memory, F: FileSource, S: ReadAt, R: Source, W: Destination>(
    memory: &M,
    words: &AddrWords<'a>,
    path: &'a str,
    file: &S,
    understood: &AskedWords,
    files: &F,
    input: &mut R,
    output: &mut W,
) -> Result<Located, Stop<'a>>
    ensures located { (bytes : List ℕ) × Consumes (R.remaining input.old) (R.remaining input.new) bytes
        × (IsUnderstood (addr_words_made words.now) understood.now → ForBytes (S.all_bytes file.now)
        (λ b. LocatesInIndex (M.refuses memory.now) (F.held files.now) (F.fails_with files.now) (S.fails_with file.now) path.entry
        (addr_words_made words.now) b bytes (R.remaining input.new) (W.contents output.old) (W.contents output.new) result)) }
    ensures blames { Blames R.follows R.fails input.old input.new (IsFailedRead (R.remaining input.old)
        (R.remaining input.new) result) }
    ensures blames_writer { stops.BlamesWriter W.fails result }
{
    if !suits_index(words) {
        return Err(Stop::NotUnderstood);
    }
    let index = match open_index(file) {
        Ok(index) => index,
        Err(fault) => return Err(Stop::Index { path, fault }),
    };
    check_made_of(words, path, files, index.build_id())?;
    located_by(
        path,
        answer_from(memory, words, understood, &index, input, output),
    )
}

/// Whether so few addresses are among the words that small reads for each of them take less than all of an index; none is where
/// they come on the input.
fn are_few(understood: &AskedWords) -> bool {
    let count = understood.asked.len();
    1 <= count && count < FEW
}

/// Answers from an index. Where many addresses are asked for, or they come on the input, it is read whole before, unless it is
/// long or memory is refused for that.
fn answer_from<M: Memory, S: ReadAt, R: Source, W: Destination>(
    memory: &M,
    words: &AddrWords<'_>,
    understood: &AskedWords,
    index: &IndexFile<'_, S>,
    input: &mut R,
    output: &mut W,
) -> Result<Answered, AnswerFault>
    ensures answers { (bytes : List ℕ) × Consumes (R.remaining input.old) (R.remaining input.new) bytes
        × (IsUnderstood (addr_words_made words.now) understood.now → ForBytes (S.all_bytes (source_of index.now))
        (λ b. IsIndex b → AnswersAsked (M.refuses memory.now) (addr_words_made words.now) (location_in b)
        (ReadFails (Some b) (S.fails_with (source_of index.now))) (AsksOf b) bytes (R.remaining input.new) (W.contents output.old)
        (W.contents output.new) result)) }
    ensures blames { Blames R.follows R.fails input.old input.new ((result ≡ Err AnswerFault.Input)
        × ¬ IsLong (R.remaining input.old) (R.remaining input.new)) }
    ensures blames_writer { BlamesWriter W.fails result }
{
    if !are_few(understood) {
        if let Some(bytes) = index.whole(memory) {
            return answer_made(memory, words, understood, bytes.as_slice(), input, output);
        }
    }
    let mut finder = FileFinder::of(index);
    answer_asked(memory, words, understood, &mut finder, input, output)
}

/// What came of all.
pub fn located_by<'a>(
    path: &'a str,
    answered: Result<Answered, AnswerFault>,
) -> Result<Located, Stop<'a>>
    ensures { result ≡ located_by path.entry answered }
{
    match answered {
        Ok(answered) => Ok(Located {
            found: answered.found,
            no_address: answered.no_address,
        }),
        Err(fault) => Err(stop_of_answer(path, fault)),
    }
}

/// Checks that the index at a path, which has this build ID, is of the file that the words name, where they name one.
fn check_made_of<'a, F: FileSource>(
    words: &AddrWords<'a>,
    path: &'a str,
    files: &F,
    id: &[u8],
) -> Result<(), Stop<'a>>
    ensures made { MadeOf (F.held files.now) (F.fails_with files.now) (addr_words_made words.now) path.entry id.now result }
    ensures runs { IfErr result IsNoRun }
{
    let Some(made_of) = words.made_of else {
        return Ok(());
    };
    match own_id(files, made_of) {
        Ok(own) => {
            if has_id(own.as_ref(), id) {
                Ok(())
            } else {
                Err(Stop::OtherFile { path })
            }
        }
        Err(fault) => Err(Stop::File {
            path: made_of,
            fault,
        }),
    }
}

/// The build ID of the file at a path.
fn own_id<F: FileSource>(files: &F, path: &str) -> Result<Option<BuildId>, FileFault>
    ensures { ForBytes (F.held files.now path.now) (λ f. MatchResult result
        (λ id. IsBuildId f (option_map build_id_bytes id)) (OwnIdRefused (F.fails_with files.now path.now) f)) }
{
    let file = open_file(files, path)?;
    build_id(&file)
}

/// Whether there is a build ID, and an index has its front.
fn has_id(own: Option<&BuildId>, id: &[u8]) -> bool
    ensures { result ≡ has_id (option_map build_id_bytes (option_copied own.entry)) id.now }
{
    match own {
        Some(own) => id_front(own.as_bytes()) == id,
        None => false,
    }
}
