//! What the program does for `addr` over an ELF file.
ghost use Rattle.std.specs.Prelude.{◌≡◌, ◌⊎◌, [], ℕ, List, true, false, Some, IfSome, IfNone};
ghost use Rattle.std.specs.Io.KnownBytes.{Consumes};
ghost use Rattle.dl_input.specs.Failing.{Blames};
ghost use Rattle.dl_held.specs.Holding.{CannotHold};
ghost use Rattle.dl_program.specs.Blaming.{BlamesOver, BlamesWriter, ReadsNothing};
ghost use Rattle.dl_locating.specs.Blaming.{IsFailedRead};
ghost use Rattle.dl_program.specs.Damages.{unheard};
ghost use Rattle.dl_locating.specs.OverIndex.{making};
ghost use Rattle.dl_program.specs.Tables.{OnFile};
ghost use Rattle.dl_program.specs.Units.{file_units};
ghost use Rattle.dl_cmd.specs.Job.{addr_words_made};
ghost use Rattle.dl_dirs.specs.Directories.{directory_at};
ghost use Rattle.dl_elf.specs.Source.{ForBytes};
ghost use Rattle.std.specs.Option.{option_copied};
ghost use Rattle.dl_locating.specs.OverElfFile.{IsToldOf, LocatesInElfFile, IsMade, LocatesByIndex, LocatesGiven, is_refused, located_after};
ghost use Rattle.dl_locating.specs.Understood.{IsUnderstood};

use crate::addr_words::{AskedWords, asking, making, part_name, question, wants_directories};
use crate::answering::{answer_asked, answer_made, stop_of_answer};
use crate::code::live_in;
use crate::compiled::compiled_in;
use crate::located::Located;
use crate::opening::code_and_directories;
use dl_cmd::AddrWords;
use dl_dialogue::{AnswerFault, Answered, Nothing};
use dl_dirs::Directories;
use dl_elf::ReadAt;
use dl_held::{Held, Refusing};
use dl_input::Source;
use dl_look::CodeRanges;
use dl_making::Table;
use dl_memory::NoMemory;
use dl_open::{FileFault, FileStop};
use dl_output::Destination;
use dl_program::{MapMemory, Stop, Unheard, answer_over_file, on_file, units_of_file};
use dl_sections::Survey;
use std::marker::Brand;

/// Looks into the ELF file at this path, which is open.
pub fn in_elf_file<'a, M: MapMemory, S: ReadAt, R: Source, W: Destination>(
    memory: &M,
    words: &AddrWords<'a>,
    path: &'a str,
    file: &S,
    understood: &AskedWords,
    input: &mut R,
    output: &mut W,
) -> Result<Located, Stop<'a>>
    ensures located { (bytes : List ℕ) × Consumes (R.remaining input.old) (R.remaining input.new) bytes
        × (IsUnderstood (addr_words_made words.now) understood.now → ForBytes (S.all_bytes file.now)
        (λ f. LocatesInElfFile (M.refuses memory.now) (S.fails_with file.now) path.entry (addr_words_made words.now) f bytes
        (R.remaining input.new) (W.contents output.old) (W.contents output.new) result)) }
    ensures blames { Blames R.follows R.fails input.old input.new (IsFailedRead (R.remaining input.old)
        (R.remaining input.new) result) }
    ensures blames_writer { BlamesWriter W.fails result }
{
    if words.made_of.is_some() {
        return Err(Stop::NotUnderstood);
    }
    let wanted = wants_directories(words);
    match code_and_directories(memory, wanted, file) {
        Ok((code, directories)) => {
            let code = code.as_ref();
            if understood.asked.is_empty() {
                by_index(
                    memory,
                    words,
                    path,
                    file,
                    code,
                    &directories,
                    understood,
                    input,
                    output,
                )
            } else {
                given(
                    memory,
                    words,
                    path,
                    file,
                    code,
                    &directories,
                    understood,
                    output,
                )
            }
        }
        Err(fault) => {
            let _ = answer_asked(memory, words, understood, &mut Nothing, input, output);
            Err(Stop::File { path, fault })
        }
    }
}

/// Answers the addresses among the words, in one pass over the line table.
fn given<'a, M: MapMemory, S: ReadAt, W: Destination>(
    memory: &M,
    words: &AddrWords<'a>,
    path: &'a str,
    file: &S,
    code: Option<&CodeRanges>,
    directories: &Directories,
    understood: &AskedWords,
    output: &mut W,
) -> Result<Located, Stop<'a>>
    ensures located { IsUnderstood (addr_words_made words.now) understood.now → ForBytes (S.all_bytes file.now)
        (λ f. LocatesGiven (M.refuses memory.now) (S.fails_with file.now) path.entry (addr_words_made words.now) f
        (option_copied code.entry) (directory_at directories.now) (W.contents output.old) (W.contents output.new) result) }
    ensures reads { ReadsNothing result }
    ensures blames_writer { BlamesWriter W.fails result }
{
    let question = question(
        words,
        part_name(words),
        understood.base,
        understood.asked.as_slice(),
        live_in(words.all, code),
        compiled_in(words.comp_dir, directories),
    );
    let command = asking(words, question);
    let units = units_of_file(words.units);
    let answer = on_file(
        memory,
        path,
        file,
        units,
        words.section,
        command,
        output,
        &mut Unheard,
    );
    Located::by_answer(answer_over_file(answer), None)
}

/// Makes the index of the line table in memory, and answers from it the addresses on the input, as they come.
fn by_index<'a, 'q, M: MapMemory, S: ReadAt, R: Source, W: Destination>(
    memory: &M,
    words: &'q AddrWords<'a>,
    path: &'a str,
    file: &S,
    code: Option<&'q CodeRanges>,
    directories: &'q Directories,
    understood: &AskedWords,
    input: &mut R,
    output: &mut W,
) -> Result<Located, Stop<'a>>
    ensures located { (bytes : List ℕ) × Consumes (R.remaining input.old) (R.remaining input.new) bytes
        × (IsUnderstood (addr_words_made words.now) understood.now → ForBytes (S.all_bytes file.now)
        (λ f. LocatesByIndex (M.refuses memory.now) (S.fails_with file.now) path.entry (addr_words_made words.now) f
        (option_copied code.entry) (directory_at directories.now) bytes (R.remaining input.new) (W.contents output.old)
        (W.contents output.new) result)) }
    ensures blames { Blames R.follows R.fails input.old input.new (IsFailedRead (R.remaining input.old)
        (R.remaining input.new) result) }
    ensures blames_writer { BlamesWriter W.fails result }
{
    let table = table_of(words, code, directories);
    let at = AtPath { path };
    let Made { answer, index } = make_index::<M, S, Brand>(memory, words, at, file, table);
    let Some(index) = index else {
        return Err(Stop::File {
            path,
            fault: FileFault::NoMemory,
        });
    };
    let answered = answer_made(memory, words, understood, index.as_slice(), input, output);
    located_after(path, answer, answered)
}

/// The path of the file.
#[derive(Clone, Copy)]
struct AtPath<'a> {
    path: &'a str,
}

/// What came of the reading of the line table, and the index, None where memory was refused for it.
#[derive(Drop)]
struct Made<'a> {
    answer: Result<Survey, FileStop<'a>>,
    index: Option<Vec<u8>>,
}

/// Makes the index of the line table in memory.
fn make_index<'a, M: MapMemory, S: ReadAt, K: Refusing>(
    memory: &M,
    words: &AddrWords<'a>,
    at: AtPath<'a>,
    file: &S,
    table: Table<'_>,
) -> Made<'a>
    requires { (n : ℕ) → M.refuses memory.now n → K.refuses n }
    ensures made { (index : List ℕ) × ForBytes (S.all_bytes file.now) (λ f. OnFile (M.refuses memory.now)
        (file_units (addr_words_made words.now).units) (S.fails_with file.now) at.entry.path.now (addr_words_made words.now).section
        (making (addr_words_made words.now) table.entry) f (Some []) (Some index) unheard result.answer)
        × IsMade K.refuses index result.answer result.index }
    ensures blames { BlamesOver ⊥ result.answer }
{
    let mut held = Held::<'_, M, K>::new(memory);
    let units = units_of_file(words.units);
    let command = making(words, table);
    let answer = on_file(
        memory,
        at.path,
        file,
        units,
        words.section,
        command,
        &mut held,
        &mut Unheard,
    );
    let index = held_unless(is_refused(&answer), held);
    Made { answer, index }
}

/// What is held, unless memory was refused before.
fn held_unless<M: MapMemory, K: Refusing>(refused: bool, held: Held<'_, M, K>) -> Option<Vec<u8>>
    ensures whole { IfSome result (λ list. (refused ≡ false) × (list.items ≡ held.entry.written.bytes)) }
    ensures none { IfNone result ((refused ≡ true) ⊎ CannotHold K.refuses held.entry.written.bytes) }
{
    if refused {
        return None;
    }
    match held.whole() {
        Ok(bytes) => Some(bytes),
        Err(NoMemory) => None,
    }
}

/// What the index is made with.
fn table_of<'q>(
    words: &'q AddrWords<'_>,
    code: Option<&'q CodeRanges>,
    directories: &'q Directories,
) -> Table<'q>
    ensures { IsToldOf (addr_words_made words.entry.now) (option_copied code.entry) (directory_at directories.entry.now) result }
{
    Table {
        code: live_in(words.all, code),
        directories: compiled_in(words.comp_dir, directories),
        all: words.all,
        build_id: b"",
    }
}

/// Whether memory was refused before the index was whole.
fn is_refused(answer: &Result<Survey, FileStop<'_>>) -> bool
    ensures { result ≡ is_refused answer.now }
{
    matches!(
        answer,
        Err(FileStop::File {
            fault: FileFault::NoMemory,
            ..
        })
    )
}

/// What came of all: a fault of the answers, or of the table, or how all were answered.
fn located_after<'a>(
    path: &'a str,
    answer: Result<Survey, FileStop<'a>>,
    answered: Result<Answered, AnswerFault>,
) -> Result<Located, Stop<'a>>
    ensures { result ≡ located_after path.entry answer.entry answered }
{
    let answered = match answered {
        Ok(answered) => answered,
        Err(fault) => return Err(stop_of_answer(path, fault)),
    };
    let survey = answer_over_file(answer)?;
    match survey.damaged {
        Some(units) => Err(Stop::Damaged { units }),
        None => Ok(Located {
            found: answered.found,
            no_address: answered.no_address,
        }),
    }
}
