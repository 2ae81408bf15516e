//! What the words of `addr` ask for.
ghost use Rattle.std.specs.Prelude.{◌≡◌, ℕ, IfErr, IfOk, MatchResult, Some, is_some, map, option_map, option_to_list, true};
ghost use Rattle.std.specs.List.{list_all};
ghost use Rattle.std.specs.Option.{option_copied};
ghost use Rattle.dl_cmd.specs.Address.{address_by};
ghost use Rattle.dl_cmd.specs.Job.{addr_words_made};
ghost use Rattle.dl_dirs.specs.Compilation.{directory_by};
ghost use Rattle.dl_locating.specs.Compiled.{wants_directories};
ghost use Rattle.dl_locating.specs.Locate.{AddressesStop, IsFirstOther, WordsStop, are_addresses, asked_in_words, base_in};
ghost use Rattle.dl_locating.specs.Locate.{asking, form_in, suits_file, suits_input};
ghost use Rattle.dl_locating.specs.OverIndex.{making, suits_index};

use dl_addr::{AnswerForm, Asked, CompilationDirectories, Question, Style};
use dl_cmd::{AddrWords, read_address};
use dl_look::CodeRanges;
use dl_making::Table;
use dl_memory::Memory;
use dl_program::{Command, Stop, directory_said, is_size};
use dl_sections::RunFault;

/// What is subtracted from each address.
fn base<'a>(words: &AddrWords<'a>) -> Result<u64, Stop<'a>>
    ensures { MatchResult result (λ n. base_in (addr_words_made words.now) ≡ Some n)
        (IsFirstOther words.now.hex (option_to_list (addr_words_made words.now).base)) }
{
    match words.base {
        Some(word) => read_address(words.hex, word).ok_or(Stop::NotAddress { word }),
        None => Ok(0),
    }
}

/// The addresses that these words say.
fn addresses<'a, M: Memory>(
    memory: &M,
    hex: bool,
    words: &[&'a str],
) -> Result<Vec<Asked>, Stop<'a>>
    ensures asked { IfOk result (λ asked. asked.items
        ≡ map (λ s. record { address = address_by hex s.now }) words.now) }
    ensures understood { IfOk result (λ asked. list_all (λ s. is_some (address_by hex s.now)) words.now ≡ true) }
    ensures stops { IfErr result (AddressesStop (M.refuses memory.now) hex (map (λ s. s.now) words.now)) }
{
    let mut asked = Vec::new(memory.alloc());
    for word in words {
        let address = read_address(hex, *word);
        if address.is_none() {
            return Err(Stop::NotAddress { word: *word });
        }
        if memory.push(&mut asked, Asked { address }).is_err() {
            return Err(Stop::Run(RunFault::NoMemory));
        }
    }
    Ok(asked)
}

/// The addresses among the words, and what is subtracted from each.
#[derive(Drop)]
pub struct AskedWords {
    pub base: u64,
    pub asked: Vec<Asked>,
}

/// What the words ask for. The word of `--base` is read before the others.
pub fn asked_words<'a, M: Memory>(memory: &M, words: &AddrWords<'a>) -> Result<AskedWords, Stop<'a>>
    ensures base { IfOk result (λ u. base_in (addr_words_made words.now) ≡ Some u.base) }
    ensures asked { IfOk result (λ u. u.asked.items ≡ asked_in_words (addr_words_made words.now)) }
    ensures understood { IfOk result (λ u. are_addresses (addr_words_made words.now) ≡ true) }
    ensures stops { IfErr result (WordsStop (M.refuses memory.now) (addr_words_made words.now)) }
{
    let base = base(words)?;
    let asked = addresses(memory, words.hex, words.addresses.as_slice())?;
    Ok(AskedWords { base, asked })
}

/// Whether what they say beside the addresses suits a section on the input.
pub fn suits_input(words: &AddrWords<'_>) -> bool
    ensures { result ≡ suits_input (addr_words_made words.now) }
{
    words.section.is_none()
        && words.made_of.is_none()
        && !words.units.version_5
        && words.units.address_size.is_none()
        && is_size(words.units.older)
}

/// Whether it suits an ELF file.
pub fn suits_file(words: &AddrWords<'_>) -> bool
    ensures { result ≡ suits_file (addr_words_made words.now) }
{
    !words.big
        && words.line_str.is_none()
        && words.strings.is_none()
        && words.units.older.is_none()
        && is_size(words.units.address_size)
}

/// What the line of an address says. A JSON object has the address, whether or not it is asked for.
fn form(words: &AddrWords<'_>) -> AnswerForm
    ensures { result ≡ form_in (addr_words_made words.now) }
{
    match (words.json, words.with_addresses) {
        (true, _) => AnswerForm::Json,
        (false, true) => AnswerForm::AddressAndLocation,
        (false, false) => AnswerForm::Location,
    }
}

/// Whether it suits an index: how units are read and which sequences count was chosen when it was made, and so was the
/// compilation directory.
pub fn suits_index(words: &AddrWords<'_>) -> bool
    ensures { result ≡ suits_index (addr_words_made words.now) }
{
    !words.all
        && words.comp_dir.is_none()
        && !words.units.version_5
        && words.units.address_size.is_none()
}

/// The section of an object file that they name.
pub fn part_name<'q>(words: &'q AddrWords<'_>) -> Option<&'q str>
    ensures { option_copied result ≡ (addr_words_made words.entry.now).section }
{
    match words.section {
        Some(name) => Some(name),
        None => None,
    }
}

/// The compilation directory that they say.
pub fn said_directory<'q>(words: &'q AddrWords<'_>) -> CompilationDirectories<'q>
    ensures { (n : ℕ) → directory_by result n ≡ (addr_words_made words.entry.now).comp_dir }
{
    directory_said(words.comp_dir)
}

/// Whether the directories are looked for that a file says: none is said.
pub fn wants_directories(words: &AddrWords<'_>) -> bool
    ensures { result ≡ wants_directories (addr_words_made words.now) }
{
    words.comp_dir.is_none()
}

/// What is asked of a section, which is of an object file where it is named.
pub fn question<'q>(
    words: &AddrWords<'_>,
    section: Option<&'q str>,
    base: u64,
    asked: &'q [Asked],
    code: Option<&'q CodeRanges>,
    directories: CompilationDirectories<'q>,
) -> Question<'q>
    ensures asked { result.asked.now ≡ asked.entry.now }
    ensures base { result.base ≡ base }
    ensures code { result.code ≡ code.entry }
    ensures directories { result.directories ≡ directories.entry }
    ensures form { result.style.form ≡ form_in (addr_words_made words.now) }
    ensures basenames { result.style.basenames ≡ words.now.basenames }
    ensures section { result.style.section ≡ section.entry }
{
    Question {
        asked,
        base,
        code,
        directories,
        style: style(words, section),
    }
}

/// How answers are printed.
pub fn style<'q>(words: &AddrWords<'_>, section: Option<&'q str>) -> Style<'q>
    ensures form { result.form ≡ form_in (addr_words_made words.now) }
    ensures basenames { result.basenames ≡ words.now.basenames }
    ensures section { result.section ≡ section.entry }
{
    Style {
        form: form(words),
        basenames: words.basenames,
        section,
    }
}

/// The command that makes the index from which it is answered: after a damaged unit it goes on, unless the words say that
/// it stops.
pub fn making<'q>(words: &AddrWords<'_>, table: Table<'q>) -> Command<'q>
    ensures { result ≡ making (addr_words_made words.now) table.entry }
{
    if words.stop {
        Command::IndexUntil(table)
    } else {
        Command::IndexUntilAround(table)
    }
}

/// The command that answers what is asked: after a damaged unit it goes on, unless the words say that it stops.
pub fn asking<'q>(words: &AddrWords<'_>, question: Question<'q>) -> Command<'q>
    ensures { result ≡ asking (addr_words_made words.now) question.entry }
{
    if words.stop {
        Command::Addr(question)
    } else {
        Command::AddrAround(question)
    }
}
