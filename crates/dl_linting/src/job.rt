//! What the program does for the words of `lint`.
ghost use Rattle.std.specs.Prelude.{◌≡◌, ℕ, List, []};
ghost use Rattle.std.specs.Io.KnownBytes.{Consumes};
ghost use Rattle.dl_input.specs.Failing.{Blames};
ghost use Rattle.dl_cmd.specs.Job.{lint_words_made};
ghost use Rattle.dl_program.specs.Blaming.{BlamesWriter};
ghost use Rattle.dl_program.specs.Held.{section_seen};
ghost use Rattle.dl_linting.specs.Linting.{BlamesInput, LintsWords, form_of, section_in};

use crate::over_file::on_named;
use crate::over_input::on_input;
use crate::rules::asked_rules;
use crate::section::Choice;
use dl_cmd::LintWords;
use dl_input::Source;
use dl_lint::{FindingForm, LintedAround};
use dl_memory::Memory;
use dl_open::FileSource;
use dl_output::Destination;
use dl_program::{Section, Stop, answer_over_file, are_sizes, units_of_file};
use dl_sections::DamageSink;

/// What the words say of a section on the input.
fn section<'a>(words: &LintWords<'a>) -> Section<'a>
    ensures { section_seen result ≡ section_in (lint_words_made words.now) }
{
    Section {
        big: words.big,
        older: words.units.older,
        line_str: words.line_str,
        strings: words.strings,
    }
}

/// The form in which findings are told.
fn form_of(json: bool) -> FindingForm
    ensures { result ≡ form_of json }
{
    if json {
        FindingForm::Object
    } else {
        FindingForm::Line
    }
}

/// Tells what in a line table misleads a debugger by the rules that words choose, a line or a JSON object for each finding: of the
/// ELF file that they name, or where they name none of the section on the input.
///
/// Of an ELF file the string sections are read first, of the input those of `--line-str` and `--str`. Of each damaged unit after
/// which it goes on `damages` is told, where that is asked for, and the answer says how many there are.
///
/// `NotUnderstood` where a size is no size; then `NotRule` tells the first word that is the name of no rule. Then, and at each fault
/// before the section, nothing is written. Of the input nothing is read then, nor where a file is named.
pub fn tell_findings<'a, M: Memory, F: FileSource, R: Source, W: Destination, D: DamageSink>(
    memory: &M,
    words: &LintWords<'a>,
    files: &F,
    input: &mut R,
    output: &mut W,
    damages: &mut D,
) -> Result<LintedAround, Stop<'a>>
    ensures ran { (bytes : List ℕ) × Consumes (R.remaining input.old) (R.remaining input.new) bytes
        × (D.hears damages.old damages.old [] → LintsWords (M.refuses memory.now) (F.held files.now) (F.fails_with files.now)
        (lint_words_made words.now) bytes (R.remaining input.new) (W.contents output.old) (W.contents output.new)
        (D.hears damages.old damages.new) result) }
    ensures blames { Blames R.follows R.fails input.old input.new ((D.hears damages.old damages.old [])
        × BlamesInput (M.refuses memory.now) (F.held files.now) (F.fails_with files.now) (lint_words_made words.now) result) }
    ensures blames_writer { D.hears damages.old damages.old [] → BlamesWriter W.fails result }
{
    if !are_sizes(words.units) {
        return Err(Stop::NotUnderstood);
    }
    let rules = asked_rules(words)?;
    let choice = Choice {
        rules,
        form: form_of(words.json),
        keep_going: words.keep_going,
    };
    match words.file {
        Some(path) => {
            let units = units_of_file(words.units);
            answer_over_file(on_named(memory, files, path, units, choice, output, damages))
        }
        None => on_input(
            memory,
            files,
            section(words),
            choice,
            input,
            output,
            damages,
        ),
    }
}
