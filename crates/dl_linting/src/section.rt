//! The findings of a section.
ghost use Rattle.std.specs.Prelude.{◌≡◌, ◌≤◌, ℕ, List, [], IfOk, None};
ghost use Rattle.std.specs.Io.KnownBytes.{Consumes};
ghost use Rattle.dl_input.specs.Failing.{Blames};
ghost use Rattle.dl_sections.specs.Blaming.{BlamesWriter};
ghost use Rattle.dl_sections.specs.Commands.{strings_in};
ghost use Rattle.dl_linting.specs.Linting.{HasReadAll, Tells, whole};

use dl_input::Source;
use dl_lint::{FindingForm, LintQuestion, Linted, LintedAround, Rule, Rules, lint, lint_around};
use dl_look::{AddressRange, CodeRanges};
use dl_memory::Memory;
use dl_open::FileCode;
use dl_output::Destination;
use dl_sections::{DamageSink, Options, RunFault, SECTION_LIMIT, Survey};

/// What words choose.
#[derive(Clone, Copy)]
pub struct Choice {
    /// The findings of these rules are told.
    pub rules: Rules,
    pub form: FindingForm,
    /// After a unit that is damaged the next one is read.
    pub keep_going: bool,
}

/// What is asked of a section.
#[derive(Clone, Copy)]
pub struct Wish<'a> {
    pub question: LintQuestion<'a>,
    /// After a unit that is damaged the next one is read.
    pub keep_going: bool,
}

impl Choice {
    ghost use Rattle.std.specs.Prelude.{[], None};
    ghost use Rattle.std.specs.Option.{option_copied};
    ghost use Rattle.dl_findings.specs.Chosen.{is_chosen};
    ghost use Rattle.dl_linting.specs.Linting.{Asks, is_told_of_file};

    /// Of a section that is of no file.
    pub fn of_section<'a>(self) -> Wish<'a>
        ensures { Asks self (is_chosen self.rules) None [] result }
    {
        self.with_question(self.rules, None, &[])
    }

    /// Of the line table of a file with this code. Where it isn't known where code is, as in an object file, addresses are relative to
    /// their sections, so that those of different ones seem to overlap: `overlap` isn't told.
    pub fn of_file(self, code: &FileCode) -> Wish<'_>
        ensures { Asks self (is_told_of_file self.rules code.now.live) code.now.live code.now.ranges.items result }
    {
        let rules = match code.live {
            Some(_) => self.rules,
            None => self.rules.without(Rule::Overlap),
        };
        self.with_question(rules, code.live.as_ref(), code.ranges.as_slice())
    }

    /// By these rules, where there is code in these ranges.
    fn with_question<'a>(
        self,
        rules: Rules,
        code: Option<&'a CodeRanges>,
        ranges: &'a [AddressRange],
    ) -> Wish<'a>
        ensures { Asks self (is_chosen rules) (option_copied code.entry) ranges.entry.now result }
    {
        Wish {
            question: LintQuestion {
                rules,
                form: self.form,
                code,
                ranges,
            },
            keep_going: self.keep_going,
        }
    }
}

/// What `lint` answered, as `lint_around` does.
fn whole(answer: Result<Linted, RunFault>) -> Result<LintedAround, RunFault>
    ensures { result ≡ whole answer }
{
    let Linted { summary, counts } = answer?;
    Ok(LintedAround {
        survey: Survey {
            summary,
            damaged: None,
        },
        counts,
    })
}

/// Tells what is found in a section, and of the units that are damaged where it goes on after them.
pub fn lint_section<M: Memory, R: Source, W: Destination, D: DamageSink>(
    memory: &M,
    input: &mut R,
    output: &mut W,
    wish: Wish<'_>,
    options: &Options<'_>,
    damages: &mut D,
) -> Result<LintedAround, RunFault>
    requires { options.now.limit ≤ SECTION_LIMIT }
    ensures ran { (bytes : List ℕ) × Consumes (R.remaining input.old) (R.remaining input.new) bytes
        × (D.hears damages.old damages.old [] → Tells (M.refuses memory.now) wish.entry options.now.dialect (strings_in options.now)
        options.now.limit bytes (R.remaining input.new) (W.contents output.old) (W.contents output.new)
        (D.hears damages.old damages.new) result) }
    ensures blames { Blames R.follows R.fails input.old input.new
        ((D.hears damages.old damages.old []) × (result ≡ Err RunFault.Read)) }
    ensures blames_writer { D.hears damages.old damages.old [] → BlamesWriter W.fails result }
    ensures over { D.hears damages.old damages.old [] → HasReadAll result → R.over input.new }
{
    if wish.keep_going {
        return lint_around(memory, input, output, &wish.question, options, damages);
    }
    whole(lint(memory, input, output, &wish.question, options))
}
