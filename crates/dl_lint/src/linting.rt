//! The commands that tell the findings of a section.

ghost use Rattle.std.specs.Prelude.{◌≡◌, ◌≤◌, [], ℕ, List, IfOk, OnOk, None, true};
ghost use Rattle.std.specs.Io.KnownBytes.{Consumes};
ghost use Rattle.dl_input.specs.Failing.{Blames};
ghost use Rattle.dl_sections.specs.Blaming.{BlamesWriter};
ghost use Rattle.dl_sections.specs.Commands.{strings_in};
ghost use Rattle.dl_findings.specs.Chosen.{is_chosen};
ghost use Rattle.dl_findings.specs.declared.rule.Rule.TheVariants as rule;
ghost use Rattle.dl_table_rules.specs.Keeping.{AreEnds};
ghost use Rattle.dl_lint.specs.Commands.{Lints, LintsAround};

use crate::finishing::{Finishing, read_around};
use crate::question::{LintQuestion, Linted, LintedAround};
use crate::reached::{BEFORE_UNITS, Reached};
use crate::report::Report;
use crate::row_rules::{are_good_rows, no_end};
use crate::sequences_seen::SequencesSeen;
use crate::unit_files::UnitFiles;
use dl_findings::{FindingCounts, Rule, Rules};
use dl_head::{Header, HeaderLengths};
use dl_input::Source;
use dl_memory::{Memory, NoMemory};
use dl_operation_rules::{Operations, moved_by, place_after};
use dl_output::Destination;
use dl_print::{Printer, WriteFault};
use dl_rows::{Flow, Operation, PlainRun, Row};
use dl_sections::{
    AroundDamage, Damage, DamageSink, Options, RunFault, SECTION_LIMIT, Survey, Visitor,
    read_units, read_units_around,
};
use dl_table_rules::{EntryOrder, NO_SECTIONS, TextEnds};

/// Tells what is found in units, and tells of damaged ones.
#[derive(Drop)]
struct Linter<'d, M, D> {
    memory: &'d M,
    options: &'d Options<'d>,
    /// Where string sections end, where `missing-text` is chosen.
    ends: TextEnds,
    report: Report<'d>,
    /// What is kept of the current unit.
    at: Reached,
    /// What is kept of its operations.
    operations: Operations,
    /// What is kept of its files.
    files: &'d mut UnitFiles,
    /// What is kept of the sequences of the section.
    sequences: &'d mut SequencesSeen,
    damages: &'d mut D,
}

impl<W: Destination, M: Memory, D: DamageSink> Visitor<W> for Linter<'_, M, D> {
    ghost use Rattle.dl_lint.specs.Linting.{lint_story};

    ghost story = { lint_story M.refuses D.hears };

    fn header(
        &mut self,
        output: &mut W,
        offset: u64,
        lengths: HeaderLengths,
        header: &Header,
    ) -> Result<(), RunFault> {
        let order = self.order_of(header)?;
        let files = self.files_of(offset, header)?;
        self.report
            .tell_header(output, offset, &lengths, header, &self.ends, &order)?;
        self.at = Reached::at_program(offset, &lengths, header);
        self.operations = Operations::at_start();
        *self.files = files;
        self.sequences.begin_unit();
        Ok(())
    }

    fn foreign(&mut self, _output: &mut W, _offset: u64, _version: u16) -> Result<(), RunFault> {
        Ok(())
    }

    fn bytes(&mut self, _output: &mut W, bytes: &[u8]) -> Result<(), WriteFault> {
        self.at.bytes(bytes);
        self.operations.bytes(bytes);
        Ok(())
    }

    fn operation(
        &mut self,
        output: &mut W,
        header: &Header,
        operation: Operation,
    ) -> Result<(), WriteFault> {
        let params = header.params();
        let moved = moved_by(params, self.operations.place, operation);
        self.report.tell_operation(output, &self.at, &self.operations, header, operation, moved)?;
        let place = place_after(params, self.operations.place, operation, moved);
        self.operations.operation(operation, place);
        self.at.operation();
        Ok(())
    }

    fn row(&mut self, output: &mut W, header: &Header, row: &Row) -> Result<(), RunFault> {
        let unit = self.files.unit();
        self.sequences
            .row(self.memory, self.report.question, unit, &self.at, row)?;
        self.report.tell_row(output, &self.at, header, row)?;
        self.at.row(row);
        self.files.row(row);
        Ok(())
    }

    #[inline(always)]
    fn hears_runs(&self) -> bool {
        true
    }

    fn plain_run(&mut self, header: &Header, run: &PlainRun<'_, '_>) -> bool {
        let Some(offsets) = self.at.offsets_of(run) else {
            return false;
        };
        if !are_good_rows(&self.at, header, run) {
            return false;
        }
        if !self.operations.lead(run.from, run.to) {
            return false;
        }
        self.at.go_through(offsets, &run.rows);
        self.files.rows(run.files);
        true
    }

    fn unterminated(&mut self, output: &mut W) -> Result<(), RunFault> {
        Ok(self.report.tell(output, &no_end(&self.at))?)
    }

    fn end(&mut self, output: &mut W, header: Option<Header>) -> Result<Flow, RunFault> {
        self.report
            .tell_end(output, self.files, self.sequences, header.is_some())?;
        Ok(Flow::On)
    }

    fn flush(&mut self, output: &mut W) -> Result<(), RunFault> {
        Ok(self.report.printer.flush(output)?)
    }
}

impl<W: Destination, M: Memory, D: DamageSink> AroundDamage<W> for Linter<'_, M, D> {
    fn damaged(&mut self, _unit: u64, damage: Damage) {
        self.damages.damaged(damage);
    }
}

impl<M: Memory, D> Linter<'_, M, D> {
    ghost use Rattle.std.specs.Prelude.{◌≡◌, ◌++◌, ◌∷◌, [], List, IfErr, IfOk, true};
    ghost use Rattle.dl_head.specs.declared.header.HeaderLengths.{HeaderLengths};
    ghost use Rattle.dl_sections.specs.Section.{Visit, of_header};
    ghost use Rattle.dl_findings.specs.Chosen.{is_chosen};
    ghost use Rattle.dl_findings.specs.declared.rule.Rule.TheVariants as rule;
    ghost use Rattle.dl_table_rules.specs.Duplicates.{entries_of};
    ghost use Rattle.dl_table_rules.specs.Keeping.{IsOrderOf};
    ghost use Rattle.dl_lint.specs.Keeping.{KnowsFiles};
    ghost use Rattle.dl_lint.specs.Linting.{WantsFiles};

    /// The order of the files of a header, where `duplicate-file` is chosen.
    fn order_of<'h>(&self, header: &'h Header) -> Result<EntryOrder<'h>, RunFault>
        ensures order { IfOk result (λ order. is_chosen self.now.report.question.now.rules rule.DuplicateFile ≡ true
            → IsOrderOf order (entries_of header.now.files)) }
        ensures refused { IfErr result (WantsFiles (M.refuses self.now.memory.now) self.now.report.question.now.rules header.now) }
    {
        if !self.report.question.rules.contains(Rule::DuplicateFile) {
            return Ok(EntryOrder::none(self.memory.alloc()));
        }
        match EntryOrder::of(self.memory, header.files()) {
            Ok(order) => Ok(order),
            Err(NoMemory) => Err(RunFault::NoMemory),
        }
    }

    /// What is kept of the files of the unit at this offset that has this header.
    fn files_of(&self, unit: u64, header: &Header) -> Result<UnitFiles, RunFault>
        ensures knows { IfOk result (λ files. (visits : List Visit) (lengths : HeaderLengths)
            → KnowsFiles self.now.report.question.now.rules files (visits ++ of_header unit lengths header.now ∷ [])) }
        ensures refused { IfErr result (WantsFiles (M.refuses self.now.memory.now) self.now.report.question.now.rules header.now) }
    {
        match UnitFiles::of(self.memory, &self.report.question.rules, unit, header) {
            Ok(files) => Ok(files),
            Err(NoMemory) => Err(RunFault::NoMemory),
        }
    }
}

impl<W: Destination, M: Memory, D: DamageSink> Finishing<W> for Linter<'_, M, D> {
    ghost use Rattle.dl_lint.specs.Linting.{ends_by};

    ghost ends = { ends_by M.refuses D.hears };

    fn finish(&mut self, output: &mut W) -> Result<FindingCounts, RunFault> {
        self.report
            .tell_section(self.memory, output, self.sequences)?;
        Ok(self.report.counts)
    }
}

/// Hears of no unit, where the first damaged one is the fault.
#[derive(Drop)]
struct NoneTold;

impl DamageSink for NoneTold {
    ghost use Rattle.std.specs.Prelude.{⊤};

    ghost hears = { λ first new told. ⊤ };

    fn damaged(&mut self, _damage: Damage) {}
}

/// Prints each finding of the chosen rules in the units of the input, in the order in which they are read: a line of words or a
/// JSON object, or a record.
///
/// Behind these come the findings of `overlap` and `no-code`, once the section is read to its end.
///
/// What is found before a fault is printed. The faults are those of `RunFault`. `NoMemory` comes where a growth of `Reader::feed`
/// is refused; where `duplicate-file` or `unused-file` is chosen, where one is refused for the files of a header; and where
/// `overlap` is, or `no-code` and there are ranges of code, where one is refused for the sequence that a row ends, or at the end
/// of the section for the places where sequences begin and end. Then what is found before that header, that row or that end is
/// printed.
pub fn lint<M: Memory, R: Source, W: Destination>(
    memory: &M,
    input: &mut R,
    output: &mut W,
    question: &LintQuestion<'_>,
    options: &Options<'_>,
) -> Result<Linted, RunFault>
    requires { options.now.limit ≤ SECTION_LIMIT }
    ensures ran { (bs : List ℕ) × Consumes (R.remaining input.old) (R.remaining input.new) bs
        × Lints (M.refuses memory.now) options.now.dialect (strings_in options.now) question.now options.now.limit bs
        (R.remaining input.new) (W.contents output.old) (W.contents output.new) result }
    ensures blames { Blames R.follows R.fails input.old input.new (result ≡ Err RunFault.Read) }
    ensures blames_writer { BlamesWriter W.fails result }
    ensures over { OnOk result (R.over input.new) }
{
    let mut linter = Linter {
        memory,
        options,
        ends: ends_of(&question.rules, options),
        report: Report {
            printer: &mut Printer::new(),
            question,
            counts: FindingCounts::none(),
        },
        at: BEFORE_UNITS,
        operations: Operations::at_start(),
        files: &mut UnitFiles::before_units(memory.alloc()),
        sequences: &mut SequencesSeen::before_units(memory.alloc()),
        damages: &mut NoneTold,
    };
    let summary = read_units(memory.alloc(), input, output, options, &mut linter)?;
    let counts = linter.finish(output)?;
    Ok(Linted { summary, counts })
}

/// Prints the findings as `lint` does, and goes on after units that are damaged; of these it prints what is found before their
/// faults. `damages` hears of each damaged unit, once what comes before its fault is printed and out.
///
/// What `overlap` and `no-code` find of the section as a whole is found by the sequences that could be read.
///
/// The answer tells what the units come to, and how many are damaged; the faults are those of `read_units_around`, and
/// failed writes.
pub fn lint_around<M: Memory, R: Source, W: Destination, D: DamageSink>(
    memory: &M,
    input: &mut R,
    output: &mut W,
    question: &LintQuestion<'_>,
    options: &Options<'_>,
    damages: &mut D,
) -> Result<LintedAround, RunFault>
    requires { options.now.limit ≤ SECTION_LIMIT }
    ensures ran { (bs : List ℕ) × Consumes (R.remaining input.old) (R.remaining input.new) bs
        × (D.hears damages.old damages.old [] → LintsAround (M.refuses memory.now) options.now.dialect (strings_in options.now)
        question.now options.now.limit bs (R.remaining input.new) (W.contents output.old) (W.contents output.new) (D.hears damages.old damages.new) result) }
    ensures blames { Blames R.follows R.fails input.old input.new
        ((D.hears damages.old damages.old []) × (result ≡ Err RunFault.Read)) }
    ensures blames_writer { D.hears damages.old damages.old [] → BlamesWriter W.fails result }
    ensures over { D.hears damages.old damages.old []
        → IfOk result (λ linted. linted.survey.damaged ≡ None → R.over input.new) }
{
    let mut printer = Printer::new();
    let mut files = UnitFiles::before_units(memory.alloc());
    let mut sequences = SequencesSeen::before_units(memory.alloc());
    let mut linter = Linter {
        memory,
        options,
        ends: ends_of(&question.rules, options),
        report: Report {
            printer: &mut printer,
            question,
            counts: FindingCounts::none(),
        },
        at: BEFORE_UNITS,
        operations: Operations::at_start(),
        files: &mut files,
        sequences: &mut sequences,
        damages,
    };
    read_around(memory.alloc(), input, output, options, &mut linter)
}

/// Where the string sections end, where `missing-text` is chosen.
fn ends_of(rules: &Rules, options: &Options<'_>) -> TextEnds
    ensures { is_chosen rules.now rule.MissingText ≡ true
        → AreEnds result (strings_in options.now).line_strings (strings_in options.now).strings }
{
    if !rules.contains(Rule::MissingText) {
        return NO_SECTIONS;
    }
    TextEnds::of(options.debug_line_str, options.debug_str)
}
