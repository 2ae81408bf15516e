//! The call that tells the findings of a section.

ghost use Rattle.std.specs.Prelude.{◌≡◌, ⊤, ℕ, List, true, false};
ghost use Rattle.dl_buffers.specs.Calls.{dialect_of, goes_on};
ghost use Rattle.dl_buffers.specs.PathCalls.{both_strings};
ghost use Rattle.dl_sections.specs.Commands.{strings_in};
ghost use Rattle.dl_findings.specs.declared.finding_told.FindingForm.TheVariants as forms;
ghost use Rattle.dl_finding_buffers.specs.FindingCalls.{IsLinted, TellsFindings, FindsFindings, lint_end, lint_end_around};
ghost use Rattle.dl_finding_buffers.specs.FindingsHeld.{IsHeld};
ghost use Rattle.dl_source_buffers.specs.declared.end.End.{End};

use crate::records::put_records;
use dl_buffers::{FaultRecord, Status, dialect_of, goes_on};
use dl_findings::{FindingForm, Rules};
use dl_held::{Held, Refusing};
use dl_lint::{LintQuestion, Linted, LintedAround, lint, lint_around};
use dl_memory::{Memory, NoMemory};
use dl_sections::{Damage, DamageSink, Options, RunFault, SECTION_LIMIT};
use dl_source_buffers::{End, damage_end, fault_end};
use std::marker::Brand;

/// How the reading of a section ended, and the records of its findings, one after the other, where memory holds them.
#[derive(Drop)]
struct LintedSection {
    end: End,
    records: Result<Vec<u8>, NoMemory>,
}

/// Hears of no damaged unit: the first is told at the end.
#[derive(Drop)]
struct NoneTold;

impl DamageSink for NoneTold {
    ghost hears = { λ first new told. ⊤ };

    fn damaged(&mut self, _damage: Damage) {}
}

/// Tells the findings of a section, as `dl_lint::lint` does, of which each sequence counts and no code is known: those of the rules
/// whose bits are set in `rules`, where that of the rule of the place n in `RULES` is worth 2^n; bits that are of no rule count for
/// nothing. A finding is a record of 72 bytes (`FindingForm::Record`). The string sections are `.debug_line_str` and `.debug_str`.
///
/// Done: as many findings are told as there is room for, in their order, and how many there are. NoAnswer: there is none, and nothing
/// is told. Fault: the first fault is told, and the findings before it; or, where `how` says that damaged units are gone around, all
/// of them. NoMemory: nothing is told. What isn't told stays as it was.
pub fn findings<M: Memory>(
    memory: &M,
    section: &[u8],
    how: u8,
    rules: u32,
    line_str: &[u8],
    str: &[u8],
    room: &mut [[u8; 72]],
    count: &mut usize,
    fault: &mut FaultRecord,
) -> Status
    ensures { FindsFindings (M.refuses memory.now) (goes_on how) (dialect_of how) (both_strings line_str.now str.now) rules section.now
        room.old room.new count.old count.new fault.old fault.new result }
{
    let question = LintQuestion {
        rules: Rules::of_bits(rules),
        form: FindingForm::Record,
        code: None,
        ranges: &[],
    };
    let options = Options {
        dialect: dialect_of(how),
        debug_line_str: Some(line_str),
        debug_str: Some(str),
        limit: SECTION_LIMIT,
    };
    tell_section::<M, Brand>(
        memory,
        section,
        goes_on(how),
        &question,
        &options,
        room,
        count,
        fault,
    )
}

/// Tells what is found up to the first fault, or around damaged units.
fn tell_section<M: Memory, K: Refusing>(
    memory: &M,
    section: &[u8],
    keep_going: bool,
    question: &LintQuestion<'_>,
    options: &Options<'_>,
    room: &mut [[u8; 72]],
    count: &mut usize,
    fault: &mut FaultRecord,
) -> Status
    requires tied { (n : ℕ) → M.refuses memory.now n → K.refuses n }
    requires whole { options.now.limit ≡ SECTION_LIMIT }
    requires records { question.now.form ≡ forms.Record }
    ensures { (v : List ℕ) × (end : End) × IsLinted (M.refuses memory.now) K.refuses keep_going options.now.dialect
        (strings_in options.now) question.now section.now v end
        × TellsFindings K.refuses v end room.old room.new count.old count.new fault.old fault.new result }
{
    let linted = lint_section::<M, K>(memory, section, keep_going, question, options);
    tell::<K>(linted, room, count, fault)
}

/// What is found up to the first fault, or around damaged units.
fn lint_section<M: Memory, K: Refusing>(
    memory: &M,
    section: &[u8],
    keep_going: bool,
    question: &LintQuestion<'_>,
    options: &Options<'_>,
) -> LintedSection
    requires tied { (n : ℕ) → M.refuses memory.now n → K.refuses n }
    requires whole { options.now.limit ≡ SECTION_LIMIT }
    requires records { question.now.form ≡ forms.Record }
    ensures { (v : List ℕ) × IsLinted (M.refuses memory.now) K.refuses keep_going options.now.dialect (strings_in options.now)
        question.now section.now v result.end × IsHeld K.refuses v result.end result.records }
{
    if keep_going {
        lint_around_damage::<M, K>(memory, section, question, options)
    } else {
        lint_to_fault::<M, K>(memory, section, question, options)
    }
}

/// What is found up to the first fault.
fn lint_to_fault<M: Memory, K: Refusing>(
    memory: &M,
    section: &[u8],
    question: &LintQuestion<'_>,
    options: &Options<'_>,
) -> LintedSection
    requires tied { (n : ℕ) → M.refuses memory.now n → K.refuses n }
    requires whole { options.now.limit ≡ SECTION_LIMIT }
    requires records { question.now.form ≡ forms.Record }
    ensures { (v : List ℕ) × IsLinted (M.refuses memory.now) K.refuses false options.now.dialect (strings_in options.now)
        question.now section.now v result.end × IsHeld K.refuses v result.end result.records }
{
    let mut input = section;
    let mut held = Held::<'_, M, K>::new(memory);
    let linted = lint(memory, &mut input, &mut held, question, options);
    LintedSection {
        end: end_of(&linted),
        records: held.whole(),
    }
}

/// What is found around damaged units.
fn lint_around_damage<M: Memory, K: Refusing>(
    memory: &M,
    section: &[u8],
    question: &LintQuestion<'_>,
    options: &Options<'_>,
) -> LintedSection
    requires tied { (n : ℕ) → M.refuses memory.now n → K.refuses n }
    requires whole { options.now.limit ≡ SECTION_LIMIT }
    requires records { question.now.form ≡ forms.Record }
    ensures { (v : List ℕ) × IsLinted (M.refuses memory.now) K.refuses true options.now.dialect (strings_in options.now)
        question.now section.now v result.end × IsHeld K.refuses v result.end result.records }
{
    let mut input = section;
    let mut held = Held::<'_, M, K>::new(memory);
    let linted = lint_around(
        memory,
        &mut input,
        &mut held,
        question,
        options,
        &mut NoneTold,
    );
    LintedSection {
        end: end_around(&linted),
        records: held.whole(),
    }
}

/// How a reading up to the first fault ends.
fn end_of(linted: &Result<Linted, RunFault>) -> End
    ensures { result ≡ lint_end linted.now }
{
    match linted {
        Ok(_) => End::Whole,
        Err(fault) => fault_end(*fault),
    }
}

/// How a reading around damaged units ends.
fn end_around(linted: &Result<LintedAround, RunFault>) -> End
    ensures { result ≡ lint_end_around linted.now }
{
    match linted {
        Ok(linted) => damage_end(linted.survey.damaged),
        Err(fault) => fault_end(*fault),
    }
}

/// Tells what was found.
fn tell<K: Refusing>(
    linted: LintedSection,
    room: &mut [[u8; 72]],
    count: &mut usize,
    fault: &mut FaultRecord,
) -> Status
    ensures { (v : List ℕ) → IsHeld K.refuses v linted.end linted.records
        → TellsFindings K.refuses v linted.end room.old room.new count.old count.new fault.old fault.new result }
{
    let end = linted.end;
    let Ok(records) = linted.records else {
        return Status::NoMemory;
    };
    match end {
        End::Whole if records.is_empty() => Status::NoAnswer,
        End::Whole => {
            put_records(records.as_slice(), room, count);
            Status::Done
        }
        End::Fault(told) => {
            put_records(records.as_slice(), room, count);
            *fault = told;
            Status::Fault
        }
        End::NoMemory => Status::NoMemory,
    }
}
