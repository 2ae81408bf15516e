//! What is kept of the sequences of a section. Sections 6.2.2 and 6.2.5.3.

ghost use Rattle.std.specs.Prelude.{◌≡◌};
ghost use Rattle.dl_lint.specs.Wanting.{keeps_sequences};

use crate::question::{LintQuestion, is_code};
use crate::reached::Reached;
use crate::row_rules::row_seen;
use dl_findings::{Finding, Rule};
use dl_look::Place;
use dl_memory::{Memory, NoMemory};
use dl_rows::Row;
use dl_sections::RunFault;
use dl_sequence_rules::{DeadSequences, Ended};
use std::alloc::Global;

/// What is kept of the sequences of a section.
#[derive(Drop)]
pub struct SequencesSeen {
    /// Those of the current unit that aren't live, where `dead-sequence` is chosen.
    dead: DeadSequences,
    /// The live ones whose places don't fall, where `overlap` or `no-code` is chosen.
    ended: Vec<Ended>,
}

/// Whether something is kept of each sequence: for `overlap`, and for `no-code` where there are ranges of code.
pub fn keeps_sequences(question: &LintQuestion<'_>) -> bool
    ensures { result ≡ keeps_sequences question.now }
{
    let rules = &question.rules;
    rules.contains(Rule::Overlap) || (rules.contains(Rule::NoCode) && !question.ranges.is_empty())
}

impl SequencesSeen {
    ghost use Rattle.std.specs.Prelude.{◌≡◌, ℕ, ◌++◌, ◌∷◌, [], List, IfErr, OnOk, OnErr, Some, None, length, option_to_list, true};
    ghost use Rattle.dl_field.specs.HeaderData.{HeaderData};
    ghost use Rattle.dl_head.specs.declared.header.HeaderLengths.{HeaderLengths};
    ghost use Rattle.dl_memory.specs.Refusals.{IsRefused};
    ghost use Rattle.dl_rows.specs.Items.{a_row};
    ghost use Rattle.dl_sections.specs.Copying.{offset_after as unit_offset};
    ghost use Rattle.dl_sections.specs.Section.{Visit, of_header, of_item};
    ghost use Rattle.dl_findings.specs.Chosen.{is_chosen};
    ghost use Rattle.dl_findings.specs.declared.rule.Rule.TheVariants as rule;
    ghost use Rattle.dl_sequence_rules.specs.Dead.{dead_found};
    ghost use Rattle.dl_lint.specs.Keeping.{KnowsSequences, reached_by};
    ghost use Rattle.dl_lint.specs.Sequences.{dead_told, ended_in, live_in};
    ghost use Rattle.dl_lint.specs.Wanting.{RefusesAt, keeps_sequences};
    ghost use Rattle.dl_lint.specs.declared.question.LintQuestion.{LintQuestion as Question};

    /// Before the first unit. It takes no memory.
    pub fn before_units(alloc: Global) -> SequencesSeen
        ensures { (q : Question) → KnowsSequences q result [] }
    {
        SequencesSeen {
            dead: DeadSequences::none(),
            ended: Vec::new(alloc),
        }
    }

    /// At the program of a unit.
    pub fn begin_unit(&mut self)
        ensures { (q : Question) (visits : List Visit) (unit : ℕ) (lengths : HeaderLengths) (h : HeaderData)
            → KnowsSequences q self.old visits → KnowsSequences q self.new (visits ++ of_header unit lengths h ∷ []) }
    {
        self.dead = DeadSequences::none();
    }

    /// A row further on, of the unit at this offset.
    #[inline(always)]
    pub fn row<M: Memory>(
        &mut self,
        memory: &M,
        question: &LintQuestion<'_>,
        unit: u64,
        at: &Reached,
        row: &Row,
    ) -> Result<(), RunFault>
        ensures knows { OnOk result ((visits : List Visit) (h : HeaderData) → KnowsSequences question.now self.old visits
            → at.now ≡ reached_by visits → unit ≡ unit_offset 0 visits
            → KnowsSequences question.now self.new (visits ++ of_item (a_row h row.now) ∷ [])) }
        ensures kept { OnErr result ((q : Question) (visits : List Visit) → KnowsSequences q self.old visits → KnowsSequences q self.new visits) }
        ensures refused { IfErr result (λ f. (f ≡ RunFault.NoMemory) × ((visits : List Visit) (h : HeaderData)
            → KnowsSequences question.now self.old visits → at.now ≡ reached_by visits
            → RefusesAt (M.refuses memory.now) question.now (visits ++ of_item (a_row h row.now) ∷ []) (of_item (a_row h row.now)))) }
    {
        if !row.end_sequence {
            return Ok(());
        }
        match self.end_sequence(memory, question, unit, at, row) {
            Ok(()) => Ok(()),
            Err(NoMemory) => Err(RunFault::NoMemory),
        }
    }

    /// An end row further on, of the unit at this offset.
    #[inline(never)]
    fn end_sequence<M: Memory>(
        &mut self,
        memory: &M,
        question: &LintQuestion<'_>,
        unit: u64,
        at: &Reached,
        row: &Row,
    ) -> Result<(), NoMemory>
        requires { row.now.end_sequence ≡ true }
        ensures knows { OnOk result ((visits : List Visit) (h : HeaderData) → KnowsSequences question.now self.old visits
            → at.now ≡ reached_by visits → unit ≡ unit_offset 0 visits
            → KnowsSequences question.now self.new (visits ++ of_item (a_row h row.now) ∷ [])) }
        ensures kept { OnErr result ((q : Question) (visits : List Visit) → KnowsSequences q self.old visits → KnowsSequences q self.new visits) }
        ensures refused { OnErr result ((visits : List Visit) (h : HeaderData) → KnowsSequences question.now self.old visits
            → at.now ≡ reached_by visits → (keeps_sequences question.now ≡ true)
            × IsRefused (M.refuses memory.now) (length (ended_in (live_in question.now) (visits ++ of_item (a_row h row.now) ∷ [])))) }
    {
        let first = at.sequence.first_with(row);
        if !is_code(question.code, first.address) {
            self.dead.add(first.address);
            return Ok(());
        }
        if !keeps_sequences(question) || !at.rises_with(row) {
            return Ok(());
        }
        let row = row_seen(at, row);
        let offset = at.operation;
        memory.push(
            &mut self.ended,
            Ended {
                unit,
                offset,
                row,
                first,
            },
        )?;
        Ok(())
    }

    /// `dead-sequence`, of a unit with a header at this offset
    pub fn dead(&self, unit: u64) -> Option<Finding>
        ensures { (q : Question) (visits : List Visit) → KnowsSequences q self.now visits
            → is_chosen q.rules rule.DeadSequence ≡ true → unit ≡ unit_offset 0 visits
            → option_to_list result ≡ dead_found (unit_offset 0 visits) (dead_told (live_in q) visits) }
    {
        self.dead.found(unit)
    }

    /// The live ones whose places don't fall.
    pub fn ended(&self) -> &[Ended]
        ensures { result.now ≡ self.now.ended.items }
    {
        self.ended.as_slice()
    }
}
