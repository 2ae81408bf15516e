//! The runs of units, each sequence with its span. Section 6.2.2.

ghost use Rattle.std.specs.Prelude.{◌≡◌};
ghost use Rattle.dl_stretch.specs.Parts.{ended, AreParted};

use crate::run::Run;
use crate::sequence::SequenceRuns;
use crate::stretching::RunStretches;
use dl_look::{Place, Span};
use dl_memory::{Memory, NoMemory};
use dl_rows::Row;
use std::alloc::Global;

/// The runs of units, and the spans of their rising sequences: first those of the units that have ended.
#[derive(Drop)]
pub struct RunSpans {
    list: SequenceRuns,
    spans: Vec<Span>,
    /// How many runs are of units that have ended.
    whole_runs: usize,
    /// How many spans are.
    whole_spans: usize,
    ghost parted: { AreParted (ended list) spans.items whole_runs whole_spans },
}

impl RunSpans {
    ghost use Rattle.std.specs.Prelude.{◌≡◌, ℕ, ◌+◌, ◌*◌, ◌<◌, ◌≤◌, ◌^◌, IfOk, OnErr, true, List, [], ◌∷◌, ◌++◌, Bool, None, length};
    ghost use Rattle.std.specs.Option.{option_or, option_map};
    ghost use Rattle.dl_rows.specs.declared.row.Row as each;
    ghost use Rattle.dl_look.specs.Answer.{place_of};
    ghost use Rattle.dl_look.specs.LiveRows.{live_rows};
    ghost use Rattle.dl_stretch.specs.declared.stretch.Stretch as kept;
    ghost use Rattle.dl_stretch.specs.Held.{held};
    ghost use Rattle.dl_stretch.specs.Runs.{number_in, renumbered};
    ghost use Rattle.dl_stretch.specs.StandFor.{StandFor};
    ghost use Rattle.dl_stretch.specs.Stands.{whole_answer, unit_answer, Holds};
    ghost use Rattle.dl_stretch.specs.Stretches.{AreStretches};
    ghost use Rattle.dl_stretch.specs.ToldUnits.{NameFiles};
    ghost use Rattle.dl_stretch.specs.Kept.{kept_in, unit_in, whole_in};
    ghost use Rattle.dl_memory.specs.Refusals.{IsRefused};

    /// No unit yet.
    pub fn new(alloc: Global) -> RunSpans
        ensures count { kept_in result ≡ 0 }
        ensures whole { (a : ℕ) → whole_answer result a ≡ None }
        ensures unit { Holds result [] }
    {
        RunSpans {
            list: SequenceRuns::new(alloc),
            spans: Vec::new(alloc),
            whole_runs: 0,
            whole_spans: 0,
        }
    }

    /// Takes the next row of the current unit.
    #[inline(always)]
    pub fn row<M: Memory>(&mut self, memory: &M, row: &Row) -> Result<(), NoMemory>
        ensures more { kept_in self.new ≤ kept_in self.old + 1 }
        ensures ended { whole_in self.new ≡ whole_in self.old }
        ensures refused { OnErr result (IsRefused (M.refuses memory.now) (kept_in self.old + 1)) }
        ensures whole { IfOk result (λ _. (a : ℕ) → whole_answer self.new a ≡ whole_answer self.old a) }
        ensures unit { IfOk result (λ _. (rows : List each.Row) → Holds self.old rows
            → Holds self.new (rows ++ row.now ∷ [])) }
    {
        if row.end_sequence {
            self.end_sequence(memory, Place::of(row))
        } else {
            self.list.row(memory, row)
        }
    }

    /// Takes an end row, by its place.
    fn end_sequence<M: Memory>(&mut self, memory: &M, end: Place) -> Result<(), NoMemory>
        ensures more { kept_in self.new ≤ kept_in self.old + 1 }
        ensures ended { whole_in self.new ≡ whole_in self.old }
        ensures refused { OnErr result (IsRefused (M.refuses memory.now) (kept_in self.old + 1)) }
        ensures whole { IfOk result (λ _. (a : ℕ) → whole_answer self.new a ≡ whole_answer self.old a) }
        ensures unit { IfOk result (λ _. (rows : List each.Row) (row : each.Row) → place_of row ≡ end
            → row.end_sequence ≡ true → Holds self.old rows → Holds self.new (rows ++ row ∷ [])) }
    {
        let Some(first) = self.list.first(end) else {
            self.list.cut(self.list.begun());
            return Ok(());
        };
        let span = Span {
            start: self.list.begun(),
            len: self.list.count(),
            first,
            last: end,
            rising: true,
        };
        memory.push(&mut self.spans, span)?;
        self.list.keep();
        Ok(())
    }

    /// The runs of the sequences of the current unit that have ended.
    pub fn unit_runs(&self) -> &[Run]
        ensures count { length result.now ≡ unit_in self.now }
        ensures named { (live : ℕ → Bool) (rows : List each.Row) → Holds self.now (live_rows live rows)
            → NameFiles live rows result.now }
    {
        &self.list.ended()[self.whole_runs..]
    }

    /// The current unit ends, and each of its files gets its number from the list; `other` where the list ends before
    /// it.
    pub fn end_unit(&mut self, numbers: &[u64], other: u64)
        ensures count { kept_in self.new ≤ kept_in self.old }
        ensures ended { whole_in self.new ≡ whole_in self.old + unit_in self.old }
        ensures whole { (a : ℕ) → a < 2 ^ 64 → whole_answer self.new a ≡ option_or (whole_answer self.old a)
            (option_map (renumbered (λ file. held (number_in numbers.now other file))) (unit_answer self.old a)) }
        ensures unit { Holds self.new [] }
    {
        self.list.renumber(self.whole_runs, numbers, other);
        self.whole_runs = self.list.begun();
        self.whole_spans = self.spans.len();
    }

    /// Forgets the rows of the current unit.
    pub fn forget_unit(&mut self)
        ensures count { kept_in self.new ≤ kept_in self.old }
        ensures ended { whole_in self.new ≡ whole_in self.old }
        ensures whole { (a : ℕ) → whole_answer self.new a ≡ whole_answer self.old a }
        ensures unit { Holds self.new [] }
    {
        self.list.cut(self.whole_runs);
        self.spans.truncate(self.whole_spans);
    }

    /// The stretches of what the units answer that have ended.
    pub fn stretches<M: Memory>(&self, memory: &M) -> Result<RunStretches<'_>, NoMemory>
        ensures refused { OnErr result (IsRefused (M.refuses memory.now) (2 * kept_in self.now + 1)) }
        ensures few { IfOk result (λ stretches. (list : List kept.Stretch) → StandFor stretches list
            → length list ≤ 2 * kept_in self.now) }
        ensures made { IfOk result (λ stretches. (list : List kept.Stretch) → StandFor stretches list
            → AreStretches (whole_answer self.now) list) }
    {
        RunStretches::new(memory, self.list.ended(), &self.spans[..self.whole_spans])
    }
}
