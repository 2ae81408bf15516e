//! Runs of sequences, of which the current one is the last, as far as its rows have come. Section 6.2.2.

ghost use Rattle.std.specs.Prelude.{◌≡◌, ◌≤◌, length, drop, map};
ghost use Rattle.dl_look.specs.Answer.{is_at_most};
ghost use Rattle.dl_stretch.specs.Renumbered.{renumbered_run};
ghost use Rattle.dl_stretch.specs.Runs.{number_in};
ghost use Rattle.dl_stretch.specs.Sequences.{AreKept};

use crate::run::{Run, push_row};
use dl_look::Place;
use dl_memory::{Memory, NoMemory};
use dl_rows::Row;
use std::alloc::Global;

/// Runs one after the other, of which the last ones are those of the current sequence.
#[derive(Drop)]
pub struct SequenceRuns {
    runs: Vec<Run>,
    /// How many stand before those of the current sequence.
    begun: usize,
    state: RowStage,
    ghost within: { begun ≤ length runs.items },
    ghost kept: { ∥ AreKept state (drop begun runs.items) ∥₁ },
}

/// Where the rows are.
#[derive(Clone, Copy)]
enum RowStage {
    /// The next row is the first of a sequence.
    Between,
    /// The current sequence isn't rising.
    Passed,
    /// The current sequence is rising.
    Rising {
        /// The place of its first row.
        first: Place,
        /// The place of its last row.
        last: Place,
    },
}

impl SequenceRuns {
    ghost use Rattle.std.specs.Prelude.{◌≡◌, ◌+◌, ◌-◌, ◌≤◌, IfOk, OnErr, IfSome, List, [], ◌∷◌, ◌++◌, length, take, drop, map};
    ghost use Rattle.dl_rows.specs.declared.row.Row as each;
    ghost use Rattle.dl_look.specs.Answer.{place_of};
    ghost use Rattle.dl_stretch.specs.Renumbered.{renumbered_run};
    ghost use Rattle.dl_stretch.specs.Runs.{number_in};
    ghost use Rattle.dl_stretch.specs.Sequences.{Keeps, TellFrom, TellsFirst};
    ghost use Rattle.dl_stretch.specs.Parts.{ended, current};

    /// No row yet.
    pub fn new(alloc: Global) -> SequenceRuns
        ensures none { ended result ≡ [] }
        ensures begun { result.begun ≡ 0 }
        ensures keeps { Keeps result.state (current result) [] }
    {
        SequenceRuns {
            runs: Vec::new(alloc),
            begun: 0,
            state: RowStage::Between,
        }
    }

    /// Takes the next row of the sequence.
    #[inline(always)]
    pub fn row<M: Memory>(&mut self, memory: &M, row: &Row) -> Result<(), NoMemory>
        ensures same { ended self.new ≡ ended self.old }
        ensures begun { self.new.begun ≡ self.old.begun }
        ensures more { length self.new.runs.items ≤ length self.old.runs.items + 1 }
        ensures refused { OnErr result (M.refuses memory.now (length self.old.runs.items + 1)) }
        ensures keeps { IfOk result (λ _. (rows : List each.Row) → Keeps self.old.state (current self.old) rows
            → Keeps self.new.state (current self.new) (rows ++ row.now ∷ [])) }
    {
        let place = Place::of(row);
        match self.state {
            RowStage::Between => {
                push_row(memory, &mut self.runs, self.begun, row)?;
                self.state = RowStage::Rising {
                    first: place,
                    last: place,
                };
            }
            RowStage::Rising { first, last } => {
                if is_at_most(last, place) {
                    push_row(memory, &mut self.runs, self.begun, row)?;
                    self.state = RowStage::Rising { first, last: place };
                } else {
                    self.state = RowStage::Passed;
                }
            }
            RowStage::Passed => {}
        }
        Ok(())
    }

    /// The place of the first row, where the rows are rising and their end row may stand at this place.
    pub fn first(&self, end: Place) -> Option<Place>
        ensures found { IfSome result (λ first. TellFrom first (current self.now)) }
        ensures value { (rows : List each.Row) (r : each.Row) → Keeps self.now.state (current self.now) rows
            → place_of r ≡ end → TellsFirst result (current self.now) rows r }
    {
        match self.state {
            RowStage::Rising { first, last } => {
                if is_at_most(last, end) {
                    Some(first)
                } else {
                    None
                }
            }
            RowStage::Between => None,
            RowStage::Passed => None,
        }
    }

    /// How many runs stand before those of the current sequence.
    pub fn begun(&self) -> usize
        ensures { result ≡ self.now.begun }
    {
        self.begun
    }

    /// How many runs the current sequence has.
    pub fn count(&self) -> usize
        ensures { result ≡ length (current self.now) }
    {
        self.runs.len() - self.begun
    }

    /// The runs of the sequences before the current one.
    pub fn ended(&self) -> &[Run]
        ensures { result.now ≡ ended self.now }
    {
        &self.runs[..self.begun]
    }

    /// The sequence ends, and its runs are kept.
    pub fn keep(&mut self)
        ensures runs { ended self.new ≡ ended self.old ++ current self.old }
        ensures begun { self.new.begun ≡ length (ended self.new) }
        ensures count { length self.new.runs.items ≡ length self.old.runs.items }
        ensures keeps { Keeps self.new.state (current self.new) [] }
    {
        self.begun = self.runs.len();
        self.state = RowStage::Between;
    }

    /// Forgets all runs but the first ones, as many as are said, those of the current sequence in any case.
    pub fn cut(&mut self, len: usize)
        requires { len ≤ self.old.begun }
        ensures runs { ended self.new ≡ take len (ended self.old) }
        ensures begun { self.new.begun ≡ len }
        ensures count { length self.new.runs.items ≤ length self.old.runs.items }
        ensures keeps { Keeps self.new.state (current self.new) [] }
    {
        self.runs.truncate(len);
        self.begun = len;
        self.state = RowStage::Between;
    }

    /// Forgets the runs of the current sequence, and gives the files of the runs from `from` on the numbers that the list
    /// has for them; `other` where it ends before them.
    pub fn renumber(&mut self, from: usize, numbers: &[u64], other: u64)
        requires { from ≤ self.old.begun }
        ensures runs { ended self.new ≡ take from (ended self.old)
            ++ map (renumbered_run (number_in numbers.now other)) (drop from (ended self.old)) }
        ensures begun { self.new.begun ≡ self.old.begun }
        ensures count { length self.new.runs.items ≤ length self.old.runs.items }
        ensures keeps { Keeps self.new.state (current self.new) [] }
    {
        self.cut(self.begun);
        renumber_all(&mut self.runs.as_mut_slice()[from..], numbers, other);
    }
}

/// Gives the files of the runs the numbers that the list has for them; `other` where it ends before them.
fn renumber_all(runs: &mut [Run], numbers: &[u64], other: u64)
    ensures { runs.new ≡ map (renumbered_run (number_in numbers.now other)) runs.old }
{
    for run in runs {
        *run = run.renumbered(numbers, other);
    }
}

/// Whether the place isn't above the other.
#[inline(always)]
fn is_at_most(place: Place, other: Place) -> bool
    ensures { result ≡ is_at_most place other }
{
    place.address < other.address
        || place.address == other.address && place.op_index <= other.op_index
}
