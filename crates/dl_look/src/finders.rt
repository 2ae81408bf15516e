//! The look-up of many places in rows that come one after the other. Section 6.2.2.

ghost use Rattle.std.specs.Prelude.{◌≡◌, ℕ, ◌<◌, ◌≤◌, true, length, vec_capacity};
ghost use Rattle.std.proofs.Props.{props};
ghost use Rattle.dl_look.specs.Answer.{is_below};
ghost use Rattle.dl_look.specs.Ledgers.{IsSound, AreSealed};
ghost use Rattle.dl_look.specs.SequenceState.{last_of, end_of, most_stretches};
ghost use Rattle.dl_look.specs.Slots.{slot_place, IsNumbered, IsRising};
ghost use Rattle.dl_look.specs.Trails.{StartsWithin};

use crate::finder::kept;
use crate::ledger::{Answered, Ledger};
use crate::place::Place;
use crate::slots::{Slot, first_not_below, sorted};
use crate::trail::{Stretch, pass, settle};
use dl_memory::{Memory, NoMemory, System};
use dl_rows::Row;
use std::alloc::Global;

/// The look-up of many places in the rows of units that come one after the other.
///
/// Each row of a unit goes to `row`. Once the unit is whole `end_unit` makes its rows count, and `answered`
/// tells which places it is the first to answer; if it turns out to be damaged, `forget_unit` leaves it out.
///
/// A row takes constant time, and a binary search of the places where it passes over some. The end row of
/// a rising sequence takes besides what these searches found, and each place that it answers, a little
/// more than constant time. `end_unit` and `forget_unit` take constant time for each place that the rows of
/// the unit are the first to answer. `build` takes 185 bytes for each place.
#[derive(Drop)]
pub struct Finders {
    /// The places in order.
    slots: Vec<Slot>,
    /// The answers, in the order in which they came.
    ledger: Ledger,
    /// The rows of the current sequence for the slots that it has passed over.
    trail: Vec<Stretch>,
    state: SequenceStage,
    /// How many answers there were before the last unit that ended.
    before: usize,
    /// How many answers are of units that have ended.
    whole: usize,
    ghost rising: { IsRising slots.items },
    ghost numbered: { IsNumbered slots.items },
    ghost sound: { IsSound slots.items ledger },
    ghost sealed: { AreSealed slots.items whole ledger },
    ghost capacity: { length slots.items ≤ vec_capacity trail },
    ghost starts: { StartsWithin (length slots.items) trail.items },
    ghost room: { length trail.items ≤ most_stretches (length slots.items) state },
    ghost within: { end_of state ≤ length slots.items },
    ghost passed: { (j : ℕ) → j < end_of state → is_below (slot_place slots.items j) (last_of state) ≡ true },
    ghost ended: { whole ≤ length ledger.log.items },
    ghost earlier: { before ≤ whole },
}

/// What is kept of the current sequence.
#[derive(Clone, Copy)]
enum SequenceStage {
    /// The next row is the first of a sequence.
    Start,
    /// The current sequence answers none: it isn't rising, or its first row is above all places.
    Passed,
    /// The current sequence is rising.
    Open {
        /// Its last row.
        last: Row,
        /// The first slot whose place isn't below that row's.
        end: usize,
    },
}

impl Finders {
    ghost use Rattle.std.specs.Prelude.{◌≡◌, ℕ, ◌+◌, ◌<◌, ◌≤◌, IfOk, OnErr, length, true, false, List, [], ◌∷◌, ◌++◌, slice_get};
    ghost use Rattle.dl_memory.specs.Refusals.{IsRefused, SystemRefuses};
    ghost use Rattle.std.specs.Option.{option_and_then};
    ghost use Rattle.dl_rows.specs.declared.row.Row.{Row};
    ghost use Rattle.dl_look.specs.declared.place.Place.{Place};
    ghost use Rattle.dl_look.specs.Units.{answer_of_units, AreFirstAnswers};
    ghost use Rattle.dl_look.specs.FindersRows.{KeepsRoom, Stand, answered_count, told_count};

    /// The places to look for, in any order, and no row yet. No memory is taken later.
    pub fn build(alloc: Global, places: &[Place]) -> Result<Finders, NoMemory>
        ensures built { IfOk result (λ finders. Stand finders places.now [] []) }
        ensures refused { OnErr result (IsRefused SystemRefuses (length places.now + 1)) }
    {
        Finders::build_in(&System::new(alloc), places)
    }

    /// The same, by this memory.
    pub fn build_in<M: Memory>(memory: &M, places: &[Place]) -> Result<Finders, NoMemory>
        ensures built { IfOk result (λ finders. Stand finders places.now [] []) }
        ensures refused { OnErr result (IsRefused (M.refuses memory.now) (length places.now + 1)) }
    {
        let slots = sorted(memory, places)?;
        let ledger = Ledger::build(memory, slots.as_slice())?;
        Ok(Finders {
            slots,
            ledger,
            trail: memory.with_capacity(places.len())?,
            state: SequenceStage::Start,
            before: 0,
            whole: 0,
        })
    }

    /// Takes the next row of the current unit. No memory is taken.
    #[inline(always)]
    pub fn row(&mut self, row: &Row)
        ensures stand { (places : List Place) (units : List (List Row)) (rows : List Row)
            → Stand self.old places units rows → Stand self.new places units (rows ++ row.now ∷ []) }
        ensures room { KeepsRoom self.old self.new }
        ensures count { answered_count self.new ≡ answered_count self.old }
    {
        if row.end_sequence {
            self.end_sequence(row);
        } else {
            self.go_on(row);
        }
    }

    /// Takes a row after which its sequence goes on.
    #[inline(always)]
    fn go_on(&mut self, row: &Row)
        requires { row.now.end_sequence ≡ false }
        ensures stand { (places : List Place) (units : List (List Row)) (rows : List Row)
            → Stand self.old places units rows → Stand self.new places units (rows ++ row.now ∷ []) }
        ensures room { KeepsRoom self.old self.new }
        ensures count { answered_count self.new ≡ answered_count self.old }
    {
        let place = Place::of(row);
        match &mut self.state {
            SequenceStage::Start => {
                let end = first_not_below(self.slots.as_slice(), place);
                self.trail.clear();
                if end == self.slots.len() {
                    self.state = SequenceStage::Passed;
                } else {
                    self.state = SequenceStage::Open {
                        last: kept(row),
                        end,
                    };
                }
            }
            SequenceStage::Open { last, end } if Place::of(last).is_at_most(place) => {
                *end = pass(&mut self.trail, self.slots.as_slice(), last, *end, place);
                *last = kept(row);
            }
            SequenceStage::Open { .. } => self.state = SequenceStage::Passed,
            SequenceStage::Passed => {}
        }
    }

    /// Takes an end row.
    fn end_sequence(&mut self, row: &Row)
        requires { row.now.end_sequence ≡ true }
        ensures stand { (places : List Place) (units : List (List Row)) (rows : List Row)
            → Stand self.old places units rows → Stand self.new places units (rows ++ row.now ∷ []) }
        ensures room { KeepsRoom self.old self.new }
        ensures count { answered_count self.new ≡ answered_count self.old }
    {
        let place = Place::of(row);
        let state = self.state;
        self.state = SequenceStage::Start;
        match state {
            SequenceStage::Open { last, end } => {
                if Place::of(&last).is_at_most(place) {
                    let slots = self.slots.as_slice();
                    let end = pass(&mut self.trail, slots, &last, end, place);
                    settle(self.trail.as_slice(), end, slots, &mut self.ledger);
                }
            }
            SequenceStage::Passed => {}
            SequenceStage::Start => {}
        }
    }

    /// The current unit ends, and its rows count; the next row is the first one of the next unit. No memory is taken.
    pub fn end_unit(&mut self)
        ensures stand { (places : List Place) (units : List (List Row)) (rows : List Row)
            → Stand self.old places units rows → Stand self.new places (units ++ rows ∷ []) [] }
        ensures room { KeepsRoom self.old self.new }
        ensures count { answered_count self.new ≡ told_count self.old }
    {
        self.ledger.seal(self.whole);
        self.before = self.whole;
        self.whole = self.ledger.log().len();
        self.state = SequenceStage::Start;
    }

    /// The current unit turns out to be damaged: its rows don't count, and the next row is the first one of
    /// the next unit.
    pub fn forget_unit(&mut self)
        ensures stand { (places : List Place) (units : List (List Row)) (rows : List Row)
            → Stand self.old places units rows → Stand self.new places units [] }
        ensures room { KeepsRoom self.old self.new }
        ensures count { answered_count self.new ≡ answered_count self.old }
    {
        self.ledger.forget(self.whole);
        self.state = SequenceStage::Start;
    }

    /// The places that the last unit that ended is the first to answer, each once.
    pub fn answered(&self) -> &[Answered]
        ensures { (places : List Place) (units : List (List Row)) (last rows : List Row)
            → Stand self.now places (units ++ last ∷ []) rows → AreFirstAnswers places units last result.now }
    {
        &self.ledger.log()[self.before..self.whole]
    }

    /// The places that the rows of the current unit are the first to answer so far, each once.
    pub fn answered_so_far(&self) -> &[Answered]
        ensures answered { (places : List Place) (units : List (List Row)) (rows : List Row)
            → Stand self.now places units rows → AreFirstAnswers places units rows result.now }
        ensures count { answered_count self.now + length result.now ≡ told_count self.now }
        ensures few { (places : List Place) (units : List (List Row)) (rows : List Row)
            → Stand self.now places units rows → told_count self.now ≤ length places }
    {
        &self.ledger.log()[self.whole..]
    }

    /// The answer of the place of this number among those that were given, in the units that have ended:
    /// that of the first unit whose rows have one, as `Finder::answer` gives it of a unit's rows. None
    /// where none has, and where there is no place of this number.
    pub fn answer(&self, number: usize) -> Option<Row>
        ensures { (places : List Place) (units : List (List Row)) (rows : List Row)
            → Stand self.now places units rows → result
            ≡ option_and_then (answer_of_units units) (slice_get places number) }
    {
        self.ledger.answer(number, self.whole)
    }
}
