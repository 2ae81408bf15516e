//! The look-up of one place in rows that come one after the other. Section 6.2.2.

ghost use Rattle.std.specs.Prelude.{◌≡◌, false};

use crate::place::Place;
use dl_rows::Row;

/// The look-up of one place in rows that come one after the other, in fixed space.
#[derive(Clone, Copy)]
pub struct Finder {
    place: Place,
    state: AnswerStage,
}

/// What is kept of the rows that came.
#[derive(Clone, Copy)]
enum AnswerStage {
    /// The next row is the first of a sequence.
    Start,
    /// The current sequence doesn't answer: it isn't rising, or its first row is above the place.
    Passed,
    /// The current sequence is rising, and its first row isn't above the place.
    Open {
        /// The place of its last row.
        last: Place,
        /// Its last row that isn't above the place.
        found: Row,
    },
    /// This row of a sequence that has ended is the answer.
    Answered(Row),
}

impl Finder {
    ghost use Rattle.std.specs.Prelude.{◌≡◌, true, false, List, [], ◌∷◌, ◌++◌};
    ghost use Rattle.dl_rows.specs.declared.row.Row.{Row};
    ghost use Rattle.dl_look.specs.declared.place.Place.{Place};
    ghost use Rattle.dl_look.specs.Answer.{answer};
    ghost use Rattle.dl_look.specs.FinderRows.{StandsFor};

    /// No row yet.
    pub fn new(place: Place) -> Finder
        ensures { StandsFor result place [] }
    {
        Finder {
            place,
            state: AnswerStage::Start,
        }
    }

    /// Takes the next row.
    #[inline(always)]
    pub fn row(&mut self, row: &Row)
        ensures { (x : Place) (rows : List Row) → StandsFor self.old x rows
            → StandsFor self.new x (rows ++ row.now ∷ []) }
    {
        if row.end_sequence {
            self.end_sequence(row);
        } else {
            self.go_on(row);
        }
    }

    /// Takes a row after which its sequence goes on.
    #[inline(always)]
    fn go_on(&mut self, row: &Row)
        requires { row.now.end_sequence ≡ false }
        ensures { (x : Place) (rows : List Row) → StandsFor self.old x rows
            → StandsFor self.new x (rows ++ row.now ∷ []) }
    {
        let place = Place::of(row);
        match &mut self.state {
            AnswerStage::Start if place.is_at_most(self.place) => {
                self.state = AnswerStage::Open {
                    last: place,
                    found: kept(row),
                };
            }
            AnswerStage::Open { last, found } if last.is_at_most(place) => {
                *last = place;
                if place.is_at_most(self.place) {
                    *found = kept(row);
                }
            }
            AnswerStage::Start => self.state = AnswerStage::Passed,
            AnswerStage::Open { .. } => self.state = AnswerStage::Passed,
            AnswerStage::Passed => {}
            AnswerStage::Answered(_) => {}
        }
    }

    /// Takes an end row.
    #[inline(always)]
    fn end_sequence(&mut self, row: &Row)
        requires { row.now.end_sequence ≡ true }
        ensures { (x : Place) (rows : List Row) → StandsFor self.old x rows
            → StandsFor self.new x (rows ++ row.now ∷ []) }
    {
        let end = Place::of(row);
        match self.state {
            AnswerStage::Open { last, found } if last.is_at_most(end) && self.place.is_below(end) =>
                {
                    self.state = AnswerStage::Answered(found);
                }
            AnswerStage::Open { .. } => self.state = AnswerStage::Start,
            AnswerStage::Passed => self.state = AnswerStage::Start,
            AnswerStage::Start => {}
            AnswerStage::Answered(_) => {}
        }
    }

    /// The last row that isn't above the place, of the first rising sequence that covers it; None where
    /// none does. A sequence ends in an end row, is rising where no row's place is below that of the row
    /// before it, and covers the places from its first row's up to below its end row's.
    pub fn answer(&self) -> Option<Row>
        ensures { (x : Place) (rows : List Row) → StandsFor self.now x rows → result ≡ answer rows x }
    {
        match self.state {
            AnswerStage::Answered(row) => Some(row),
            AnswerStage::Start | AnswerStage::Passed | AnswerStage::Open { .. } => None,
        }
    }
}

/// A copy of a row that is no end row.
///
/// `end_sequence` is set anew, so that the flags aren't copied by one load: that would wait until the
/// stores of single bytes a moment ago are done.
#[inline(always)]
pub(crate) fn kept(row: &Row) -> Row
    requires { row.now.end_sequence ≡ false }
    ensures { result ≡ row.now }
{
    Row {
        end_sequence: false,
        ..*row
    }
}
