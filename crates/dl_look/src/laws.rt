//! Laws of the definitions of look-up, each the contract of a function that does nothing.

ghost use Rattle.std.specs.Prelude.{◌≡◌};
ghost use Rattle.std.specs.Ordering.{partial_lt, partial_le};
ghost use Rattle.dl_look.specs.declared.place.Place as place;
ghost use Rattle.dl_look.specs.Answer.{is_below, is_at_most};
ghost use Rattle.dl_look.specs.Laws.{AnswersAreRows, AnswersAreUpto, AnswersAreNoEndRows, AnswersOfLiveRows};

use crate::place::Place;

/// `<` and `<=` order places by address, then by op_index.
pub fn places_are_ordered()
    ensures below { (p q : place.Place)
        → partial_lt ⟦<Place as PartialOrd>⟧.partial_cmp p q ≡ is_below p q }
    ensures at_most { (p q : place.Place)
        → partial_le ⟦<Place as PartialOrd>⟧.partial_cmp p q ≡ is_at_most p q }
{}

/// Each answer is one of the rows, isn't above the place, and is no end row.
pub fn answers_are_rows()
    ensures rows { AnswersAreRows }
    ensures upto { AnswersAreUpto }
    ensures no_end_rows { AnswersAreNoEndRows }
{}

/// The answer of the rows of live sequences is that of the first live rising sequence that covers the place.
pub fn answers_of_live_rows()
    ensures { AnswersOfLiveRows }
{}
