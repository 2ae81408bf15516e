//! The rows of a sequence that came so far.

use crate::place::Place;

/// Rows one after the other: the places of the first and of the last, and whether no place is below
/// the one before it.
#[derive(Clone, Copy)]
pub struct SequenceSoFar {
    pub first: Place,
    pub last: Place,
    pub rising: bool,
}

impl SequenceSoFar {
    ghost use Rattle.std.specs.Prelude.{◌≡◌, ◌++◌, ◌∷◌, [], List, Some};
    ghost use Rattle.dl_rows.specs.declared.row.Row.{Row};
    ghost use Rattle.dl_look.specs.Answer.{place_of};
    ghost use Rattle.dl_look.specs.Spans.{run_of};

    /// The rows of a run, None for none, and a row after them.
    #[inline]
    pub fn extended(run: Option<SequenceSoFar>, place: Place) -> SequenceSoFar
        ensures { (rows : List Row) (r : Row) → run ≡ run_of rows → place ≡ place_of r
            → Some result ≡ run_of (rows ++ r ∷ []) }
    {
        match run {
            Some(run) => SequenceSoFar {
                first: run.first,
                last: place,
                rising: run.rising && run.last.is_at_most(place),
            },
            None => SequenceSoFar {
                first: place,
                last: place,
                rising: true,
            },
        }
    }
}
