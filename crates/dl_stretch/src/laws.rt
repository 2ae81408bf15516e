//! Laws of the definitions of stretches, each the contract of a function that does nothing.

ghost use Rattle.dl_stretch.specs.Laws.{OneListOfStretches, LastIsGap, TellsAnswers};
ghost use Rattle.dl_stretch.specs.Laws.{CoversAddresses, CoversLast, HeldAsGiven, LastRowBegun};

/// There is at most one list of stretches of a function from addresses to answers.
pub fn one_list_of_stretches()
    ensures { OneListOfStretches }
{}

/// Where nothing is told of the last address, the last stretch is a gap. A sequence covers that address only where
/// its end row stands there, with an op_index above 0.
pub fn last_is_gap()
    ensures gap { LastIsGap }
    ensures covered { CoversLast }
{}

/// Units tell of an address what the row tells that answers for it among their live sequences.
pub fn units_tell_answers()
    ensures { TellsAnswers }
{}

/// Of the places of addresses, those that a sequence covers, and the last row that isn't above one, are told by the
/// first address of each row.
pub fn rows_answer_addresses()
    ensures covered { CoversAddresses }
    ensures last { LastRowBegun }
{}

/// A unit's files have the numbers of a list that has fewer than 2^63 of them, all below 2^63.
pub fn numbers_are_held()
    ensures { HeldAsGiven }
{}
