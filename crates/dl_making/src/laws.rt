//! Laws of what an index tells of addresses, each the contract of a function that does nothing.

ghost use Rattle.dl_making.specs.LineLaws.{AnswersOfIndex, AnswersOfIndexAround, LinesOfIndex, LinesOfIndexAround};
ghost use Rattle.dl_making.specs.LineLaws.{ToldIsLocation};

/// What an index tells of an address is what `addr` tells of the row that answers it.
pub fn told_is_location()
    ensures { ToldIsLocation }
{}

/// The index of units tells of an address what `addr` does, and its line is the one that `addr` prints.
pub fn lines_of_index()
    ensures answers { AnswersOfIndex }
    ensures lines { LinesOfIndex }
{}

/// The same of the whole units of a section of which units may be damaged.
pub fn lines_of_index_around()
    ensures answers { AnswersOfIndexAround }
    ensures lines { LinesOfIndexAround }
{}
