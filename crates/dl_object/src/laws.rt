//! Laws of the definitions of what is left, each the contract of a function that does nothing.

ghost use Rattle.dl_object.specs.Laws.{OneKeeping, RowsOfSection};

/// The rows of what is left of a program are those of the sequences of the section, each by itself, and those of the
/// operations after the last sequence. Section 6.2.2.
pub fn rows_of_a_section()
    ensures { RowsOfSection }
{}

/// What is left of bytes is settled by the bytes, the places and the section.
pub fn one_keeping()
    ensures { OneKeeping }
{}
