//! Laws of the definitions of what is written, each the contract of a function that does nothing.

ghost use Rattle.dl_emit.specs.ConversionLaws.{NewCellsAreFew, NumbersMeanTheSame, ReadIsOlder};
ghost use Rattle.dl_emit.specs.Laws.{ProgramIsReadAgain, UnitIsReadAgain};

/// The program that is written for rows is read again as a program of the same rows, in either byte
/// order. Sections 6.2.2 and 6.2.5.
pub fn program_is_read_again()
    ensures { ProgramIsReadAgain }
{}

/// The unit that is written for a header and rows is read again as a unit of the same header and
/// rows, in every dialect. Section 6.2.
pub fn unit_is_read_again()
    ensures { UnitIsReadAgain }
{}

/// Each number of a directory or a file of versions 2 to 4 means the same in version 5: the same path, directory, time
/// and size. It is of all headers of these versions that bytes spell. Sections 6.2.4 and 6.2.4.1.
pub fn numbers_mean_the_same()
    ensures same { NumbersMeanTheSame }
    ensures read { ReadIsOlder }
{}

/// In version 5 the tables of a header hold no more cells than eight times those that they held before, one for each byte
/// of the compilation directory, and seven.
pub fn new_cells_are_few()
    ensures { NewCellsAreFew }
{}
