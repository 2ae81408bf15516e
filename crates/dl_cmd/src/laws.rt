//! Laws of what words ask for and of their faults, each the contract of a function that does nothing.

ghost use Rattle.dl_cmd.specs.Laws.{ConflictIsFault, FaultlessWordsAsk, FaultlessWordsStand, FileExcludesInput};
ghost use Rattle.dl_cmd.specs.Laws.{LackIsFault, WorkedWords};

/// Words without a fault ask for a job, whose words may stand together and of which none is left out.
pub fn faultless_words()
    ensures ask { FaultlessWordsAsk }
    ensures stand { FaultlessWordsStand }
{}

/// Words that clap takes have the fault of the job that they ask for, and no other.
pub fn refused_words()
    ensures conflict { ConflictIsFault }
    ensures lack { LackIsFault }
{}

/// FILE may not stand beside what is said of a section on standard input alone.
pub fn file_excludes_input()
    ensures { FileExcludesInput }
{}

/// The faults of some command lines.
pub fn worked_words()
    ensures { WorkedWords }
{}
