//! Laws of the definitions of operations, programs, rows and units, each the contract of a function that does nothing.

ghost use Rattle.dl_rows.specs.Laws.{SpeltIsSpelled, BadIsFaulty, NoOperationBeginsAnother, OneOperation};
ghost use Rattle.dl_rows.specs.Laws.{NoSpellingIsFaulty, OneProgram, ProgramIsFound, FoundIsProgram, NoneBeginsRest};
ghost use Rattle.dl_rows.specs.Laws.{RowForByte};
ghost use Rattle.dl_rows.specs.Calls.{RowsAreCalls};
ghost use Rattle.dl_rows.specs.Items.{ItemsAreThese, ItemsGrow};
ghost use Rattle.dl_rows.specs.Runs.{TraceRuns, TraceOfUnit};
ghost use Rattle.dl_rows.specs.UnitLaws.{HeaderFits, LengthIsComputed, NoUnitBeginsAnother, ForeignComesTo};
ghost use Rattle.dl_rows.specs.UnitLaws.{UnitComesTo, OneRefusal, RefusedInHeader, RefusedInProgram};
ghost use Rattle.dl_rows.specs.UnitLaws.{OperationIsRefused, UnitUnlessRefused, RowForProgramByte};

/// What computes an operation of bytes agrees with the relations: on spellings, and on bad bytes
/// with the kind of the fault. Sections 6.2.5.1 to 6.2.5.3.
pub fn operation_is_computed()
    ensures good { SpeltIsSpelled }
    ensures bad { BadIsFaulty }
{}

/// Bytes spell one operation, they begin no other one, and no front of them is bad. Section 6.2.5.
pub fn one_operation()
    ensures value { OneOperation }
    ensures end { NoOperationBeginsAnother }
    ensures sound { NoSpellingIsFaulty }
{}

/// Bytes spell one program, and what is cut off the front of bytes is all of the program that
/// stands there.
pub fn program_is_found()
    ensures value { OneProgram }
    ensures program { ProgramIsFound }
    ensures found { FoundIsProgram }
    ensures rest { NoneBeginsRest }
{}

/// What a sink hears of a program are its bytes, the operations that are complete in it, and its rows; of more bytes it
/// hears more.
pub fn items_of_a_program()
    ensures these { ItemsAreThese }
    ensures grow { ItemsGrow }
{}

/// A program has at most one row for each of its bytes, and so has the program of a unit. Section 6.2.2.
pub fn a_row_for_a_byte()
    ensures program { RowForByte }
    ensures unit { RowForProgramByte }
{}

/// The params of a header are usable, and its line_base is one byte. Section 6.2.4.
pub fn params_of_a_header()
    ensures { HeaderFits }
{}

/// A unit is as long as is computed of its initial length, and begins no other unit. Section 7.4.
pub fn length_of_a_unit()
    ensures computed { LengthIsComputed }
    ensures end { NoUnitBeginsAnother }
{}

/// The computed events of a unit are its version, where that isn't 5, and else its header and the
/// rows of its program.
pub fn events_of_a_unit()
    ensures foreign { ForeignComesTo }
    ensures own { UnitComesTo }
{}

/// Of the fronts of a list at most one is refused, at one place, for one kind.
pub fn one_refusal()
    ensures { OneRefusal }
{}

/// Where the header isn't complete, it is refused; else an operation is, which is bad or cut short, and
/// is no more than begun by any shorter front of its bytes.
pub fn refusals()
    ensures header { RefusedInHeader }
    ensures program { RefusedInProgram }
    ensures operation { OperationIsRefused }
{}

/// Bytes as long as their initial length says are a unit, or one front of them is refused.
pub fn unit_or_refusal()
    ensures { UnitUnlessRefused }
{}

/// What is heard in turns is what the bytes taken come to, however long the turns are and wherever
/// memory is refused; of bytes that complete a unit nothing is refused, and enough turns take it whole.
pub fn turns()
    ensures trace { TraceRuns }
    ensures unit { TraceOfUnit }
{}

/// What `feed_program` may answer, and the rows that it may tell on the way, are what calls of `feed` may
/// answer, one after the other.
pub fn rows_are_calls()
    ensures { RowsAreCalls }
{}
