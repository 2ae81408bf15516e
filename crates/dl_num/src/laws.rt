//! Laws of the definitions of numbers, each the contract of a function that does nothing.

ghost use Rattle.dl_num.specs.Laws.{OneUnsignedValue, OneSignedValue, NoUlebBeginsAnother, NoSlebBeginsAnother};
ghost use Rattle.dl_num.specs.Laws.{LebIsTested, LebIsFront, ComputedIsShortest, ComputedSlebIsShortest};
ghost use Rattle.dl_num.specs.Laws.{FixedReadsBack, FixedHasItsSize, BytesReadBack, FixedIsBelow, CutIsStanding};
ghost use Rattle.dl_num.specs.Laws.{OneEnd};

/// Bytes in LEB128 spell one number. Section 7.6.
pub fn one_value()
    ensures unsigned { OneUnsignedValue }
    ensures signed { OneSignedValue }
{}

/// No spelling in LEB128 begins another one. Section 7.6.
pub fn no_spelling_begins_another()
    ensures unsigned { NoUlebBeginsAnother }
    ensures signed { NoSlebBeginsAnother }
{}

/// The test and the cut that compute agree with the relation.
pub fn leb_is_tested()
    ensures test { LebIsTested }
    ensures front { LebIsFront }
{}

/// The shortest spelling that is computed is one. Section 7.6.
pub fn shortest_is_computed()
    ensures unsigned { ComputedIsShortest }
    ensures signed { ComputedSlebIsShortest }
{}

/// Numbers of fixed size and their bytes stand for one another, in either order.
pub fn fixed_reads_back()
    ensures number { FixedReadsBack }
    ensures size { FixedHasItsSize }
    ensures bytes { BytesReadBack }
    ensures below { FixedIsBelow }
{}

/// What stands at the front of bytes is cut off in one way, whatever a spelling is.
pub fn one_cut<T>()
    ensures { CutIsStanding T }
{}

/// A run of a step ends in one place with one result, whatever the step.
pub fn one_end<S, R>()
    ensures { OneEnd S R }
{}
