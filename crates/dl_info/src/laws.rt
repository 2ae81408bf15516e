//! Laws of the definitions of units, each the contract of a function that does nothing.

ghost use Rattle.dl_info.specs.Laws.{AbbreviationsAreBounded, AnswersStay, AttributesAreBounded, EntryIsSpelled};
ghost use Rattle.dl_info.specs.Laws.{LengthIsSpelled, LengthsStay, OneEntry, TwelveBytesTell, WholeUnitsTell};

/// What is read as the length or the first entry of a unit is spelled as one, each one is read, and bytes spell one entry.
/// DWARF 5, sections 7.4 and 7.5.
pub fn units_are_spelled()
    ensures length { LengthIsSpelled }
    ensures entry { EntryIsSpelled }
    ensures one { OneEntry }
{}

/// The bounds of the definitions leave out no attribute and no abbreviation. DWARF 5, section 7.5.3.
pub fn abbreviations_are_bounded()
    ensures attributes { AttributesAreBounded }
    ensures abbreviations { AbbreviationsAreBounded }
{}

/// More bytes of a unit change no answer but `More`. DWARF 5, section 7.5.
pub fn answers_stay()
    ensures length { LengthsStay }
    ensures entry { AnswersStay }
{}

/// Twelve bytes are enough for the length of a unit, and the bytes of a unit for its first entry. DWARF 5, sections 7.4
/// and 7.5.
pub fn whole_units_tell()
    ensures length { TwelveBytesTell }
    ensures entry { WholeUnitsTell }
{}
