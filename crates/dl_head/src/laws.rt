//! Laws of the definitions of headers, each the contract of a function that does nothing. Section 6.2.4.

ghost use Rattle.dl_field.specs.Laws.{FieldIsJudged};
ghost use Rattle.dl_head.specs.Laws.{OneHeader, HeaderIsFound, FoundIsHeader, CutIsComputed, HeaderIsNotForeign};
ghost use Rattle.dl_head.specs.Laws.{OneHeaderRefusal, RefusalIsComputed, HeaderIsNotRefused, ForeignIsNotRefused};
ghost use Rattle.dl_head.specs.Laws.{FewCells, HeaderHoldsItsCells};
ghost use Rattle.dl_head.specs.Reading.{OneAnswer};
ghost use Rattle.dl_head.specs.WrittenLaws.{WrittenIsHeader, WrittenHasItsLength, ReadIsSound};

/// The judgement of bytes as a field finds the good fields of sections 6.2.4, 7.4 and 7.5.6.
pub fn good_fields()
    ensures { FieldIsJudged }
{}

/// No header begins another one, and bytes are one header.
pub fn one_header()
    ensures { OneHeader }
{}

/// The header at the front of bytes that is computed is the one that they begin with, whatever
/// follows it.
pub fn header_at_front()
    ensures found { HeaderIsFound }
    ensures header { FoundIsHeader }
{}

/// There is one way to cut good fields off the front of bytes, the computed one.
pub fn one_field_cut()
    ensures { CutIsComputed }
{}

/// Of the fronts of a list at most one is refused in its header, at one place, for one kind: the one
/// that is computed.
pub fn one_header_refusal()
    ensures one { OneHeaderRefusal }
    ensures computed { RefusalIsComputed }
{}

/// Bytes that begin with a header are no foreign unit, and no front of them is refused in its header;
/// nor is one of a foreign unit.
pub fn header_or_refusal()
    ensures own { HeaderIsNotForeign }
    ensures header { HeaderIsNotRefused }
    ensures foreign { ForeignIsNotRefused }
{}

/// Bytes come to one thing alone: a header, a foreign unit, a fault, or nothing yet.
pub fn one_answer()
    ensures { OneAnswer }
{}

/// A header that is being read holds no more cells than it has bytes, and in the end those of its
/// tables.
pub fn few_cells()
    ensures few { FewCells }
    ensures whole { HeaderHoldsItsCells }
{}

/// The bytes that are written of a header are that header, and tell the unit's length.
pub fn header_is_written()
    ensures header { WrittenIsHeader }
    ensures length { WrittenHasItsLength }
{}

/// A header that bytes spell is one that can be written.
pub fn header_is_sound()
    ensures { ReadIsSound }
{}
