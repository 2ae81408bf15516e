//! Laws of what is found, each the contract of a function that does nothing.

ghost use Rattle.dl_sequence_rules.specs.Laws.{FirstOfBoth, NoneOfBoth, TouchesAddresses};

/// The place that is told of an overlap is the first that the sequence and one of the earlier ones cover, and none is told
/// only where they cover none.
pub fn first_place_is_told()
    ensures first { FirstOfBoth }
    ensures none { NoneOfBoth }
{}

/// A sequence touches a range exactly where it covers the place of an address of the range.
pub fn touching_is_covering()
    ensures { TouchesAddresses }
{}
