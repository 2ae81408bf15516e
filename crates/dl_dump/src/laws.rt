//! A law of the definitions, the contract of a function that does nothing.

ghost use Rattle.dl_dump.specs.RangeLaws.{WantedSequencesCover};

/// A sequence of a range is one that covers a place whose address is in it.
#[tactic(auto, using(crate::proofs::RangeLawLemmas::wanted_cover))]
pub fn wanted_sequences_cover()
    ensures { WantedSequencesCover }
{}
