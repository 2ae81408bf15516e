//! Cuts between places, and which sequences answer for them. Section 6.2.2.

ghost use Rattle.std.specs.Prelude.{◌≡◌, ℕ, ◌<◌, ◌≤◌, true, false, length, nat_lt, slice_index_or, IfOk, MatchOption};
ghost use Rattle.std.specs.List.{list_any};
ghost use Rattle.dl_look.specs.Answer.{is_at_most, is_below};
ghost use Rattle.dl_look.specs.Cuts.{cut_place, no_cut};
ghost use Rattle.dl_sequence_rules.specs.Covering.{touches};
ghost use Rattle.dl_sequence_rules.specs.Cutting.{DoRise, is_other, owner_at, owner_touches};

use crate::ended::Ended;
use crate::touching::owner_touches;
use dl_look::{AddressRange, Cut, Place};

/// How many cuts are below a place.
pub(crate) fn cuts_below(cuts: &[Cut], place: Place) -> usize
    requires { DoRise cuts.now }
    ensures within { result ≤ length cuts.now }
    ensures below { (k : ℕ) → k < result → is_below (cut_place cuts.now k) place ≡ true }
    ensures others { (k : ℕ) → result ≤ k → k < length cuts.now → is_below (cut_place cuts.now k) place ≡ false }
{
    cuts.partition_point(|cut| cut.place < place)
}

/// How many cuts aren't above a place.
pub(crate) fn cuts_upto(cuts: &[Cut], place: Place) -> usize
    requires { DoRise cuts.now }
    ensures within { result ≤ length cuts.now }
    ensures upto { (k : ℕ) → k < result → is_at_most (cut_place cuts.now k) place ≡ true }
    ensures above { (k : ℕ) → result ≤ k → k < length cuts.now → is_at_most (cut_place cuts.now k) place ≡ false }
{
    cuts.partition_point(|cut| cut.place <= place)
}

/// How many cuts stand at addresses before this one.
pub(crate) fn cuts_before(cuts: &[Cut], end: u128) -> usize
    requires { DoRise cuts.now }
    ensures within { result ≤ length cuts.now }
    ensures others { (k : ℕ) → result ≤ k → k < length cuts.now → end ≤ (cut_place cuts.now k).address }
{
    cuts.partition_point(|cut| u128::from(cut.place.address) < end)
}

/// A cut that another sequence answers for.
#[derive(Clone, Copy)]
pub(crate) struct Shared {
    pub place: Place,
    /// The number of that sequence.
    pub other: usize,
}

/// The first cut from `low` on, up to before `high`, that another sequence answers for than the one of this number.
pub(crate) fn first_other(cuts: &[Cut], low: usize, high: usize, number: usize) -> Option<Shared>
    requires { high ≤ length cuts.now }
    ensures { MatchOption result ((k : ℕ) → low ≤ k → k < high → is_other number (owner_at cuts.now k) ≡ false)
        (λ shared. (k : ℕ) × (low ≤ k) × (k < high) × (shared.place ≡ cut_place cuts.now k)
        × (owner_at cuts.now k ≡ Some shared.other) × (is_other number (owner_at cuts.now k) ≡ true)
        × ((m : ℕ) → low ≤ m → m < k → is_other number (owner_at cuts.now m) ≡ false)) }
{
    for k in low..high {
        let cut = cuts[k];
        if let Some(other) = cut.sequence {
            if other != number {
                return Some(Shared {
                    place: cut.place,
                    other,
                });
            }
        }
    }
    None
}

/// Whether a sequence that answers for a cut from `low` on, up to before `high`, covers an address of the range.
pub(crate) fn any_touches(
    cuts: &[Cut],
    sequences: &[Ended],
    range: AddressRange,
    low: usize,
    high: usize,
) -> bool
    requires { high ≤ length cuts.now }
    ensures none { result ≡ false → (k : ℕ) → low ≤ k → k < high
        → owner_touches sequences.now range (owner_at cuts.now k) ≡ false }
    ensures some { result ≡ true → list_any (touches range) sequences.now ≡ true }
{
    for k in low..high {
        if owner_touches(sequences, range, cuts[k].sequence) {
            return true;
        }
    }
    false
}
