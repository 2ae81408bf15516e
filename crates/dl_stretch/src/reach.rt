//! The addresses between two cuts. Section 6.2.2.

ghost use Rattle.std.specs.Prelude.{◌≡◌, ◌+◌, ◌<◌, ◌≤◌, MatchOption, length};
ghost use Rattle.dl_stretch.specs.Made.{cut_start};

use crate::run::address_from;
use dl_look::Cut;

/// Addresses that stand in a row, from the first to the last one; at least one.
#[derive(Clone, Copy)]
pub struct Reach {
    pub first: u64,
    pub last: u64,
}

/// The addresses from a cut on, up to before the next one; None where there is none.
pub fn reach_of(cuts: &[Cut], i: usize) -> Option<Reach>
    requires { i < length cuts.now }
    ensures { MatchOption result (cut_start cuts.now (i + 1) ≤ cut_start cuts.now i)
        (λ reach. (reach.first ≡ cut_start cuts.now i) × (reach.last + 1 ≡ cut_start cuts.now (i + 1))
        × (reach.first ≤ reach.last)) }
{
    let first = address_from(cuts[i].place)?;
    let last = last_before(cuts, i + 1)?;
    if first <= last {
        Some(Reach { first, last })
    } else {
        None
    }
}

/// The last address before a cut, or of all where there is no such cut; None where none is before it.
fn last_before(cuts: &[Cut], i: usize) -> Option<u64>
    ensures { MatchOption result (cut_start cuts.now i ≡ 0) (λ last. last + 1 ≡ cut_start cuts.now i) }
{
    if i >= cuts.len() {
        return Some(u64::MAX);
    }
    match address_from(cuts[i].place) {
        Some(next) => next.checked_sub(1),
        None => Some(u64::MAX),
    }
}
