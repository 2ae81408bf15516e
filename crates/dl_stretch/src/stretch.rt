//! Runs of addresses with the same answer, and the gaps between them. Section 6.2.2.

ghost use Rattle.std.specs.Prelude.{◌≡◌, ℕ, ◌<◌, ◌≤◌, List, Option};
ghost use Rattle.std.specs.Option.{option_eq};
ghost use Rattle.dl_stretch.specs.declared.told.Told as said;
ghost use Rattle.dl_stretch.specs.declared.stretch.Stretch as each;
ghost use Rattle.dl_stretch.specs.Made.{AreMade, TellsOn, is_same, last_told};

use crate::sink::StretchSink;
use crate::told::Told;

/// Addresses from `start` on, up to the start of the next stretch or to the last address of all.
#[derive(Debug, Clone, Copy, PartialEq, Eq)]
pub struct Stretch {
    /// Its first address.
    pub start: u64,
    /// What is told of each of its addresses; None of a gap.
    pub told: Option<Told>,
}

/// From the address `start` on this is told, where `last` was told before it. It becomes a stretch where it isn't the
/// same.
#[inline(always)]
pub(crate) fn tell_from<S: StretchSink>(
    sink: &mut S,
    last: Option<Told>,
    start: u64,
    told: Option<Told>,
)
    ensures { (f : ℕ → Option said.Told) (list : List each.Stretch) (end : ℕ) → last ≡ last_told list
        → AreMade f list start → start < end → ((a : ℕ) → start ≤ a → a < end → f a ≡ told)
        → TellsOn S.hears sink.old sink.new f list end told }
{
    if is_same(last, told) {
        return;
    }
    sink.stretch(Stretch { start, told });
}

/// Whether both are gaps, or tell the same.
#[inline(always)]
fn is_same(told: Option<Told>, other: Option<Told>) -> bool
    ensures { result ≡ option_eq is_same told other }
{
    match (told, other) {
        (Some(told), Some(other)) => told.is_same(other),
        (None, None) => true,
        _ => false,
    }
}
