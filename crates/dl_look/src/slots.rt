//! The places that were given, in order. Section 6.2.2.
ghost use Rattle.std.specs.Prelude.{◌≡◌, ℕ, ◌<◌, ◌≤◌, IfOk, OnErr, length, true, false};
ghost use Rattle.dl_look.specs.Answer.{is_below};
ghost use Rattle.dl_memory.specs.Refusals.{IsRefused};
ghost use Rattle.dl_look.specs.Slots.{IsSlots, IsRising, slot_place};

use crate::place::Place;
use dl_memory::{Memory, NoMemory};

/// A place that was given, and its number among these. Slots are ordered by place, then by number.
#[derive(Clone, Copy, PartialEq, Eq, PartialOrd, Ord)]
pub struct Slot {
    pub place: Place,
    pub number: usize,
}

/// A slot for each place, in order.
pub fn sorted<M: Memory>(memory: &M, places: &[Place]) -> Result<Vec<Slot>, NoMemory>
    ensures slots { IfOk result (λ slots. IsSlots places.now slots.items) }
    ensures refused { OnErr result (IsRefused (M.refuses memory.now) (length places.now)) }
{
    let mut slots = memory.with_capacity(places.len())?;
    for (number, place) in places.iter().enumerate() {
        slots.push_reserved(Slot {
            place: *place,
            number,
        });
    }
    slots.sort_unstable();
    Ok(slots)
}

/// The first slot whose place isn't below this one; the number of slots where there is none.
pub fn first_not_below(slots: &[Slot], place: Place) -> usize
    requires { IsRising slots.now }
    ensures within { result ≤ length slots.now }
    ensures below { (j : ℕ) → j < result → is_below (slot_place slots.now j) place ≡ true }
    ensures rest { (j : ℕ) → result ≤ j → j < length slots.now
        → is_below (slot_place slots.now j) place ≡ false }
{
    let mut low = 0;
    let mut high = slots.len();
    while low < high {
        let middle = low + (high - low) / 2;
        if slots[middle].place.is_below(place) {
            low = middle + 1;
        } else {
            high = middle;
        }
    }
    low
}
