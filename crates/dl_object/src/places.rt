//! The places that relocations change, in order.

ghost use Rattle.std.specs.Prelude.{◌≡◌, ◌↔◌, ℕ, length, IfOk, IsTrue, OnErr};
ghost use Rattle.dl_memory.specs.Refusals.{IsRefused};
ghost use Rattle.dl_object.specs.Kept.{Rises, section_at};

use dl_memory::{Memory, NoMemory};
use dl_reloc::Placed;

/// Whether the places are in rising order.
pub fn are_rising(places: &[Placed]) -> bool
    ensures { IsTrue result ↔ Rises places.now }
{
    places.is_sorted_by_key(|place| place.offset)
}

/// The places in rising order; of those that are the same the first comes first.
pub fn sorted<M: Memory>(memory: &M, places: &[Placed]) -> Result<Vec<Placed>, NoMemory>
    ensures rises { IfOk result (λ sorted. Rises sorted.items) }
    ensures same { IfOk result (λ sorted. (at : ℕ) → section_at sorted.items at ≡ section_at places.now at) }
    ensures refused { OnErr result (IsRefused (M.refuses memory.now) (length places.now)) }
{
    let mut sorted = Vec::new(memory.alloc());
    memory.extend_from_slice(&mut sorted, places)?;
    memory.sort_by_key(&mut sorted, |place| place.offset)?;
    Ok(sorted)
}

/// The section at a place.
pub fn section_at_place(places: &[Placed], at: u64) -> Option<u64>
    requires { Rises places.now }
    ensures { result ≡ section_at places.now at }
{
    let first = places.partition_point(|place| place.offset < at);
    let Some(place) = places.get(first) else {
        return None;
    };
    if place.offset == at {
        Some(place.section)
    } else {
        None
    }
}
