//! Places in the order of their addresses.

ghost use Rattle.std.specs.Prelude.{◌≡◌, ℕ, List, length, map, OnErr, OnOk};
ghost use Rattle.dl_memory.specs.Refusals.{IsRefused};
ghost use Rattle.dl_lines.specs.Answers.{by_address};
ghost use Rattle.dl_lines.specs.Kept.{Rises, place_kept};

use crate::best::KeptPlace;
use dl_memory::{Memory, NoMemory};

/// Puts places in the order of their addresses; those of one address stay in theirs.
pub fn order<M: Memory>(memory: &M, places: &mut Vec<KeptPlace>) -> Result<(), NoMemory>
    ensures ordered { OnOk result ((paths : List (List ℕ)) (line : ℕ) → map (place_kept paths line) places.new.items
        ≡ by_address (map (place_kept paths line) places.old.items)) }
    ensures rises { OnOk result (Rises places.new.items) }
    ensures refused { OnErr result (IsRefused (M.refuses memory.now) (length places.old.items)) }
{
    memory.sort_by_key(places, |place| place.address)
}
