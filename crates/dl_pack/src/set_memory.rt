//! Sets that grow by a memory.

use dl_memory::{Memory, NoMemory, System};
use indexmap::IndexSet;
use std::hash::Hash;

/// Where the memory of sets comes from, beside that of lists.
pub trait SetMemory: Memory {
    ghost use Rattle.std.specs.Prelude.{◌≡◌, ◌+◌, ◌<◌, ◌≤◌, length, true, Some, slice_get, IfOk, OnErr};
    ghost use Rattle.indexmap.specs.IndexSet.{insert_key, IsUnique};

    /// Puts an item last where the set has none that is equal, and answers the place of the one that it has then. It answers
    /// [`NoMemory`] only where memory was refused, and then the set has the same items.
    fn insert_item<T: Eq + Hash + Drop>(
        &self,
        set: &mut IndexSet<T>,
        item: T,
    ) -> Result<usize, NoMemory>
        ensures keys { IfOk result (λ _. set.new.keys ≡ insert_key T.eq set.old.keys item) }
        ensures within { IfOk result (λ place. place < length set.new.keys) }
        ensures more { length set.old.keys ≤ length set.new.keys }
        ensures few { length set.new.keys ≤ length set.old.keys + 1 }
        ensures stored { IfOk result (λ place. (x : T) × (slice_get set.new.keys place ≡ Some x) × (T.eq item x ≡ true)) }
        ensures kept { OnErr result (set.new.keys ≡ set.old.keys) }
        ensures unique { IsUnique T.eq set.new }
        ensures refused { OnErr result (Self.refuses self.now (length set.old.keys + 1)) };
}

impl SetMemory for System {
    fn insert_item<T: Eq + Hash + Drop>(
        &self,
        set: &mut IndexSet<T>,
        item: T,
    ) -> Result<usize, NoMemory> {
        match set.insert_full(item) {
            Ok(placed) => Ok(placed.0),
            Err(error) => Err(System::refused(error.into())),
        }
    }
}
