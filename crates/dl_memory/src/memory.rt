//! Growths, and that they are refused.

use std::alloc::Global;
use std::collections::BTreeMap;

/// A growth was refused.
#[derive(Debug, Clone, Copy, PartialEq, Eq)]
pub struct NoMemory;

/// Where memory comes from. Each call answers [`NoMemory`] only where memory was refused, and then the list or map stays as it
/// was.
pub trait Memory {
    ghost use Rattle.std.specs.Prelude.{◌≡◌, ◌<◌, ◌≤◌, ◌+◌, ◌++◌, ◌∷◌, [], ℕ, length, vec_len, vec_capacity, IfOk, OnOk, OnErr, Some, None};
    ghost use Rattle.std.specs.BTreeMap.{IsUnchanged, Updates, btree_map_len, get};
    ghost use Rattle.std.specs.List.Sorted.{IsSortedByKeyClosure, IsStableByKeyClosure};
    ghost use Rattle.std.specs.Ordering.{nat_cmp};

    /// For a list or a map of how many items it refuses memory.
    ghost refuses: { Self → ℕ → Type 0 };

    /// What lists are made with that take no memory yet.
    fn alloc(&self) -> Global;

    /// An empty list, with room for so many items.
    fn with_capacity<T>(&self, count: usize) -> Result<Vec<T>, NoMemory>
        ensures items { IfOk result (λ list. list.items ≡ []) }
        ensures capacity { IfOk result (λ list. count ≤ vec_capacity list) }
        ensures some { OnErr result (0 < count) }
        ensures refused { OnErr result (refuses self.now count) };

    /// Puts one item more behind those of a list.
    fn push<T: Drop>(&self, list: &mut Vec<T>, item: T) -> Result<(), NoMemory>
        ensures items { OnOk result (list.new.items ≡ list.old.items ++ item ∷ []) }
        ensures kept { OnErr result (list.new.items ≡ list.old.items) }
        ensures capacity { vec_capacity list.old ≤ vec_capacity list.new }
        ensures full { OnErr result (vec_capacity list.old ≤ vec_len list.old) }
        ensures refused { OnErr result (refuses self.now (length list.old.items + 1)) };

    /// Puts items behind those of a list.
    fn extend_from_slice<T: Copy>(&self, list: &mut Vec<T>, more: &[T]) -> Result<(), NoMemory>
        ensures items { OnOk result (list.new.items ≡ list.old.items ++ more.now) }
        ensures kept { OnErr result (list.new.items ≡ list.old.items) }
        ensures capacity { vec_capacity list.old ≤ vec_capacity list.new }
        ensures full { OnErr result (vec_capacity list.old < vec_len list.old + length more.now) }
        ensures refused { OnErr result (refuses self.now (length list.old.items + length more.now)) };

    /// Makes room for so many items more.
    fn reserve<T>(&self, list: &mut Vec<T>, more: usize) -> Result<(), NoMemory>
        ensures items { list.new.items ≡ list.old.items }
        ensures room { OnOk result (vec_len list.new + more ≤ vec_capacity list.new) }
        ensures capacity { vec_capacity list.old ≤ vec_capacity list.new }
        ensures full { OnErr result (vec_capacity list.old < vec_len list.old + more) }
        ensures refused { OnErr result (refuses self.now (length list.old.items + more)) };

    /// Puts a value into a place of its own.
    fn boxed<T: Drop>(&self, value: T) -> Result<Box<T>, NoMemory>
        ensures value { IfOk result (λ boxed. boxed.value ≡ value) }
        ensures refused { OnErr result (refuses self.now 1) };

    /// Puts the items of a list in rising order of their keys; those of one key stay in their order. As many items again are
    /// held meanwhile.
    fn sort_by_key<T, K: Ord + Drop, F: FnMut(&T) -> K>(
        &self,
        list: &mut Vec<T>,
        key: F,
    ) -> Result<(), NoMemory>
        requires { F.IsAlwaysCallable key }
        ensures sorted { OnOk result (IsSortedByKeyClosure F.FnMut K.cmp key list.new.items) }
        ensures stable { IsStableByKeyClosure F.FnMut K.cmp key list.old.items list.new.items }
        ensures kept { OnErr result (list.new.items ≡ list.old.items) }
        ensures refused { OnErr result (refuses self.now (length list.old.items)) };

    /// Puts a value by a key into a map, in place of the one that was by it.
    fn insert<V: Drop>(
        &self,
        map: &mut BTreeMap<u64, V>,
        key: u64,
        value: V,
    ) -> Result<(), NoMemory>
        ensures updates { OnOk result (Updates nat_cmp map.old map.new key (Some value)) }
        ensures kept { OnErr result (IsUnchanged map.old map.new) }
        ensures absent { OnErr result (get nat_cmp map.old key ≡ None) }
        ensures refused { OnErr result (refuses self.now (btree_map_len map.old + 1)) };
}
