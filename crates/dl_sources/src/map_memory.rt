//! Maps and sets that grow by a memory.

use dl_making::SetMemory;
use dl_memory::{NoMemory, System};
use std::collections::{BTreeMap, BTreeSet};

/// Where the memory of ordered maps and sets comes from, beside that of lists and of other sets. Each call answers [`NoMemory`] only where
/// memory was refused.
pub trait MapMemory: SetMemory {
    ghost use Rattle.std.specs.Prelude.{◌≡◌, ◌+◌, length, OnOk, OnErr};
    ghost use Rattle.std.specs.BTreeMap.{btree_map_len, insert_entry};
    ghost use Rattle.std.specs.BTreeSet.{insert_key};

    /// Puts a value by a key into a map.
    fn insert_into_map<K: Ord + Drop, V: Drop>(
        &self,
        map: &mut BTreeMap<K, V>,
        key: K,
        value: V,
    ) -> Result<(), NoMemory>
        ensures entries { OnOk result (map.new.entries ≡ insert_entry K.cmp map.old.entries key value) }
        ensures refused { OnErr result (Self.refuses self.now (btree_map_len map.old + 1)) };

    /// Puts a key into a set.
    fn insert_into_set<K: Ord + Drop>(&self, set: &mut BTreeSet<K>, key: K) -> Result<(), NoMemory>
        ensures keys { OnOk result (set.new.keys ≡ insert_key K.cmp set.old.keys key) }
        ensures refused { OnErr result (Self.refuses self.now (length set.old.keys + 1)) };
}

impl MapMemory for System {
    fn insert_into_map<K: Ord + Drop, V: Drop>(
        &self,
        map: &mut BTreeMap<K, V>,
        key: K,
        value: V,
    ) -> Result<(), NoMemory> {
        match map.insert(key, value) {
            Ok(_) => Ok(()),
            Err(error) => Err(System::refused(error.into())),
        }
    }

    fn insert_into_set<K: Ord + Drop>(
        &self,
        set: &mut BTreeSet<K>,
        key: K,
    ) -> Result<(), NoMemory> {
        match set.insert(key) {
            Ok(_) => Ok(()),
            Err(error) => Err(System::refused(error.into())),
        }
    }
}
