//! The memory of the system.

use crate::memory::{Memory, NoMemory};
use std::alloc::{AllocError, Global};
use std::collections::BTreeMap;

/// The memory of the system, which may refuse any growth.
#[derive(Clone, Copy)]
pub struct System {
    alloc: Global,
}

impl System {
    ghost use Rattle.std.specs.Prelude.{ℕ};
    ghost use Rattle.dl_memory.specs.Refusals.{SystemRefuses, library_refused};

    /// What an allocator gives.
    pub fn new(alloc: Global) -> System {
        System { alloc }
    }

    /// What a list grows by.
    pub fn of<T>(list: &Vec<T>) -> System {
        System::new(*list.allocator())
    }

    /// What the standard library answered where it got no memory.
    #[tactic(auto, using(crate::specs::Refusals::library_refused))]
    pub fn refused(_error: AllocError) -> NoMemory
        ensures { (n : ℕ) → SystemRefuses n }
    {
        NoMemory
    }
}

impl Memory for System {
    ghost use Rattle.dl_memory.specs.Refusals.{SystemRefuses};

    ghost refuses = { λ _ count. SystemRefuses count };

    fn alloc(&self) -> Global {
        self.alloc
    }

    fn with_capacity<T>(&self, count: usize) -> Result<Vec<T>, NoMemory> {
        match Vec::with_capacity(self.alloc, count) {
            Ok(list) => Ok(list),
            Err(error) => Err(System::refused(error)),
        }
    }

    fn push<T: Drop>(&self, list: &mut Vec<T>, item: T) -> Result<(), NoMemory> {
        match list.push(item) {
            Ok(()) => Ok(()),
            Err(error) => Err(System::refused(error.into())),
        }
    }

    fn extend_from_slice<T: Copy>(&self, list: &mut Vec<T>, more: &[T]) -> Result<(), NoMemory> {
        match list.extend_from_slice(more) {
            Ok(()) => Ok(()),
            Err(error) => Err(System::refused(error)),
        }
    }

    fn reserve<T>(&self, list: &mut Vec<T>, more: usize) -> Result<(), NoMemory> {
        match list.reserve(more) {
            Ok(()) => Ok(()),
            Err(error) => Err(System::refused(error)),
        }
    }

    fn boxed<T: Drop>(&self, value: T) -> Result<Box<T>, NoMemory> {
        match Box::new(self.alloc, value) {
            Ok(boxed) => Ok(boxed),
            Err(error) => Err(System::refused(error.into())),
        }
    }

    fn sort_by_key<T, K: Ord + Drop, F: FnMut(&T) -> K>(
        &self,
        list: &mut Vec<T>,
        key: F,
    ) -> Result<(), NoMemory> {
        match list.sort_by_key(key) {
            Ok(()) => Ok(()),
            Err(error) => Err(System::refused(error)),
        }
    }

    fn insert<V: Drop>(
        &self,
        map: &mut BTreeMap<u64, V>,
        key: u64,
        value: V,
    ) -> Result<(), NoMemory> {
        match map.insert(key, value) {
            Ok(_) => Ok(()),
            Err(error) => Err(System::refused(error.into())),
        }
    }
}
