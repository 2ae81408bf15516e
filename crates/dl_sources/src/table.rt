//! The paths that tables of files name, each once, with what is told of it.

use crate::counting::{Counts, NONE_NAMED};
use crate::map_memory::MapMemory;
use dl_memory::NoMemory;
use std::alloc::Global;
use std::collections::{BTreeMap, BTreeSet};

/// What is told of a path.
#[derive(Drop)]
pub struct PathTotals {
    /// What the rows come to that name it. Section 6.2.2.
    pub counts: Counts,
    /// Its MD5 sums, in the order of their bytes. Section 6.2.4.1.
    pub sums: BTreeSet<[u8; 16]>,
}

/// The paths, in the order of their bytes.
#[derive(Drop)]
pub struct SourceTable {
    pub paths: BTreeMap<Vec<u8>, PathTotals>,
}

impl PathTotals {
    ghost use Rattle.std.specs.Prelude.{◌≡◌, ◌+◌, OnOk, OnErr, length};
    ghost use Rattle.dl_memory.specs.Refusals.{IsRefused};
    ghost use Rattle.dl_sources.specs.Holding.{with_told};
    ghost use Rattle.dl_sources.specs.SourceFiles.{totals_seen};
    ghost use Rattle.dl_sources.specs.Sources.{nothing_told};

    /// Nothing yet.
    fn new(alloc: Global) -> PathTotals
        ensures { totals_seen result ≡ nothing_told }
    {
        PathTotals {
            counts: NONE_NAMED,
            sums: BTreeSet::new(alloc),
        }
    }

    /// Adds what an entry of a table tells.
    fn add<M: MapMemory>(
        &mut self,
        memory: &M,
        counts: Counts,
        sum: Option<[u8; 16]>,
    ) -> Result<(), NoMemory>
        ensures told { OnOk result (totals_seen self.new ≡ with_told (totals_seen self.old) counts sum) }
        ensures refused { OnErr result (IsRefused (M.refuses memory.now) (length self.old.sums.keys + 1)) }
    {
        if let Some(sum) = sum {
            memory.insert_into_set(&mut self.sums, sum)?;
        }
        self.counts = self.counts.plus(counts);
        Ok(())
    }
}

impl SourceTable {
    ghost use Rattle.std.specs.Prelude.{◌≡◌, ◌+◌, List, [], ◌∷◌, ◌++◌, OnOk, OnErr, length};
    ghost use Rattle.dl_memory.specs.Refusals.{IsRefused};
    ghost use Rattle.dl_sources.specs.Holding.{Holds};
    ghost use Rattle.dl_sources.specs.Sources.{Mention};

    /// No path.
    pub(crate) fn new(alloc: Global) -> SourceTable
        ensures { Holds result [] }
    {
        SourceTable {
            paths: BTreeMap::new(alloc),
        }
    }

    /// Adds what an entry of a table tells of its path.
    pub(crate) fn add<M: MapMemory>(
        &mut self,
        memory: &M,
        path: Vec<u8>,
        counts: Counts,
        sum: Option<[u8; 16]>,
    ) -> Result<(), NoMemory>
        ensures told { OnOk result ((mentions : List Mention) → Holds self.old mentions
            → Holds self.new (mentions ++ record { path = path.items; counts = counts; sum = sum } ∷ [])) }
        ensures refused { OnErr result ((mentions : List Mention) → Holds self.old mentions
            → IsRefused (M.refuses memory.now) (length mentions + 1)) }
    {
        if let Some(totals) = self.paths.get_mut(path.as_slice()) {
            return totals.add(memory, counts, sum);
        }
        let mut totals = PathTotals::new(memory.alloc());
        totals.add(memory, counts, sum)?;
        memory.insert_into_map(&mut self.paths, path, totals)
    }
}
