//! How many rows name each file of a unit, and how many bytes of code they have. Sections 6.2.2 and 6.2.5.

ghost use Rattle.std.specs.Prelude.{◌≡◌, ◌==◌, ◌<◌, ℕ, if◌then◌else◌, IfOk, OnErr, get_or, length, replicate};
ghost use Rattle.dl_memory.specs.Refusals.{IsRefused};
ghost use Rattle.dl_sources.specs.Counts.{none_named, plus};

use dl_look::LiveRows;
use dl_memory::{Memory, NoMemory};
use dl_rows::Row;
use std::alloc::Global;

/// What the rows come to that name a file. A count stays at 2^64 - 1 where it would pass it.
#[derive(Debug, Clone, Copy, PartialEq, Eq)]
pub struct Counts {
    pub rows: u64,
    /// The distances from their addresses to those of the next rows of their sequences.
    pub bytes: u64,
}

/// No row.
pub(crate) const NONE_NAMED: Counts = Counts { rows: 0, bytes: 0 };

/// A row that its sequence goes on after.
#[derive(Clone, Copy)]
pub(crate) struct Begun {
    file: u64,
    address: u64,
}

/// Counts the rows of live sequences of a unit by the numbers of their files.
#[derive(Drop)]
pub(crate) struct UnitCounts {
    /// By the numbers of the files of the unit's table.
    files: Vec<Counts>,
    /// Was given the rows.
    live: LiveRows,
    /// The last row of a live sequence, if that goes on.
    last: Option<Begun>,
}

impl Counts {
    ghost use Rattle.std.specs.Prelude.{◌≡◌};
    ghost use Rattle.dl_sources.specs.Counts.{plus};

    /// The sum of both.
    pub fn plus(self, more: Counts) -> Counts
        ensures { result ≡ plus self more }
    {
        Counts {
            rows: self.rows.saturating_add(more.rows),
            bytes: self.bytes.saturating_add(more.bytes),
        }
    }
}

impl UnitCounts {
    ghost use Rattle.std.specs.Prelude.{◌≡◌, ◌↔◌, ◌<◌, ℕ, Bool, IsTrue, List, [], ◌∷◌, ◌++◌, IfOk, OnErr, get_or, length};
    ghost use Rattle.dl_memory.specs.Refusals.{IsRefused};
    ghost use Rattle.dl_rows.specs.declared.row.Row.{Row};
    ghost use Rattle.dl_look.specs.FinderRows.{unended};
    ghost use Rattle.dl_look.specs.LiveRows.{live_rows};
    ghost use Rattle.dl_sources.specs.Counting.{Counting, begun_by, with_gap, with_row};
    ghost use Rattle.dl_sources.specs.Counts.{none_named};
    ghost use Rattle.dl_sources.specs.UnitEntries.{counts_at};

    /// No row, and no file.
    pub fn none(alloc: Global) -> UnitCounts
        ensures { (live : ℕ → Bool) → Counting live 0 result [] }
    {
        UnitCounts {
            files: Vec::new(alloc),
            live: LiveRows::new(),
            last: None,
        }
    }

    /// No row, and files of the numbers below this.
    pub fn of_files<M: Memory>(memory: &M, count: usize) -> Result<UnitCounts, NoMemory>
        ensures begun { IfOk result (λ counts. (live : ℕ → Bool) → Counting live count counts []) }
        ensures refused { OnErr result (IsRefused (M.refuses memory.now) count) }
    {
        Ok(UnitCounts {
            files: no_counts(memory, count)?,
            live: LiveRows::new(),
            last: None,
        })
    }

    /// Whether the next row is the first of a sequence.
    #[inline(always)]
    pub fn begins(&self) -> bool
        ensures { (live : ℕ → Bool) (count : ℕ) (rows : List Row) → Counting live count self.now rows
            → IsTrue result ↔ (unended rows ≡ []) }
    {
        self.live.begins()
    }

    /// Takes the next row. `is_live` says whether a sequence is live that begins with it, and isn't looked at for other
    /// rows.
    #[inline(always)]
    pub fn row(&mut self, row: &Row, is_live: bool)
        ensures { (live : ℕ → Bool) (count : ℕ) (rows : List Row) → Counting live count self.old rows
            → (unended rows ≡ [] → is_live ≡ live row.now.address)
            → Counting live count self.new (rows ++ row.now ∷ []) }
    {
        if self.live.takes(row, is_live) {
            self.end_last(row.address);
            self.begin(row);
        }
    }

    /// Adds the distance from the last row to this address.
    #[inline(always)]
    fn end_last(&mut self, address: u64)
        ensures live { self.new.live ≡ self.old.live }
        ensures last { self.new.last ≡ self.old.last }
        ensures count { length self.new.files.items ≡ length self.old.files.items }
        ensures added { (n : ℕ) → n < length self.old.files.items
            → get_or self.new.files.items n none_named
            ≡ with_gap n self.old.last address (get_or self.old.files.items n none_named) }
    {
        if let Some(last) = self.last {
            let bytes = address.saturating_sub(last.address);
            add(&mut self.files, last.file, Counts { rows: 0, bytes });
        }
    }

    /// Adds a row, if it isn't an end row.
    #[inline(always)]
    fn begin(&mut self, row: &Row)
        ensures live { self.new.live ≡ self.old.live }
        ensures last { self.new.last ≡ begun_by row.now }
        ensures count { length self.new.files.items ≡ length self.old.files.items }
        ensures added { (n : ℕ) → n < length self.old.files.items
            → get_or self.new.files.items n none_named
            ≡ with_row n row.now (get_or self.old.files.items n none_named) }
    {
        if row.end_sequence {
            self.last = None;
            return;
        }
        add(&mut self.files, row.file, Counts { rows: 1, bytes: 0 });
        self.last = Some(Begun {
            file: row.file,
            address: row.address,
        });
    }

    /// What was counted of the file of this number.
    pub fn of(&self, file: u64) -> Counts
        ensures { result ≡ counts_at self.now file }
    {
        match self.files.as_slice().get(file as usize) {
            Some(counts) => *counts,
            None => NONE_NAMED,
        }
    }
}

/// So many files that no row names.
fn no_counts<M: Memory>(memory: &M, count: usize) -> Result<Vec<Counts>, NoMemory>
    ensures none { IfOk result (λ counts. counts.items ≡ replicate count none_named) }
    ensures refused { OnErr result (IsRefused (M.refuses memory.now) count) }
{
    let mut counts = memory.with_capacity(count)?;
    match counts.resize(count, NONE_NAMED) {
        Ok(()) => Ok(counts),
        Err(_) => unreachable!(),
    }
}

/// Adds to the counts of a file, if there is one of this number.
#[inline(always)]
fn add(files: &mut Vec<Counts>, file: u64, more: Counts)
    ensures count { length files.new.items ≡ length files.old.items }
    ensures added { (n : ℕ) → n < length files.old.items
        → get_or files.new.items n none_named
        ≡ (if n == file then plus (get_or files.old.items n none_named) more else get_or files.old.items n none_named) }
{
    let file = file as usize;
    if file < files.len() {
        files[file] = files[file].plus(more);
    }
}
