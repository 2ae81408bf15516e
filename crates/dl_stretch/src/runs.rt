//! The runs of units that come one after the other. Section 6.2.2.

ghost use Rattle.std.specs.Prelude.{◌≡◌};

use crate::run::Run;
use crate::run_spans::RunSpans;
use crate::stretching::RunStretches;
use dl_look::LiveRows;
use dl_memory::{Memory, NoMemory};
use dl_rows::Row;
use std::alloc::Global;

/// What the rows of units tell of addresses, from which stretches are made.
///
/// Each row of a unit goes to `row`. Once the unit is whole `end_unit` makes its rows count; if it turns out to be
/// damaged, `forget_unit` leaves it out.
///
/// Only where a growth is refused a call answers `NoMemory`, and nothing more is promised of the runs then.
///
/// Kept are 40 bytes for each run, at most one for each row of a live rising sequence, and 56 for each such sequence.
/// A row takes constant time.
#[derive(Drop)]
pub struct Runs {
    spans: RunSpans,
    live: LiveRows,
}

impl Runs {
    ghost use Rattle.std.specs.Prelude.{◌≡◌, ◌↔◌, ℕ, ◌+◌, ◌*◌, ◌≤◌, Bool, IfOk, OnErr, IsTrue, List, [], ◌∷◌, ◌++◌, length};
    ghost use Rattle.dl_rows.specs.declared.row.Row as each;
    ghost use Rattle.dl_look.specs.FinderRows.{unended};
    ghost use Rattle.dl_stretch.specs.declared.stretch.Stretch as kept;
    ghost use Rattle.dl_stretch.specs.Runs.{held_in};
    ghost use Rattle.dl_stretch.specs.StandFor.{StandFor};
    ghost use Rattle.dl_stretch.specs.Stands.{Stands};
    ghost use Rattle.dl_stretch.specs.Stretches.{AreStretches};
    ghost use Rattle.dl_stretch.specs.ToldUnits.{UnitRows, told_of_units, NameFiles};
    ghost use Rattle.dl_stretch.specs.Kept.{kept_count, unit_count, whole_count};
    ghost use Rattle.dl_memory.specs.Refusals.{IsRefused};

    /// No unit yet.
    pub fn new(alloc: Global) -> Runs
        ensures count { kept_count result ≡ 0 }
        ensures none { (live : ℕ → Bool) → Stands live result [] [] }
    {
        Runs {
            spans: RunSpans::new(alloc),
            live: LiveRows::new(),
        }
    }

    /// Whether the next row is the first of a sequence.
    #[inline(always)]
    pub fn begins(&self) -> bool
        ensures { (live : ℕ → Bool) (units : List UnitRows) (rows : List each.Row) → Stands live self.now units rows
            → IsTrue result ↔ (unended rows ≡ []) }
    {
        self.live.begins()
    }

    /// Takes the next row of the current unit. `live` says of a sequence that begins with this row whether there is
    /// code at its address, and isn't looked at for other rows.
    #[inline(always)]
    pub fn row<M: Memory>(&mut self, memory: &M, row: &Row, live: bool) -> Result<(), NoMemory>
        ensures more { kept_count self.new ≤ kept_count self.old + 1 }
        ensures whole { whole_count self.new ≡ whole_count self.old }
        ensures refused { OnErr result (IsRefused (M.refuses memory.now) (kept_count self.old + 1)) }
        ensures taken { IfOk result (λ _. (is_live : ℕ → Bool) (units : List UnitRows) (rows : List each.Row)
            → Stands is_live self.old units rows → (unended rows ≡ [] → live ≡ is_live row.now.address)
            → Stands is_live self.new units (rows ++ row.now ∷ [])) }
    {
        if self.live.takes(row, live) {
            self.spans.row(memory, row)
        } else {
            Ok(())
        }
    }

    /// The runs of the sequences of the current unit that have ended, with the numbers of files that its rows give, or
    /// 2^63 - 1 for a greater one. They name all files of which `end_unit` is told the numbers.
    pub fn unit_runs(&self) -> &[Run]
        ensures count { length result.now ≡ unit_count self.now }
        ensures named { (live : ℕ → Bool) (units : List UnitRows) (rows : List each.Row) → Stands live self.now units rows
            → NameFiles live rows result.now }
    {
        self.spans.unit_runs()
    }

    /// The current unit ends, and its rows count; the next row is the first one of the next unit. The list has for
    /// each file of the unit the number that stands for it, `other` is that of the files where it ends before. A number
    /// above 2^63 - 1 counts as that one.
    pub fn end_unit(&mut self, numbers: &[u64], other: u64)
        ensures count { kept_count self.new ≤ kept_count self.old }
        ensures whole { whole_count self.new ≡ whole_count self.old + unit_count self.old }
        ensures ended { (live : ℕ → Bool) (units : List UnitRows) (rows : List each.Row)
            → Stands live self.old units rows → Stands live self.new (units ++ record {
              number = held_in numbers.now other;
              rows = rows;
            } ∷ []) [] }
    {
        self.spans.end_unit(numbers, other);
        self.live = LiveRows::new();
    }

    /// The current unit turns out to be damaged: its rows don't count, and the next row is the first one of the
    /// next unit.
    pub fn forget_unit(&mut self)
        ensures count { kept_count self.new ≤ kept_count self.old }
        ensures whole { whole_count self.new ≡ whole_count self.old }
        ensures forgotten { (live : ℕ → Bool) (units : List UnitRows) (rows : List each.Row) → Stands live self.old units rows
            → Stands live self.new units [] }
    {
        self.spans.forget_unit();
        self.live = LiveRows::new();
    }

    /// The stretches of what the units tell that have ended, each of which begins at an address. It takes time in proportion
    /// to the sequences times the logarithm of their number, but for little, and to tell them takes time in proportion to the
    /// runs.
    pub fn stretches<M: Memory>(&self, memory: &M) -> Result<RunStretches<'_>, NoMemory>
        ensures refused { OnErr result (IsRefused (M.refuses memory.now) (2 * kept_count self.now + 1)) }
        ensures few { IfOk result (λ stretches. (list : List kept.Stretch) → StandFor stretches list
            → length list ≤ 2 * kept_count self.now) }
        ensures made { IfOk result (λ stretches. (live : ℕ → Bool) (units : List UnitRows) (rows : List each.Row)
            → Stands live self.now units rows → (list : List kept.Stretch) → StandFor stretches list
            → AreStretches (told_of_units live units) list) }
    {
        self.spans.stretches(memory)
    }
}
