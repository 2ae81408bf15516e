//! What the rows of a sequence tell at addresses. Section 6.2.2.

ghost use Rattle.std.specs.Prelude.{◌≡◌, ◌+◌, ◌<◌, ◌≤◌, ◌^◌, ◌∷◌, ◌++◌, [], List, length, take, drop, IfOk, OnErr};
ghost use Rattle.std.specs.Prelude.{MatchOption, true};
ghost use Rattle.dl_rows.specs.declared.row.Row as each;
ghost use Rattle.dl_look.specs.Answer.{is_at_most, last_place, place_of};
ghost use Rattle.dl_stretch.specs.Runs.{first_address};
ghost use Rattle.dl_stretch.specs.RowRuns.{AreRunsOf};

use crate::file_and_statement::FileAndStatement;
use crate::told::Told;
use dl_look::Place;
use dl_memory::{Memory, NoMemory};
use dl_rows::Row;
use std::mem::size_of;

/// Addresses of a sequence that tell the same, from `start` on, up to the start of the next run or to the
/// sequence's end.
#[derive(Debug, Clone, Copy, PartialEq, Eq)]
pub struct Run {
    /// Its first address.
    pub start: u64,
    line: u64,
    column: u64,
    discriminator: u64,
    file_and_statement: FileAndStatement,
}

const _: () = prove!(size_of::<Run>() == 40);

impl Run {
    ghost use Rattle.std.specs.Prelude.{◌≡◌};
    ghost use Rattle.dl_stretch.specs.Held.{held, told_by};
    ghost use Rattle.dl_stretch.specs.Renumbered.{renumbered_run};
    ghost use Rattle.dl_stretch.specs.Runs.{told_of, number_in};

    /// From `start` on, what a row tells.
    #[inline(always)]
    pub(crate) fn of(start: u64, row: &Row) -> Run
        ensures start { result.start ≡ start }
        ensures told { told_by result ≡ told_of held row.now }
    {
        Run {
            start,
            line: row.line,
            column: row.column,
            discriminator: row.discriminator,
            file_and_statement: FileAndStatement::of(row.file, row.is_stmt),
        }
    }

    /// What is told of each of its addresses. The number of its file is at most 2^63 - 1.
    #[inline(always)]
    pub fn told(&self) -> Told
        ensures { result ≡ told_by self.now }
    {
        Told {
            file: self.file_and_statement.file(),
            line: self.line,
            column: self.column,
            discriminator: self.discriminator,
            is_stmt: self.file_and_statement.is_stmt(),
        }
    }

    /// The same, with the number that the list has for its file; `other` where the list ends before it.
    #[inline(always)]
    pub(crate) fn renumbered(self, numbers: &[u64], other: u64) -> Run
        ensures { result ≡ renumbered_run (number_in numbers.now other) self }
    {
        let file = self.file_and_statement.file();
        let number = if file < numbers.len() as u64 {
            numbers[file as usize]
        } else {
            other
        };
        let is_stmt = self.file_and_statement.is_stmt();
        Run {
            file_and_statement: FileAndStatement::of(number, is_stmt),
            ..self
        }
    }
}

/// The first address whose place isn't below this one; None where there is none.
#[inline(always)]
pub(crate) fn address_from(place: Place) -> Option<u64>
    ensures { MatchOption result (first_address place ≡ 2 ^ 64)
        (λ a. (a ≡ first_address place) × (first_address place < 2 ^ 64)) }
{
    if place.op_index == 0 {
        Some(place.address)
    } else {
        place.address.checked_add(1)
    }
}

/// One more row of a rising sequence, whose runs are those from `begun` on. Where a growth is refused nothing changes.
#[inline(always)]
pub(crate) fn push_row<M: Memory>(
    memory: &M,
    runs: &mut Vec<Run>,
    begun: usize,
    row: &Row,
) -> Result<(), NoMemory>
    requires { begun ≤ length runs.old.items }
    ensures same { OnErr result (runs.new.items ≡ runs.old.items) }
    ensures before { take begun runs.new.items ≡ take begun runs.old.items }
    ensures within { begun ≤ length runs.new.items }
    ensures more { length runs.new.items ≤ length runs.old.items + 1 }
    ensures refused { OnErr result (M.refuses memory.now (length runs.old.items + 1)) }
    ensures pushed { IfOk result (λ _. (rows : List each.Row) → AreRunsOf rows (drop begun runs.old.items)
        → is_at_most (last_place rows) (place_of row.now) ≡ true
        → AreRunsOf (rows ++ row.now ∷ []) (drop begun runs.new.items)) }
{
    let Some(start) = address_from(Place::of(row)) else {
        return Ok(());
    };
    let run = Run::of(start, row);
    let count = runs.len();
    if count > begun {
        let last = runs[count - 1];
        if last.start == start {
            runs[count - 1] = run;
            return Ok(());
        }
        if last.told().is_same(run.told()) {
            return Ok(());
        }
    }
    memory.push(runs, run)?;
    Ok(())
}
