//! Searches, which are told the same one after the other.

ghost use Rattle.std.specs.Prelude.{◌≡◌, ◌+◌, ◌≤◌, ℕ, length, IfOk, OnErr, OnOk};
ghost use Rattle.std.specs.Prelude.{slice_index_or, ◌<◌};
ghost use Rattle.std.specs.Option.{option_copied};
ghost use Rattle.dl_memory.specs.Refusals.{IsRefused};
ghost use Rattle.dl_lines.specs.declared.question.Wanted.{Wanted};
ghost use Rattle.dl_lines.specs.declared.search.Search.{Search};
ghost use Rattle.dl_lines.specs.Kept.{is_exact};
ghost use Rattle.dl_lines.specs.Searching.{AllBecome, IsAdded, IsBegun, IsEnded, IsJudged, IsNew, IsOrdered, option_len};

use crate::question::Wanted;
use crate::search::{Lines, Search};
use dl_memory::{Memory, NoMemory};
use dl_rows::Row;

/// A search for each line that is wanted.
pub fn searches_for<'q, M: Memory>(
    memory: &M,
    wanted: &'q [Wanted<'q>],
    lines: Lines,
) -> Result<Vec<Search<'q>>, NoMemory>
    ensures count { IfOk result (λ list. length list.items ≡ length wanted.entry.now) }
    ensures new { IfOk result (λ list. (i : ℕ) (d : Search) (w : Wanted) → i < length wanted.entry.now
        → IsNew (slice_index_or list.items i d) (slice_index_or wanted.entry.now i w) (is_exact lines)) }
    ensures refused { OnErr result (IsRefused (M.refuses memory.now) (length wanted.entry.now)) }
{
    let mut searches = memory.with_capacity(wanted.len())?;
    for each in wanted {
        searches.push_reserved(Search::new(memory, *each, lines));
    }
    Ok(searches)
}

/// A unit begins.
pub fn begin_each(searches: &mut Vec<Search<'_>>)
    ensures { AllBecome IsBegun searches.old.items searches.new.items }
{
    let mut number = 0;
    while number < searches.len() {
        searches[number].begin();
        number += 1;
    }
}

/// The next file of the unit's table has this path, as far as it is known.
pub fn judge_each<M: Memory>(
    memory: &M,
    searches: &mut Vec<Search<'_>>,
    path: Option<&[u8]>,
) -> Result<(), NoMemory>
    ensures judged { OnOk result (AllBecome (λ old new. IsJudged old new (option_copied path.entry))
        searches.old.items searches.new.items) }
    ensures refused { OnErr result ((most : ℕ) → ((i : ℕ) (d : Search) → i < length searches.old.items
        → length (slice_index_or searches.old.items i d).paths.items
        + length (slice_index_or searches.old.items i d).files.items + option_len (option_copied path.entry) + 1 ≤ most)
        → IsRefused (M.refuses memory.now) most) }
{
    let mut number = 0;
    while number < searches.len() {
        searches[number].judge(memory, path)?;
        number += 1;
    }
    Ok(())
}

/// The current unit has a place at this row.
pub fn add_each<M: Memory>(
    memory: &M,
    searches: &mut Vec<Search<'_>>,
    row: &Row,
) -> Result<(), NoMemory>
    ensures added { OnOk result (AllBecome (λ old new. IsAdded old new row.now) searches.old.items searches.new.items) }
    ensures refused { OnErr result ((most : ℕ) → ((i : ℕ) (d : Search) → i < length searches.old.items
        → length (slice_index_or searches.old.items i d).unit.places.items + 1 ≤ most)
        → IsRefused (M.refuses memory.now) most) }
{
    let mut number = 0;
    while number < searches.len() {
        searches[number].add(memory, row)?;
        number += 1;
    }
    Ok(())
}

/// The current unit has ended.
pub fn end_each<M: Memory>(memory: &M, searches: &mut Vec<Search<'_>>) -> Result<(), NoMemory>
    ensures ended { OnOk result (AllBecome IsEnded searches.old.items searches.new.items) }
    ensures refused { OnErr result ((most : ℕ) → ((i : ℕ) (d : Search) → i < length searches.old.items
        → length (slice_index_or searches.old.items i d).kept.places.items
        + length (slice_index_or searches.old.items i d).unit.places.items ≤ most)
        → IsRefused (M.refuses memory.now) most) }
{
    let mut number = 0;
    while number < searches.len() {
        searches[number].end(memory)?;
        number += 1;
    }
    Ok(())
}

/// All units have ended: the places of each search are put in order.
pub fn order_each<M: Memory>(memory: &M, searches: &mut Vec<Search<'_>>) -> Result<(), NoMemory>
    ensures ordered { OnOk result (AllBecome IsOrdered searches.old.items searches.new.items) }
    ensures refused { OnErr result ((most : ℕ) → ((i : ℕ) (d : Search) → i < length searches.old.items
        → length (slice_index_or searches.old.items i d).kept.places.items ≤ most)
        → IsRefused (M.refuses memory.now) most) }
{
    let mut number = 0;
    while number < searches.len() {
        searches[number].order(memory)?;
        number += 1;
    }
    Ok(())
}
