//! The entries of a table in the order of their values, those of the same values in their own. Section 6.2.4.1.

ghost use Rattle.std.specs.Prelude.{◌≡◌, ℕ, List, Some, length, slice_get, IfOk, OnErr};
ghost use Rattle.std.specs.List.{find, range_with_len};
ghost use Rattle.dl_memory.specs.Refusals.{IsRefused};
ghost use Rattle.dl_table.specs.Value.{Value};
ghost use Rattle.dl_table_rules.specs.Duplicates.{entries_of, same_at};
ghost use Rattle.dl_table_rules.specs.Ordering.{AreAt, AreBelow, AreOrdered, AreTwins, items_at};

use crate::files_named::all_false;
use crate::value_order::compare_entries;
use dl_memory::{Memory, NoMemory};
use dl_table::table::{Entry, Table};
use std::alloc::Global;
use std::cmp::Ordering;

/// An entry of a table, in an order by its values.
#[derive(Clone, Copy)]
pub(crate) struct EntryAt<'a> {
    entry: Entry<'a>,
    /// Its place in the table, from 0 on.
    place: usize,
}

impl<'a> PartialEq for EntryAt<'a> {
    ghost use Rattle.std.specs.Cmp.{eq_by_cmp_equiv, partial_equiv_from_equiv};
    ghost use Rattle.std.specs.Ordering.{is_eq};
    ghost use Rattle.dl_table_rules.specs.Ordering.{at_cmp};
    ghost use Rattle.dl_table_rules.specs.OrderLaws.{at_total};

    ghost eq = { λ a b. is_eq (at_cmp a b) };

    ghost laws = { partial_equiv_from_equiv (eq_by_cmp_equiv at_total) };

    fn eq(&self, other: &EntryAt<'a>) -> bool {
        compare_entries(&self.entry, &other.entry) == Ordering::Equal
    }
}

impl<'a> Eq for EntryAt<'a> {
    ghost use Rattle.std.specs.Cmp.{eq_by_cmp_equiv};
    ghost use Rattle.dl_table_rules.specs.OrderLaws.{at_total};

    ghost laws = { eq_by_cmp_equiv at_total };
}

impl<'a> PartialOrd for EntryAt<'a> {
    ghost use Rattle.std.specs.Prelude.{Some};
    ghost use Rattle.std.specs.Cmp.{partial_order_from_total};
    ghost use Rattle.dl_table_rules.specs.Ordering.{at_cmp};
    ghost use Rattle.dl_table_rules.specs.OrderLaws.{at_total};

    ghost partial_cmp = { λ a b. Some (at_cmp a b) };

    ghost laws = { partial_order_from_total at_total };

    fn partial_cmp(&self, other: &EntryAt<'a>) -> Option<Ordering> {
        Some(compare_entries(&self.entry, &other.entry))
    }
}

impl<'a> Ord for EntryAt<'a> {
    ghost use Rattle.std.specs.Prelude.{refl};
    ghost use Rattle.dl_table_rules.specs.Ordering.{at_cmp};
    ghost use Rattle.dl_table_rules.specs.OrderLaws.{at_total};

    ghost cmp = { at_cmp };

    ghost total = { at_total };

    ghost matches_partial_cmp = { λ a b. refl };

    ghost matches_eq = { λ a b. refl };

    fn cmp(&self, other: &EntryAt<'a>) -> Ordering {
        compare_entries(&self.entry, &other.entry)
    }
}

/// The entries of a table in the order of their values, those of the same values in their own.
#[derive(Drop)]
pub struct EntryOrder<'t> {
    entries: Vec<EntryAt<'t>>,
    /// For each place of the table, whether the entry there stands beside one with the same values.
    twins: Vec<bool>,
    ghost are_twins: { AreTwins entries.items twins.items },
}

impl<'t> EntryOrder<'t> {
    ghost use Rattle.std.specs.Prelude.{◌≡◌, ◌<◌, false, length, slice_index_or, IfOk, IfSome, OnErr};
    ghost use Rattle.dl_memory.specs.Refusals.{IsRefused};
    ghost use Rattle.dl_table_rules.specs.Duplicates.{entries_of, first_same};
    ghost use Rattle.dl_table_rules.specs.Keeping.{IsOrderOf};

    /// Of no entries. It takes no memory.
    pub fn none(alloc: Global) -> EntryOrder<'t> {
        EntryOrder {
            entries: Vec::new(alloc),
            twins: Vec::new(alloc),
        }
    }

    /// Of the entries of a table.
    pub fn of<M: Memory>(memory: &M, table: &'t Table) -> Result<EntryOrder<'t>, NoMemory>
        ensures order { IfOk result (λ order. IsOrderOf order (entries_of table.now)) }
        ensures refused { OnErr result (IsRefused (M.refuses memory.now) (length table.now.entries)) }
    {
        let mut entries = listed(memory, table)?;
        memory.sort_by_key(&mut entries, |entry| *entry)?;
        let twins = twins_of(memory, entries.as_slice(), table.len())?;
        Ok(EntryOrder { entries, twins })
    }

    /// Whether the entry at this place stands beside one with the same values.
    fn has_twin(&self, place: usize) -> bool
        ensures { result ≡ slice_index_or self.now.twins.items place false }
    {
        matches!(self.twins.get(place), Some(true))
    }

    /// The place of the first entry of the table with the same values as the one at this place.
    pub fn first_same(&self, table: &Table, place: usize) -> Option<usize>
        requires { place < length table.now.entries }
        ensures first { IsOrderOf self.now (entries_of table.now) → result ≡ first_same (entries_of table.now) place }
        ensures before { IfSome result (λ other. other < place) }
    {
        if !self.has_twin(place) {
            return None;
        }
        let wanted = EntryAt {
            entry: table.entry(place)?,
            place,
        };
        let first = first_of(self.entries.as_slice(), &wanted)?;
        if first < place { Some(first) } else { None }
    }
}

/// For each of `count` places whether the entry there stands beside one with the same values, by the entries in order.
fn twins_of<M: Memory>(
    memory: &M,
    ordered: &[EntryAt<'_>],
    count: usize,
) -> Result<Vec<bool>, NoMemory>
    requires { AreBelow count ordered.now }
    ensures twins { IfOk result (λ twins. AreTwins ordered.now twins.items) }
    ensures refused { OnErr result (IsRefused (M.refuses memory.now) count) }
{
    let mut twins = all_false(memory, count)?;
    mark_twins(ordered, twins.as_mut_slice());
    Ok(twins)
}

/// Marks the places of entries that stand beside one with the same values, by the entries in order.
fn mark_twins(ordered: &[EntryAt<'_>], twins: &mut [bool])
    requires { AreBelow (length twins.old) ordered.now }
    ensures { AreTwins ordered.now twins.new }
{
    for k in 1..ordered.len() {
        let before = ordered[k - 1];
        let entry = ordered[k];
        if before < entry {
            continue;
        }
        twins[before.place] = true;
        twins[entry.place] = true;
    }
}

/// The place of the first entry with the same values as this one, by the entries in order.
fn first_of(ordered: &[EntryAt<'_>], wanted: &EntryAt<'_>) -> Option<usize>
    ensures { (entries : List (List (ℕ × Value))) (place : ℕ) → AreOrdered ordered.now entries
        → slice_get entries place ≡ Some (items_at wanted.now)
        → result ≡ find (λ other. same_at entries other place) (range_with_len 0 (length entries)) }
{
    let first = ordered.partition_point(|entry| *entry < *wanted);
    match ordered.get(first) {
        Some(entry) => Some(entry.place),
        None => None,
    }
}

/// The entries of a table, one after the other.
fn listed<'t, M: Memory>(memory: &M, table: &'t Table) -> Result<Vec<EntryAt<'t>>, NoMemory>
    ensures are { IfOk result (λ entries. AreAt (entries_of table.now) 0 entries.items) }
    ensures all { IfOk result (λ entries. length entries.items ≡ length table.now.entries) }
    ensures refused { OnErr result (IsRefused (M.refuses memory.now) (length table.now.entries)) }
{
    let mut entries = memory.with_capacity(table.len())?;
    let mut place = 0;
    while let Some(entry) = table.entry(place) {
        memory.push(&mut entries, EntryAt { entry, place })?;
        place += 1;
    }
    Ok(entries)
}
