//! Tables of directories and files. Section 6.2.4.1.

ghost use Rattle.std.specs.Prelude.{◌≡◌, ◌+◌, ◌-◌, ◌*◌, ◌/◌, ◌^◌, ◌<◌, ◌≤◌, ◌↔◌, ◌∷◌, ◌++◌, [], IsTrue, IfOk, OnOk};
ghost use Rattle.std.specs.Prelude.{OnErr, Err, length, take, drop, map, min, slice_get};
ghost use Rattle.std.specs.Option.{option_map};
ghost use Rattle.dl_memory.specs.Refusals.{IsRefused, SystemRefuses};
ghost use Rattle.dl_table.specs.Built.{entry_fault, format_fault, Refuses};
ghost use Rattle.dl_table.specs.Refused.{RefusesEntry};
ghost use Rattle.std.specs.List.{sum_by};
ghost use Rattle.dl_table.specs.Held.{cells_held, value_lent, values_end, IsWhole, table_of};
ghost use Rattle.dl_table.specs.Sound.{AreContents, IsSoundTable};
ghost use Rattle.dl_table.specs.TableCells.{table_cells};
ghost use Rattle.dl_table.specs.EntryData.{with_content};

mod building;
mod entry;
mod equal;
mod held;
mod spelled;
mod writing;

use crate::fault::BuildFault;
use crate::form::{Form, Format};
use dl_memory::{Memory, NoMemory, System};
pub use entry::{Entry, Values};
pub use held::{Extent, StoredValue, ValueRef, Word};
use std::alloc::Global;
use std::marker::Model;

/// The greatest number of pairs of a format.
const MAX_PAIRS: usize = 255;

/// A content code, and the form in which its values are spelled. Section 6.2.4.1.
#[derive(Clone, Copy, Debug, PartialEq, Eq)]
pub struct Pair {
    pub content: u64,
    pub form: Form,
}

impl Pair {
    fn new(content: u64, form: Form) -> Pair
        ensures made { result ≡ record { content = content; form = form } }
        ensures content { content < 2 ^ 64 }
    {
        Pair { content, form }
    }
}

/// A table of directories or files: a list of pairs, and entries of one value for each pair. The
/// bytes of all its texts and blocks stand in one pool, in the order of its values.
#[derive(Debug, Drop)]
pub struct Table {
    format: Format,
    pairs: Vec<Pair>,
    values: Vec<StoredValue>,
    pool: Vec<u8>,
}

impl Model for Table {
    ghost use Rattle.dl_table.specs.TableData.{TableData};

    ghost Value = { TableData };

    ghost use Rattle.dl_table.specs.TableHeld.{IsHeld, table_held};

    ghost view = { table_held };

    ghost invariant = { IsHeld };
}

impl Table {
    ghost use Rattle.dl_table.specs.EntryHeld.{entry_items};

    /// A table without entries, as `new_in` makes it, by the memory of the system.
    pub fn new(alloc: Global, format: Format, pairs: &[Pair]) -> Result<Table, BuildFault>
        ensures refused { Refuses (format_fault pairs.now) result }
        ensures memory { result ≡ Err BuildFault.NoMemory → 0 < length pairs.now }
        ensures system { result ≡ Err BuildFault.NoMemory → IsRefused SystemRefuses (length pairs.now) }
        ensures made { IfOk result
            (λ t. t ≡ record { format = format; pairs = pairs.now; entries = [] }) }
    {
        Table::new_in(&System::new(alloc), format, pairs)
    }

    /// A table without entries. It is refused where there are more than 255 pairs, or where memory for the pairs is.
    pub fn new_in<M: Memory>(
        memory: &M,
        format: Format,
        pairs: &[Pair],
    ) -> Result<Table, BuildFault>
        ensures refused { Refuses (format_fault pairs.now) result }
        ensures some { result ≡ Err BuildFault.NoMemory → 0 < length pairs.now }
        ensures memory { result ≡ Err BuildFault.NoMemory → IsRefused (M.refuses memory.now) (length pairs.now) }
        ensures made { IfOk result
            (λ t. t ≡ record { format = format; pairs = pairs.now; entries = [] }) }
    {
        if pairs.len() > MAX_PAIRS {
            return Err(BuildFault::TooManyFormats);
        }
        if pairs.is_empty() {
            return Ok(Table::without_pairs(memory.alloc(), format));
        }
        match copied(memory, pairs) {
            Ok(pairs) => Ok(Table {
                format,
                pairs,
                values: Vec::new(memory.alloc()),
                pool: Vec::new(memory.alloc()),
            }),
            Err(NoMemory) => Err(BuildFault::NoMemory),
        }
    }

    /// Adds an entry at the end, as `push_entry_in` does, by the memory of the system.
    pub fn push_entry(&mut self, values: &[ValueRef<'_>]) -> Result<(), BuildFault>
        ensures refused { Refuses (entry_fault self.old (map value_lent values.now)) result }
        ensures memory { result ≡ Err BuildFault.NoMemory → RefusesEntry SystemRefuses values.now }
        ensures added { OnOk result (self.new ≡ record self.old {
          entries = self.old.entries ++ map value_lent values.now ∷ [];
        }) }
        ensures unchanged { OnErr result (self.new ≡ self.old) }
    {
        let memory = System::of(&self.pool);
        self.push_entry_in(&memory, values)
    }

    /// Adds an entry at the end. Where it is refused, the table is unchanged. It is refused where one of the values isn't one
    /// of its pair's form, or where memory is.
    pub fn push_entry_in<M: Memory>(
        &mut self,
        memory: &M,
        values: &[ValueRef<'_>],
    ) -> Result<(), BuildFault>
        ensures refused { Refuses (entry_fault self.old (map value_lent values.now)) result }
        ensures memory { result ≡ Err BuildFault.NoMemory → RefusesEntry (M.refuses memory.now) values.now }
        ensures added { OnOk result (self.new ≡ record self.old {
          entries = self.old.entries ++ map value_lent values.now ∷ [];
        }) }
        ensures unchanged { OnErr result (self.new ≡ self.old) }
    {
        if self.pairs.is_empty() {
            return Err(BuildFault::EmptyFormat);
        }
        if let Some(place) = building::wrong_value(self.format, self.pairs.as_slice(), values) {
            return Err(BuildFault::WrongValue(place));
        }
        let Some(pooled) = building::pooled_len(values) else {
            return Err(BuildFault::NoMemory);
        };
        if memory.reserve(&mut self.values, values.len()).is_err()
            || memory.reserve(&mut self.pool, pooled).is_err()
        {
            return Err(BuildFault::NoMemory);
        }
        building::hold_all(&mut self.values, &mut self.pool, values);
        Ok(())
    }

    /// How many entries there are.
    pub fn len(&self) -> usize
        ensures { result ≡ length self.now.entries }
    {
        whole_rows(self.values.len(), self.pairs.len())
    }

    /// Whether there are no entries.
    pub fn is_empty(&self) -> bool
        ensures { IsTrue result ↔ (self.now.entries ≡ []) }
    {
        self.len() == 0
    }

    /// The content code and form of each value of an entry.
    pub fn pairs(&self) -> &[Pair]
        ensures { result.now ≡ self.now.pairs }
    {
        self.pairs.as_slice()
    }

    /// The entry of this number, from 0 on; None from `len()` on.
    pub fn entry(&self, i: usize) -> Option<Entry<'_>>
        ensures { option_map entry_items result
            ≡ option_map (with_content self.now.pairs) (slice_get self.now.entries i) }
    {
        if i >= self.len() {
            return None;
        }
        let held = row(self.values.as_slice(), self.pairs.len(), i);
        Some(Entry::new(self.pairs.as_slice(), held, self.pool.as_slice()))
    }

    /// A table of this format without pairs, so one that takes no entries. It takes no memory.
    pub fn without_pairs(alloc: Global, format: Format) -> Table
        ensures { result ≡ record { format = format; pairs = []; entries = [] } }
    {
        Table {
            format,
            pairs: Vec::new(alloc),
            values: Vec::new(alloc),
            pool: Vec::new(alloc),
        }
    }

    /// A table of these pairs, at most 255, and values, one for each pair in turn, whose bytes stand in
    /// the pool.
    pub fn of_parts(
        format: Format,
        pairs: Vec<Pair>,
        values: Vec<StoredValue>,
        pool: Vec<u8>,
    ) -> Table
        requires few { length pairs.items ≤ 255 }
        requires within { values_end values.items ≤ length pool.items }
        requires whole { IsWhole (length values.items) (length pairs.items) }
        requires sound { IsSoundTable (table_of format pairs.items values.items pool.items) }
        ensures { result ≡ table_of format pairs.items values.items pool.items }
    {
        Table {
            format,
            pairs,
            values,
            pool,
        }
    }

    /// The format of the unit that the table is for. Section 7.4.
    pub fn format(&self) -> Format
        ensures value { result ≡ self.now.format }
        ensures sound { IsSoundTable self.now }
    {
        self.format
    }

    /// How many pairs, values, and bytes of texts and blocks the table holds; 2^64 - 1 where there
    /// are more.
    pub fn cells(&self) -> u64
        ensures { result ≡ min (table_cells self.now) (2 ^ 64 - 1) }
    {
        (self.pairs.len() as u64).saturating_add(held_cells(self.values.as_slice()))
    }
}

/// The pairs, copied.
fn copied<M: Memory>(memory: &M, pairs: &[Pair]) -> Result<Vec<Pair>, NoMemory>
    ensures same { IfOk result (λ copy. copy.items ≡ pairs.now) }
    ensures contents { OnOk result (AreContents pairs.now) }
    ensures refused { OnErr result (IsRefused (M.refuses memory.now) (length pairs.now)) }
{
    let mut copy = memory.with_capacity(pairs.len())?;
    for pair in pairs {
        memory.push(&mut copy, Pair::new(pair.content, pair.form))?;
    }
    Ok(copy)
}

/// How many whole rows a number of values makes; none where a row has no values.
fn whole_rows(values: usize, width: usize) -> usize
    ensures rows { result ≡ values / width }
    ensures within { result * width ≤ values }
{
    values.checked_div(width).unwrap_or(0)
}

/// The row of this number, from 0 on, in rows of `width` values.
#[tactic(auto, using(crate::proofs::HeldLemmas::row_within))]
fn row(values: &[StoredValue], width: usize, i: usize) -> &[StoredValue]
    requires { i < length values.now / width }
    ensures { result.now ≡ take width (drop (i * width) values.now) }
{
    let start = i * width;
    &values[start..start + width]
}

/// How many cells these values are; 2^64 - 1 where there are more.
fn held_cells(values: &[StoredValue]) -> u64
    ensures { result ≡ min (sum_by cells_held values.now) (2 ^ 64 - 1) }
{
    let mut cells = 0u64;
    for held in values {
        cells = cells.saturating_add(held.cells());
    }
    cells
}

/// How many cells there are in these parts of a table; 2^64 - 1 where there are more.
pub fn cells_of(pairs: &Vec<Pair>, values: &Vec<StoredValue>, pool: &Vec<u8>) -> u64
    ensures { result ≡ min (length pairs.now.items + length values.now.items
        + length pool.now.items) (2 ^ 64 - 1) }
{
    (pairs.len() as u64)
        .saturating_add(values.len() as u64)
        .saturating_add(pool.len() as u64)
}
