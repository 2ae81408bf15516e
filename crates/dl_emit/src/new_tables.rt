//! The tables of version 5 that are made of those of versions 2 to 4. Sections 6.2.4 and 6.2.4.1; DWARF 4, section 6.2.4.

ghost use Rattle.std.specs.Prelude.{◌≡◌, ◌≤◌, ◌++◌, ◌∷◌, [], ◌<◌, length, map, flat_map, slice_get, Some, IfOk, OnOk, OnErr};
ghost use Rattle.std.specs.List.{list_any};
ghost use Rattle.dl_memory.specs.Refusals.{IsRefused};
ghost use Rattle.dl_table.specs.EntryHeld.{entry_items};
ghost use Rattle.dl_table.specs.Sound.{IsSoundTable};
ghost use Rattle.dl_table.specs.TableCells.{table_cells};
ghost use Rattle.dl_table.specs.Value.{text as text_value, number as number_value};
ghost use Rattle.dl_emit.specs.Conversion.{directory_entry, entries_in, file_entry, file_pairs, first_of};
ghost use Rattle.dl_emit.specs.Conversion.{has_number, kept_numbers, new_files, number_in};
ghost use Rattle.dl_emit.specs.Conversion.{path_entry, path_in};
ghost use Rattle.dl_emit.specs.Parts.{IsExact, cells_of, directories_from, held_in};
ghost use Rattle.dl_emit.specs.Texts.{IsText};

use dl_memory::{Memory, NoMemory};
use dl_table::{Entry, Extent, Form, Pair, StoredValue, Table, ValueRef, Word};

/// DW_LNCT_path, a text that stands in the table.
const PATH: Pair = Pair {
    content: 1,
    form: Form::String,
};

/// DW_LNCT_directory_index.
const DIRECTORY_INDEX: Pair = Pair {
    content: 2,
    form: Form::Udata,
};

/// DW_LNCT_timestamp.
const TIMESTAMP: Pair = Pair {
    content: 3,
    form: Form::Udata,
};

/// DW_LNCT_size.
const SIZE: Pair = Pair {
    content: 4,
    form: Form::Udata,
};

/// What is told of a directory.
const DIRECTORY: [Pair; 1] = [PATH];

/// What is told of a file where the table has neither times nor sizes, one of both, or both.
const PLAIN: [Pair; 2] = [PATH, DIRECTORY_INDEX];

const TIMED: [Pair; 3] = [PATH, DIRECTORY_INDEX, TIMESTAMP];

const SIZED: [Pair; 3] = [PATH, DIRECTORY_INDEX, SIZE];

const TIMED_AND_SIZED: [Pair; 4] = [PATH, DIRECTORY_INDEX, TIMESTAMP, SIZE];

/// The values of a table that is made, entry after entry; their texts stand in the pool, one after the other.
#[derive(Drop)]
struct Parts {
    values: Vec<StoredValue>,
    pool: Vec<u8>,
}

impl Parts {
    /// No value yet.
    fn new<M: Memory>(memory: &M) -> Parts
        ensures nothing { held_in result ≡ [] }
        ensures exact { IsExact result }
    {
        Parts {
            values: Vec::new(memory.alloc()),
            pool: Vec::new(memory.alloc()),
        }
    }

    /// Adds a text.
    fn push_text<M: Memory>(&mut self, memory: &M, text: &[u8]) -> Result<(), NoMemory>
        requires { IsExact self.old }
        ensures exact { OnOk result (IsExact self.new) }
        ensures held { OnOk result (held_in self.new ≡ held_in self.old ++ text_value text.now ∷ []) }
        ensures refused { OnErr result
            (IsRefused (M.refuses memory.now) (cells_of (held_in self.old ++ text_value text.now ∷ []))) }
    {
        let start = self.pool.len();
        memory.extend_from_slice(&mut self.pool, text)?;
        let held = StoredValue::Text(Extent::new(start, text.len()));
        memory.push(&mut self.values, held)?;
        Ok(())
    }

    /// Adds a number.
    fn push_number<M: Memory>(&mut self, memory: &M, number: u64) -> Result<(), NoMemory>
        requires { IsExact self.old }
        ensures exact { OnOk result (IsExact self.new) }
        ensures held { OnOk result (held_in self.new ≡ held_in self.old ++ number_value number ∷ []) }
        ensures refused { OnErr result
            (IsRefused (M.refuses memory.now) (cells_of (held_in self.old ++ number_value number ∷ []))) }
    {
        memory.push(&mut self.values, StoredValue::Number(Word::new(number)))?;
        Ok(())
    }
}

/// The table of directories, with this directory 0.
pub fn directories<M: Memory>(memory: &M, old: &Table, first: &[u8]) -> Result<Table, NoMemory>
    requires { IsText first.now }
    ensures value { IfOk result (λ t. t ≡ directories_from first.now old.now) }
    ensures refused { OnErr result
        (IsRefused (M.refuses memory.now) (table_cells (directories_from first.now old.now))) }
{
    let pairs = copied(memory, &DIRECTORY)?;
    let mut parts = Parts::new(memory);
    parts.push_text(memory, first)?;
    push_directories(memory, &mut parts, old)?;
    let Parts { values, pool } = parts;
    Ok(Table::of_parts(old.format(), pairs, values, pool))
}

/// Adds the paths of the old table's entries.
fn push_directories<M: Memory>(memory: &M, parts: &mut Parts, old: &Table) -> Result<(), NoMemory>
    requires { IsExact parts.old }
    ensures exact { OnOk result (IsExact parts.new) }
    ensures held { OnOk result (held_in parts.new ≡ held_in parts.old ++ flat_map directory_entry (entries_in old.now)) }
    ensures refused { OnErr result (IsRefused (M.refuses memory.now)
        (cells_of (held_in parts.old ++ flat_map directory_entry (entries_in old.now)))) }
{
    for i in 0..old.len() {
        parts.push_text(memory, path(&entry_at(old, i)))?;
    }
    Ok(())
}

/// The table of files, with file 1 again as file 0.
pub fn files<M: Memory>(memory: &M, old: &Table) -> Result<Table, NoMemory>
    ensures value { IfOk result (λ t. t ≡ new_files old.now) }
    ensures refused { OnErr result (IsRefused (M.refuses memory.now) (table_cells (new_files old.now))) }
{
    let kept = KeptNumbers::of(old);
    let pairs = copied(memory, kept.pairs())?;
    let mut parts = Parts::new(memory);
    push_first_file(memory, &mut parts, kept, old)?;
    push_files(memory, &mut parts, kept, old)?;
    let Parts { values, pool } = parts;
    Ok(Table::of_parts(old.format(), pairs, values, pool))
}

/// Adds the first of the old table's files, if there is one.
fn push_first_file<M: Memory>(
    memory: &M,
    parts: &mut Parts,
    kept: KeptNumbers,
    old: &Table,
) -> Result<(), NoMemory>
    requires { IsExact parts.old }
    ensures exact { OnOk result (IsExact parts.new) }
    ensures held { OnOk result (held_in parts.new ≡ held_in parts.old
        ++ flat_map (file_entry (kept_numbers kept.times kept.sizes)) (first_of (entries_in old.now))) }
    ensures refused { OnErr result (IsRefused (M.refuses memory.now) (cells_of (held_in parts.old
        ++ flat_map (file_entry (kept_numbers kept.times kept.sizes)) (first_of (entries_in old.now))))) }
{
    if old.len() == 0 {
        return Ok(());
    }
    push_file(memory, parts, kept, &entry_at(old, 0))
}

/// Adds the old table's files.
fn push_files<M: Memory>(
    memory: &M,
    parts: &mut Parts,
    kept: KeptNumbers,
    old: &Table,
) -> Result<(), NoMemory>
    requires { IsExact parts.old }
    ensures exact { OnOk result (IsExact parts.new) }
    ensures held { OnOk result (held_in parts.new ≡ held_in parts.old
        ++ flat_map (file_entry (kept_numbers kept.times kept.sizes)) (entries_in old.now)) }
    ensures refused { OnErr result (IsRefused (M.refuses memory.now) (cells_of (held_in parts.old
        ++ flat_map (file_entry (kept_numbers kept.times kept.sizes)) (entries_in old.now)))) }
{
    for i in 0..old.len() {
        push_file(memory, parts, kept, &entry_at(old, i))?;
    }
    Ok(())
}

/// Adds a file.
fn push_file<M: Memory>(
    memory: &M,
    parts: &mut Parts,
    kept: KeptNumbers,
    file: &Entry<'_>,
) -> Result<(), NoMemory>
    requires { IsExact parts.old }
    ensures exact { OnOk result (IsExact parts.new) }
    ensures held { OnOk result (held_in parts.new ≡ held_in parts.old
        ++ file_entry (kept_numbers kept.times kept.sizes) (entry_items file.now)) }
    ensures refused { OnErr result (IsRefused (M.refuses memory.now) (cells_of (held_in parts.old
        ++ file_entry (kept_numbers kept.times kept.sizes) (entry_items file.now)))) }
{
    parts.push_text(memory, path(file))?;
    for content in kept.numbers() {
        parts.push_number(memory, number(file, *content))?;
    }
    Ok(())
}

/// Which numbers files keep beside that of their directory.
#[derive(Clone, Copy)]
struct KeptNumbers {
    times: bool,
    sizes: bool,
}

impl KeptNumbers {
    /// Times where any isn't 0, and sizes where any isn't.
    fn of(files: &Table) -> KeptNumbers
        ensures { result ≡ record {
          times = list_any (has_number 3) (entries_in files.now);
          sizes = list_any (has_number 4) (entries_in files.now);
        } }
    {
        KeptNumbers {
            times: any_has(files, 3),
            sizes: any_has(files, 4),
        }
    }

    /// What each file says.
    fn pairs(self) -> &'static [Pair]
        ensures { result.now ≡ file_pairs (kept_numbers self.times self.sizes) }
    {
        match (self.times, self.sizes) {
            (false, false) => &PLAIN,
            (true, false) => &TIMED,
            (false, true) => &SIZED,
            (true, true) => &TIMED_AND_SIZED,
        }
    }

    /// The content codes of the numbers that each file says.
    fn numbers(self) -> &'static [u64]
        ensures { result.now ≡ kept_numbers self.times self.sizes }
    {
        match (self.times, self.sizes) {
            (false, false) => &[2],
            (true, false) => &[2, 3],
            (false, true) => &[2, 4],
            (true, true) => &[2, 3, 4],
        }
    }
}

/// Whether any entry has a number other than 0 with this content code.
fn any_has(table: &Table, content: u64) -> bool
    ensures { result ≡ list_any (has_number content) (entries_in table.now) }
{
    for i in 0..table.len() {
        if number(&entry_at(table, i), content) != 0 {
            return true;
        }
    }
    false
}

/// The entry at a place of a table.
fn entry_at<'a>(table: &'a Table, i: usize) -> Entry<'a>
    requires { i < length table.now.entries }
    ensures { slice_get (entries_in table.now) i ≡ Some (entry_items result) }
{
    match table.entry(i) {
        Some(entry) => entry,
        None => unreachable!(),
    }
}

/// The path of an entry; empty where it has none.
fn path<'a>(entry: &Entry<'a>) -> &'a [u8]
    ensures { result.now ≡ path_in (entry_items entry.now) }
{
    match entry.get(1) {
        Some(ValueRef::Text(path)) => path,
        _ => b"",
    }
}

/// The number of an entry with this content code; 0 where it has none.
fn number(entry: &Entry<'_>, content: u64) -> u64
    ensures { result ≡ number_in (entry_items entry.now) content }
{
    match entry.get(content) {
        Some(ValueRef::Number(number)) => number,
        _ => 0,
    }
}

/// The pairs, copied.
fn copied<M: Memory>(memory: &M, pairs: &[Pair]) -> Result<Vec<Pair>, NoMemory>
    ensures same { IfOk result (λ copy. copy.items ≡ pairs.now) }
    ensures refused { OnErr result (IsRefused (M.refuses memory.now) (length pairs.now)) }
{
    let mut copy = Vec::new(memory.alloc());
    memory.extend_from_slice(&mut copy, pairs)?;
    Ok(copy)
}
