//! What the entries of the tables of files tell. Sections 6.2.4 and 6.2.4.1.

ghost use Rattle.std.specs.Prelude.{◌≡◌, ◌+◌, ◌++◌, List, OnOk, OnErr, length};
ghost use Rattle.dl_memory.specs.Refusals.{IsRefused};
ghost use Rattle.dl_table.specs.EntryHeld.{entry_items};
ghost use Rattle.dl_sources.specs.Entries.{sum_in, sum_told};
ghost use Rattle.dl_sources.specs.Holding.{Holds};
ghost use Rattle.dl_sources.specs.Sources.{Mention};
ghost use Rattle.dl_sources.specs.UnitEntries.{entry_seen, entry_room, table_seen, table_room};

use crate::counting::UnitCounts;
use crate::map_memory::MapMemory;
use crate::path_text::path_text;
use crate::table::SourceTable;
use dl_head::{Entry, Header, ValueRef};
use dl_memory::NoMemory;
use dl_path::path_of;
use dl_print::StringSections;

/// The content code of an MD5 sum. Section 6.2.4.1.
const MD5: u64 = 5;

/// What is known of a unit that is whole.
#[derive(Clone, Copy)]
pub(crate) struct UnitTable<'a, 'o> {
    pub(crate) strings: &'a StringSections<'o>,
    pub(crate) header: &'a Header,
    /// The compilation directory that counts for the unit, if it is known.
    pub(crate) directory: Option<&'a [u8]>,
    pub(crate) counts: &'a UnitCounts,
    /// Whether sums are asked for.
    pub(crate) md5: bool,
}

/// Adds what the entries of a unit's table of files tell. `NoMemory` where a growth is refused.
pub(crate) fn add_entries<M: MapMemory>(
    memory: &M,
    table: &mut SourceTable,
    unit: &UnitTable<'_, '_>,
) -> Result<(), NoMemory>
    ensures told { OnOk result ((mentions : List Mention) → Holds table.old mentions
        → Holds table.new (mentions ++ table_seen unit.now)) }
    ensures refused { OnErr result ((mentions : List Mention) → Holds table.old mentions
        → IsRefused (M.refuses memory.now) (length mentions + table_room unit.now)) }
{
    let first = unit.header.first_number();
    let count = unit.header.files().len();
    let mut place = 0;
    while place < count {
        add_entry(memory, table, unit, first + place as u64)?;
        place += 1;
    }
    Ok(())
}

/// Adds what the entry of this number tells, if its path is known.
fn add_entry<M: MapMemory>(
    memory: &M,
    table: &mut SourceTable,
    unit: &UnitTable<'_, '_>,
    number: u64,
) -> Result<(), NoMemory>
    ensures told { OnOk result ((mentions : List Mention) → Holds table.old mentions
        → Holds table.new (mentions ++ entry_seen unit.now number)) }
    ensures refused { OnErr result ((mentions : List Mention) → Holds table.old mentions
        → IsRefused (M.refuses memory.now) (length mentions + entry_room unit.now)) }
{
    let Some(path) = path_of(unit.strings, Some(unit.header), number) else {
        return Ok(());
    };
    let text = path_text(memory, unit.directory, path)?;
    let sum = sum_of(unit, number);
    table.add(memory, text, unit.counts.of(number), sum)
}

/// The MD5 sum of the file of this number, where sums are asked for.
fn sum_of(unit: &UnitTable<'_, '_>, number: u64) -> Option<[u8; 16]>
    ensures { result ≡ sum_told unit.now.md5 unit.now.header.now number }
{
    if unit.md5 {
        md5_of(unit.header.file(number)?)
    } else {
        None
    }
}

/// The MD5 sum that an entry has. Sixteen zeros are none.
fn md5_of(entry: Entry<'_>) -> Option<[u8; 16]>
    ensures { result ≡ sum_in (entry_items entry.entry) }
{
    match entry.get(MD5)? {
        ValueRef::Data16(sum) if sum != [0; 16] => Some(sum),
        _ => None,
    }
}
