//! Where the texts of compilation directories stand, by the offsets of line tables. DWARF 2, 3, 4 and 5, section 3.1.1.
ghost use Rattle.std.specs.Prelude.{◌≡◌, ◌+◌, ◌≤◌, ◌↔◌, ◌++◌, ◌∷◌, [], ℕ, List, IsTrue, IfErr, IfOk, OnErr, OnOk, length};
ghost use Rattle.dl_memory.specs.Refusals.{IsRefused};
ghost use Rattle.std.specs.Option.{option_copied};
ghost use Rattle.std.specs.BTreeMap.{get};
ghost use Rattle.std.specs.List.{list_any};
ghost use Rattle.std.specs.Ordering.{nat_cmp};
ghost use Rattle.dl_num.specs.declared.fixed.Order.{Order};
ghost use Rattle.dl_info.specs.Entries.{EntryData, entry, text};
ghost use Rattle.dl_dirs.specs.Texts.{texts_of};
ghost use Rattle.dl_dirs.specs.Units.{HasDirectory, directory, entries, has_index, has_line_str, has_str, Stands};
ghost use Rattle.dl_dirs.specs.Directories.{directory_at};
ghost use Rattle.dl_dirs.specs.Holding.{AreOf, Fits, Grows, HasPlace, Holds, IsPlaced, directory_kept, is_in, kept_entry};
ghost use Rattle.dl_dirs.specs.Holding.{said_size, text_kept, text_size};

use crate::directories::Directories;
use crate::extent::{Extent, bytes_of, put};
use crate::texts::{Texts, index_text, section_text};
use dl_info::{FirstEntry, Text};
use dl_memory::{Memory, NoMemory};
use dl_num::Order;
use dl_table::Format;
use std::alloc::Global;
use std::collections::BTreeMap;

/// Where the text of a directory stands.
#[derive(Clone, Copy)]
pub(crate) enum Place {
    /// In the bytes that are kept.
    Here(Extent),
    /// At this offset of `.debug_str`.
    Str(u64),
    /// At this offset of `.debug_line_str`.
    LineStr(u64),
    /// At the offset of `.debug_str` that `.debug_str_offsets` has for this index.
    Index(u64),
}

/// A section in which texts stand, or their offsets.
#[derive(Clone, Copy)]
enum Section {
    /// `.debug_str`
    Str,
    /// `.debug_line_str`
    LineStr,
    /// `.debug_str_offsets`
    StrOffsets,
}

/// What is kept of the entry of a unit that says a directory.
#[derive(Clone, Copy)]
pub(crate) struct Kept {
    /// The offset of its line table.
    pub offset: u64,
    /// The format of the unit.
    pub format: Format,
    /// Where its directory stands.
    pub place: Place,
    /// Its DW_AT_str_offsets_base.
    pub base: Option<u64>,
}

/// Where the texts of the directories of line tables stand, as the units of `.debug_info` say it.
#[derive(Drop)]
pub struct Places {
    alloc: Global,
    pub(crate) order: Order,
    /// The number of the entry that says the directory of each line table.
    numbers: BTreeMap<u64, usize>,
    entries: Vec<Kept>,
    /// The texts that stand in entries.
    bytes: Vec<u8>,
}

/// Keeps where a text stands, and its bytes where they are in the entry.
fn place_of<M: Memory>(memory: &M, bytes: &mut Vec<u8>, said: Text<'_>) -> Result<Place, NoMemory>
    ensures grows { Grows bytes.old.items bytes.new.items }
    ensures placed { IfOk result (λ p. IsPlaced bytes.new.items p (text said.entry)) }
    ensures few { length bytes.new.items ≤ length bytes.old.items + text_size (text said.entry) }
    ensures refused { OnErr result (IsRefused (M.refuses memory.now) (length bytes.old.items + text_size (text said.entry))) }
{
    match said {
        Text::Here(text) => Ok(Place::Here(put(memory, bytes, text)?)),
        Text::Str(offset) => Ok(Place::Str(offset)),
        Text::LineStr(offset) => Ok(Place::LineStr(offset)),
        Text::Index(index) => Ok(Place::Index(index)),
    }
}

/// The text of the directory of an entry, where it is known; these are the texts that stand in entries.
fn text_of<'t>(order: Order, texts: &'t Texts, bytes: &'t [u8], kept: &Kept) -> Option<&'t [u8]>
    ensures { option_copied result ≡ text_kept order (texts_of texts.entry.now) bytes.entry.now kept.now }
{
    match kept.place {
        Place::Here(extent) => Some(bytes_of(bytes, extent)),
        Place::Str(offset) => section_text(&texts.debug_str, offset),
        Place::LineStr(offset) => section_text(&texts.debug_line_str, offset),
        Place::Index(index) => index_text(order, texts, kept.format, kept.base, index),
    }
}

impl Place {
    /// Whether the text, or its offset, stands in the section.
    fn is_in(self, section: Section) -> bool
        ensures { result ≡ is_in section self }
    {
        match section {
            Section::Str => matches!(self, Place::Str(_) | Place::Index(_)),
            Section::LineStr => matches!(self, Place::LineStr(_)),
            Section::StrOffsets => matches!(self, Place::Index(_)),
        }
    }
}

/// Whether one of the directories stands in the section, or its offset.
fn is_wanted(entries: &[Kept], section: Section) -> bool
    ensures { result ≡ list_any (λ k. is_in section k.place) entries.now }
{
    entries.iter().any(|kept| kept.place.is_in(section))
}

impl Places {
    /// No directory yet. It takes no memory.
    pub(crate) fn new(alloc: Global, order: Order) -> Places
        ensures order { result.order ≡ order }
        ensures holds { Holds result [] }
        ensures few { Fits result 0 }
    {
        Places {
            alloc,
            order,
            numbers: BTreeMap::new(alloc),
            entries: Vec::new(alloc),
            bytes: Vec::new(alloc),
        }
    }

    /// Takes the first entry of the next unit: keeps it where it says the directory of a line table, and none did before.
    pub(crate) fn add<M: Memory>(
        &mut self,
        memory: &M,
        unit: &FirstEntry<'_>,
    ) -> Result<(), NoMemory>
        ensures order { self.new.order ≡ self.old.order }
        ensures holds { OnOk result ((es : List EntryData) → Holds self.old es
            → Holds self.new (es ++ entry unit.now ∷ [])) }
        ensures memory { IfErr result (λ error. HasDirectory (entry unit.now ∷ [])) }
        ensures few { (over more : ℕ) → Fits self.old over → 1 ≤ more → said_size (entry unit.now) ≤ more
            → OnOk result (Fits self.new (over + more)) }
        ensures refused { (over more : ℕ) → Fits self.old over → 1 ≤ more → said_size (entry unit.now) ≤ more
            → (es : List EntryData) → Holds self.old es → OnErr result (IsRefused (M.refuses memory.now) (over + more)) }
    {
        let (Some(offset), Some(text)) = (unit.stmt_list, unit.comp_dir) else {
            return Ok(());
        };
        if self.numbers.contains_key(&offset) {
            return Ok(());
        }
        let place = place_of(memory, &mut self.bytes, text)?;
        let kept = Kept {
            offset,
            format: unit.format,
            place,
            base: unit.str_offsets_base,
        };
        self.keep(memory, kept)
    }

    /// Keeps an entry of a line table of which none is kept.
    fn keep<M: Memory>(&mut self, memory: &M, kept: Kept) -> Result<(), NoMemory>
        ensures order { self.new.order ≡ self.old.order }
        ensures holds { OnOk result ((es : List EntryData) → Holds self.old es
            → HasPlace self.old.bytes.items kept.place → get nat_cmp self.old.numbers kept.offset ≡ None
            → Holds self.new (es ++ kept_entry self.old.bytes.items kept ∷ [])) }
        ensures few { OnOk result ((length self.new.entries.items ≡ length self.old.entries.items + 1)
            × (self.new.bytes ≡ self.old.bytes)) }
        ensures refused { (es : List EntryData) → Holds self.old es
            → OnErr result (IsRefused (M.refuses memory.now) (length self.old.entries.items + 1)) }
    {
        let number = self.numbers.len();
        memory.push(&mut self.entries, kept)?;
        memory.insert(&mut self.numbers, kept.offset, number)
    }

    /// Whether a directory stands in `.debug_str`.
    pub fn wants_str(&self) -> bool
        ensures { (order : Order) (abbreviations b : List ℕ) → AreOf self.now order abbreviations b
            → IsTrue result ↔ Stands has_str (entries order abbreviations b) }
    {
        is_wanted(&self.entries, Section::Str)
    }

    /// Whether a directory stands in `.debug_line_str`.
    pub fn wants_line_str(&self) -> bool
        ensures { (order : Order) (abbreviations b : List ℕ) → AreOf self.now order abbreviations b
            → IsTrue result ↔ Stands has_line_str (entries order abbreviations b) }
    {
        is_wanted(&self.entries, Section::LineStr)
    }

    /// Whether the offset of a directory stands in `.debug_str_offsets`.
    pub fn wants_str_offsets(&self) -> bool
        ensures { (order : Order) (abbreviations b : List ℕ) → AreOf self.now order abbreviations b
            → IsTrue result ↔ Stands has_index (entries order abbreviations b) }
    {
        is_wanted(&self.entries, Section::StrOffsets)
    }

    /// The text of the directory of the line table at an offset, where it is known.
    pub(crate) fn text<'t>(&'t self, texts: &'t Texts, offset: u64) -> Option<&'t [u8]>
        ensures { option_copied result ≡ directory_kept (texts_of texts.entry.now) self.entry.now offset }
    {
        let kept = self.entries.get(*self.numbers.get(&offset)?)?;
        text_of(self.order, texts, &self.bytes, kept)
    }

    /// The directories, with the bytes of the sections in which they stand. It takes no memory.
    pub fn directories(self, texts: Texts) -> Directories
        ensures { (order : Order) (abbreviations b : List ℕ) → AreOf self order abbreviations b
            → (n : ℕ) → directory_at result n ≡ directory order abbreviations (texts_of texts) b n }
    {
        Directories {
            places: self,
            texts,
        }
    }
}
