//! What the units of a section tell of paths, one unit after the other. Sections 6.2.2 and 6.2.4.

use crate::counting::UnitCounts;
use crate::entries::{UnitTable, add_entries};
use crate::map_memory::MapMemory;
use crate::question::SourcesQuestion;
use crate::table::SourceTable;
use dl_addr::is_code;
use dl_head::{Header, HeaderLengths};
use dl_making::files_end;
use dl_memory::NoMemory;
use dl_output::Destination;
use dl_path::{beside_table, has_directory_0};
use dl_print::{StringSections, WriteFault};
use dl_rows::{Flow, Operation, Row};
use dl_sections::{AroundDamage, Damage, RunFault, Visitor};

/// Counts the rows of each unit, and adds what its table of files tells once the unit is whole.
#[derive(Drop)]
pub(crate) struct Lister<'s, 'o, 'q, M> {
    memory: &'q M,
    strings: &'s StringSections<'o>,
    question: SourcesQuestion<'q>,
    /// The offset of the current unit.
    unit: u64,
    /// Was given the rows of the current unit.
    counts: UnitCounts,
    /// Was told of the units that are whole.
    pub(crate) table: SourceTable,
    /// Whether memory was refused, so that nothing is known of the table.
    pub(crate) is_refused: bool,
}

impl<W: Destination, M: MapMemory> Visitor<W> for Lister<'_, '_, '_, M> {
    ghost use Rattle.dl_sources.specs.Listing.{listing_story};

    ghost story = { listing_story M.refuses };

    fn header(
        &mut self,
        _output: &mut W,
        offset: u64,
        _lengths: HeaderLengths,
        header: &Header,
    ) -> Result<(), RunFault> {
        match self.begin_unit(offset, header) {
            Ok(()) => Ok(()),
            Err(NoMemory) => Err(RunFault::NoMemory),
        }
    }

    fn foreign(&mut self, _output: &mut W, _offset: u64, _version: u16) -> Result<(), RunFault> {
        Ok(())
    }

    #[inline(always)]
    fn bytes(&mut self, _output: &mut W, _bytes: &[u8]) -> Result<(), WriteFault> {
        Ok(())
    }

    #[inline(always)]
    fn operation(
        &mut self,
        _output: &mut W,
        _header: &Header,
        _operation: Operation,
    ) -> Result<(), WriteFault> {
        Ok(())
    }

    #[inline(always)]
    fn row(&mut self, _output: &mut W, _header: &Header, row: &Row) -> Result<(), RunFault> {
        self.count_row(row);
        Ok(())
    }

    fn unterminated(&mut self, _output: &mut W) -> Result<(), RunFault> {
        Ok(())
    }

    fn end(&mut self, _output: &mut W, header: Option<Header>) -> Result<Flow, RunFault> {
        match self.end_unit(header.as_ref()) {
            Ok(()) => Ok(Flow::On),
            Err(NoMemory) => {
                self.is_refused = true;
                Err(RunFault::NoMemory)
            }
        }
    }

    fn flush(&mut self, _output: &mut W) -> Result<(), RunFault> {
        Ok(())
    }
}

impl<W: Destination, M: MapMemory> AroundDamage<W> for Lister<'_, '_, '_, M> {
    fn damaged(&mut self, _unit: u64, _damage: Damage) {
        self.counts = UnitCounts::none(self.memory.alloc());
    }
}

impl<'s, 'o, 'q, M: MapMemory> Lister<'s, 'o, 'q, M> {
    ghost use Rattle.std.specs.Prelude.{◌≡◌, ◌≤◌, ◌+◌, ◌++◌, ◌∷◌, ℕ, Bool, false, List, [], length, Some, OnOk, OnErr};
    ghost use Rattle.std.specs.Option.{option_copied};
    ghost use Rattle.dl_field.specs.HeaderData.{header_cells};
    ghost use Rattle.dl_memory.specs.Refusals.{IsRefused};
    ghost use Rattle.dl_rows.specs.declared.row.Row.{Row};
    ghost use Rattle.dl_look.specs.FinderRows.{unended};
    ghost use Rattle.dl_addr.specs.Code.{is_code};
    ghost use Rattle.dl_sources.specs.Counting.{Counting};
    ghost use Rattle.dl_sources.specs.Holding.{Holds};
    ghost use Rattle.dl_sources.specs.Sources.{Mention};
    ghost use Rattle.dl_sources.specs.Listing.{IsSame, cells_of, end_room, end_told, entry_count, file_count};

    /// A lister that was told of no unit.
    pub(crate) fn new(
        memory: &'q M,
        strings: &'s StringSections<'o>,
        question: SourcesQuestion<'q>,
    ) -> Lister<'s, 'o, 'q, M>
        ensures memory { result.memory.now ≡ memory.now }
        ensures strings { result.strings.now ≡ strings.now }
        ensures question { result.question ≡ question.entry }
        ensures sufficed { result.is_refused ≡ false }
        ensures counts { (live : ℕ → Bool) → Counting live 0 result.counts [] }
        ensures table { Holds result.table [] }
    {
        Lister {
            memory,
            strings,
            question,
            unit: 0,
            counts: UnitCounts::none(memory.alloc()),
            table: SourceTable::new(memory.alloc()),
            is_refused: false,
        }
    }

    /// Begins the unit at this offset, which has this header: no row was given.
    pub(crate) fn begin_unit(&mut self, offset: u64, header: &Header) -> Result<(), NoMemory>
        ensures begun { OnOk result (self.new ≡ record self.old { unit = offset; counts = self.new.counts }) }
        ensures counts { OnOk result ((live : ℕ → Bool) → Counting live (file_count (Some header.now)) self.new.counts []) }
        ensures refused { OnErr result ((self.new ≡ self.old) × (count : ℕ) × (count ≤ header_cells header.now + 1)
            × IsRefused (M.refuses self.old.memory.now) count) }
    {
        self.counts = UnitCounts::of_files(self.memory, files_end(Some(header)))?;
        self.unit = offset;
        Ok(())
    }

    /// Takes the next row of the current unit.
    #[inline(always)]
    pub(crate) fn count_row(&mut self, row: &Row)
        ensures same { self.new ≡ record self.old { counts = self.new.counts } }
        ensures counted { (live : ℕ → Bool) (count : ℕ) (rows : List Row)
            → ((address : ℕ) → live address ≡ is_code (option_copied self.old.question.code) address)
            → Counting live count self.old.counts rows → Counting live count self.new.counts (rows ++ row.now ∷ []) }
    {
        let is_live = self.begins_live(row.address);
        self.counts.row(row, is_live);
    }

    /// Whether a sequence that begins at this address is live. Only where one begins it is looked up.
    #[inline(always)]
    fn begins_live(&self, address: u64) -> bool
        ensures { (live : ℕ → Bool) (count : ℕ) (rows : List Row) → Counting live count self.now.counts rows
            → unended rows ≡ [] → result ≡ is_code (option_copied self.now.question.code) address }
    {
        if self.counts.begins() {
            is_code(self.question.code, address)
        } else {
            false
        }
    }

    /// Adds what the table of files of the current unit tells, which is whole.
    pub(crate) fn end_unit(&mut self, header: Option<&Header>) -> Result<(), NoMemory>
        ensures same { IsSame self.old self.new }
        ensures unit { self.new.unit ≡ self.old.unit }
        ensures refused { self.new.is_refused ≡ self.old.is_refused }
        ensures counts { OnOk result ((live : ℕ → Bool) → Counting live 0 self.new.counts []) }
        ensures told { OnOk result ((mentions : List Mention) → Holds self.old.table mentions
            → Holds self.new.table (mentions ++ end_told self.old (option_copied header.entry))) }
        ensures wants { OnErr result ((mentions : List Mention) → Holds self.old.table mentions
            → IsRefused (M.refuses self.old.memory.now) (length mentions + end_room self.old (option_copied header.entry))) }
        ensures few { entry_count (option_copied header.entry) ≤ cells_of (option_copied header.entry) }
    {
        if let Some(header) = header {
            self.add_table(header)?;
        }
        self.counts = UnitCounts::none(self.memory.alloc());
        Ok(())
    }

    /// Adds what the table of files of this header tells, which is that of the current unit.
    fn add_table(&mut self, header: &Header) -> Result<(), NoMemory>
        ensures same { IsSame self.old self.new }
        ensures unit { self.new.unit ≡ self.old.unit }
        ensures refused { self.new.is_refused ≡ self.old.is_refused }
        ensures told { OnOk result ((mentions : List Mention) → Holds self.old.table mentions
            → Holds self.new.table (mentions ++ end_told self.old (Some header.now))) }
        ensures wants { OnErr result ((mentions : List Mention) → Holds self.old.table mentions
            → IsRefused (M.refuses self.old.memory.now) (length mentions + end_room self.old (Some header.now))) }
        ensures few { entry_count (Some header.now) ≤ cells_of (Some header.now) }
    {
        // By what it says of a header, each file has a value.
        let _params = header.params();
        let unit = UnitTable {
            strings: self.strings,
            header,
            directory: beside_table(
                has_directory_0(Some(header)),
                self.question.directories.of(self.unit),
            ),
            counts: &self.counts,
            md5: self.question.md5,
        };
        add_entries(self.memory, &mut self.table, &unit)
    }
}
