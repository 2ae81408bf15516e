//! The look-up of many places in the units of a section, with their paths.

ghost use Rattle.std.specs.Prelude.{◌≡◌, IfOk, OnErr, length};
ghost use Rattle.dl_memory.specs.Refusals.{IsRefused};
ghost use Rattle.std.specs.Option.{option_copied};
ghost use Rattle.dl_addr.specs.Code.{is_code};

use crate::kept::{FilePath, KeptPath, Paths};
use crate::style::Style;
use crate::texts::{UnitFiles, keep_all};
use dl_dirs::CompilationDirectories;
use dl_head::{Header, HeaderLengths};
use dl_look::{CodeRanges, Finders, LiveRows, Place};
use dl_memory::{Memory, NoMemory};
use dl_output::Destination;
use dl_path::{beside_table, has_directory_0, is_whole_path};
use dl_print::{StringSections, WriteFault};
use dl_rows::{Flow, Operation, Row};
use dl_sections::{AroundDamage, Damage, RunFault, Visitor};

/// Looks places up in the rows of live sequences, unit by unit, and keeps the paths of those that it finds.
#[derive(Drop)]
pub struct Locator<'s, 'o, 'q, M> {
    memory: &'q M,
    strings: &'s StringSections<'o>,
    code: Option<&'q CodeRanges>,
    directories: CompilationDirectories<'q>,
    style: Style<'q>,
    /// Was given the live rows of the units.
    finders: Finders,
    /// Was given the rows of the current unit.
    live: LiveRows,
    /// The offset of the current unit.
    unit: u64,
    paths: Paths<'s>,
    /// For each place that was answered the number of its path.
    kept: Vec<usize>,
}

impl<W: Destination, M: Memory> Visitor<W> for Locator<'_, '_, '_, M> {
    ghost use Rattle.dl_addr.specs.Locating.{locate_story};

    ghost story = { locate_story M.refuses };

    fn header(
        &mut self,
        _output: &mut W,
        offset: u64,
        _lengths: HeaderLengths,
        _header: &Header,
    ) -> Result<(), RunFault> {
        self.unit = offset;
        Ok(())
    }

    fn foreign(&mut self, _output: &mut W, _offset: u64, _version: u16) -> Result<(), RunFault> {
        Ok(())
    }

    #[inline(always)]
    fn bytes(&mut self, _output: &mut W, _bytes: &[u8]) -> Result<(), WriteFault> {
        Ok(())
    }

    #[inline(always)]
    fn operation(
        &mut self,
        _output: &mut W,
        _header: &Header,
        _operation: Operation,
    ) -> Result<(), WriteFault> {
        Ok(())
    }

    #[inline(always)]
    fn row(&mut self, _output: &mut W, _header: &Header, row: &Row) -> Result<(), RunFault> {
        let is_live = self.begins_live(row.address);
        if self.live.takes(row, is_live) {
            self.finders.row(row);
        }
        Ok(())
    }

    fn unterminated(&mut self, _output: &mut W) -> Result<(), RunFault> {
        Ok(())
    }

    fn end(&mut self, _output: &mut W, header: Option<Header>) -> Result<Flow, RunFault> {
        match self.keep(header.as_ref()) {
            Ok(()) => {
                self.finders.end_unit();
                self.live = LiveRows::new();
                Ok(Flow::On)
            }
            Err(NoMemory) => Err(RunFault::NoMemory),
        }
    }

    fn flush(&mut self, _output: &mut W) -> Result<(), RunFault> {
        Ok(())
    }
}

impl<W: Destination, M: Memory> AroundDamage<W> for Locator<'_, '_, '_, M> {
    fn damaged(&mut self, _unit: u64, _damage: Damage) {
        self.finders.forget_unit();
        self.live = LiveRows::new();
    }
}

/// Where in its file a row stands.
#[derive(Clone, Copy)]
pub struct Position {
    pub line: u64,
    /// 0 where it isn't known.
    pub column: u64,
    pub discriminator: u64,
    pub is_stmt: bool,
}

/// The answer for a place.
#[derive(Clone, Copy)]
pub struct Answer<'a, 's> {
    /// That of the row.
    pub position: Position,
    /// The path of the row's file, as far as it is printed.
    pub path: KeptPath<'a, 's>,
}

/// Whether there is code at an address, as far as it is known.
#[inline(always)]
pub fn is_code(code: Option<&CodeRanges>, address: u64) -> bool
    ensures { result ≡ is_code (option_copied code.entry) address }
{
    match code {
        Some(ranges) => ranges.has(address),
        None => true,
    }
}

impl<'s, 'o, 'q, M: Memory> Locator<'s, 'o, 'q, M> {
    ghost use Rattle.std.specs.Prelude.{◌≡◌, ◌+◌, ℕ, List, IfOk, OnErr, length, slice_get};
    ghost use Rattle.dl_memory.specs.Refusals.{IsRefused};
    ghost use Rattle.std.specs.Prelude.{Bool, Option, option_map, []};
    ghost use Rattle.std.specs.Option.{option_and_then, option_copied};
    ghost use Rattle.dl_addr.specs.declared.locating.Locator as locator;
    ghost use Rattle.dl_sections.specs.Section.{Visit};
    ghost use Rattle.dl_look.specs.FinderRows.{unended};
    ghost use Rattle.dl_addr.specs.Code.{is_code};
    ghost use Rattle.dl_addr.specs.Locating.{Locating, located_by, printed_by};
    ghost use Rattle.dl_addr.specs.Answers.{answer_seen, located_seen};
    ghost use Rattle.dl_addr.specs.Location.{location_at};
    ghost use Rattle.dl_rows.specs.declared.row.Row.{Row};
    ghost use Rattle.dl_look.specs.declared.place.Place.{Place};
    ghost use Rattle.dl_look.specs.FindersRows.{Stand, answered_count};
    ghost use Rattle.dl_look.specs.Units.{AreFirstAnswers};
    ghost use Rattle.dl_look.specs.LiveRows.{Tells};
    ghost use Rattle.dl_addr.specs.Keeping.{Keeps};
    ghost use Rattle.dl_addr.specs.Locating.{IsMadeFor};
    ghost use Rattle.dl_addr.specs.Room.{HasFew, paths_room};
    ghost use Rattle.dl_addr.specs.Texts.{path_at, rooted};

    /// A locator of these places.
    pub fn build(
        memory: &'q M,
        strings: &'s StringSections<'o>,
        code: Option<&'q CodeRanges>,
        directories: CompilationDirectories<'q>,
        style: Style<'q>,
        places: &[Place],
    ) -> Result<Locator<'s, 'o, 'q, M>, NoMemory>
        ensures made { IfOk result (λ l. IsMadeFor l places.now) }
        ensures live { IfOk result (λ l. (is_live : ℕ → Bool) → Tells l.live is_live []) }
        ensures unit { IfOk result (λ l. l.unit ≡ 0) }
        ensures few { IfOk result (λ l. HasFew l.paths (answered_count l.finders)) }
        ensures strings { IfOk result (λ l. l.strings.now ≡ strings.now) }
        ensures code { IfOk result (λ l. l.code ≡ code.entry) }
        ensures directories { IfOk result (λ l. l.directories ≡ directories.entry) }
        ensures style { IfOk result (λ l. l.style ≡ style.entry) }
        ensures memory { IfOk result (λ l. l.memory.now ≡ memory.now) }
        ensures refused { OnErr result (IsRefused (M.refuses memory.now) (length places.now + 1)) }
    {
        let finders = Finders::build_in(memory, places)?;
        Ok(Locator {
            memory,
            strings,
            code,
            directories,
            style,
            finders,
            live: LiveRows::new(),
            unit: 0,
            paths: Paths {
                files: Vec::new(memory.alloc()),
                texts: Vec::new(memory.alloc()),
            },
            kept: no_numbers(memory, places.len())?,
        })
    }

    /// Whether a sequence that begins at this address is live. Only where one begins it is looked up.
    #[inline(always)]
    fn begins_live(&self, address: u64) -> bool
        ensures { (live : ℕ → Bool) (rows : List Row) → Tells self.now.live live rows → unended rows ≡ []
            → result ≡ is_code (option_copied self.now.code) address }
    {
        if self.live.begins() {
            is_code(self.code, address)
        } else {
            false
        }
    }

    /// What the place of this number is answered, by the units that have ended.
    pub fn answer(&self, number: usize) -> Option<Answer<'_, 's>>
        ensures { (first : locator.Locator M) (start held : Option (List ℕ)) (visits : List Visit) (places : List Place)
            → Locating first self.now start held visits → IsMadeFor first places
            → option_map answer_seen result ≡ option_map (located_seen first)
            (option_and_then (λ x. located_by first x visits) (slice_get places number)) }
    {
        match self.finders.answer(number) {
            Some(row) => self.answer_of(row, number),
            None => None,
        }
    }

    /// The row, with the path that is kept for the place of this number.
    fn answer_of(&self, row: Row, number: usize) -> Option<Answer<'_, 's>>
        ensures { option_map answer_seen result ≡ option_map
            (λ f. location_at row f.unit.offset (printed_by self.now f.unit (path_at self.now.paths.texts.items f)))
            (option_and_then (slice_get self.now.paths.files.items) (slice_get self.now.kept.items number)) }
    {
        let file = self.file(number)?;
        let path = KeptPath {
            texts: self.paths.texts.as_slice(),
            file,
            root: None,
        };
        Some(Answer {
            position: Position {
                line: row.line,
                column: row.column,
                discriminator: row.discriminator,
                is_stmt: row.is_stmt,
            },
            path: KeptPath {
                root: self.root(path),
                ..path
            },
        })
    }

    /// The compilation directory under which a path is printed: none where the path is whole, or its last component
    /// alone is asked for.
    fn root(&self, path: KeptPath<'_, '_>) -> Option<&'q [u8]>
        ensures { option_map (rooted (option_copied result)) (path_at path.entry.texts.now path.entry.file.now)
            ≡ printed_by self.now path.entry.file.now.unit (path_at path.entry.texts.now path.entry.file.now) }
    {
        if self.style.basenames {
            return None;
        }
        let parts = path.parts()?;
        if is_whole_path(parts) {
            return None;
        }
        let unit = path.file.unit;
        beside_table(unit.has_directory_0, self.directories.of(unit.offset))
    }

    /// The path that is kept for the place of this number.
    fn file(&self, number: usize) -> Option<&FilePath>
        ensures { option_copied result ≡ option_and_then (slice_get self.now.paths.files.items)
            (slice_get self.now.kept.items number) }
    {
        let path = self.kept.as_slice().get(number)?;
        self.paths.files.as_slice().get(*path)
    }

    /// Keeps the paths of the places that the current unit is the first to answer.
    fn keep(&mut self, header: Option<&Header>) -> Result<(), NoMemory>
        ensures keeps { Keeps self.old self.new (option_copied header.entry) result }
        ensures refused { OnErr result ((places : List Place) (units : List (List Row)) (rows : List Row)
            → Stand self.old.finders places units rows → HasFew self.old.paths (answered_count self.old.finders)
            → IsRefused (M.refuses self.old.memory.now) (paths_room (length places) (option_copied header.entry))) }
    {
        let answered = self.finders.answered_so_far();
        if answered.is_empty() {
            return Ok(());
        }
        let unit = UnitFiles {
            strings: self.strings,
            header,
            style: self.style,
            directory: beside_table(has_directory_0(header), self.directories.of(self.unit)),
            offset: self.unit,
        };
        keep_all(
            self.memory,
            &mut self.paths,
            &mut self.kept,
            &unit,
            answered,
        )
    }
}

/// So many zeros.
fn no_numbers<M: Memory>(memory: &M, count: usize) -> Result<Vec<usize>, NoMemory>
    ensures len { IfOk result (λ numbers. length numbers.items ≡ count) }
    ensures refused { OnErr result (IsRefused (M.refuses memory.now) count) }
{
    let mut numbers = memory.with_capacity(count)?;
    while numbers.len() < count {
        numbers.push_reserved(0);
    }
    Ok(numbers)
}
