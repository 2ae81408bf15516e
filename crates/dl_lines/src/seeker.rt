//! The search for the places of many lines in the units of a section.

ghost use Rattle.std.specs.Prelude.{◌≡◌, option_map};
ghost use Rattle.dl_lines.specs.Searching.{path_found};
ghost use Rattle.std.specs.Option.{option_copied};

use crate::full_path::path_bytes;
use crate::question::Wanted;
use crate::run::FirstStatements;
use crate::search::{Lines, Search};
use crate::searches::{add_each, begin_each, end_each, judge_each, order_each, searches_for};
use dl_addr::is_code;
use dl_dirs::CompilationDirectories;
use dl_head::{Header, HeaderLengths};
use dl_look::{CodeRanges, LiveRows};
use dl_memory::{Memory, NoMemory};
use dl_output::Destination;
use dl_path::{beside_table, has_directory_0};
use dl_print::{StringSections, WriteFault};
use dl_rows::{Flow, Operation, Row};
use dl_sections::{AroundDamage, Damage, RunFault, Visitor};

/// Looks for the places of many lines in the rows of live sequences, unit by unit.
#[derive(Drop)]
pub struct LineSeeker<'s, 'o, 'q, M> {
    memory: &'q M,
    strings: &'s StringSections<'o>,
    code: Option<&'q CodeRanges>,
    directories: CompilationDirectories<'q>,
    /// Was given the rows of the current unit.
    live: LiveRows,
    /// Was given its live rows.
    statements: FirstStatements,
    /// One for each line that is wanted.
    searches: Vec<Search<'q>>,
    /// Memory was refused for what was told: the searches don't count, and the next visit is answered with the fault.
    is_refused: bool,
}

impl<W: Destination, M: Memory> Visitor<W> for LineSeeker<'_, '_, '_, M> {
    ghost use Rattle.dl_lines.specs.Seeking.{seek_story};

    ghost story = { seek_story M.refuses };

    fn header(
        &mut self,
        _output: &mut W,
        offset: u64,
        _lengths: HeaderLengths,
        header: &Header,
    ) -> Result<(), RunFault> {
        if self.is_refused {
            return Err(RunFault::NoMemory);
        }
        self.begin_unit();
        let judged = self.judge_files(offset, header);
        self.note(judged);
        Ok(())
    }

    fn foreign(&mut self, _output: &mut W, _offset: u64, _version: u16) -> Result<(), RunFault> {
        Ok(())
    }

    #[inline(always)]
    fn bytes(&mut self, _output: &mut W, _bytes: &[u8]) -> Result<(), WriteFault> {
        Ok(())
    }

    #[inline(always)]
    fn operation(
        &mut self,
        _output: &mut W,
        _header: &Header,
        _operation: Operation,
    ) -> Result<(), WriteFault> {
        Ok(())
    }

    #[inline(always)]
    fn row(&mut self, _output: &mut W, _header: &Header, row: &Row) -> Result<(), RunFault> {
        if self.is_refused {
            return Err(RunFault::NoMemory);
        }
        if self.takes(row) {
            let added = add_each(self.memory, &mut self.searches, row);
            self.note(added);
        }
        Ok(())
    }

    fn unterminated(&mut self, _output: &mut W) -> Result<(), RunFault> {
        Ok(())
    }

    fn end(&mut self, _output: &mut W, _header: Option<Header>) -> Result<Flow, RunFault> {
        if self.is_refused {
            return Err(RunFault::NoMemory);
        }
        let ended = end_each(self.memory, &mut self.searches);
        self.live = LiveRows::new();
        self.statements = FirstStatements::new();
        self.note(ended);
        Ok(Flow::On)
    }

    fn flush(&mut self, _output: &mut W) -> Result<(), RunFault> {
        Ok(())
    }
}

impl<W: Destination, M: Memory> AroundDamage<W> for LineSeeker<'_, '_, '_, M> {
    fn damaged(&mut self, _unit: u64, _damage: Damage) {
        self.begin_unit();
    }
}

impl<'s, 'o, 'q, M: Memory> LineSeeker<'s, 'o, 'q, M> {
    ghost use Rattle.std.specs.Prelude.{◌≡◌, ◌+◌, ◌<◌, ◌≤◌, ℕ, Bool, List, [], ◌∷◌, ◌++◌, Option, Some, IfOk, OnErr, OnOk, length};
    ghost use Rattle.std.specs.Prelude.{slice_index_or, true, false, ◌||◌, is_err};
    ghost use Rattle.std.specs.Option.{option_copied};
    ghost use Rattle.dl_memory.specs.Refusals.{IsRefused};
    ghost use Rattle.dl_rows.specs.declared.row.Row.{Row};
    ghost use Rattle.dl_look.specs.FinderRows.{unended};
    ghost use Rattle.dl_look.specs.LiveRows.{live_rows, Tells};
    ghost use Rattle.dl_addr.specs.Code.{is_code};
    ghost use Rattle.dl_lines.specs.declared.question.Wanted.{Wanted};
    ghost use Rattle.dl_lines.specs.declared.search.Search.{Search};
    ghost use Rattle.dl_lines.specs.Kept.{is_exact};
    ghost use Rattle.dl_lines.specs.Runs.{TellsFirst};
    ghost use Rattle.dl_lines.specs.Places.{CodePlace, path_in};
    ghost use Rattle.dl_lines.specs.Room.{files_count, header_room, path_room};
    ghost use Rattle.dl_lines.specs.Searching.{AllBecome, IsBegun, IsOrdered, Judging, option_len};
    ghost use Rattle.dl_lines.specs.Seeking.{IsMadeFor, TakesRow, known_of};
    ghost use Rattle.std.specs.Prelude.{◌*◌, None, option_map};
    ghost use Rattle.dl_path.specs.Paths.{compiled_in, path_of};
    ghost use Rattle.dl_print.specs.ValueText.{strings_of};

    /// A seeker for what is wanted.
    pub fn build(
        memory: &'q M,
        strings: &'s StringSections<'o>,
        code: Option<&'q CodeRanges>,
        directories: CompilationDirectories<'q>,
        wanted: &'q [Wanted<'q>],
        lines: Lines,
    ) -> Result<LineSeeker<'s, 'o, 'q, M>, NoMemory>
        ensures made { IfOk result (λ l. IsMadeFor l wanted.entry.now (is_exact lines)) }
        ensures live { IfOk result (λ l. (is_live : ℕ → Bool) → Tells l.live is_live []) }
        ensures statements { IfOk result (λ l. TellsFirst l.statements []) }
        ensures refusal { IfOk result (λ l. l.is_refused ≡ false) }
        ensures strings { IfOk result (λ l. l.strings.now ≡ strings.now) }
        ensures code { IfOk result (λ l. l.code ≡ code.entry) }
        ensures directories { IfOk result (λ l. l.directories ≡ directories.entry) }
        ensures memory { IfOk result (λ l. l.memory.now ≡ memory.now) }
        ensures refused { OnErr result (IsRefused (M.refuses memory.now) (length wanted.entry.now)) }
    {
        let searches = searches_for(memory, wanted, lines)?;
        Ok(LineSeeker {
            memory,
            strings,
            code,
            directories,
            live: LiveRows::new(),
            statements: FirstStatements::new(),
            searches,
            is_refused: false,
        })
    }

    /// A unit begins, or the current one is damaged.
    fn begin_unit(&mut self)
        ensures searches { AllBecome IsBegun self.old.searches.items self.new.searches.items }
        ensures live { (is_live : ℕ → Bool) → Tells self.new.live is_live [] }
        ensures statements { TellsFirst self.new.statements [] }
        ensures same { self.new ≡ record self.old {
          searches = self.new.searches;
          live = self.new.live;
          statements = self.new.statements;
        } }
    {
        begin_each(&mut self.searches);
        self.live = LiveRows::new();
        self.statements = FirstStatements::new();
    }

    /// Tells the searches of the files of a unit's table, by their numbers from 0 on.
    fn judge_files(&mut self, offset: u64, header: &Header) -> Result<(), NoMemory>
        ensures judged { OnOk result ((wanted : List Wanted) (exact : Bool) (ended : List CodePlace) (rows files : ℕ)
            → Judging self.old.searches.items wanted exact ended (path_in (known_of self.old) offset (Some header.now)) rows files 0
            → Judging self.new.searches.items wanted exact ended (path_in (known_of self.old) offset (Some header.now)) rows files
            (files_count header.now)) }
        ensures same { self.new ≡ record self.old { searches = self.new.searches } }
        ensures refused { OnErr result ((wanted : List Wanted) (exact : Bool) (ended : List CodePlace) (rows files : ℕ)
            → Judging self.old.searches.items wanted exact ended (path_in (known_of self.old) offset (Some header.now)) rows files 0
            → IsRefused (M.refuses self.old.memory.now) (files + header_room (known_of self.old) offset header.now)) }
    {
        let directory = beside_table(has_directory_0(Some(header)), self.directories.of(offset));
        let first = header.first_number();
        self.judge_none(first)?;
        let len = header.files().len();
        let mut entry = 0;
        while entry < len {
            self.judge_file(header, directory, first + entry as u64)?;
            entry += 1;
        }
        Ok(())
    }

    /// Tells the searches of the file of this number, whose path is under this directory.
    fn judge_file(
        &mut self,
        header: &Header,
        directory: Option<&[u8]>,
        file: u64,
    ) -> Result<(), NoMemory>
        ensures judged { OnOk result ((wanted : List Wanted) (exact : Bool) (ended : List CodePlace) (paths : ℕ → Option (List ℕ))
            (rows files : ℕ) → paths file ≡ option_map (compiled_in (option_copied directory.entry))
            (path_of (strings_of self.old.strings.now) (Some header.now) file)
            → Judging self.old.searches.items wanted exact ended paths rows files file
            → Judging self.new.searches.items wanted exact ended paths rows files (file + 1)) }
        ensures same { self.new ≡ record self.old { searches = self.new.searches } }
        ensures refused { OnErr result ((wanted : List Wanted) (exact : Bool) (ended : List CodePlace) (paths : ℕ → Option (List ℕ))
            (rows files : ℕ) → Judging self.old.searches.items wanted exact ended paths rows files file
            → IsRefused (M.refuses self.old.memory.now) (files + 2 * file
            + path_room (strings_of self.old.strings.now) (option_copied directory.entry) header.now + 1)) }
    {
        let path = path_bytes(self.memory, self.strings, header, directory, file)?;
        self.judge(slice_of(&path))
    }

    /// Tells the searches that there is no file of the numbers before the first one.
    fn judge_none(&mut self, first: u64) -> Result<(), NoMemory>
        requires { first ≤ 1 }
        ensures judged { OnOk result ((wanted : List Wanted) (exact : Bool) (ended : List CodePlace) (path : ℕ → Option (List ℕ))
            (rows files : ℕ) → ((file : ℕ) → file < first → path file ≡ None)
            → Judging self.old.searches.items wanted exact ended path rows files 0
            → Judging self.new.searches.items wanted exact ended path rows files first) }
        ensures same { self.new ≡ record self.old { searches = self.new.searches } }
        ensures refused { OnErr result ((wanted : List Wanted) (exact : Bool) (ended : List CodePlace) (path : ℕ → Option (List ℕ))
            (rows files : ℕ) → Judging self.old.searches.items wanted exact ended path rows files 0
            → IsRefused (M.refuses self.old.memory.now) (files + 1)) }
    {
        if first == 0 {
            return Ok(());
        }
        self.judge(None)
    }

    /// Tells the searches of the next file of a unit's table, which has this path, as far as it is known.
    fn judge(&mut self, path: Option<&[u8]>) -> Result<(), NoMemory>
        ensures judged { OnOk result ((wanted : List Wanted) (exact : Bool) (ended : List CodePlace) (paths : ℕ → Option (List ℕ))
            (rows files count : ℕ) → paths count ≡ option_copied path.entry
            → Judging self.old.searches.items wanted exact ended paths rows files count
            → Judging self.new.searches.items wanted exact ended paths rows files (count + 1)) }
        ensures same { self.new ≡ record self.old { searches = self.new.searches } }
        ensures refused { OnErr result ((wanted : List Wanted) (exact : Bool) (ended : List CodePlace) (paths : ℕ → Option (List ℕ))
            (rows files count : ℕ) → Judging self.old.searches.items wanted exact ended paths rows files count
            → IsRefused (M.refuses self.old.memory.now) (files + 2 * count + option_len (option_copied path.entry) + 1)) }
    {
        judge_each(self.memory, &mut self.searches, path)
    }

    /// Keeps that memory was refused.
    fn note(&mut self, told: Result<(), NoMemory>)
        ensures { self.new ≡ record self.old { is_refused = self.old.is_refused || is_err told } }
    {
        if told.is_err() {
            self.is_refused = true;
        }
    }

    /// Whether the next row is a place.
    #[inline(always)]
    fn takes(&mut self, row: &Row) -> bool
        ensures told { (rows : List Row) → Tells self.old.live (known_of self.old).live rows
            → TellsFirst self.old.statements (live_rows (known_of self.old).live rows)
            → TakesRow self.old self.new rows row.now result }
        ensures same { self.new ≡ record self.old { live = self.new.live; statements = self.new.statements } }
    {
        let is_live = self.begins_live(row.address);
        if !self.live.takes(row, is_live) {
            return false;
        }
        self.statements.takes(row)
    }

    /// Whether a sequence that begins at this address is live. Only where one begins it is looked up.
    #[inline(always)]
    fn begins_live(&self, address: u64) -> bool
        ensures { (live : ℕ → Bool) (rows : List Row) → Tells self.now.live live rows → unended rows ≡ []
            → result ≡ is_code (option_copied self.now.code) address }
    {
        if self.live.begins() {
            is_code(self.code, address)
        } else {
            false
        }
    }

    /// Puts the places of each search in order, where memory was never refused.
    pub fn order(&mut self) -> Result<(), NoMemory>
        ensures ordered { OnOk result ((self.old.is_refused ≡ false)
            × AllBecome IsOrdered self.old.searches.items self.new.searches.items) }
        ensures refused { OnErr result ((most : ℕ) → (self.old.is_refused ≡ true → IsRefused (M.refuses self.old.memory.now) most)
            → ((i : ℕ) (d : Search) → i < length self.old.searches.items → self.old.is_refused ≡ false
            → length (slice_index_or self.old.searches.items i d).kept.places.items ≤ most)
            → IsRefused (M.refuses self.old.memory.now) most) }
    {
        if self.is_refused {
            return Err(NoMemory);
        }
        order_each(self.memory, &mut self.searches)
    }

    /// The searches.
    pub fn searches(&self) -> &[Search<'q>]
        ensures { result.now ≡ self.now.searches.items }
    {
        self.searches.as_slice()
    }
}

/// The bytes of a path, where there is one.
fn slice_of(path: &Option<Vec<u8>>) -> Option<&[u8]>
    ensures { option_copied result ≡ option_map path_found path.now }
{
    match path {
        Some(path) => Some(path.as_slice()),
        None => None,
    }
}
