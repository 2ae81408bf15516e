//! The search for the places of one line.

use crate::best::{Best, KeptPlace};
use crate::full_path::matches;
use crate::ordering::order;
use crate::question::Wanted;
use dl_memory::{Memory, NoMemory};
use dl_rows::Row;

/// Which lines may answer.
#[derive(Clone, Copy)]
pub enum Lines {
    /// The one that is wanted alone.
    Exact,
    /// It, or the least above it that has a place.
    LeastAbove,
}

/// What is known of a file of the current unit.
#[derive(Clone, Copy)]
pub enum FileMatch {
    /// It isn't wanted.
    Other,
    /// It is, and its path has this number.
    Path(usize),
}

/// Looks for the places that answer for a line.
#[derive(Drop)]
pub struct Search<'q> {
    pub wanted: Wanted<'q>,
    pub lines: Lines,
    /// The files of the current unit, by their numbers.
    pub files: Vec<FileMatch>,
    /// The paths of the wanted files: of units that have ended and whose places were kept, and of the current unit.
    pub paths: Vec<Vec<u8>>,
    /// How many of them are those of units that have ended.
    pub paths_kept: usize,
    /// The places of the units that have ended.
    pub kept: Best,
    /// Those of the current unit.
    pub unit: Best,
}

impl<'q> Search<'q> {
    ghost use Rattle.std.specs.Prelude.{◌≡◌, ◌+◌, ◌≤◌, ◌++◌, ◌∷◌, [], ℕ, List, length, IfOk, OnErr, OnOk};
    ghost use Rattle.std.specs.Option.{option_copied};
    ghost use Rattle.dl_memory.specs.Refusals.{IsRefused};
    ghost use Rattle.dl_lines.specs.Answers.{is_line};
    ghost use Rattle.dl_lines.specs.Kept.{is_exact};
    ghost use Rattle.dl_lines.specs.declared.search.FileMatch.TheVariants as matches_file;
    ghost use Rattle.std.specs.Prelude.{if◌then◌else◌, option_to_list};
    ghost use Rattle.dl_lines.specs.Searching.{is_wanted, texts_of};
    ghost use Rattle.dl_lines.specs.Searching.{IsAdded, IsBegun, IsEnded, IsJudged, IsNew, IsOrdered, file_at, option_len};

    /// No unit was told yet.
    pub fn new<M: Memory>(memory: &M, wanted: Wanted<'q>, lines: Lines) -> Search<'q>
        ensures { IsNew result wanted.entry (is_exact lines) }
    {
        Search {
            wanted,
            lines,
            files: Vec::new(memory.alloc()),
            paths: Vec::new(memory.alloc()),
            paths_kept: 0,
            kept: Best::new(memory),
            unit: Best::new(memory),
        }
    }

    /// A unit begins, of which no file was told yet.
    pub fn begin(&mut self)
        ensures { IsBegun self.old self.new }
    {
        self.files.clear();
        self.unit.places.clear();
        self.paths.truncate(self.paths_kept);
    }

    /// The next file of the unit's table has this path, as far as it is known.
    pub fn judge<M: Memory>(&mut self, memory: &M, path: Option<&[u8]>) -> Result<(), NoMemory>
        ensures judged { OnOk result (IsJudged self.old self.new (option_copied path.entry)) }
        ensures refused { OnErr result (IsRefused (M.refuses memory.now) (length self.old.paths.items
            + length self.old.files.items + option_len (option_copied path.entry) + 1)) }
    {
        let file = self.file_of(memory, path)?;
        memory.push(&mut self.files, file)
    }

    /// What is known of a file with this path, which is kept where the file is wanted.
    fn file_of<M: Memory>(&mut self, memory: &M, path: Option<&[u8]>) -> Result<FileMatch, NoMemory>
        ensures file { IfOk result (λ f. f ≡ (if is_wanted self.old.wanted (option_copied path.entry)
            then matches_file.Path (length self.old.paths.items) else matches_file.Other)) }
        ensures paths { OnOk result (texts_of self.new.paths ≡ texts_of self.old.paths
            ++ (if is_wanted self.old.wanted (option_copied path.entry) then option_to_list (option_copied path.entry) else [])) }
        ensures same { self.new ≡ record self.old { paths = self.new.paths } }
        ensures refused { OnErr result (IsRefused (M.refuses memory.now)
            (length self.old.paths.items + option_len (option_copied path.entry) + 1)) }
    {
        let Some(path) = path else {
            return Ok(FileMatch::Other);
        };
        if !matches(self.wanted.path, path) {
            return Ok(FileMatch::Other);
        }
        self.keep_path(memory, path)
    }

    /// Keeps a path.
    fn keep_path<M: Memory>(&mut self, memory: &M, path: &[u8]) -> Result<FileMatch, NoMemory>
        ensures file { IfOk result (λ f. f ≡ matches_file.Path (length self.old.paths.items)) }
        ensures paths { OnOk result (texts_of self.new.paths ≡ texts_of self.old.paths ++ path.now ∷ []) }
        ensures same { self.new ≡ record self.old { paths = self.new.paths } }
        ensures refused { OnErr result (IsRefused (M.refuses memory.now)
            (length self.old.paths.items + length path.now + 1)) }
    {
        let mut copy = memory.with_capacity(path.len())?;
        memory.extend_from_slice(&mut copy, path)?;
        let number = self.paths.len();
        memory.push(&mut self.paths, copy)?;
        Ok(FileMatch::Path(number))
    }

    /// Whether places of this line may answer.
    #[inline]
    fn takes_line(&self, line: u64) -> bool
        ensures { result ≡ is_line (is_exact self.now.lines) self.now.wanted.line line }
    {
        match self.lines {
            Lines::Exact => line == self.wanted.line,
            Lines::LeastAbove => self.wanted.line <= line,
        }
    }

    /// The current unit has a place at this row.
    pub fn add<M: Memory>(&mut self, memory: &M, row: &Row) -> Result<(), NoMemory>
        ensures added { OnOk result (IsAdded self.old self.new row.now) }
        ensures refused { OnErr result (IsRefused (M.refuses memory.now) (length self.old.unit.places.items + 1)) }
    {
        if !self.takes_line(row.line) {
            return Ok(());
        }
        let FileMatch::Path(path) = self.file(row.file) else {
            return Ok(());
        };
        let place = KeptPlace {
            address: row.address,
            column: row.column,
            prologue_end: row.prologue_end,
            path,
        };
        self.unit.add(memory, row.line, place)
    }

    /// What is known of the file of this number.
    #[inline]
    fn file(&self, number: u64) -> FileMatch
        ensures { result ≡ file_at self.now.files.items number }
    {
        match self.files.as_slice().get(number as usize) {
            Some(file) => *file,
            None => FileMatch::Other,
        }
    }

    /// The current unit has ended.
    pub fn end<M: Memory>(&mut self, memory: &M) -> Result<(), NoMemory>
        ensures ended { OnOk result (IsEnded self.old self.new) }
        ensures refused { OnErr result (IsRefused (M.refuses memory.now)
            (length self.old.kept.places.items + length self.old.unit.places.items)) }
    {
        if !self.unit.places.is_empty() {
            self.kept.add_all(memory, &self.unit)?;
            self.paths_kept = self.paths.len();
        }
        self.begin();
        Ok(())
    }

    /// All units have ended: the places are put in the order of their addresses.
    pub fn order<M: Memory>(&mut self, memory: &M) -> Result<(), NoMemory>
        ensures ordered { OnOk result (IsOrdered self.old self.new) }
        ensures refused { OnErr result (IsRefused (M.refuses memory.now) (length self.old.kept.places.items)) }
    {
        order(memory, &mut self.kept.places)
    }
}
