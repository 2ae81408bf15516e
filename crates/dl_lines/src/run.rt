//! The runs of rows that stand one after the other with one file and one line.

use dl_rows::Row;

/// The file and the line of a run.
#[derive(Clone, Copy)]
struct Run {
    file: u64,
    line: u64,
}

/// Tells the first statement of each run of rows.
#[derive(Clone, Copy)]
pub struct FirstStatements {
    /// The current run, where one of its rows is a statement.
    found: Option<Run>,
}

impl FirstStatements {
    ghost use Rattle.std.specs.Prelude.{◌≡◌, ◌++◌, ◌∷◌, [], List};
    ghost use Rattle.dl_rows.specs.declared.row.Row.{Row};
    ghost use Rattle.dl_lines.specs.Places.{is_place};
    ghost use Rattle.dl_lines.specs.Runs.{TellsFirst, found_at};

    /// No row yet, as at the start of each unit.
    pub fn new() -> FirstStatements
        ensures { TellsFirst result [] }
    {
        FirstStatements { found: None }
    }

    /// Takes the next row of live sequences, and tells whether it is the first statement of its run.
    #[inline(always)]
    pub fn takes(&mut self, row: &Row) -> bool
        ensures told { (rows : List Row) → TellsFirst self.old rows → result ≡ is_place rows row.now }
        ensures goes_on { (rows : List Row) → TellsFirst self.old rows → TellsFirst self.new (rows ++ row.now ∷ []) }
    {
        let goes_on = self.has_found(row.file, row.line);
        if row.end_sequence {
            self.found = None;
            return false;
        }
        if !row.is_stmt {
            if !goes_on {
                self.found = None;
            }
            return false;
        }
        self.found = Some(Run {
            file: row.file,
            line: row.line,
        });
        !goes_on
    }

    /// Whether the current run is that of this file and line, and has a statement.
    #[inline(always)]
    fn has_found(&self, file: u64, line: u64) -> bool
        ensures { result ≡ found_at self.now file line }
    {
        match self.found {
            Some(run) => run.file == file && run.line == line,
            None => false,
        }
    }
}
