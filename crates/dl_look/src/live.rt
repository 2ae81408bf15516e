//! Which rows are of live sequences. Section 6.2.2.

use dl_rows::Row;

/// Tells the rows of live sequences, of rows that come one after the other: a sequence whose first row's
/// address is that of no code is dead, as linkers leave those of functions that they drop.
///
/// Where `begins` says so, the next row's address is looked up among those of code. Each row goes to
/// `takes`, and those that it says are live go on to `Finder::row` or `Finders::row`.
#[derive(Clone, Copy)]
pub struct LiveRows {
    at: At,
}

/// Where the rows are.
#[derive(Clone, Copy)]
enum At {
    /// The next row is the first of a sequence.
    Between,
    /// The current sequence is live.
    Live,
    /// The current sequence is dead.
    Dead,
}

impl LiveRows {
    ghost use Rattle.std.specs.Prelude.{◌≡◌, ◌↔◌, ℕ, Bool, if◌then◌else◌, IsTrue, List, [], ◌∷◌, ◌++◌};
    ghost use Rattle.dl_rows.specs.declared.row.Row.{Row};
    ghost use Rattle.dl_look.specs.FinderRows.{unended};
    ghost use Rattle.dl_look.specs.LiveRows.{live_rows, Tells};

    /// No row yet, as at the start of each unit.
    pub fn new() -> LiveRows
        ensures { (live : ℕ → Bool) → Tells result live [] }
    {
        LiveRows { at: At::Between }
    }

    /// Whether the next row is the first of a sequence.
    #[inline(always)]
    pub fn begins(&self) -> bool
        ensures { (live : ℕ → Bool) (rows : List Row) → Tells self.now live rows
            → IsTrue result ↔ (unended rows ≡ []) }
    {
        match self.at {
            At::Between => true,
            At::Live => false,
            At::Dead => false,
        }
    }

    /// Takes the next row, and tells whether it is of a live sequence. `live` says so of a sequence that
    /// begins with this row, and isn't looked at for other rows.
    #[inline(always)]
    pub fn takes(&mut self, row: &Row, live: bool) -> bool
        ensures told { (is_live : ℕ → Bool) (rows : List Row) → Tells self.old is_live rows
            → (unended rows ≡ [] → live ≡ is_live row.now.address)
            → live_rows is_live (rows ++ row.now ∷ [])
            ≡ live_rows is_live rows ++ (if result then row.now ∷ [] else []) }
        ensures goes_on { (is_live : ℕ → Bool) (rows : List Row) → Tells self.old is_live rows
            → (unended rows ≡ [] → live ≡ is_live row.now.address)
            → Tells self.new is_live (rows ++ row.now ∷ []) }
    {
        let live = match self.at {
            At::Between => live,
            At::Live => true,
            At::Dead => false,
        };
        self.at = if row.end_sequence {
            At::Between
        } else if live {
            At::Live
        } else {
            At::Dead
        };
        live
    }
}
