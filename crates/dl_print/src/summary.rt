//! The counts of what was read.

ghost use Rattle.std.specs.Prelude.{◌≡◌};

/// What the units that were read whole come to.
#[derive(Clone, Copy, Debug, PartialEq, Eq)]
pub struct Summary {
    /// Units of version 5.
    pub units: u64,
    /// Units of another version, which were passed over.
    pub skipped: u64,
    /// End rows.
    pub sequences: u64,
    /// Rows, end rows among them.
    pub rows: u64,
}

impl Summary {
    ghost use Rattle.dl_print.specs.Counts.{with_unit};

    /// Counts a unit with its end rows and rows.
    pub fn add_unit(&mut self, is_foreign: bool, sequences: u64, rows: u64)
        ensures { self.new ≡ with_unit is_foreign sequences rows self.old }
    {
        self.units = self.units.saturating_add(u64::from(!is_foreign));
        self.skipped = self.skipped.saturating_add(u64::from(is_foreign));
        self.sequences = self.sequences.saturating_add(sequences);
        self.rows = self.rows.saturating_add(rows);
    }
}
