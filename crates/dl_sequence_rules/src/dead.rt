//! The sequences of a unit that begin outside the code. Section 6.2.2.

use dl_findings::{Finding, Found};

/// How many sequences of a unit aren't live, and the first address of the first of them.
#[derive(Clone, Copy)]
pub struct DeadSequences {
    /// 2^64 - 1 stands for every number above it too.
    sequences: u64,
    /// 0 where there are none.
    first: u64,
}

impl DeadSequences {
    ghost use Rattle.std.specs.Prelude.{◌≡◌, ◌++◌, ◌∷◌, [], ℕ, List, option_to_list};
    ghost use Rattle.dl_sequence_rules.specs.Dead.{dead_found};
    ghost use Rattle.dl_sequence_rules.specs.Keeping.{AreDead};

    /// No sequence.
    pub fn none() -> DeadSequences
        ensures { AreDead result [] }
    {
        DeadSequences {
            sequences: 0,
            first: 0,
        }
    }

    /// One more sequence that isn't live, by the address of its first row.
    pub fn add(&mut self, first: u64)
        ensures { (firsts : List ℕ) → AreDead self.old firsts → AreDead self.new (firsts ++ first ∷ []) }
    {
        self.first = if self.sequences == 0 {
            first
        } else {
            self.first
        };
        self.sequences = self.sequences.saturating_add(1);
    }

    /// `dead-sequence`, of the unit at this offset. Section 6.2.2.
    pub fn found(&self, unit: u64) -> Option<Finding>
        ensures { (firsts : List ℕ) → AreDead self.now firsts → option_to_list result ≡ dead_found unit firsts }
    {
        if self.sequences == 0 {
            return None;
        }
        Some(Finding {
            offset: unit,
            row: None,
            found: Found::DeadSequence {
                sequences: self.sequences,
                first: self.first,
            },
        })
    }
}
