//! How many findings there are of each rule.

use crate::rule::{COUNT, Rule};

/// How many findings there are of each rule.
#[derive(Clone, Copy)]
pub struct FindingCounts {
    /// Those of the rule of each place; 2^64 - 1 stands for every number above it too.
    of: [u64; COUNT],
}

impl FindingCounts {
    ghost use Rattle.std.specs.Prelude.{◌≡◌, ◌++◌, ◌∷◌, [], List};
    ghost use Rattle.dl_findings.specs.Counting.{Counts, count_of};
    ghost use Rattle.dl_findings.specs.declared.finding.Finding.{Finding};

    /// No finding.
    pub fn none() -> FindingCounts
        ensures { Counts result [] }
    {
        FindingCounts { of: [0; COUNT] }
    }

    /// One finding more.
    pub fn add(&mut self, finding: &crate::finding::Finding)
        ensures { (findings : List Finding) → Counts self.old findings → Counts self.new (findings ++ finding.now ∷ []) }
    {
        let place = finding.found.rule().place();
        self.of[place] = self.of[place].saturating_add(1);
    }

    /// How many findings of this rule there are; 2^64 - 1 stands for every number above it too.
    pub fn of(&self, rule: Rule) -> u64
        ensures { result ≡ count_of self.now rule }
    {
        self.of[rule.place()]
    }
}
