//! How many findings several files have.

use dl_linting::{FindingCounts, RULES};
use dl_open::ShownBytes;
use std::io::Write;

/// How many rules there are.
const COUNT: usize = RULES.len();

/// How many findings of each rule several files have.
#[derive(Clone, Copy)]
pub struct FindingSums {
    /// Those of the rule of each place; 2^64 - 1 stands for every number above it too.
    of: [u64; COUNT],
}

impl FindingSums {
    /// Of no file.
    pub fn none() -> FindingSums {
        FindingSums { of: [0; COUNT] }
    }

    /// One file more, which has so many findings.
    pub fn add(&mut self, counts: &FindingCounts) {
        for rule in &RULES {
            let place = rule.place();
            self.of[place] = self.of[place].saturating_add(counts.of(*rule));
        }
    }

    /// Whether there is a finding of some rule.
    fn has_any(&self) -> bool {
        self.of.iter().any(|sum| *sum != 0)
    }

    /// Says how many findings of each rule there are, of rules that have some, in one line, as `write_counts` does of one file.
    pub fn tell(&self, rt: &HostRuntime) {
        if !self.has_any() {
            return;
        }
        let mut errors = rt.stderr();
        let _ = write!(errors, "findings:");
        for rule in &RULES {
            let sum = self.of[rule.place()];
            if sum != 0 {
                let _ = write!(errors, " {}={sum}", ShownBytes(rule.name()));
            }
        }
        let _ = writeln!(errors);
    }
}
