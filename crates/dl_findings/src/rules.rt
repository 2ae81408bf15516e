//! Which rules are chosen.

use crate::rule::{COUNT, Rule};

/// A set of rules.
#[derive(Clone, Copy)]
pub struct Rules {
    /// Whether the rule of each place is one of them.
    has: [bool; COUNT],
}

impl Rules {
    ghost use Rattle.std.specs.Prelude.{◌≡◌, true, false, if◌then◌else◌, ◌==◌};
    ghost use Rattle.dl_findings.specs.declared.rule.Rule.{Rule};
    ghost use Rattle.dl_findings.specs.Chosen.{has_bit, is_chosen};
    ghost use Rattle.dl_findings.specs.RuleNames.{rule_place};

    /// All rules.
    pub fn all() -> Rules
        ensures { (r : Rule) → is_chosen result r ≡ true }
    {
        Rules { has: [true; COUNT] }
    }

    /// No rule.
    pub fn none() -> Rules
        ensures { (r : Rule) → is_chosen result r ≡ false }
    {
        Rules {
            has: [false; COUNT],
        }
    }

    /// The rules whose bits are set. The bit of a rule is worth 2^n, n its place in `RULES`; bits that are of no rule count for nothing.
    pub fn of_bits(bits: u32) -> Rules
        ensures { (r : Rule) → is_chosen result r ≡ has_bit bits r }
    {
        let mut has = [false; COUNT];
        for place in 0..COUNT {
            has[place] = (bits >> place) & 1 == 1;
        }
        Rules { has }
    }

    /// These rules and this one.
    pub fn with(self, rule: Rule) -> Rules
        ensures { (r : Rule) → is_chosen result r ≡ (if rule_place r == rule_place rule then true else is_chosen self r) }
    {
        self.set(rule, true)
    }

    /// These rules but this one.
    pub fn without(self, rule: Rule) -> Rules
        ensures { (r : Rule) → is_chosen result r ≡ (if rule_place r == rule_place rule then false else is_chosen self r) }
    {
        self.set(rule, false)
    }

    /// These rules, with or without this one.
    fn set(self, rule: Rule, whether: bool) -> Rules
        ensures { (r : Rule) → is_chosen result r
            ≡ (if rule_place r == rule_place rule then whether else is_chosen self r) }
    {
        let mut has = self.has;
        has[rule.place()] = whether;
        Rules { has }
    }

    /// Whether this rule is one of them.
    pub fn contains(&self, rule: Rule) -> bool
        ensures { result ≡ is_chosen self.now rule }
    {
        self.has[rule.place()]
    }
}
