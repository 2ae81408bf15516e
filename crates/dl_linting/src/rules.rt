//! The rules that words choose.
ghost use Rattle.std.specs.Prelude.{◌≡◌, ◌||◌, ◌&&◌, not, None, IfErr, IfOk, List, map};
ghost use Rattle.std.specs.List.{list_any};
ghost use Rattle.dl_cmd.specs.Job.{lint_words_made};
ghost use Rattle.dl_findings.specs.Chosen.{is_chosen};
ghost use Rattle.dl_findings.specs.declared.rule.Rule.{Rule};
ghost use Rattle.dl_linting.specs.RuleWords.{AreAsked, IsFirstNoRule, IsNoRule, first_no_rule, is_empty, names, no_rule_in};

use dl_cmd::LintWords;
use dl_lint::{Rule, Rules};
use dl_program::Stop;

/// These rules and those of these names.
fn with_names<'a>(rules: Rules, words: &[&'a str]) -> Result<Rules, Stop<'a>>
    ensures known { IfOk result (λ chosen. first_no_rule (map (λ s. s.now) words.now) ≡ None) }
    ensures chosen { IfOk result (λ chosen. (r : Rule) → is_chosen chosen r
        ≡ (is_chosen rules r || list_any (names r) (map (λ s. s.now) words.now))) }
    ensures stops { IfErr result (IsNoRule (map (λ s. s.now) words.now)) }
{
    let mut chosen = rules;
    for word in words {
        let Some(rule) = Rule::named(word.as_bytes()) else {
            return Err(Stop::NotRule { word: *word });
        };
        chosen = chosen.with(rule);
    }
    Ok(chosen)
}

/// These rules but those of these names.
fn without_names<'a>(rules: Rules, words: &[&'a str]) -> Result<Rules, Stop<'a>>
    ensures known { IfOk result (λ chosen. first_no_rule (map (λ s. s.now) words.now) ≡ None) }
    ensures chosen { IfOk result (λ chosen. (r : Rule) → is_chosen chosen r
        ≡ (is_chosen rules r && not (list_any (names r) (map (λ s. s.now) words.now)))) }
    ensures stops { IfErr result (IsNoRule (map (λ s. s.now) words.now)) }
{
    let mut chosen = rules;
    for word in words {
        let Some(rule) = Rule::named(word.as_bytes()) else {
            return Err(Stop::NotRule { word: *word });
        };
        chosen = chosen.without(rule);
    }
    Ok(chosen)
}

/// The rules that are chosen before any is left out.
fn first_rules(words: &[&str]) -> Rules
    ensures { (r : Rule) → is_chosen result r ≡ is_empty (map (λ s. s.now) words.now) }
{
    if words.is_empty() {
        Rules::all()
    } else {
        Rules::none()
    }
}

/// The rules whose findings are told: those that are named, or all where none is, but for those that are left out.
///
/// `NotRule` tells the first word that is the name of no rule.
pub fn asked_rules<'a>(words: &LintWords<'a>) -> Result<Rules, Stop<'a>>
    ensures known { IfOk result (λ rules. no_rule_in (lint_words_made words.now) ≡ None) }
    ensures asked { IfOk result (AreAsked (lint_words_made words.now)) }
    ensures stops { IfErr result (IsFirstNoRule (lint_words_made words.now)) }
{
    let rules = words.rules.as_slice();
    let no_rules = words.no_rules.as_slice();
    let named = with_names(first_rules(rules), rules)?;
    without_names(named, no_rules)
}
