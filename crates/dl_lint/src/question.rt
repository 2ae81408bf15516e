//! What is asked of a section, and what is answered.

ghost use Rattle.std.specs.Prelude.{◌≡◌};
ghost use Rattle.std.specs.Option.{option_copied};
ghost use Rattle.dl_lint.specs.Sequences.{is_code};

use dl_findings::{FindingCounts, FindingForm, Rules};
use dl_look::{AddressRange, CodeRanges};
use dl_print::Summary;
use dl_sections::Survey;

/// What is asked of a section.
#[derive(Clone, Copy)]
pub struct LintQuestion<'a> {
    /// The findings of these rules are told.
    pub rules: Rules,
    /// How each finding is told.
    pub form: FindingForm,
    /// Where there is code: a sequence is live where its first address is one of these. None: each is.
    pub code: Option<&'a CodeRanges>,
    /// The ranges of code that `no-code` looks for, in the order in which it tells them.
    pub ranges: &'a [AddressRange],
}

/// Whether an address is one of code.
pub fn is_code(code: Option<&CodeRanges>, address: u64) -> bool
    ensures { result ≡ is_code (option_copied code.entry) address }
{
    match code {
        Some(ranges) => ranges.has(address),
        None => true,
    }
}

/// What a section of whole units comes to.
#[derive(Clone, Copy)]
pub struct Linted {
    pub summary: Summary,
    /// How many findings were told.
    pub counts: FindingCounts,
}

/// What a section comes to of which units may be damaged.
#[derive(Clone, Copy)]
pub struct LintedAround {
    pub survey: Survey,
    /// How many findings were told.
    pub counts: FindingCounts,
}
