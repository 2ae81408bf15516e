//! What `no-code` finds of a range of code. Section 6.2.2.

ghost use Rattle.std.specs.Prelude.{◌≡◌, IfSome, option_to_list};
ghost use Rattle.std.specs.List.{list_any};
ghost use Rattle.dl_sequence_rules.specs.Covering.{touches};
ghost use Rattle.dl_sequence_rules.specs.Keeping.{IsAddressCoverage};
ghost use Rattle.dl_sequence_rules.specs.NoCode.{no_code_found};

use crate::address_coverage::AddressCoverage;
use crate::ended::Ended;
use crate::touching::touches;
use dl_findings::{Finding, Found};
use dl_look::AddressRange;

/// Whether one of the sequences, of which this is a coverage, covers an address of a range.
fn any_touching(
    coverage: &Option<AddressCoverage>,
    sequences: &[Ended],
    range: AddressRange,
) -> bool
    ensures { IfSome coverage.now (λ c. IsAddressCoverage c sequences.now) → result ≡ list_any (touches range) sequences.now }
{
    match coverage {
        Some(coverage) => coverage.has_touching(sequences, range),
        None => has_touching(sequences, range),
    }
}

/// Whether one of the sequences covers an address of a range.
fn has_touching(sequences: &[Ended], range: AddressRange) -> bool
    ensures { result ≡ list_any (λ s. touches range s) sequences.now }
{
    sequences.iter().any(|sequence| touches(range, sequence))
}

/// `no-code`, of this range of code, told at this offset. Section 6.2.2.
///
/// With a coverage of the sequences it takes time in proportion to the logarithm of their number, and without one to their number.
pub fn no_code(
    coverage: &Option<AddressCoverage>,
    sequences: &[Ended],
    range: AddressRange,
    offset: u64,
) -> Option<Finding>
    ensures { IfSome coverage.now (λ c. IsAddressCoverage c sequences.now)
        → option_to_list result ≡ no_code_found offset sequences.now range }
{
    if range.size == 0 {
        return None;
    }
    if any_touching(coverage, sequences, range) {
        return None;
    }
    Some(Finding {
        offset,
        row: None,
        found: Found::NoCode {
            start: range.start,
            size: range.size,
        },
    })
}
