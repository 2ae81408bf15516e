//! What commands answer that count nothing, as those answer that count.
ghost use Rattle.std.specs.Prelude.{◌≡◌};
ghost use Rattle.dl_program.specs.Answers.{all_whole, answered, answered_around, summed, summed_around, unit_shown, unless_damaged};

use dl_addr::{FoundAround, WhichFound};
use dl_dump::UnitAt;
use dl_sections::{DamagedUnits, RunFault, Summary, Survey};
use dl_sources::{SourcesAround, Sums};

/// What commands count that count nothing.
pub const NOTHING: Summary = Summary {
    units: 0,
    skipped: 0,
    sequences: 0,
    rows: 0,
};

/// What `addr` or `lines` answered, as the other commands answer.
pub fn answered(found: Result<WhichFound, RunFault>) -> Result<Summary, RunFault>
    ensures { result ≡ answered found }
{
    match found {
        Ok(WhichFound::All) => Ok(NOTHING),
        Ok(WhichFound::NotAll) => Err(RunFault::NotFound),
        Err(fault) => Err(fault),
    }
}

/// How many units are damaged where there are some, else this.
fn unless_damaged(
    damaged: Option<DamagedUnits>,
    answer: Result<Survey, RunFault>,
) -> Result<Survey, RunFault>
    ensures { result ≡ unless_damaged damaged answer }
{
    match damaged {
        Some(units) => Ok(Survey {
            summary: NOTHING,
            damaged: Some(units),
        }),
        None => answer,
    }
}

/// What `addr_around` or `lines_around` answered, as the other commands answer. Where a unit is damaged it isn't said
/// whether all have an answer.
pub fn answered_around(found: Result<FoundAround, RunFault>) -> Result<Survey, RunFault>
    ensures { result ≡ answered_around found }
{
    let FoundAround { found, damaged } = found?;
    unless_damaged(damaged, all_whole(answered(Ok(found))))
}

/// What `dump_unit` answered, as the other commands answer.
pub fn unit_shown(unit: Result<UnitAt, RunFault>) -> Result<Summary, RunFault>
    ensures { result ≡ unit_shown unit }
{
    match unit {
        Ok(UnitAt::Whole) => Ok(NOTHING),
        Ok(UnitAt::NoUnit) => Err(RunFault::NoUnit),
        Err(fault) => Err(fault),
    }
}

/// What `sources` answered, as the other commands answer.
pub fn summed(sums: Result<Sums, RunFault>) -> Result<Summary, RunFault>
    ensures { result ≡ summed sums }
{
    match sums {
        Ok(Sums::Agree) => Ok(NOTHING),
        Ok(Sums::Differ) => Err(RunFault::TwoSums),
        Err(fault) => Err(fault),
    }
}

/// What `sources_around` answered, as the other commands answer. Where a unit is damaged it isn't said whether some path has
/// two sums.
pub fn summed_around(around: Result<SourcesAround, RunFault>) -> Result<Survey, RunFault>
    ensures { result ≡ summed_around around }
{
    let SourcesAround { sums, damaged } = around?;
    unless_damaged(damaged, all_whole(summed(Ok(sums))))
}

/// What a command answered that ends at the first damaged unit, as those answer that go on.
pub fn all_whole(answer: Result<Summary, RunFault>) -> Result<Survey, RunFault>
    ensures { result ≡ all_whole answer }
{
    match answer {
        Ok(summary) => Ok(Survey {
            summary,
            damaged: None,
        }),
        Err(fault) => Err(fault),
    }
}
