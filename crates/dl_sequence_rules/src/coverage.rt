//! Which sequence is the first that covers a place, and what `overlap` finds by it. Sections 6.2.2 and 6.2.5.3.

ghost use Rattle.std.specs.Prelude.{◌≡◌, ◌*◌, ◌+◌, length, IfOk, OnErr};
ghost use Rattle.dl_memory.specs.Refusals.{IsRefused};
ghost use Rattle.dl_sequence_rules.specs.Cutting.{DoRise, spans_of};
ghost use Rattle.dl_look.specs.Cuts.{AreCuts};
ghost use Rattle.dl_sequence_rules.specs.Overlaps.{overlap_of};

use crate::cut_search::{cuts_below, first_other};
use crate::ended::Ended;
use crate::spans::spans_of;
use dl_findings::{Finding, Found};
use dl_look::{Cut, Place, cuts_of};
use dl_memory::{Memory, NoMemory};

/// From which places on which of some sequences is the first that covers.
#[derive(Drop)]
pub struct Coverage {
    cuts: Vec<Cut>,
    ghost rise: { DoRise cuts.items },
}

impl Coverage {
    ghost use Rattle.std.specs.Prelude.{◌≡◌, ◌*◌, ◌+◌, length, IfOk, OnErr, option_to_list};
    ghost use Rattle.dl_memory.specs.Refusals.{IsRefused};
    ghost use Rattle.dl_sequence_rules.specs.Keeping.{IsCoverage};
    ghost use Rattle.dl_sequence_rules.specs.Overlaps.{overlap_at};

    /// Of the sequences, in the order of the section.
    pub fn of<M: Memory>(memory: &M, sequences: &[Ended]) -> Result<Coverage, NoMemory>
        ensures of { IfOk result (λ c. IsCoverage c sequences.now) }
        ensures refused { OnErr result (IsRefused (M.refuses memory.now) (2 * length sequences.now + 1)) }
    {
        let cuts = all_cuts(memory, sequences)?;
        Ok(Coverage { cuts })
    }

    /// `overlap`, of the sequence at this place of the list, from 0 on; None past the last one. Section 6.2.5.3.
    ///
    /// The calls for all sequences of a list together take time in proportion to n log n.
    pub fn overlap(&self, sequences: &[Ended], at: usize) -> Option<Finding>
        ensures { IsCoverage self.now sequences.now → option_to_list result ≡ overlap_at sequences.now at }
    {
        let sequence = *sequences.get(at)?;
        let cuts = self.cuts.as_slice();
        let low = cuts_below(cuts, sequence.first);
        let high = cuts_below(cuts, sequence.row.place);
        let shared = first_other(cuts, low, high, at)?;
        let other = sequences.get(shared.other)?;
        Some(overlap_of(&sequence, shared.place, other))
    }
}

/// The cuts of these sequences.
fn all_cuts<M: Memory>(memory: &M, sequences: &[Ended]) -> Result<Vec<Cut>, NoMemory>
    ensures cuts { IfOk result (λ cuts. AreCuts (spans_of sequences.now) cuts.items) }
    ensures refused { OnErr result (IsRefused (M.refuses memory.now) (2 * length sequences.now + 1)) }
{
    let spans = spans_of(memory, sequences)?;
    cuts_of(memory, spans.as_slice())
}

/// The sequence covers the place, and so does the other one.
fn overlap_of(sequence: &Ended, place: Place, other: &Ended) -> Finding
    ensures { result ≡ overlap_of sequence.now place other.now }
{
    Finding {
        offset: sequence.offset,
        row: Some(sequence.row),
        found: Found::Overlap {
            place,
            unit: other.unit,
        },
    }
}
