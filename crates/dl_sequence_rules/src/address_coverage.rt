//! Which sequence is the first that covers an address. Section 6.2.2.

ghost use Rattle.std.specs.Prelude.{◌≡◌, ◌*◌, ◌+◌, length, IfOk, OnErr};
ghost use Rattle.dl_memory.specs.Refusals.{IsRefused};
ghost use Rattle.dl_sequence_rules.specs.Cutting.{DoRise, address_spans_of};
ghost use Rattle.dl_look.specs.Cuts.{AreCuts};

use crate::cut_search::{any_touches, cuts_before, cuts_upto};
use crate::ended::Ended;
use crate::spans::address_spans_of;
use crate::touching::end_of;
use dl_look::{AddressRange, Cut, Place, cuts_of};
use dl_memory::{Memory, NoMemory};

/// From which places on which of some sequences is the first that covers, of those alone that cover an address.
#[derive(Drop)]
pub struct AddressCoverage {
    cuts: Vec<Cut>,
    ghost rise: { DoRise cuts.items },
}

impl AddressCoverage {
    ghost use Rattle.std.specs.Prelude.{◌≡◌, ◌*◌, ◌+◌, length, IfOk, OnErr};
    ghost use Rattle.std.specs.List.{list_any};
    ghost use Rattle.dl_memory.specs.Refusals.{IsRefused};
    ghost use Rattle.dl_sequence_rules.specs.Covering.{touches};
    ghost use Rattle.dl_sequence_rules.specs.Keeping.{IsAddressCoverage};

    /// Of the sequences, in the order of the section.
    pub fn of<M: Memory>(memory: &M, sequences: &[Ended]) -> Result<AddressCoverage, NoMemory>
        ensures of { IfOk result (λ c. IsAddressCoverage c sequences.now) }
        ensures refused { OnErr result (IsRefused (M.refuses memory.now) (2 * length sequences.now + 1)) }
    {
        let cuts = address_cuts(memory, sequences)?;
        Ok(AddressCoverage { cuts })
    }

    /// Whether one of the sequences covers an address of a range.
    pub(crate) fn has_touching(&self, sequences: &[Ended], range: AddressRange) -> bool
        ensures { IsAddressCoverage self.now sequences.now → result ≡ list_any (touches range) sequences.now }
    {
        let cuts = self.cuts.as_slice();
        let start = Place {
            address: range.start,
            op_index: 0,
        };
        let low = cuts_upto(cuts, start).saturating_sub(1);
        let high = cuts_before(cuts, end_of(range));
        any_touches(cuts, sequences, range, low, high)
    }
}

/// The cuts of those that cover an address.
fn address_cuts<M: Memory>(memory: &M, sequences: &[Ended]) -> Result<Vec<Cut>, NoMemory>
    ensures cuts { IfOk result (λ cuts. AreCuts (address_spans_of sequences.now) cuts.items) }
    ensures refused { OnErr result (IsRefused (M.refuses memory.now) (2 * length sequences.now + 1)) }
{
    let spans = address_spans_of(memory, sequences)?;
    cuts_of(memory, spans.as_slice())
}
