//! Whether a sequence covers an address of a range. Section 6.2.2.

ghost use Rattle.std.specs.Prelude.{◌≡◌, ◌+◌};
ghost use Rattle.dl_sequence_rules.specs.Covering.{first_address, touches};
ghost use Rattle.dl_sequence_rules.specs.Cutting.{has_address, owner_touches};

use crate::ended::Ended;
use dl_look::{AddressRange, Place};

/// The first address whose place isn't below this one; 2^64 where there is none.
fn first_address(place: Place) -> u128
    ensures { result ≡ first_address place }
{
    let address = u128::from(place.address);
    if place.op_index == 0 {
        address
    } else {
        address + 1
    }
}

/// After the last address of a range; its end isn't reckoned modulo 2^64.
pub(crate) fn end_of(range: AddressRange) -> u128
    ensures { result ≡ range.start + range.size }
{
    u128::from(range.start) + u128::from(range.size)
}

/// Whether the sequence covers an address.
pub(crate) fn has_address(sequence: &Ended) -> bool
    ensures { result ≡ has_address sequence.now }
{
    first_address(sequence.first) < first_address(sequence.row.place)
}

/// Whether the sequence covers an address of the range.
pub(crate) fn touches(range: AddressRange, sequence: &Ended) -> bool
    ensures { result ≡ touches range sequence.now }
{
    let first = first_address(sequence.first).max(u128::from(range.start));
    let end = first_address(sequence.row.place).min(end_of(range));
    first < end
}

/// Whether the sequence of this number does, where there is one.
pub(crate) fn owner_touches(sequences: &[Ended], range: AddressRange, owner: Option<usize>) -> bool
    ensures { result ≡ owner_touches sequences.now range owner }
{
    match owner {
        Some(number) => match sequences.get(number) {
            Some(sequence) => touches(range, sequence),
            None => false,
        },
        None => false,
    }
}
