//! Places of rows, and their order. Section 6.2.2.

use dl_rows::Row;

/// Where a row stands: an address, and an operation of the instruction there. Places are ordered by
/// address, then by op_index.
#[derive(Debug, Clone, Copy, PartialEq, Eq, PartialOrd, Ord)]
pub struct Place {
    /// The address of the instruction.
    pub address: u64,
    /// The operation in its instruction.
    pub op_index: u8,
}

impl Place {
    ghost use Rattle.std.specs.Prelude.{◌≡◌, ◌&&◌};
    ghost use Rattle.dl_look.specs.Answer.{place_of, is_at_most, is_below};

    /// The place of a row.
    #[inline(always)]
    pub fn of(row: &Row) -> Place
        ensures { result ≡ place_of row.now }
    {
        Place {
            address: row.address,
            op_index: row.op_index,
        }
    }

    /// Whether this place isn't above the other.
    #[inline(always)]
    pub(crate) fn is_at_most(self, other: Place) -> bool
        ensures { result ≡ is_at_most self other }
    {
        self <= other
    }

    /// Whether this place is below the other.
    #[inline(always)]
    pub(crate) fn is_below(self, other: Place) -> bool
        ensures { result ≡ is_below self other }
    {
        self < other
    }

    /// Whether this place is `first` or above it, and below `end`.
    pub(crate) fn is_within(self, first: Place, end: Place) -> bool
        ensures { result ≡ (is_at_most first self && is_below self end) }
    {
        first <= self && self < end
    }
}
