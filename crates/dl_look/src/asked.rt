//! The addresses that are asked for.

use crate::place::Place;

/// The last of all places, which no sequence covers.
const LAST: Place = Place {
    address: u64::MAX,
    op_index: u8::MAX,
};

/// An address that is asked for.
#[derive(Clone, Copy, Debug, PartialEq, Eq)]
pub struct Asked {
    /// As it was given, before the base is subtracted; None for a line that is no address.
    pub address: Option<u64>,
}

impl Asked {
    ghost use Rattle.std.specs.Prelude.{◌≡◌};
    ghost use Rattle.dl_look.specs.Asked.{looked_up, place_of};

    /// The place that is looked up; None where there is no address, or it is below the base.
    pub fn place(self, base: u64) -> Option<Place>
        ensures { result ≡ place_of base self }
    {
        let address = self.address?.checked_sub(base)?;
        Some(Place {
            address,
            op_index: 0,
        })
    }

    /// The place that is looked up, or the last of all places.
    pub fn looked_up(self, base: u64) -> Place
        ensures { result ≡ looked_up base self }
    {
        match self.place(base) {
            Some(place) => place,
            None => LAST,
        }
    }
}
