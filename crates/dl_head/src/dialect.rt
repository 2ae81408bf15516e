//! What the bytes of a unit don't say of it.

ghost use Rattle.std.specs.Prelude.{◌≡◌, IfSome, IsTrue};
ghost use Rattle.dl_num.specs.Fixed.{is_number_size};
ghost use Rattle.dl_head.specs.Built.{is_version};
ghost use Rattle.dl_head.specs.Dialect.{address_bytes, older_of, older_size as older_size_of, version_5 as version_5_of};

use dl_num::Order;

/// How many bytes an address has.
#[derive(Clone, Copy, Debug, PartialEq, Eq)]
pub enum AddressSize {
    One,
    Two,
    Four,
    Eight,
}

impl AddressSize {
    /// The size in bytes.
    pub fn bytes(self) -> u8
        ensures value { result ≡ address_bytes self }
        ensures fits { IsTrue (is_number_size result) }
    {
        match self {
            AddressSize::One => 1,
            AddressSize::Two => 2,
            AddressSize::Four => 4,
            AddressSize::Eight => 8,
        }
    }
}

/// Whether units of versions 2 to 4 are read. Their headers don't say the size of an address.
#[derive(Clone, Copy, Debug, PartialEq, Eq)]
pub enum Older {
    /// They are foreign, as those of other versions are.
    Foreign,
    /// They are read, with addresses of this size.
    Read(AddressSize),
}

impl Older {
    /// Units of versions 2 to 4 are read, with addresses of this size, where that is 1, 2, 4 or 8 bytes.
    pub fn of_size(bytes: u8) -> Older
        ensures { result ≡ older_of bytes }
    {
        match bytes {
            1 => Older::Read(AddressSize::One),
            2 => Older::Read(AddressSize::Two),
            4 => Older::Read(AddressSize::Four),
            8 => Older::Read(AddressSize::Eight),
            _ => Older::Foreign,
        }
    }
}

/// What the bytes of a unit don't say of it: the order of its numbers, and whether it is read where its version is
/// one from 2 to 4.
#[derive(Clone, Copy, Debug, PartialEq, Eq)]
pub struct Dialect {
    pub order: Order,
    pub older: Older,
}

impl Dialect {
    /// Units of version 5 alone, whose numbers stand in this order.
    pub fn version_5(order: Order) -> Dialect
        ensures { result ≡ version_5_of order }
    {
        Dialect {
            order,
            older: Older::Foreign,
        }
    }

    /// The size of an address in a unit of this version, where that is one from 2 to 4 and those are read.
    pub fn older_size(self, version: u16) -> Option<u8>
        ensures value { result ≡ older_size_of self version }
        ensures fits { IfSome result (λ n. IsTrue (is_number_size n)) }
        ensures version { IfSome result (λ n. IsTrue (is_version version)) }
    {
        match (self.older, version) {
            (Older::Read(size), 2 | 3 | 4) => Some(size.bytes()),
            _ => None,
        }
    }
}
