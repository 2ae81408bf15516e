//! What the bytes of a file's line table don't say of its units.

ghost use Rattle.std.specs.Prelude.{◌≡◌};
ghost use Rattle.dl_open.specs.Tables.{address_size, class_dialect};

use dl_elf::Class;
use dl_head::{AddressSize, Dialect, Older};
use dl_num::Order;

/// Which units of a file are read beside those of version 5. The headers of versions 2 to 4 don't say the size of an
/// address.
#[derive(Clone, Copy, Debug, PartialEq, Eq)]
pub enum FileUnits {
    /// Those of versions 2 to 4, whose addresses have the size of the file's class.
    ByClass,
    /// Those of versions 2 to 4, whose addresses have this size.
    Sized(AddressSize),
    /// None.
    Version5,
}

/// The size of an address in a file of this class.
fn class_size(class: Class) -> AddressSize
    ensures { result ≡ address_size class }
{
    match class {
        Class::Bits32 => AddressSize::Four,
        Class::Bits64 => AddressSize::Eight,
    }
}

/// What the bytes of the units of a file don't say of them, by the file's order and class, and by which units are read.
pub fn file_dialect(order: Order, class: Class, units: FileUnits) -> Dialect
    ensures { result ≡ class_dialect units order class }
{
    let older = match units {
        FileUnits::ByClass => Older::Read(class_size(class)),
        FileUnits::Sized(size) => Older::Read(size),
        FileUnits::Version5 => Older::Foreign,
    };
    Dialect { order, older }
}
