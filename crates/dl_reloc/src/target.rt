//! What a file says of its relocations before the first of them.

use dl_num::Order;

/// How wide the file's addresses and offsets are (EI_CLASS).
#[derive(Clone, Copy, Debug, PartialEq, Eq)]
pub enum Class {
    /// ELFCLASS32
    Bits32,
    /// ELFCLASS64
    Bits64,
}

/// What the header of a file says of its relocations.
#[derive(Clone, Copy, Debug, PartialEq, Eq)]
pub struct Target {
    /// The machine, by its number: 62 is x86-64 (e_machine).
    pub machine: u64,
    /// How wide addresses and offsets are (EI_CLASS).
    pub class: Class,
    /// The order in which the bytes of numbers stand, in the section as well (EI_DATA).
    pub order: Order,
}

/// Where the addend of a relocation stands, which is added to the value of its symbol.
#[derive(Clone, Copy, Debug, PartialEq, Eq)]
pub enum AddendPlace {
    /// In its entry (SHT_RELA).
    Rela,
    /// At the place that it changes (SHT_REL).
    Rel,
}
