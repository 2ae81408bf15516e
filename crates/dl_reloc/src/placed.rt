//! Places that relocations change.

/// A place that a relocation changes, and where its symbol is.
#[derive(Clone, Copy, Debug, PartialEq, Eq)]
pub struct Placed {
    /// The place, in bytes from the section's first (r_offset).
    pub offset: u64,
    /// The number of the section that the symbol is defined in (st_shndx); 0 where that is no section.
    pub section: u64,
}
