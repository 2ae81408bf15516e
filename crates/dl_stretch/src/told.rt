//! What is told of an address. Section 6.2.2.

/// What is told of an address: the place in the source that its row says.
#[derive(Debug, Clone, Copy, PartialEq, Eq)]
pub struct Told {
    /// The number that stands for a unit and the path of a file in it.
    pub file: u64,
    /// The number of the source line, modulo 2^64.
    pub line: u64,
    /// The column in the source line from 1 on; 0 is the line's left edge.
    pub column: u64,
    /// The block that the instruction belongs to; 0 where there is but one.
    pub discriminator: u64,
    /// Whether the instruction is a recommended place for a breakpoint.
    pub is_stmt: bool,
}

impl Told {
    ghost use Rattle.std.specs.Prelude.{◌≡◌};
    ghost use Rattle.dl_stretch.specs.Made.{is_same};

    /// Whether both tell the same.
    #[inline(always)]
    pub(crate) fn is_same(self, other: Told) -> bool
        ensures { result ≡ is_same self other }
    {
        self.file == other.file
            && self.line == other.line
            && self.column == other.column
            && self.discriminator == other.discriminator
            && self.is_stmt == other.is_stmt
    }
}
