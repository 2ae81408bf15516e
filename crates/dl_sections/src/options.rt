//! What a command over a section is told besides the bytes.

use dl_head::Dialect;

/// How many bytes of a section are read at most: 2^44.
pub const SECTION_LIMIT: u64 = 1 << 44;

/// What a command over a section is told besides the bytes.
#[derive(Clone, Copy)]
pub struct Options<'a> {
    /// What the bytes of the section's units don't say of them.
    pub dialect: Dialect,
    /// The section `.debug_line_str`, where paths may stand.
    pub debug_line_str: Option<&'a [u8]>,
    /// The section `.debug_str`, where paths may stand.
    pub debug_str: Option<&'a [u8]>,
    /// How many bytes the section may have, at most `SECTION_LIMIT`.
    pub limit: u64,
}

/// What `dump` prints besides units, their tables and rows.
#[derive(Clone, Copy, Debug, PartialEq, Eq)]
pub struct Detail {
    /// The fields of each header. Section 6.2.4.
    pub header: bool,
}

/// Nothing besides.
pub const PLAIN: Detail = Detail { header: false };
