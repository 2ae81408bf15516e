//! What is asked of a section.

use crate::style::Style;
use dl_dirs::CompilationDirectories;
use dl_look::{Asked, CodeRanges};
use dl_sections::DamagedUnits;

/// What is asked of a section.
#[derive(Clone, Copy)]
pub struct Question<'a> {
    /// The addresses, in the order in which they are answered.
    pub asked: &'a [Asked],
    /// What is subtracted from each address before it is looked up.
    pub base: u64,
    /// Where there is code: a sequence answers where its first address is one of these. None: each
    /// sequence answers.
    pub code: Option<&'a CodeRanges>,
    /// Where paths stand that aren't whole.
    pub directories: CompilationDirectories<'a>,
    /// How the answers are printed.
    pub style: Style<'a>,
}

/// Whether each address was answered.
#[derive(Clone, Copy, Debug, PartialEq, Eq)]
pub enum WhichFound {
    All,
    NotAll,
}

/// What was answered of a section of which units may be damaged.
#[derive(Clone, Copy, Debug, PartialEq, Eq)]
pub struct FoundAround {
    pub found: WhichFound,
    pub damaged: Option<DamagedUnits>,
}
