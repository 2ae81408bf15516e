//! What is asked of a section.

use dl_dirs::CompilationDirectories;
use dl_look::CodeRanges;

/// A line of a file whose addresses are wanted.
#[derive(Clone, Copy)]
pub struct Wanted<'a> {
    /// The file's path, or the end of it from after a slash on.
    pub path: &'a [u8],
    pub line: u64,
}

/// What is asked of a section.
#[derive(Clone, Copy)]
pub struct LinesQuestion<'a> {
    /// The lines, in the order in which they are answered.
    pub wanted: &'a [Wanted<'a>],
    /// Whether a line answers alone for itself, and no line above it does where it has no place.
    pub exact: bool,
    /// Where there is code: the rows of a sequence answer where its first address is one of these. None: those of each
    /// sequence do.
    pub code: Option<&'a CodeRanges>,
    /// Where paths stand that aren't whole.
    pub directories: CompilationDirectories<'a>,
}

/// What is asked of a section of one line.
#[derive(Clone, Copy)]
pub struct PlacesQuestion<'a> {
    pub wanted: Wanted<'a>,
    /// Whether the line answers alone for itself, and no line above it does where it has no place.
    pub exact: bool,
    /// Where there is code, as of `LinesQuestion`.
    pub code: Option<&'a CodeRanges>,
    /// Where paths stand that aren't whole.
    pub directories: CompilationDirectories<'a>,
}
