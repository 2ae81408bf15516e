//! What is asked of the source files of a section.

use dl_dirs::CompilationDirectories;
use dl_look::CodeRanges;
use dl_sections::DamagedUnits;

/// What is asked of the source files of a section.
#[derive(Clone, Copy)]
pub struct SourcesQuestion<'a> {
    /// Whether it is told how many rows name a path, and how many bytes of code they have.
    pub rows: bool,
    /// Whether the MD5 sums of a path are told.
    pub md5: bool,
    /// Whether each line is a JSON object.
    pub json: bool,
    /// Where there is code: a sequence is live where its first address is one of these. None: each is.
    pub code: Option<&'a CodeRanges>,
    /// Where paths stand that aren't whole.
    pub directories: CompilationDirectories<'a>,
}

/// What is asked of the source files of a section that are found and not printed: each is told with its counts and its MD5
/// sums.
#[derive(Clone, Copy)]
pub struct FilesQuestion<'a> {
    /// Where there is code, as of `SourcesQuestion`.
    pub code: Option<&'a CodeRanges>,
    /// Where paths stand that aren't whole.
    pub directories: CompilationDirectories<'a>,
}

/// What the MD5 sums of paths are, where they are asked for.
#[derive(Clone, Copy, Debug, PartialEq, Eq)]
pub enum Sums {
    /// No path has two.
    Agree,
    /// Some path has two: its file was another one where it was compiled again.
    Differ,
}

/// What was answered of a section of which units may be damaged.
#[derive(Clone, Copy, Debug, PartialEq, Eq)]
pub struct SourcesAround {
    pub sums: Sums,
    pub damaged: Option<DamagedUnits>,
}
