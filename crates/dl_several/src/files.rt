//! Which files are checked.

/// Files that are checked one after the other.
#[derive(Clone, Copy)]
pub struct Several<'a> {
    /// The path of the first one, if it is named apart.
    pub first: Option<&'a str>,
    /// The paths of those after it.
    pub others: &'a [&'a str],
    /// The list of the paths of those that come last.
    pub list: Option<PathList<'a>>,
}

/// A list of paths.
#[derive(Clone, Copy)]
pub struct PathList<'a> {
    /// Where it stands.
    pub path: &'a str,
    /// The byte behind each path; behind the last one there may be none.
    pub end: u8,
}
