//! What is shown of a section.

use dl_dirs::CompilationDirectories;

/// What is shown of a section beside its units, tables and rows.
#[derive(Clone, Copy)]
pub struct Details<'a> {
    /// The fields of each header. Section 6.2.4.
    pub header: bool,
    /// Each operation, before the row that it appends. Section 6.2.5.
    pub operations: bool,
    /// The path of its file, at the end of each row.
    pub paths: bool,
    /// The directories in which units were compiled, under which paths are shown that aren't whole.
    pub directories: CompilationDirectories<'a>,
}
