//! What is known of the directories in which units were compiled.

use crate::directories::Directories;

/// The directories in which the units of a line table were compiled, as far as they are known.
#[derive(Clone, Copy)]
pub enum CompilationDirectories<'a> {
    /// None is known.
    Unknown,
    /// Each unit was compiled in this one.
    Said(&'a [u8]),
    /// These were found.
    Found(&'a Directories),
}

impl<'a> CompilationDirectories<'a> {
    ghost use Rattle.std.specs.Prelude.{◌≡◌};
    ghost use Rattle.std.specs.Option.{option_copied};
    ghost use Rattle.dl_dirs.specs.Compilation.{directory_by};

    /// That of the unit at this offset.
    pub fn of(self, unit: u64) -> Option<&'a [u8]>
        ensures { option_copied result ≡ directory_by self.entry unit }
    {
        match self {
            CompilationDirectories::Unknown => None,
            CompilationDirectories::Said(directory) => Some(directory),
            CompilationDirectories::Found(directories) => directories.of(unit),
        }
    }
}
