//! Laws of the definitions of directories, each the contract of a function that does nothing.

ghost use Rattle.dl_dirs.specs.Laws.{DirectoriesAreShort};

/// A directory has no more bytes than the sections in which it may stand. DWARF 5, section 3.1.1.
pub fn directories_are_short()
    ensures { DirectoriesAreShort }
{}
