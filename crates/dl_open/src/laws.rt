//! Laws of what is looked into of files, each the contract of a function that does nothing.

ghost use Rattle.dl_open.specs.Laws.{DirectoriesAreShort};

/// A directory that the units of a file say has no more bytes than the sections by which it is known. DWARF 5,
/// section 3.1.1.
pub fn directories_are_short()
    ensures { DirectoriesAreShort }
{}
