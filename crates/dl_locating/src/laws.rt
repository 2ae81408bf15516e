//! A law of the index of a file, the contract of a function that does nothing.

ghost use Rattle.dl_locating.specs.IndexLaws.{DirectoriesHaveRoom};

/// The compilation directories of the index of a file are no longer than the one that is said, or else than the sections
/// of the file by which they are known. DWARF 5, section 3.1.1.
pub fn directories_have_room()
    ensures { DirectoriesHaveRoom }
{}
