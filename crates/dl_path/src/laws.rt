//! Laws of the definitions of paths, each the contract of a function that does nothing.

ghost use Rattle.dl_path.specs.PathLaws.{PathsMeanTheSame};
ghost use Rattle.dl_path.specs.TextLaws.{AtMostThree, PartsMakePath, TextsMakePath};
ghost use Rattle.dl_path.specs.TextRoom.{PartsHaveRoom};

/// Each file of a header of versions 2 to 4 has the same path under the header that `into_version_5` of dl_emit makes of
/// it, which has the compilation directory as directory 0. Sections 6.2.4 and 6.2.4.1.
pub fn paths_mean_the_same()
    ensures { PathsMeanTheSame }
{}

/// The parts of a file's path, each in the one before it, are its path; there are none where it has no path.
/// Section 6.2.4.
pub fn parts_make_path()
    ensures { PartsMakePath }
{}

/// The texts of a file's path, one after the other, are its path under the compilation directory that counts; there are
/// none where it has no path. Sections 3.1.1 and 6.2.4.
pub fn texts_make_path()
    ensures { TextsMakePath }
{}

/// The path of a file is made of three texts at most.
pub fn at_most_three()
    ensures { AtMostThree }
{}

/// No part of a file's path has more bytes than the string sections and the cells of the tables of its header together.
/// Sections 6.2.4 and 6.2.4.1.
pub fn parts_have_room()
    ensures { PartsHaveRoom }
{}
