//! Law of the check value, the contract of a function that does nothing.

ghost use Rattle.dl_crc.specs.Laws.{PiecesAreWhole};

/// The check value of bytes is that of a front of them, updated with the others. RFC 1952, section 8.
pub fn pieces_are_whole()
    ensures { PiecesAreWhole }
{}
