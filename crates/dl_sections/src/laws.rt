//! Laws of the definitions of sections, each the contract of a function that does nothing.

ghost use Rattle.dl_sections.specs.AroundLaws.{FirstFault, NothingDamaged, OneAround, OneCutAround};
ghost use Rattle.dl_sections.specs.AroundLaws.{StopsAtFirst, WithoutDamage};
ghost use Rattle.dl_sections.specs.CopyLaws.{CopiesAreNewer, CopiesAreUnits};
ghost use Rattle.dl_sections.specs.SectionLaws.{OneCut, OneEnd, MoreIsTold, OneChecking, OneFound, OneFinding, OneDumping};
ghost use Rattle.dl_sections.specs.SectionLaws.{OneDump, DumpIsFront, OneCopying, OneCopy, CopyIsFront, OnePassingOver};
ghost use Rattle.dl_sections.specs.SectionLaws.{OneCopyingTo5, OneCopyTo5, CopyTo5IsFront};

/// Bytes are cut into units, up to bytes that no unit begins, in one way alone. Section 6.2.4.
pub fn one_cut()
    ensures { OneCut }
{}

/// How a section ends is settled by its bytes and the limit, but where a read fails or memory is
/// refused: its units, the bytes after them, and the answer.
pub fn one_end()
    ensures { OneEnd }
{}

/// What is told of the front of a section is the front of what is told of the section, where memory is
/// refused in neither.
pub fn more_is_told()
    ensures { MoreIsTold }
{}

/// A section that is units to its end comes to the same units and counts where damaged units are passed
/// over; and where nothing is damaged, a section is units to its end. Section 6.2.4.
pub fn without_damage()
    ensures around { WithoutDamage }
    ensures units { NothingDamaged }
{}

/// A reading that stops at the first fault stops at that of the first damaged unit, with its offset and
/// its kind; and where a unit is damaged, it does stop there. Section 6.2.4.
pub fn first_fault()
    ensures first { FirstFault }
    ensures stops { StopsAtFirst }
{}

/// Bytes are cut into units, whole or damaged, and what follows them, in one way alone. How a section
/// ends where damaged units are passed over is settled by its bytes and the limit, but where a read
/// fails or memory is refused: its units, what follows them, and the answer. Section 6.2.4.
pub fn one_around()
    ensures cut { OneCutAround }
    ensures end { OneAround }
{}

/// What `check` answers is settled by the bytes and the limit, but where memory, input or output is the
/// reason.
pub fn one_checking()
    ensures { OneChecking }
{}

/// What `passed_over` answers is settled by the bytes and the limit, but where memory or input is the
/// reason.
pub fn one_passing_over()
    ensures { OnePassingOver }
{}

/// What `find` answers is settled by the bytes, the limit and the place, but where memory, input or
/// output is the reason; and so are the unit that it answers from, with its header, and the row.
pub fn one_finding()
    ensures answer { OneFinding }
    ensures row { OneFound }
{}

/// What `dump` answers is settled by the bytes and the limit, but where memory, input or output is the
/// reason; and so, with the string sections, is what it writes. What a failed write leaves is a front of
/// that text.
pub fn one_dumping()
    ensures answer { OneDumping }
    ensures text { OneDump }
    ensures front { DumpIsFront }
{}

/// What `copy` writes for units that were read is a section of as many units: each has the header of its
/// unit, with the standard opcodes, and comes to the same rows. Sections 6.2 and 6.2.4.
pub fn copies_are_units()
    ensures { CopiesAreUnits }
{}

/// What `copy_to_5` writes for units that were read is a section of as many units of version 5: each has the header that
/// becomes of that of its unit, and comes to the same rows. Sections 6.2 and 6.2.4.
pub fn copies_are_newer()
    ensures { CopiesAreNewer }
{}

/// What `copy` answers and writes is settled by the bytes and the limit, but where memory, input or
/// output is the reason. What a failed write leaves is a front of those bytes.
pub fn one_copying()
    ensures answer { OneCopying }
    ensures text { OneCopy }
    ensures front { CopyIsFront }
{}

/// What `copy_to_5` answers and writes is settled by the bytes, the limit and the directories, but where memory, input or
/// output is the reason. What a failed write leaves is a front of those bytes.
pub fn one_copying_to_5()
    ensures answer { OneCopyingTo5 }
    ensures text { OneCopyTo5 }
    ensures front { CopyTo5IsFront }
{}
