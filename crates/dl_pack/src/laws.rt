//! Laws of what indices tell, each the contract of a function that does nothing.

ghost use Rattle.dl_pack.specs.Laws.{ApartRise, NamedAreTold, NamedAreFound};

/// Stretches of which each two neighbours are apart rise, so their index is well-formed and tells them.
pub fn stretches_rise()
    ensures { ApartRise }
{}

/// An index that tells stretches answers each address as they do, with each file in the terms of an index.
pub fn stretches_are_found()
    ensures told { NamedAreTold }
    ensures found { NamedAreFound }
{}
