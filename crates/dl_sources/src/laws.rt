//! A law of the definitions, the contract of a function that does nothing.

ghost use Rattle.dl_sources.specs.OrderLaws.{TextsInOrder};

/// Texts in the order of their bytes are each below the next one, and are the same texts.
pub fn texts_in_order()
    ensures { TextsInOrder }
{}
