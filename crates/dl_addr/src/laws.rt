//! Laws of the definitions of what is answered for addresses, each the contract of a function that does nothing.

ghost use Rattle.dl_addr.specs.AroundLaws.{SameWithoutDamage};

/// `addr_around` answers that no unit is damaged just where `addr` answers, and then both answer and write the same.
pub fn same_without_damage()
    ensures { SameWithoutDamage }
{}
