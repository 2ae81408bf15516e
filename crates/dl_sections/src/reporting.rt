//! What is told of damaged units.

ghost use Rattle.std.specs.Prelude.{⊤};

use crate::around::Damage;

/// What hears of the damaged units of a section, one after the other.
pub trait DamageSink {
    ghost use Rattle.std.specs.Prelude.{◌∷◌, ◌++◌, [], List};
    ghost use Rattle.dl_sections.specs.declared.around.Damage as damages;

    /// It was told of these since it was as the first.
    ghost hears: { Self → Self → List damages.Damage → Type 0 };

    /// A unit is damaged.
    fn damaged(&mut self, damage: Damage)
        ensures { (first : Self) (told : List damages.Damage) → hears first self.old told
            → hears first self.new (told ++ damage ∷ []) };
}

/// Hears of no unit, where the first damaged one is the fault.
#[derive(Drop)]
pub(crate) struct NoneTold;

impl DamageSink for NoneTold {
    ghost hears = { λ first new told. ⊤ };

    fn damaged(&mut self, _damage: Damage) {}
}
