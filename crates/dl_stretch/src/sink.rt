//! What stands for a list of stretches, and what is told them.

use crate::stretch::Stretch;

/// What is told stretches, one after the other.
pub trait StretchSink {
    ghost use Rattle.std.specs.Prelude.{List, ◌∷◌, ◌++◌, []};
    ghost use Rattle.dl_stretch.specs.declared.stretch.Stretch as each;

    /// It was told these since it was as the first.
    ghost hears: { Self → Self → List each.Stretch → Type 0 };

    /// The next stretch.
    fn stretch(&mut self, stretch: Stretch)
        ensures { (first : Self) (told : List each.Stretch) → hears first self.old told
            → hears first self.new (told ++ stretch ∷ []) };
}

/// What stands for one list of stretches, and tells them as often as it is asked.
pub trait Stretches {
    ghost use Rattle.std.specs.Prelude.{◌≡◌, List, ◌++◌};
    ghost use Rattle.dl_stretch.specs.declared.stretch.Stretch as each;
    ghost use Rattle.dl_stretch.specs.Hearing.{HearsMore};

    /// It stands for this list.
    ghost stands: { Self → List each.Stretch → Type 0 };

    /// Tells the stretches of its list, in their order.
    fn tell<S: StretchSink>(&self, sink: &mut S)
        ensures { (list : List each.Stretch) × stands self.now list
            × ((other : List each.Stretch) → stands self.now other → other ≡ list)
            × HearsMore S.hears sink.old sink.new list };
}

impl Stretches for &'_ [Stretch] {
    ghost use Rattle.std.specs.Prelude.{◌≡◌};

    ghost stands = { λ s list. list ≡ s.now };

    fn tell<S: StretchSink>(&self, sink: &mut S) {
        for stretch in *self {
            sink.stretch(*stretch);
        }
    }
}
