//! Compilation directories, by the offsets of line tables.
ghost use Rattle.std.specs.Prelude.{◌≡◌, ℕ, None};
ghost use Rattle.std.specs.Option.{option_copied};
ghost use Rattle.dl_dirs.specs.Directories.{directory_at};

use crate::places::Places;
use crate::texts::Texts;
use dl_num::Order;
use std::alloc::Global;

/// The compilation directories of the units of a line table, by their offsets in it.
///
/// A text is found in its section when it is asked for, and none is kept a second time: many units may have theirs in the same
/// bytes.
#[derive(Drop)]
pub struct Directories {
    pub(crate) places: Places,
    pub(crate) texts: Texts,
}

impl Directories {
    /// No directory. It takes no memory.
    #[tactic(auto, unfolding(crate::specs::Directories::directory_at))]
    pub fn none(alloc: Global) -> Directories
        ensures { (n : ℕ) → directory_at result n ≡ None }
    {
        Directories {
            places: Places::new(alloc, Order::Little),
            texts: Texts::none(),
        }
    }

    /// The directory of the line table at an offset, where it is known. It takes time in proportion to the text.
    #[tactic(auto, unfolding(crate::specs::Directories::directory_at))]
    pub fn of(&self, offset: u64) -> Option<&[u8]>
        ensures { option_copied result ≡ directory_at self.entry.now offset }
    {
        self.places.text(&self.texts, offset)
    }
}
