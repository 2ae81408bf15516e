//! What is known of stretches before their index is written.

ghost use Rattle.std.specs.Prelude.{◌≡◌};

use crate::fault::PackFault;
use crate::file_order::FileOrder;
use crate::mentions::Mentions;
use dl_stretch::{Stretch, StretchSink};

/// How many stretches there are, where they begin, the greatest of their numbers, and the files that they tell.
#[derive(Drop)]
pub struct Totals {
    pub starts: StartTotals,
    pub rows: RowTotals,
    pub files: FileOrder,
}

impl Totals {
    ghost use Rattle.std.specs.Prelude.{◌≡◌, [], None};
    ghost use Rattle.dl_pack.specs.Mentioned.{order_of, count_of};
    ghost use Rattle.dl_pack.specs.Totals.{Totalled};

    /// Of no stretch, where none of the files is mentioned.
    pub fn new(files: Mentions) -> Totals
        requires { order_of files ≡ [] }
        ensures { Totalled (count_of files) result [] }
    {
        Totals {
            starts: StartTotals {
                count: 0,
                base: 0,
                greatest: 0,
            },
            rows: RowTotals {
                line: 0,
                column: 0,
                discriminator: 0,
            },
            files: FileOrder::new(files),
        }
    }

    /// Why no index is made of the stretches, if there is a reason.
    pub fn fault(&self) -> Option<PackFault>
        ensures { result ≡ self.now.files.fault }
    {
        self.files.fault
    }
}

impl StretchSink for Totals {
    ghost use Rattle.dl_pack.specs.Totals.{AreTotals};

    ghost hears = { AreTotals };

    #[inline(always)]
    fn stretch(&mut self, stretch: Stretch) {
        self.starts.more(&stretch);
        self.rows.more(&stretch);
        self.files.more(&stretch);
    }
}

/// How many stretches there are, the first start, and the greatest start above it.
#[derive(Clone, Copy)]
pub struct StartTotals {
    /// The greatest number of all where there are more.
    pub count: usize,
    pub base: u64,
    pub greatest: u64,
}

impl StartTotals {
    ghost use Rattle.std.specs.Prelude.{List, ◌∷◌, [], ◌++◌};
    ghost use Rattle.dl_stretch.specs.declared.stretch.Stretch as each;
    ghost use Rattle.dl_pack.specs.Totals.{AreStarts};

    /// One more stretch.
    #[inline(always)]
    fn more(&mut self, stretch: &Stretch)
        ensures { (list : List each.Stretch) → AreStarts self.old list → AreStarts self.new (list ++ stretch.now ∷ []) }
    {
        let base = if self.count == 0 {
            stretch.start
        } else {
            self.base
        };
        self.base = base;
        self.count = self.count.saturating_add(1);
        self.greatest = stretch.start.saturating_sub(base).max(self.greatest);
    }
}

/// The greatest numbers that rows have.
#[derive(Clone, Copy)]
pub struct RowTotals {
    pub line: u64,
    pub column: u64,
    pub discriminator: u64,
}

impl RowTotals {
    ghost use Rattle.std.specs.Prelude.{List, ◌∷◌, [], ◌++◌};
    ghost use Rattle.dl_stretch.specs.declared.stretch.Stretch as each;
    ghost use Rattle.dl_pack.specs.Totals.{AreRows};

    /// One more stretch.
    #[inline(always)]
    fn more(&mut self, stretch: &Stretch)
        ensures { (list : List each.Stretch) → AreRows self.old list → AreRows self.new (list ++ stretch.now ∷ []) }
    {
        match stretch.told {
            Some(told) => {
                self.line = told.line.max(self.line);
                self.column = told.column.max(self.column);
                self.discriminator = told.discriminator.max(self.discriminator);
            }
            None => {}
        }
    }
}
