//! The files that stretches tell, in the order in which they first do.

ghost use Rattle.std.specs.Prelude.{◌≡◌, ◌<◌, IfOk, IfErr};
ghost use Rattle.std.specs.List.{All};
ghost use Rattle.dl_pack.specs.IndexOf.{files_of_stretch};
ghost use Rattle.dl_pack.specs.Faults.{MoreFails};
ghost use Rattle.dl_pack.specs.Numbering.{mentioned};
ghost use Rattle.dl_pack.specs.Mentioned.{order_of, count_of};

use crate::fault::{PackFault, TooMany};
use crate::mentions::Mentions;
use dl_stretch::Stretch;

/// The files that stretches tell, up to the first fault.
#[derive(Drop)]
pub struct FileOrder {
    pub files: Mentions,
    /// A file has no name, or 2^32 files are told.
    pub fault: Option<PackFault>,
}

impl FileOrder {
    ghost use Rattle.std.specs.Prelude.{◌≡◌, ℕ, List, ◌∷◌, [], ◌++◌};
    ghost use Rattle.dl_stretch.specs.declared.stretch.Stretch as each;
    ghost use Rattle.dl_pack.specs.Mentioned.{order_of, count_of};
    ghost use Rattle.dl_pack.specs.Totals.{AreOrdered};

    /// Of no stretch, where none of the files is mentioned.
    pub fn new(files: Mentions) -> FileOrder
        requires { order_of files ≡ [] }
        ensures { AreOrdered (count_of files) result [] }
    {
        FileOrder { files, fault: None }
    }

    /// One more stretch.
    #[inline(always)]
    pub fn more(&mut self, stretch: &Stretch)
        ensures { (n : ℕ) (list : List each.Stretch) → AreOrdered n self.old list
            → AreOrdered n self.new (list ++ stretch.now ∷ []) }
    {
        if self.fault.is_some() {
            return;
        }
        match mention_told(&mut self.files, stretch) {
            Ok(()) => {}
            Err(fault) => self.fault = Some(fault),
        }
    }
}

/// Mentions the file that a stretch tells, if there is one of its number.
#[inline(always)]
fn mention_told(files: &mut Mentions, stretch: &Stretch) -> Result<(), PackFault>
    ensures order { IfOk result (λ _. order_of files.new ≡ mentioned (order_of files.old) (files_of_stretch stretch.now)) }
    ensures within { IfOk result (λ _. All (λ file. file < count_of files.old) (files_of_stretch stretch.now)) }
    ensures fails { IfErr result (MoreFails (count_of files.old) (order_of files.old) stretch.now) }
    ensures count { count_of files.new ≡ count_of files.old }
{
    let Some(told) = stretch.told else {
        return Ok(());
    };
    if told.file >= files.count() as u64 {
        return Err(PackFault::File);
    }
    match files.mention(told.file as usize) {
        Ok(()) => Ok(()),
        Err(TooMany) => Err(PackFault::TooMany),
    }
}
