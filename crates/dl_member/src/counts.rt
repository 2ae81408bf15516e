//! What came of the members of an archive, in numbers.
ghost use Rattle.std.specs.Prelude.{◌≡◌, [], ◌∷◌, IfErr, IfOk};
ghost use Rattle.dl_member.specs.Onward.{Adds};
ghost use Rattle.dl_member.specs.Walking.{IsWritten};
ghost use Rattle.dl_member.specs.declared.step.Step.TheVariants.{Unwritten};

use crate::step::Step;
use dl_print::WriteFault;

/// What came of the members of an archive, in numbers.
#[derive(Debug, Clone, Copy, PartialEq, Eq)]
pub struct Counts {
    /// The worst status of the work over a member; 0 where nothing was done.
    pub worst: u8,
    /// How many have no line table; 2^64 - 1 for more.
    pub passed_over: u64,
}

impl Counts {
    /// Of no members.
    pub fn none() -> Counts
        ensures worst { result.worst ≡ 0 }
        ensures passed_over { result.passed_over ≡ 0 }
    {
        Counts {
            worst: 0,
            passed_over: 0,
        }
    }

    /// Counts what came of a member; its fault where the line before it can't be written.
    pub fn add(&mut self, step: Step) -> Result<(), WriteFault>
        ensures counted { Adds self.old self.new (step ∷ []) }
        ensures written { IfOk result (λ _. IsWritten step) }
        ensures fault { IfErr result (λ fault. step ≡ Unwritten fault) }
    {
        match step {
            Step::PassedOver => self.passed_over = self.passed_over.saturating_add(1),
            Step::Done(status) => self.worst = self.worst.max(status),
            Step::Unwritten(fault) => return Err(fault),
        }
        Ok(())
    }
}
