//! What hears of the damaged units after which a command goes on.
ghost use Rattle.std.specs.Prelude.{◌≡◌, false};
ghost use Rattle.dl_program.specs.Damages.{DamagesTold, StopTold, unheard};

use crate::stop::Stop;
use dl_output::Destination;
use dl_sections::{Damage, DamageSink, RunFault};

/// Writes the line of each stop that it is told of, and of each damaged unit that of the stop which would end there.
///
/// Whether a write fails isn't told.
#[derive(Drop)]
pub struct StopLines<E: Destination> {
    errors: E,
    /// A write failed.
    failed: bool,
}

impl<E: Destination> StopLines<E> {
    /// No line was written.
    pub fn new(errors: E) -> StopLines<E>
        ensures errors { result.errors ≡ errors }
        ensures failed { result.failed ≡ false }
    {
        StopLines {
            errors,
            failed: false,
        }
    }

    /// Writes the line of a stop.
    pub fn tell(&mut self, stop: &Stop<'_>)
        ensures { StopTold E.contents E.fails self.old self.new stop.now }
    {
        if stop.write_line(&mut self.errors).is_err() {
            self.failed = true;
        }
    }
}

impl<E: Destination> DamageSink for StopLines<E> {
    ghost hears = { DamagesTold E.contents E.fails };

    fn damaged(&mut self, damage: Damage) {
        let Damage { offset, kind } = damage;
        self.tell(&Stop::Run(RunFault::Damage { offset, kind }));
    }
}

/// Hears nothing. It is for commands that tell of no unit.
#[derive(Drop)]
pub struct Unheard;

impl DamageSink for Unheard {
    ghost hears = { λ first now damages. unheard damages };

    fn damaged(&mut self, _damage: Damage) {}
}
