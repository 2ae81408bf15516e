//! What hears why the work over members stops.
ghost use Rattle.dl_program.specs.Damages.{StopTold};

use dl_output::Destination;
use dl_program::{Stop, StopLines};
use dl_sections::DamageSink;

/// What hears of the damaged units of members after which a command goes on, and why the work over a member stops.
pub trait MemberSink: DamageSink {
    ghost use Rattle.dl_program.specs.declared.stop.Stop as stops;

    /// What it may become where it is told of a stop.
    ghost tells: { Self → Self → stops.Stop → Type 0 };

    /// The work over a member stops.
    fn stopped(&mut self, stop: &Stop<'_>)
        ensures { tells self.old self.new stop.now };
}

impl<E: Destination> MemberSink for StopLines<E> {
    ghost tells = { StopTold E.contents E.fails };

    fn stopped(&mut self, stop: &Stop<'_>) {
        self.tell(stop);
    }
}
