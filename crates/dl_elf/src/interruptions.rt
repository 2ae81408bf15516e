//! The rule on interruptions of a read.
ghost use Rattle.std.specs.Prelude.{◌≡◌, ◌+◌, ◌<◌, ◌↔◌, IsTrue};
ghost use Rattle.std.specs.IoError.{error_kind};

use dl_output::INTERRUPTIONS;
use std::io::{Error, ErrorKind};

/// The interruptions of a read that were borne, one after the other. Each is an error that was given up for it.
#[derive(Drop)]
pub struct Borne {
    count: u32,
}

impl Borne {
    /// None so far.
    pub fn none() -> Borne
        ensures { result.count ≡ 0 }
    {
        Borne { count: 0 }
    }

    /// Whether an error is an interruption that is borne.
    pub fn bears(&self, error: &Error) -> bool
        ensures { IsTrue result ↔ (error_kind error.now ≡ ErrorKind.Interrupted) × (self.now.count < 1000) }
    {
        error.kind() == ErrorKind::Interrupted && self.count < INTERRUPTIONS
    }

    /// One interruption more.
    pub fn bear(&mut self, error: Error)
        requires interrupted { error_kind error ≡ ErrorKind.Interrupted }
        requires few { self.old.count < 1000 }
        ensures { self.new.count ≡ self.old.count + 1 }
    {
        self.count += 1;
    }
}
