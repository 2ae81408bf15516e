//! How a call ends.

/// How a call ends.
#[derive(Clone, Copy)]
pub enum Status {
    /// The answer is given.
    Done,
    /// The bytes are at fault.
    Fault,
    /// No row answers.
    NoAnswer,
    /// Memory was refused.
    NoMemory,
    /// A unit isn't of version 5 where it has to be.
    OtherVersion,
    /// There isn't room for the answer.
    NoRoom,
}

impl Status {
    ghost use Rattle.std.specs.Prelude.{◌≡◌};
    ghost use Rattle.dl_buffers.specs.Records.{status_code};

    /// The number that C sees.
    pub fn code(self) -> u32
        ensures { result ≡ status_code self }
    {
        match self {
            Status::Done => 0,
            Status::Fault => 1,
            Status::NoAnswer => 2,
            Status::NoMemory => 3,
            Status::OtherVersion => 4,
            Status::NoRoom => 5,
        }
    }
}
