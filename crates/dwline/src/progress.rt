//! The line that tells how far `check` has come with several files.

use std::io::{IsTerminal, Write};
use std::time::Instant;

/// How many seconds no line is shown at first, and how long one stands.
const PAUSE: u64 = 1;

/// How far it has come.
#[derive(Drop)]
pub struct Progress {
    /// A line is shown.
    is_shown: bool,
    /// A line stands on the terminal, which isn't ended.
    stands: bool,
    files: u64,
    /// When the last line was shown, or when it began; None where that isn't known.
    since: Option<Instant>,
}

impl Progress {
    /// None is read yet. A line is shown where it is asked for, or standard error is a terminal.
    pub fn new(rt: &HostRuntime, is_asked_for: bool) -> Progress {
        Progress {
            is_shown: is_asked_for || rt.stderr().is_terminal(),
            stands: false,
            files: 0,
            since: Instant::now(rt).ok(),
        }
    }

    /// One more is read.
    pub fn step(&mut self, rt: &HostRuntime) {
        self.files = self.files.saturating_add(1);
        if self.is_shown && self.is_due(rt) {
            let _ = write!(rt.stderr(), "\r{} files", self.files);
            self.stands = true;
            self.since = Instant::now(rt).ok();
        }
    }

    /// Whether a line has stood long enough.
    fn is_due(&self, rt: &HostRuntime) -> bool {
        match &self.since {
            Some(since) => matches!(since.elapsed(rt), Ok(time) if PAUSE <= time.as_secs()),
            None => false,
        }
    }

    /// All are read.
    pub fn end(&self, rt: &HostRuntime) {
        if self.stands {
            let _ = writeln!(rt.stderr(), "\r{} files", self.files);
        }
    }
}
