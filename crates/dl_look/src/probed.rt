//! Rows that are seen by counted calls alone.
ghost use Rattle.std.specs.Prelude.{◌≡◌};

use crate::place::Place;
use dl_rows::Row;

/// What is kept of a sequence with its end row.
#[derive(Debug, Clone, Copy, PartialEq, Eq)]
pub struct Span {
    /// The number of its first row.
    pub start: usize,
    /// How many rows it has, its end row among them.
    pub len: usize,
    /// The place of its first row.
    pub first: Place,
    /// The place of its end row.
    pub last: Place,
    /// Whether no row's place is below that of the row before it.
    pub rising: bool,
}

impl Span {
    ghost use Rattle.std.specs.Prelude.{◌≡◌, ◌&&◌};
    ghost use Rattle.dl_look.specs.Answer.{is_at_most, is_below};

    /// Whether the sequence is rising and covers the place.
    pub(crate) fn covers(&self, place: Place) -> bool
        ensures { result
            ≡ (self.now.rising && (is_at_most self.now.first place && is_below place self.now.last)) }
    {
        self.rising && place.is_within(self.first, self.last)
    }
}

/// A list of rows with its ended sequences in order, which counts how often it was looked at.
pub trait Probed {
    ghost use Rattle.std.specs.Prelude.{◌≡◌, ℕ, ◌+◌, ◌<◌, ◌^◌, List, length, slice_index_or};
    ghost use Rattle.dl_rows.specs.declared.row.Row.{Row};
    ghost use Rattle.dl_look.specs.Spans.{spans};

    // The rows, and how many probes there were.
    ghost list: { Self → List Row };

    ghost probes: { Self → ℕ };

    /// How many rows there are.
    fn rows(&self) -> usize
        ensures { result ≡ length (list self.now) };

    /// How many sequences with an end row there are.
    fn sequences(&self) -> usize
        ensures { result ≡ length (spans (list self.now)) };

    /// How many probes there were.
    fn count(&self) -> u128
        ensures { result ≡ probes self.now };

    /// One probe: a sequence with an end row.
    fn sequence(&mut self, i: usize) -> Span
        requires in_range { i < length (spans (list self.old)) }
        requires countable { probes self.old < 2 ^ 127 }
        ensures value { result ≡ slice_index_or (spans (list self.old)) i result }
        ensures same { list self.new ≡ list self.old }
        ensures counted { probes self.new ≡ probes self.old + 1 };

    /// One probe: a row.
    fn row(&mut self, i: usize) -> Row
        requires in_range { i < length (list self.old) }
        requires countable { probes self.old < 2 ^ 127 }
        ensures value { result ≡ slice_index_or (list self.old) i result }
        ensures same { list self.new ≡ list self.old }
        ensures counted { probes self.new ≡ probes self.old + 1 };
}
