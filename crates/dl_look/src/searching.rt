//! The look-up of a place by few probes: the sequences by their two ends, then one by halves.
ghost use Rattle.std.specs.Prelude.{◌≡◌, ℕ, ◌+◌, ◌<◌, ◌≤◌, ◌^◌, IsTrue, Some, length, take, drop};
ghost use Rattle.dl_look.specs.Answer.{answer, sequences, is_rising, first_place, last_place, is_at_most, is_below};
ghost use Rattle.dl_look.specs.Answer.{last_upto};

use crate::place::Place;
use crate::probed::Probed;
use dl_rows::Row;

/// The answer of the table's rows for a place, as `Finder::answer` gives it, by as many probes at most
/// as there are sequences with an end row, and binary digits of the number of rows, and one more.
pub fn search<T: Probed>(table: &mut T, place: Place) -> Option<Row>
    requires { T.probes table.old ≡ 0 }
    ensures value { result ≡ answer (T.list table.old) place }
    ensures same { T.list table.new ≡ T.list table.old }

    // For each number of binary digits that suffices, hence for that of the number of rows.
    ensures few { (digits : ℕ) → length (T.list table.old) < 2 ^ digits
        → T.probes table.new ≤ length (sequences (T.list table.old)) + digits + 1 }
{
    // So the number of rows is below 2^64.
    let rows = table.rows();
    prove!(rows <= usize::MAX);
    for i in 0..table.sequences() {
        let span = table.sequence(i);
        if span.covers(place) {
            return Some(search_between(table, span.start, span.len, place));
        }
    }
    None
}

/// The answer of a rising sequence that covers the place.
pub(crate) fn search_between<T: Probed>(
    table: &mut T,
    start: usize,
    len: usize,
    place: Place,
) -> Row
    requires within { start + len ≤ length (T.list table.old) }
    requires small { length (T.list table.old) < 2 ^ 64 }
    requires countable { T.probes table.old < 2 ^ 65 }
    requires rising { IsTrue (is_rising (take len (drop start (T.list table.old)))) }
    requires low { IsTrue (is_at_most (first_place (take len (drop start (T.list table.old)))) place) }
    requires high { IsTrue (is_below place (last_place (take len (drop start (T.list table.old))))) }
    ensures value { Some result ≡ last_upto place (take len (drop start (T.list table.old))) }
    ensures same { T.list table.new ≡ T.list table.old }
    ensures few { (digits : ℕ) → len < 2 ^ digits → T.probes table.new ≤ T.probes table.old + digits + 1 }
{
    let mut low = start;
    let mut high = start + len - 1;
    while high - low > 1 {
        let middle = low + (high - low) / 2;
        if Place::of(&table.row(middle)).is_at_most(place) {
            low = middle;
        } else {
            high = middle;
        }
    }
    table.row(low)
}
