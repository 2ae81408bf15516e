//! Values of a table one after the other, whose bytes all stand at the front of a piece. Section 7.5.5.

ghost use Rattle.std.specs.Prelude.{◌≡◌, ◌<◌, ◌≤◌, length, take, is_some, IsTrue, MatchOption};
ghost use Rattle.std.specs.Prelude.{vec_len, vec_capacity};
ghost use Rattle.dl_table.specs.Held.{held_end, values_end};

use crate::table_reader::{TablePhase, TableReader};
use crate::value_phase::{Cursor, ValuePhase};
use crate::whole_value::common_at_front;
use dl_num::Order;
use dl_table::text::first_zero;
use dl_table::{Extent, Format, StoredValue};

impl TableReader {
    ghost use Rattle.dl_field.specs.TableMoves.{SameTable, TakesValues};
    ghost use Rattle.dl_field.specs.TableRuns.{BeginsRun, TakesAt, HoldsMore, HoldsText};

    /// Takes values that the bytes begin with, up to one that `push_front` takes: how many bytes they have.
    #[inline(never)]
    pub fn whole_values(&mut self, order: Order, format: Format, bytes: &[u8]) -> usize
        ensures within { result ≤ length bytes.now }
        ensures values { TakesValues order format self.old (take result bytes.now) self.new }
    {
        match self.phase {
            TablePhase::Value(at, value) if value.is_new(self.pool.len()) => {
                self.values_from(at, order, format, bytes)
            }
            _ => 0,
        }
    }

    /// Takes values that the bytes begin with, from the one at this place on, of which no byte has come, up to one that
    /// `push_front` takes: how many bytes they have. The phase is set once, after the last of them.
    #[inline(always)]
    fn values_from(&mut self, first: Cursor, order: Order, format: Format, bytes: &[u8]) -> usize
        requires in_row { first.column < length self.old.pairs.items }
        requires whole { values_end self.old.values.items ≤ length self.old.pool.items }
        ensures within { result ≤ length bytes.now }
        ensures values { BeginsRun order format self.old first
            → TakesValues order format self.old (take result bytes.now) self.new }
    {
        let mut at = first;
        let mut rest = bytes;
        while let Some((next, tail)) = self.value_at(at, order, format, rest) {
            at = next;
            rest = tail;
        }
        self.begin_value(at, format);
        bytes.len() - rest.len()
    }

    /// Takes the value at this place, with which the bytes begin, where it is of a common kind: no block, no number in
    /// LEB128 of more than two bytes, and not the table's last value. Gives the place of the next one, and the bytes
    /// after it. None, and nothing is taken, where it isn't, where the bytes end before the value does, and where memory
    /// is refused: `push_front` takes its bytes then.
    #[inline(always)]
    fn value_at<'a>(
        &mut self,
        at: Cursor,
        order: Order,
        format: Format,
        bytes: &'a [u8],
    ) -> Option<(Cursor, &'a [u8])>
        requires in_row { at.column < length self.old.pairs.items }
        requires whole { values_end self.old.values.items ≤ length self.old.pool.items }
        ensures { MatchOption result (SameTable self.old self.new)
            (λ found. TakesAt order format self.old at bytes.entry.now found.1.now found.0 self.new) }
    {
        let next = at.next(self.pairs.len())?;
        let form = self.pairs[at.column].form;
        let value = ValuePhase::new(form, format, self.pool.len());
        if let ValuePhase::Text(_) = value {
            return Some((next, self.hold_text(bytes)?));
        }
        let (held, tail) = common_at_front(value, order, bytes)?;
        Some((next, self.hold(held, tail)?))
    }

    /// Enters a value that is complete, and gives back the bytes after it. None, and nothing is entered, where memory is
    /// refused.
    #[inline(always)]
    #[tactic(auto, using(dl_table::proofs::HeldLemmas::pushes))]
    fn hold<'a>(&mut self, held: StoredValue, tail: &'a [u8]) -> Option<&'a [u8]>
        requires whole { values_end self.old.values.items ≤ length self.old.pool.items }
        requires held { held_end held ≤ length self.old.pool.items }
        ensures holds { MatchOption result (SameTable self.old self.new)
            (λ rest. (rest.now ≡ tail.entry.now) × HoldsMore self.old held self.new) }
        ensures room { vec_len self.old.values < vec_capacity self.old.values → IsTrue (is_some result) }
    {
        if self.values.push(held).is_err() {
            return None;
        }
        Some(tail)
    }

    /// Enters a text that the bytes begin with, and gives the bytes after its zero byte. None, and nothing is entered,
    /// where they have none, and where memory is refused.
    #[inline(always)]
    #[tactic(auto, using(dl_table::proofs::HeldLemmas::pushes))]
    fn hold_text<'a>(&mut self, bytes: &'a [u8]) -> Option<&'a [u8]>
        requires whole { values_end self.old.values.items ≤ length self.old.pool.items }
        ensures { MatchOption result (SameTable self.old self.new)
            (λ tail. HoldsText self.old bytes.entry.now tail.now self.new) }
    {
        let start = self.pool.len();
        let len = first_zero(bytes)?;
        if self.values.reserve(1).is_err() {
            return None;
        }
        if self.pool.extend_from_slice(&bytes[..len]).is_err() {
            return None;
        }
        let held = StoredValue::Text(Extent::new(start, len));
        let tail = self.hold(held, &bytes[len + 1..])?;
        Some(tail)
    }
}
