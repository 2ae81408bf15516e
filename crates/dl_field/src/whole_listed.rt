//! Values of a table of versions 2 to 4 whose bytes all stand at the front of a piece. DWARF 4, section 6.2.4.

ghost use Rattle.std.specs.Prelude.{◌≡◌, ◌≢◌, ◌≤◌, length, take, MatchOption};
ghost use Rattle.dl_memory.specs.Refusals.{SystemRefuses, WasRefused};

use crate::field_step::FieldStep;
use crate::list_reader::{ListPhase, ListReader};
use crate::value_reader::held_number;
use crate::whole_value::leb_at_front;
use dl_num::Uleb;
use dl_table::text::first_zero;
use dl_table::{Extent, Form, StoredValue};

impl ListReader {
    ghost use Rattle.dl_field.specs.declared.list_reader.ListPhase.TheVariants as phase;
    ghost use Rattle.dl_field.specs.declared.field_step.FieldStep.TheVariants as byte_makes;
    ghost use Rattle.dl_field.specs.ListPlace.{SameList, ListTakes, TakesListed, TakesEachListed};

    /// Takes a path or a number that the bytes begin with, or else the first byte, save where memory is refused for
    /// that; the reader is then unchanged. How many bytes that is, and what they make of the field.
    #[inline(never)]
    pub fn push_front(&mut self, bytes: &[u8]) -> (usize, FieldStep)
        requires { 1 ≤ length bytes.now }
        ensures takes { ListTakes self.old (take result.0 bytes.now) result.1 self.new }
        ensures some { 1 ≤ result.0 }
        ensures within { result.0 ≤ length bytes.now }
        ensures one { result.1 ≢ byte_makes.Ends → result.0 ≡ 1 }
        ensures refused { result.1 ≡ byte_makes.NoMemory → WasRefused SystemRefuses }
    {
        match self.whole_value(bytes) {
            Some(tail) => (bytes.len() - tail.len(), FieldStep::Ends),
            None => (1, self.push(bytes[0])),
        }
    }

    /// Takes paths and numbers that the bytes begin with, up to one that `push_front` takes: how many bytes they have.
    #[inline(never)]
    pub fn whole_values(&mut self, bytes: &[u8]) -> usize
        ensures within { result ≤ length bytes.now }
        ensures values { TakesEachListed self.old (take result bytes.now) self.new }
    {
        let mut rest = bytes;
        while let Some(tail) = self.whole_value(rest) {
            rest = tail;
        }
        bytes.len() - rest.len()
    }

    /// Takes a path or a number that the bytes begin with, and gives the bytes after it. None, and nothing is taken,
    /// where the bytes end before it does, at the zero byte after the last entry, where some of its bytes have come,
    /// where the number is too large, and where memory is refused.
    #[inline(always)]
    fn whole_value<'a>(&mut self, bytes: &'a [u8]) -> Option<&'a [u8]>
        ensures { MatchOption result (SameList self.old self.new)
            (λ tail. TakesListed self.old bytes.entry.now tail.now self.new) }
    {
        match self.phase {
            ListPhase::Path(start) => self.whole_path(start, bytes),
            ListPhase::Number(left, number) => self.whole_number(left, number, bytes),
            ListPhase::Whole => None,
        }
    }

    /// Takes a path that the bytes begin with, none of whose bytes has come, and gives the bytes after its zero byte.
    #[inline(always)]
    fn whole_path<'a>(&mut self, start: usize, bytes: &'a [u8]) -> Option<&'a [u8]>
        requires { self.old.phase ≡ phase.Path start }
        ensures { MatchOption result (SameList self.old self.new)
            (λ tail. TakesListed self.old bytes.entry.now tail.now self.new) }
    {
        if start != self.pool.len() {
            return None;
        }
        let len = first_zero(bytes)?;
        if len == 0 {
            return None;
        }
        if self.values.reserve(1).is_err() {
            return None;
        }
        if self.pool.extend_from_slice(&bytes[..len]).is_err() {
            return None;
        }
        let left = self.kind.numbers();
        match self.enter(StoredValue::Text(Extent::new(start, len)), left) {
            FieldStep::Ends => Some(&bytes[len + 1..]),
            _ => None,
        }
    }

    /// Takes a number that the bytes begin with, none of whose bytes has come, and gives the bytes after it.
    #[inline(always)]
    fn whole_number<'a>(&mut self, left: usize, number: Uleb, bytes: &'a [u8]) -> Option<&'a [u8]>
        requires { self.old.phase ≡ phase.Number left number }
        ensures { MatchOption result (SameList self.old self.new)
            (λ tail. TakesListed self.old bytes.entry.now tail.now self.new) }
    {
        let (number, tail) = leb_at_front(number, bytes)?;
        match self.enter(held_number(Form::Udata, number), left.saturating_sub(1)) {
            FieldStep::Ends => Some(tail),
            _ => None,
        }
    }
}
