//! The answers of places, in the order in which they come.

ghost use Rattle.std.specs.Prelude.{◌≡◌, ℕ, ◌+◌, ◌<◌, ◌≤◌, IfOk, OnErr, length, replicate, slice_index_or, Some, None};
ghost use Rattle.dl_memory.specs.Refusals.{IsRefused};
ghost use Rattle.dl_look.specs.Ledgers.{no_answer, unanswered};

use crate::links::Links;
use crate::slots::Slot;
use dl_memory::{Memory, NoMemory};
use dl_rows::Row;

/// The answer of a place.
#[derive(Debug, Clone, Copy, PartialEq, Eq)]
pub struct Answered {
    /// The number of the place among those that were given.
    pub number: usize,
    /// The row that answers.
    pub row: Row,
}

/// The answers of places, and which slots have none.
#[derive(Drop)]
pub struct Ledger {
    links: Links,
    entries: Vec<Option<usize>>,
    log: Vec<Answered>,
    /// The slot of each answer.
    log_slots: Vec<usize>,
}

impl Ledger {
    ghost use Rattle.std.specs.Prelude.{◌≡◌, ℕ, ◌+◌, ◌<◌, ◌≤◌, ◌≢◌, ◌&&◌, if◌then◌else◌, IfOk, OnErr, length, true, false, [], vec_capacity};
    ghost use Rattle.dl_memory.specs.Refusals.{IsRefused};
    ghost use Rattle.std.specs.Prelude.{Some, None, nat_le, nat_lt, List, drop};
    ghost use Rattle.std.specs.Option.{option_or};
    ghost use Rattle.dl_look.specs.Links.{IsLinked, AreClosed, is_open, is_sealed};
    ghost use Rattle.dl_look.specs.Slots.{IsNumbered, slot_number};
    ghost use Rattle.dl_look.specs.Ledgers.{IsSound, AreSealed, answer_upto, answered_at, entry_at};
    ghost use Rattle.dl_look.specs.declared.slots.Slot.{Slot};

    /// No answer yet.
    pub fn build<M: Memory>(memory: &M, slots: &[Slot]) -> Result<Ledger, NoMemory>
        ensures sound { IfOk result (λ ledger. IsSound slots.now ledger) }
        ensures none { IfOk result (λ ledger. (i : ℕ) → entry_at ledger i ≡ None) }
        ensures empty { IfOk result (λ ledger. ledger.log.items ≡ []) }
        ensures unsealed { IfOk result (λ ledger. (j : ℕ) → is_sealed ledger.links.sealed.items j ≡ false) }
        ensures refused { OnErr result (IsRefused (M.refuses memory.now) (length slots.now + 1)) }
    {
        let links = Links::build(memory, slots)?;
        let entries = no_entries(memory, slots.len())?;
        let log = memory.with_capacity(slots.len())?;
        let log_slots = memory.with_capacity(slots.len())?;
        Ok(Ledger {
            links,
            entries,
            log,
            log_slots,
        })
    }

    /// The answers, in the order in which they came.
    pub fn log(&self) -> &[Answered]
        ensures { result.now ≡ self.now.log.items }
    {
        self.log.as_slice()
    }

    /// The answer of the place of this number, where it is among the first `limit`.
    pub fn answer(&self, number: usize, limit: usize) -> Option<Row>
        requires { (i e : ℕ) → entry_at self.now i ≡ Some e → e < length self.now.log.items }
        ensures { result ≡ answer_upto limit self.now number }
    {
        if number >= self.entries.len() {
            return None;
        }
        let entry = self.entries[number]?;
        if entry < limit {
            Some(self.log[entry].row)
        } else {
            None
        }
    }

    /// Gives the row to each open slot from `low` on, up to before `high`.
    pub fn give(&mut self, slots: &[Slot], low: usize, high: usize, row: &Row)
        requires numbered { IsNumbered slots.now }
        requires sound { IsSound slots.now self.old }
        requires from { low ≤ length slots.now }
        requires to { high ≤ length slots.now }
        ensures sound { IsSound slots.now self.new }
        ensures given { (j : ℕ) → j < length slots.now
            → answer_upto (length self.new.log.items) self.new (slot_number slots.now j)
            ≡ option_or (answer_upto (length self.old.log.items) self.old (slot_number slots.now j))
            (if nat_le low j && nat_lt j high then Some row.now else None) }
        ensures before { (limit i : ℕ) → limit ≤ length self.old.log.items
            → answer_upto limit self.new i ≡ answer_upto limit self.old i }
        ensures grown { length self.old.log.items ≤ length self.new.log.items }
        ensures sealed { self.new.links.sealed.items ≡ self.old.links.sealed.items }
        ensures log_room { vec_capacity self.new.log ≡ vec_capacity self.old.log }
        ensures slots_room { vec_capacity self.new.log_slots ≡ vec_capacity self.old.log_slots }
    {
        let mut at = self.links.first_open(low);
        while at < high {
            self.answer_slot(slots, at, row);
            at = self.links.first_open(at + 1);
        }
    }

    /// Gives the row to an open slot.
    fn answer_slot(&mut self, slots: &[Slot], at: usize, row: &Row)
        requires numbered { IsNumbered slots.now }
        requires sound { IsSound slots.now self.old }
        requires within { at < length slots.now }
        requires open { is_open self.old.links.next.items at ≡ true }
        ensures sound { IsSound slots.now self.new }
        ensures closed { is_open self.new.links.next.items at ≡ false }
        ensures others { (j : ℕ) → j < length self.old.links.next.items → j ≢ at
            → is_open self.new.links.next.items j ≡ is_open self.old.links.next.items j }
        ensures given { answer_upto (length self.new.log.items) self.new (slot_number slots.now at) ≡ Some row.now }
        ensures same { (i : ℕ) → i ≢ slot_number slots.now at
            → answer_upto (length self.new.log.items) self.new i ≡ answer_upto (length self.old.log.items) self.old i }
        ensures before { (limit i : ℕ) → limit ≤ length self.old.log.items
            → answer_upto limit self.new i ≡ answer_upto limit self.old i }
        ensures grown { length self.new.log.items ≡ length self.old.log.items + 1 }
        ensures sealed { self.new.links.sealed.items ≡ self.old.links.sealed.items }
        ensures log_room { vec_capacity self.new.log ≡ vec_capacity self.old.log }
        ensures slots_room { vec_capacity self.new.log_slots ≡ vec_capacity self.old.log_slots }
    {
        let number = slots[at].number;
        self.entries[number] = Some(self.log.len());
        self.log.push_reserved(Answered { number, row: *row });
        self.log_slots.push_reserved(at);
        self.links.close(at);
    }

    /// All answers are there to stay, as the first `whole` were before.
    pub fn seal(&mut self, whole: usize)
        requires linked { IsLinked self.old.links }
        requires within { whole ≤ length self.old.log_slots.items }
        requires closed { AreClosed self.old.links (drop whole self.old.log_slots.items) }
        ensures sound { (slots : List Slot) → IsSound slots self.old → IsSound slots self.new }
        ensures sealed { (slots : List Slot) → IsSound slots self.old
            → AreSealed slots (length self.new.log.items) self.new }
        ensures answers { (limit i : ℕ) → answer_upto limit self.new i ≡ answer_upto limit self.old i }
        ensures log { self.new.log.items ≡ self.old.log.items }
        ensures log_room { vec_capacity self.new.log ≡ vec_capacity self.old.log }
        ensures slots_room { vec_capacity self.new.log_slots ≡ vec_capacity self.old.log_slots }
    {
        self.links.seal(&self.log_slots[whole..]);
    }

    /// Takes back the answers but for the first `whole`.
    pub fn forget(&mut self, whole: usize)
        requires linked { IsLinked self.old.links }
        requires within { whole ≤ length self.old.log.items }
        requires closed { AreClosed self.old.links (drop whole self.old.log_slots.items) }
        requires slots { length self.old.log_slots.items ≡ length self.old.log.items }
        requires logged { (i e : ℕ) → entry_at self.old i ≡ Some e
            → (e < length self.old.log.items) × ((answered_at self.old e).number ≡ i) }
        requires kept { (e : ℕ) → e < length self.old.log.items
            → entry_at self.old (answered_at self.old e).number ≡ Some e }
        ensures sound { (slots : List Slot) → IsNumbered slots → AreSealed slots whole self.old
            → IsSound slots self.old → IsSound slots self.new }
        ensures sealed { self.new.links.sealed.items ≡ self.old.links.sealed.items }
        ensures before { (limit i : ℕ) → limit ≤ whole
            → answer_upto limit self.new i ≡ answer_upto limit self.old i }
        ensures count { length self.new.log.items ≡ whole }
        ensures log_room { vec_capacity self.new.log ≡ vec_capacity self.old.log }
        ensures slots_room { vec_capacity self.new.log_slots ≡ vec_capacity self.old.log_slots }
    {
        self.links.reopen(&self.log_slots[whole..]);
        clear_entries(&mut self.entries, self.log.as_slice(), whole);
        self.log.truncate(whole);
        self.log_slots.truncate(whole);
    }
}

/// No entry for each of `count` places.
pub(crate) fn no_entries<M: Memory>(
    memory: &M,
    count: usize,
) -> Result<Vec<Option<usize>>, NoMemory>
    ensures entries { IfOk result (λ entries. entries.items ≡ replicate count None) }
    ensures refused { OnErr result (IsRefused (M.refuses memory.now) count) }
{
    let mut entries = memory.with_capacity(count)?;
    match entries.resize(count, None) {
        Ok(()) => Ok(entries),
        Err(_) => unreachable!(),
    }
}

/// The places whose answers come after the first `whole` have no entry any more.
fn clear_entries(entries: &mut Vec<Option<usize>>, log: &[Answered], whole: usize)
    requires within { whole ≤ length log.now }
    requires logged { (i e : ℕ) → slice_index_or entries.old.items i None ≡ Some e
        → (e < length log.now) × ((slice_index_or log.now e no_answer).number ≡ i) }
    requires kept { (e : ℕ) → e < length log.now
        → slice_index_or entries.old.items (slice_index_or log.now e no_answer).number None ≡ Some e }
    ensures count { length entries.new.items ≡ length entries.old.items }
    ensures left { (i e : ℕ) → slice_index_or entries.new.items i None ≡ Some e
        → (slice_index_or entries.old.items i None ≡ Some e) × (e < whole) }
    ensures stays { (i e : ℕ) → slice_index_or entries.old.items i None ≡ Some e → e < whole
        → slice_index_or entries.new.items i None ≡ Some e }
    ensures room { whole + unanswered entries.new.items ≡ length log.now + unanswered entries.old.items }
{
    for answered in &log[whole..] {
        entries[answered.number] = None;
    }
}
