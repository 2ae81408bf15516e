//! Which row of the current sequence each slot has, as far as the sequence has come.

ghost use Rattle.std.specs.Prelude.{◌≡◌, ℕ, ◌<◌, ◌≤◌, ◌&&◌, if◌then◌else◌, length, true, nat_le, nat_lt, Some, None};
ghost use Rattle.std.specs.Prelude.{vec_capacity};
ghost use Rattle.std.specs.Option.{option_or};
ghost use Rattle.dl_look.specs.Answer.{is_below};
ghost use Rattle.dl_look.specs.Ledgers.{IsSound, answer_upto};
ghost use Rattle.dl_look.specs.Slots.{IsNumbered, IsRising, slot_number, slot_place};
ghost use Rattle.dl_look.specs.Trails.{row_at, StartsWithin};

use crate::ledger::Ledger;
use crate::place::Place;
use crate::slots::{Slot, first_not_below};
use dl_rows::Row;

/// Slots from `start` on, up to where the next stretch starts, have this row.
#[derive(Clone, Copy)]
pub struct Stretch {
    pub start: usize,
    pub row: Row,
}

/// The last row holds for the slots from `end` on whose place is below this one. Where there are any they
/// become a stretch. Returns the new end.
pub fn pass(trail: &mut Vec<Stretch>, slots: &[Slot], last: &Row, end: usize, place: Place) -> usize
    requires rising { IsRising slots.now }
    requires within { end ≤ length slots.now }
    requires below { (j : ℕ) → j < end → is_below (slot_place slots.now j) place ≡ true }
    requires room { length trail.old.items ≤ end }
    requires capacity { length slots.now ≤ vec_capacity trail.old }
    requires starts { StartsWithin (length slots.now) trail.old.items }
    ensures within { result ≤ length slots.now }
    ensures split { (j : ℕ) → j < length slots.now → is_below (slot_place slots.now j) place ≡ nat_lt j result }
    ensures rows { (j : ℕ) → row_at trail.new.items result j
        ≡ option_or (row_at trail.old.items end j) (if nat_le end j && nat_lt j result then Some last.now else None) }
    ensures room { length trail.new.items ≤ result }
    ensures capacity { length slots.now ≤ vec_capacity trail.new }
    ensures room_kept { vec_capacity trail.new ≡ vec_capacity trail.old }
    ensures starts { StartsWithin (length slots.now) trail.new.items }
{
    if end == slots.len() || !slots[end].place.is_below(place) {
        return end;
    }
    trail.push_reserved(Stretch {
        start: end,
        row: *last,
    });
    first_not_below(slots, place)
}

/// Gives each stretch's row to its open slots.
pub fn settle(trail: &[Stretch], end: usize, slots: &[Slot], ledger: &mut Ledger)
    requires numbered { IsNumbered slots.now }
    requires sound { IsSound slots.now ledger.old }
    requires within { end ≤ length slots.now }
    requires starts { StartsWithin (length slots.now) trail.now }
    ensures sound { IsSound slots.now ledger.new }
    ensures given { (j : ℕ) → j < length slots.now
        → answer_upto (length ledger.new.log.items) ledger.new (slot_number slots.now j)
        ≡ option_or (answer_upto (length ledger.old.log.items) ledger.old (slot_number slots.now j))
        (row_at trail.now end j) }
    ensures before { (limit i : ℕ) → limit ≤ length ledger.old.log.items
        → answer_upto limit ledger.new i ≡ answer_upto limit ledger.old i }
    ensures grown { length ledger.old.log.items ≤ length ledger.new.log.items }
    ensures sealed { ledger.new.links.sealed.items ≡ ledger.old.links.sealed.items }
    ensures log_room { vec_capacity ledger.new.log ≡ vec_capacity ledger.old.log }
    ensures slots_room { vec_capacity ledger.new.log_slots ≡ vec_capacity ledger.old.log_slots }
{
    for (i, stretch) in trail.iter().enumerate() {
        let high = if i + 1 < trail.len() {
            trail[i + 1].start
        } else {
            end
        };
        ledger.give(slots, stretch.start, high, &stretch.row);
    }
}
