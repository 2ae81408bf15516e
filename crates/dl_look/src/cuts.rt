//! From which places on which sequence of an index is the first rising one that covers.

ghost use Rattle.std.specs.Prelude.{◌≡◌, ℕ, ◌+◌, ◌*◌, ◌<◌, ◌≤◌, ◌&&◌, if◌then◌else◌, IfOk, OnErr, length, true, false, nat_le};
ghost use Rattle.std.specs.Prelude.{nat_lt, Some, None, is_none, slice_index_or};
ghost use Rattle.std.specs.List.{flat_map};
ghost use Rattle.std.specs.Option.{option_or};
ghost use Rattle.dl_memory.specs.Refusals.{IsRefused};
ghost use Rattle.dl_look.specs.Answer.{is_at_most};
ghost use Rattle.dl_look.specs.Cuts.{AreCuts, first_from, ends_of_span, cut_place};
ghost use Rattle.dl_look.specs.Links.{IsLinked, is_open};
ghost use Rattle.dl_look.specs.Slots.{IsRising, slot_place};

use crate::ledger::no_entries;
use crate::links::Links;
use crate::place::Place;
use crate::probed::Span;
use crate::slots::{Slot, first_not_below, sorted};
use dl_memory::{Memory, NoMemory};

/// From this place on, up to that of the next cut, the sequence of this number is the first rising one that
/// covers; None where none does.
#[derive(Clone, Copy)]
pub struct Cut {
    pub place: Place,
    pub sequence: Option<usize>,
}

/// The cuts of sequences, at most two for each.
pub fn cuts_of<M: Memory>(memory: &M, spans: &[Span]) -> Result<Vec<Cut>, NoMemory>
    ensures cuts { IfOk result (λ cuts. AreCuts spans.now cuts.items) }
    ensures refused { OnErr result (IsRefused (M.refuses memory.now) (2 * length spans.now + 1)) }
{
    let ends = ends_of(memory, spans)?;
    let slots = sorted(memory, ends.as_slice())?;
    let sequences = first_sequences(memory, slots.as_slice(), spans)?;
    let mut cuts = memory.with_capacity(slots.len())?;
    for i in 0..slots.len() {
        if i == 0 || slots[i - 1].place.is_below(slots[i].place) {
            cuts.push_reserved(Cut {
                place: slots[i].place,
                sequence: sequences[i],
            });
        }
    }
    Ok(cuts)
}

/// The places where sequences begin and end.
fn ends_of<M: Memory>(memory: &M, spans: &[Span]) -> Result<Vec<Place>, NoMemory>
    ensures ends { IfOk result (λ ends. ends.items ≡ flat_map ends_of_span spans.now) }
    ensures refused { OnErr result (IsRefused (M.refuses memory.now) (2 * length spans.now)) }
{
    let mut ends = Vec::new(memory.alloc());
    for span in spans {
        memory.push(&mut ends, span.first)?;
        memory.push(&mut ends, span.last)?;
    }
    Ok(ends)
}

/// The first rising sequence that covers each slot's place.
fn first_sequences<M: Memory>(
    memory: &M,
    slots: &[Slot],
    spans: &[Span],
) -> Result<Vec<Option<usize>>, NoMemory>
    requires { IsRising slots.now }
    ensures count { IfOk result (λ sequences. length sequences.items ≡ length slots.now) }
    ensures first { IfOk result (λ sequences. (j : ℕ) → j < length slots.now
        → slice_index_or sequences.items j None ≡ first_from 0 spans.now (slot_place slots.now j)) }
    ensures refused { OnErr result (IsRefused (M.refuses memory.now) (length slots.now + 1)) }
{
    let mut links = Links::build(memory, slots)?;
    let mut sequences = no_entries(memory, slots.len())?;
    for (i, span) in spans.iter().enumerate() {
        if span.rising {
            let low = first_not_below(slots, span.first);
            let high = first_not_below(slots, span.last);
            cover(&mut links, &mut sequences, low, high, i);
        }
    }
    Ok(sequences)
}

/// Gives the sequence to each open slot from `low` on, up to before `high`.
fn cover(
    links: &mut Links,
    sequences: &mut Vec<Option<usize>>,
    low: usize,
    high: usize,
    sequence: usize,
)
    requires linked { IsLinked links.old }
    requires count { length links.old.next.items ≡ length sequences.old.items + 1 }
    requires opens { (j : ℕ) → j < length sequences.old.items
        → is_open links.old.next.items j ≡ is_none (slice_index_or sequences.old.items j None) }
    requires from { low ≤ length sequences.old.items }
    requires to { high ≤ length sequences.old.items }
    ensures linked { IsLinked links.new }
    ensures links { length links.new.next.items ≡ length links.old.next.items }
    ensures count { length sequences.new.items ≡ length sequences.old.items }
    ensures opens { (j : ℕ) → j < length sequences.old.items
        → is_open links.new.next.items j ≡ is_none (slice_index_or sequences.new.items j None) }
    ensures given { (j : ℕ) → j < length sequences.old.items
        → slice_index_or sequences.new.items j None
        ≡ option_or (slice_index_or sequences.old.items j None)
        (if nat_le low j && nat_lt j high then Some sequence else None) }
{
    let mut at = links.first_open(low);
    while at < high {
        sequences[at] = Some(sequence);
        links.close(at);
        at = links.first_open(at + 1);
    }
}

/// How many cuts aren't above the place.
pub fn cuts_upto(cuts: &[Cut], place: Place) -> usize
    requires { (k m : ℕ) → k < m → m < length cuts.now
        → is_at_most (cut_place cuts.now k) (cut_place cuts.now m) ≡ true }
    ensures within { result ≤ length cuts.now }
    ensures upto { (k : ℕ) → k < result → is_at_most (cut_place cuts.now k) place ≡ true }
    ensures above { (k : ℕ) → result ≤ k → k < length cuts.now → is_at_most (cut_place cuts.now k) place ≡ false }
{
    let mut low = 0;
    let mut high = cuts.len();
    while low < high {
        let middle = low + (high - low) / 2;
        if cuts[middle].place.is_at_most(place) {
            low = middle + 1;
        } else {
            high = middle;
        }
    }
    low
}
