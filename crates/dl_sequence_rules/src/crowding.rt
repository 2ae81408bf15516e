//! The sequences that share places with others. Sections 6.2.2 and 6.2.5.3.

ghost use Rattle.std.specs.Prelude.{◌≡◌, ℕ, ◌≤◌, ◌<◌, [], false, true, length, replicate, IfOk, OnErr};
ghost use Rattle.dl_memory.specs.Refusals.{IsRefused};
ghost use Rattle.dl_look.specs.Answer.{is_at_most};
ghost use Rattle.dl_sequence_rules.specs.Alone.{AreAlone, AreBelow, AreMarks, AreStretches, DoBeginInOrder, stretch_at};
ghost use Rattle.dl_sequence_rules.specs.SequenceFindings.{overlaps_after};

use crate::ended::Ended;
use crate::spans::LEAST;
use dl_look::Place;
use dl_memory::{Memory, NoMemory};

/// The places of a sequence, and its number among these. Stretches are ordered by the places where they begin.
#[derive(Clone, Copy, PartialEq, Eq, PartialOrd, Ord)]
struct Stretch {
    first: Place,
    /// The first place after it.
    last: Place,
    number: usize,
}

/// The sequences without those that share no place with another one, in their order.
///
/// They have the same overlaps, told one after the other. It takes time in proportion to n log n, and where the sequences are in order
/// but for a few places, as those of a linked file are, in proportion to n. While it runs it takes 81 bytes for each sequence, beside those
/// that it answers.
pub fn crowded<M: Memory>(memory: &M, sequences: &[Ended]) -> Result<Vec<Ended>, NoMemory>
    ensures same { IfOk result (λ kept. overlaps_after [] kept.items ≡ overlaps_after [] sequences.now) }
    ensures few { IfOk result (λ kept. length kept.items ≤ length sequences.now) }
    ensures refused { OnErr result (IsRefused (M.refuses memory.now) (length sequences.now)) }
{
    let stretches = stretches_of(memory, sequences)?;
    let alone = alone_in(memory, stretches.as_slice(), sequences.len())?;
    without(memory, sequences, alone.as_slice())
}

/// A stretch for each sequence, in order.
fn stretches_of<M: Memory>(memory: &M, sequences: &[Ended]) -> Result<Vec<Stretch>, NoMemory>
    ensures stretches { IfOk result (λ stretches. AreStretches sequences.now stretches.items) }
    ensures refused { OnErr result (IsRefused (M.refuses memory.now) (length sequences.now)) }
{
    let mut stretches = memory.with_capacity(sequences.len())?;
    for (number, sequence) in sequences.iter().enumerate() {
        stretches.push_reserved(Stretch {
            first: sequence.first,
            last: sequence.row.place,
            number,
        });
    }
    memory.sort_by_key(&mut stretches, |stretch| *stretch)?;
    Ok(stretches)
}

/// For each number of a sequence whether its stretch shares no place with another one. `count`: how many sequences there are.
fn alone_in<M: Memory>(
    memory: &M,
    stretches: &[Stretch],
    count: usize,
) -> Result<Vec<bool>, NoMemory>
    requires rise { DoBeginInOrder stretches.now }
    requires below { AreBelow count stretches.now }
    ensures count { IfOk result (λ alone. length alone.items ≡ count) }
    ensures marks { IfOk result (λ alone. AreMarks stretches.now alone.items) }
    ensures refused { OnErr result (IsRefused (M.refuses memory.now) count) }
{
    let mut alone = none_alone(memory, count)?;
    mark_alone(stretches, alone.as_mut_slice());
    Ok(alone)
}

/// None of `count` is alone.
fn none_alone<M: Memory>(memory: &M, count: usize) -> Result<Vec<bool>, NoMemory>
    ensures alone { IfOk result (λ alone. alone.items ≡ replicate count false) }
    ensures refused { OnErr result (IsRefused (M.refuses memory.now) count) }
{
    let mut alone = memory.with_capacity(count)?;
    match alone.resize(count, false) {
        Ok(()) => Ok(alone),
        Err(_) => unreachable!(),
    }
}

/// Marks those that share no place with another one: none before them ends above where they begin, and none after them begins
/// below where they end.
fn mark_alone(stretches: &[Stretch], alone: &mut [bool])
    requires rise { DoBeginInOrder stretches.now }
    requires below { AreBelow (length alone.old) stretches.now }
    requires marks { AreMarks stretches.now alone.old }
    ensures { AreMarks stretches.now alone.new }
{
    let mut reached = LEAST;
    for k in 0..stretches.len() {
        let stretch = stretches[k];
        if reached <= stretch.first && begin_from(stretches, k + 1, stretch.last) {
            alone[stretch.number] = true;
        }
        reached = greater(reached, stretch.last);
    }
}

/// Whether the first one from `low` on, where there is one, begins at this place or above it: so do all after it.
fn begin_from(stretches: &[Stretch], low: usize, place: Place) -> bool
    requires { DoBeginInOrder stretches.now }
    ensures { result ≡ true → (m : ℕ) → low ≤ m → m < length stretches.now
        → is_at_most place (stretch_at stretches.now m).first ≡ true }
{
    match stretches.get(low) {
        Some(stretch) => place <= stretch.first,
        None => true,
    }
}

/// The greater one of two places.
fn greater(a: Place, b: Place) -> Place
    ensures first { is_at_most a result ≡ true }
    ensures second { is_at_most b result ≡ true }
{
    if a < b { b } else { a }
}

/// The sequences but for those that are marked.
fn without<M: Memory>(
    memory: &M,
    sequences: &[Ended],
    alone: &[bool],
) -> Result<Vec<Ended>, NoMemory>
    requires { AreAlone sequences.now alone.now }
    ensures same { IfOk result (λ kept. overlaps_after [] kept.items ≡ overlaps_after [] sequences.now) }
    ensures few { IfOk result (λ kept. length kept.items ≤ length sequences.now) }
    ensures refused { OnErr result (IsRefused (M.refuses memory.now) (length sequences.now)) }
{
    let mut kept = Vec::new(memory.alloc());
    for (number, sequence) in sequences.iter().enumerate() {
        if !alone[number] {
            memory.push(&mut kept, *sequence)?;
        }
    }
    Ok(kept)
}
