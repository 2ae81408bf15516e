//! Which slots are open, with links over those that aren't.

ghost use Rattle.std.specs.Prelude.{◌≡◌, IfOk, OnErr, replicate, false};
ghost use Rattle.dl_memory.specs.Refusals.{IsRefused};

use crate::slots::Slot;
use dl_memory::{Memory, NoMemory};

/// Slots that are open, that are closed, and that are sealed, which is closed for good.
///
/// The link of a slot leads to one that isn't before it, with no open slot from the one up to before the
/// other; that of an open slot to itself. The link of a sealed slot leads over sealed slots alone, so that it
/// holds when the others open again. After the slots stands one more, which stays open.
#[derive(Drop)]
pub struct Links {
    next: Vec<usize>,
    sealed: Vec<bool>,
}

impl Links {
    ghost use Rattle.std.specs.Prelude.{◌≡◌, ℕ, ◌+◌, ◌<◌, ◌≤◌, ◌≢◌, IfOk, OnErr, length, true, false, not};
    ghost use Rattle.dl_memory.specs.Refusals.{IsRefused};
    ghost use Rattle.dl_look.specs.Links.{IsLinked, AreClosed, is_open, is_sealed};

    /// All slots are open.
    pub fn build<M: Memory>(memory: &M, slots: &[Slot]) -> Result<Links, NoMemory>
        ensures linked { IfOk result (λ links. IsLinked links) }
        ensures count { IfOk result (λ links. length links.next.items ≡ length slots.now + 1) }
        ensures open { IfOk result (λ links. (j : ℕ) → j ≤ length slots.now → is_open links.next.items j ≡ true) }
        ensures unsealed { IfOk result (λ links. (j : ℕ) → is_sealed links.sealed.items j ≡ false) }
        ensures refused { OnErr result (IsRefused (M.refuses memory.now) (length slots.now + 1)) }
    {
        let count = slots.len() + 1;
        let mut next = memory.with_capacity(count)?;
        for slot in 0..count {
            next.push_reserved(slot);
        }
        Ok(Links {
            next,
            sealed: none_sealed(memory, count)?,
        })
    }

    /// The first open slot from this one on.
    ///
    /// The links on the way are made to lead further, so that many calls together take little more than
    /// constant time each. Where the link of a sealed slot leads to one that isn't sealed it stays, and the
    /// link of that one is made to lead further.
    pub fn first_open(&mut self, from: usize) -> usize
        requires linked { IsLinked self.old }
        requires within { from < length self.old.next.items }
        ensures linked { IsLinked self.new }
        ensures count { length self.new.next.items ≡ length self.old.next.items }
        ensures same { (j : ℕ) → j < length self.old.next.items
            → is_open self.new.next.items j ≡ is_open self.old.next.items j }
        ensures sealed { self.new.sealed.items ≡ self.old.sealed.items }
        ensures ahead { from ≤ result }
        ensures within { result < length self.old.next.items }
        ensures open { is_open self.new.next.items result ≡ true }
        ensures closed { (j : ℕ) → from ≤ j → j < result → is_open self.new.next.items j ≡ false }
    {
        let mut at = from;
        while self.next[at] != at {
            let next = self.next[at];
            if self.sealed[at] && !self.sealed[next] {
                at = next;
            } else {
                let further = self.next[next];
                self.next[at] = further;
                at = further;
            }
        }
        at
    }

    /// Closes a slot.
    pub fn close(&mut self, at: usize)
        requires linked { IsLinked self.old }
        requires within { at + 1 < length self.old.next.items }
        ensures linked { IsLinked self.new }
        ensures count { length self.new.next.items ≡ length self.old.next.items }
        ensures closed { is_open self.new.next.items at ≡ false }
        ensures same { (j : ℕ) → j < length self.old.next.items → j ≢ at
            → is_open self.new.next.items j ≡ is_open self.old.next.items j }
        ensures sealed { self.new.sealed.items ≡ self.old.sealed.items }
    {
        self.next[at] = at + 1;
    }

    /// Seals these slots, which are all that are closed.
    pub fn seal(&mut self, closed: &[usize])
        requires linked { IsLinked self.old }
        requires closed { AreClosed self.old closed.now }
        ensures linked { IsLinked self.new }
        ensures same { self.new.next.items ≡ self.old.next.items }
        ensures sealed { (j : ℕ) → j < length self.old.next.items
            → is_sealed self.new.sealed.items j ≡ not (is_open self.old.next.items j) }
    {
        for slot in closed {
            self.sealed[*slot] = true;
        }
    }

    /// Opens these slots, which are all that are closed.
    pub fn reopen(&mut self, closed: &[usize])
        requires linked { IsLinked self.old }
        requires closed { AreClosed self.old closed.now }
        ensures linked { IsLinked self.new }
        ensures count { length self.new.next.items ≡ length self.old.next.items }
        ensures open { (j : ℕ) → j < length self.old.next.items
            → is_open self.new.next.items j ≡ not (is_sealed self.old.sealed.items j) }
        ensures sealed { self.new.sealed.items ≡ self.old.sealed.items }
    {
        for slot in closed {
            self.next[*slot] = *slot;
        }
    }
}

/// None of `count` slots is sealed.
fn none_sealed<M: Memory>(memory: &M, count: usize) -> Result<Vec<bool>, NoMemory>
    ensures sealed { IfOk result (λ sealed. sealed.items ≡ replicate count false) }
    ensures refused { OnErr result (IsRefused (M.refuses memory.now) count) }
{
    let mut sealed = memory.with_capacity(count)?;
    match sealed.resize(count, false) {
        Ok(()) => Ok(sealed),
        Err(_) => unreachable!(),
    }
}
