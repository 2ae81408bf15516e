//! A walk over the units of `.debug_info`, whose bytes come in pieces. DWARF 2, 3, 4 and 5, section 7.5.
ghost use Rattle.std.specs.Prelude.{◌≡◌, ◌+◌, ◌≤◌, ◌<◌, ◌++◌, [], ℕ, List, IfErr, IfOk, OnErr, OnOk, length, take};
ghost use Rattle.dl_memory.specs.Refusals.{IsRefused};
ghost use Rattle.dl_num.specs.declared.fixed.Order.{Order};
ghost use Rattle.dl_info.specs.declared.head.UnitLength.{UnitLength};
ghost use Rattle.dl_info.specs.declared.unit.Answer.TheVariants.{Found};
ghost use Rattle.dl_info.specs.Entries.{EntryData};
ghost use Rattle.dl_info.specs.Section.{section_of};
ghost use Rattle.dl_info.specs.Units.{first_entry, unit_length};
ghost use Rattle.dl_dirs.specs.Units.{HasDirectory, entries, found_in};
ghost use Rattle.dl_dirs.specs.Holding.{AreOf, Fits, Holds};
ghost use Rattle.dl_dirs.specs.Standing.{Awaits, GoesOn, Keeps, KeepsWith, StandsFor, Took, passed, told_length};
ghost use Rattle.dl_dirs.specs.declared.walk.InfoStage.TheVariants as state;

use crate::places::Places;
use dl_info::{Abbreviations, Answer, UnitLength, first_entry, unit_length};
use dl_memory::{Memory, NoMemory};
use dl_num::Order;
use std::alloc::Global;

/// As many bytes at least are awaited of a unit before its front is read again, where it has as many.
const AWAITED: usize = 32;

/// Where a walk is.
#[derive(Clone, Copy)]
pub(crate) enum InfoStage {
    /// In a unit of which the first bytes are kept. After so many more they are read again.
    Begun(usize),
    /// So many bytes before the end of a unit whose first entry is passed.
    Body(u64),
    /// Where no unit begins. Nothing after it is read.
    Ended,
}

/// A walk over the units of `.debug_info`.
///
/// Of each unit it reads the first entry, and passes over the rest of it by its length. The bytes of one unit are kept
/// at a time, and only where a piece ends inside its first entry.
#[derive(Drop)]
pub struct Walk<'a> {
    abbreviations: Abbreviations<'a>,
    state: InfoStage,
    /// The first bytes of a unit.
    front: Vec<u8>,
    places: Places,
}

/// Reads a unit from its first bytes, and takes its entry: its length, More where they don't tell the entry.
fn read<M: Memory>(
    memory: &M,
    places: &mut Places,
    abbreviations: &mut Abbreviations<'_>,
    front: &[u8],
) -> Result<Answer<UnitLength>, NoMemory>
    ensures order { places.new.order ≡ places.old.order }
    ensures abbreviations { section_of abbreviations.new ≡ section_of abbreviations.old }
    ensures length { IfOk result (λ length.
        length ≡ told_length places.old.order (section_of abbreviations.old) front.now) }
    ensures holds { OnOk result ((es : List EntryData) → Holds places.old es
        → Holds places.new (es ++ found_in (first_entry places.old.order (section_of abbreviations.old) front.now))) }
    ensures memory { IfErr result (λ error.
        HasDirectory (found_in (first_entry places.old.order (section_of abbreviations.old) front.now))) }
    ensures few { (over : ℕ) → Fits places.old over
        → IfOk result (λ length. Fits places.new (over + passed length front.now)) }
    ensures refused { (over : ℕ) → Fits places.old over → (es : List EntryData) → Holds places.old es
        → OnErr result (IsRefused (M.refuses memory.now) (over + length front.now)) }
{
    match first_entry(places.order, front, abbreviations) {
        Answer::Found(entry) => places.add(memory, &entry)?,
        Answer::More => return Ok(Answer::More),
        Answer::Unreadable => {}
    }
    Ok(unit_length(places.order, front))
}

/// How many bytes are awaited after the first ones of a unit, which don't tell its entry: as many again, so that all
/// readings of them together take no longer than a few of the last one.
fn awaited(order: Order, front: &[u8]) -> usize
    requires { (l : UnitLength) → unit_length order front.now ≡ Found l → length front.now < l.size }
    ensures { Awaits order front.now result }
{
    match unit_length(order, front) {
        Answer::Found(unit) => {
            let left = unit.size - front.len() as u64;
            left.min(front.len().max(AWAITED) as u64) as usize
        }
        _ => 1,
    }
}

impl<'a> Walk<'a> {
    /// No byte yet of a section of this order, whose abbreviations these are. It takes no memory.
    pub fn new(alloc: Global, order: Order, abbreviations: &'a [u8]) -> Walk<'a>
        ensures stands { StandsFor result order abbreviations.entry.now [] }
        ensures few { Keeps result 0 }
    {
        Walk {
            abbreviations: Abbreviations::new(alloc, abbreviations),
            state: InfoStage::Body(0),
            front: Vec::new(alloc),
            places: Places::new(alloc, order),
        }
    }

    /// Takes the next bytes of the section. Where memory was refused, for a directory or for the first bytes of a unit, the
    /// walk is used up.
    pub fn feed<M: Memory>(self, memory: &M, piece: &[u8]) -> Result<Walk<'a>, NoMemory>
        ensures stands { (order : Order) (abbreviations b : List ℕ) → StandsFor self.entry order abbreviations b
            → IfOk result (λ walk. StandsFor walk order abbreviations (b ++ piece.now)) }
        ensures memory { IfErr result (λ error. 1 ≤ length piece.now) }
        ensures few { (taken : ℕ) → Keeps self.entry taken → IfOk result (λ walk. Keeps walk (taken + length piece.now)) }
        ensures refused { (taken : ℕ) → Keeps self.entry taken
            → IfErr result (λ error. IsRefused (M.refuses memory.now) (taken + length piece.now)) }
    {
        let mut walk = self;
        let mut at = 0;
        for _ in 0..piece.len() {
            if at == piece.len() {
                break;
            }
            at += walk.advance(memory, &piece[at..])?;
        }
        Ok(walk)
    }

    /// Takes bytes of the section, of which there are some: how many.
    fn advance<M: Memory>(&mut self, memory: &M, piece: &[u8]) -> Result<usize, NoMemory>
        requires { 1 ≤ length piece.now }
        ensures within { IfOk result (λ used. used ≤ length piece.now) }
        ensures stands { (order : Order) (abbreviations b : List ℕ) → StandsFor self.old order abbreviations b
            → IfOk result (Took self.new order abbreviations b piece.now) }
        ensures few { (taken : ℕ) → Keeps self.old taken → IfOk result (λ used. Keeps self.new (taken + used)) }
        ensures refused { (taken : ℕ) → Keeps self.old taken
            → OnErr result (IsRefused (M.refuses memory.now) (taken + length piece.now)) }
    {
        match self.state {
            InfoStage::Begun(awaited) => self.grow(memory, awaited, piece),
            InfoStage::Body(left) => self.pass(memory, left, piece),
            InfoStage::Ended => Ok(piece.len()),
        }
    }

    /// The same in a unit of which the first bytes are kept.
    fn grow<M: Memory>(
        &mut self,
        memory: &M,
        awaited: usize,
        piece: &[u8],
    ) -> Result<usize, NoMemory>
        requires { 1 ≤ length piece.now }
        ensures within { IfOk result (λ used. used ≤ length piece.now) }
        ensures stands { (order : Order) (abbreviations b : List ℕ) → self.old.state ≡ state.Begun awaited
            → StandsFor self.old order abbreviations b
            → IfOk result (Took self.new order abbreviations b piece.now) }
        ensures few { (taken : ℕ) → KeepsWith self.old.places self.old.front.items taken
            → IfOk result (λ used. Keeps self.new (taken + used)) }
        ensures refused { (taken : ℕ) → KeepsWith self.old.places self.old.front.items taken
            → OnErr result (IsRefused (M.refuses memory.now) (taken + length piece.now)) }
    {
        let used = awaited.min(piece.len());
        memory.extend_from_slice(&mut self.front, &piece[..used])?;
        if used < awaited {
            self.state = InfoStage::Begun(awaited - used);
        } else {
            self.read_front(memory)?;
        }
        Ok(used)
    }

    /// Reads a unit from its first bytes, which are kept.
    fn read_front<M: Memory>(&mut self, memory: &M) -> Result<(), NoMemory>
        ensures stands { (order : Order) (abbreviations b : List ℕ)
            → GoesOn self.old order abbreviations b self.old.front.items
            → ((l : UnitLength) → unit_length order self.old.front.items ≡ Found l
            → length self.old.front.items ≤ l.size)
            → OnOk result (StandsFor self.new order abbreviations b) }
        ensures few { (taken : ℕ) → KeepsWith self.old.places self.old.front.items taken → OnOk result (Keeps self.new taken) }
        ensures refused { (taken : ℕ) → KeepsWith self.old.places self.old.front.items taken
            → OnErr result (IsRefused (M.refuses memory.now) taken) }
    {
        self.state = match read(
            memory,
            &mut self.places,
            &mut self.abbreviations,
            &self.front,
        )? {
            Answer::Found(unit) => InfoStage::Body(
                unit.size.saturating_sub(self.front.len() as u64),
            ),
            Answer::More => InfoStage::Begun(awaited(self.places.order, &self.front)),
            Answer::Unreadable => InfoStage::Ended,
        };
        Ok(())
    }

    /// The same so many bytes before the end of a unit.
    fn pass<M: Memory>(&mut self, memory: &M, left: u64, piece: &[u8]) -> Result<usize, NoMemory>
        requires { 1 ≤ length piece.now }
        ensures within { IfOk result (λ used. used ≤ length piece.now) }
        ensures stands { (order : Order) (abbreviations b : List ℕ) → self.old.state ≡ state.Body left
            → StandsFor self.old order abbreviations b
            → IfOk result (Took self.new order abbreviations b piece.now) }
        ensures few { (taken : ℕ) → self.old.state ≡ state.Body left → Keeps self.old taken
            → IfOk result (λ used. Keeps self.new (taken + used)) }
        ensures refused { (taken : ℕ) → self.old.state ≡ state.Body left → Keeps self.old taken
            → OnErr result (IsRefused (M.refuses memory.now) (taken + length piece.now)) }
    {
        if left >= piece.len() as u64 {
            self.state = InfoStage::Body(left - piece.len() as u64);
            return Ok(piece.len());
        }
        let left = left as usize;
        Ok(left + self.begin(memory, &piece[left..])?)
    }

    /// The same where a unit begins.
    fn begin<M: Memory>(&mut self, memory: &M, piece: &[u8]) -> Result<usize, NoMemory>
        requires { 1 ≤ length piece.now }
        ensures within { IfOk result (λ used. used ≤ length piece.now) }
        ensures stands { (order : Order) (abbreviations b : List ℕ) → GoesOn self.old order abbreviations b []
            → IfOk result (Took self.new order abbreviations b piece.now) }
        ensures few { (taken : ℕ) → KeepsWith self.old.places [] taken → IfOk result (λ used. Keeps self.new (taken + used)) }
        ensures refused { (taken : ℕ) → KeepsWith self.old.places [] taken
            → OnErr result (IsRefused (M.refuses memory.now) (taken + length piece.now)) }
    {
        match read(memory, &mut self.places, &mut self.abbreviations, piece)? {
            Answer::Found(unit) => {
                let used = unit.size.min(piece.len() as u64);
                self.state = InfoStage::Body(unit.size - used);
                return Ok(used as usize);
            }
            Answer::More => self.keep(memory, piece)?,
            Answer::Unreadable => self.state = InfoStage::Ended,
        }
        Ok(piece.len())
    }

    /// Keeps the first bytes of a unit, which don't tell its entry.
    fn keep<M: Memory>(&mut self, memory: &M, front: &[u8]) -> Result<(), NoMemory>
        requires { (l : UnitLength) → unit_length self.old.places.order front.now ≡ Found l
            → length front.now < l.size }
        ensures stands { (order : Order) (abbreviations b : List ℕ) → GoesOn self.old order abbreviations b front.now
            → OnOk result (StandsFor self.new order abbreviations b) }
        ensures few { (taken : ℕ) → KeepsWith self.old.places front.now taken → OnOk result (Keeps self.new taken) }
        ensures refused { OnErr result (IsRefused (M.refuses memory.now) (length front.now)) }
    {
        self.front.clear();
        memory.extend_from_slice(&mut self.front, front)?;
        self.state = InfoStage::Begun(awaited(self.places.order, front));
        Ok(())
    }

    /// Ends the walk where the section ends: the places of the directories that its units say.
    pub fn end<M: Memory>(self, memory: &M) -> Result<Places, NoMemory>
        ensures places { (order : Order) (abbreviations b : List ℕ) → StandsFor self.entry order abbreviations b
            → IfOk result (λ places. AreOf places order abbreviations b) }
        ensures memory { (order : Order) (abbreviations b : List ℕ) → StandsFor self.entry order abbreviations b
            → IfErr result (λ error. HasDirectory (entries order abbreviations b)) }
        ensures refused { (taken : ℕ) → Keeps self.entry taken
            → IfErr result (λ error. IsRefused (M.refuses memory.now) taken) }
    {
        let Walk {
            mut abbreviations,
            state,
            front,
            mut places,
        } = self;
        if let InfoStage::Begun(_) = state {
            let _ = read(memory, &mut places, &mut abbreviations, &front)?;
        }
        Ok(places)
    }
}
