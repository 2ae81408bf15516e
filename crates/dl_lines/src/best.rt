//! The places of the least line.

use dl_memory::{Memory, NoMemory};

/// A place of a line, as far as it is printed.
#[derive(Clone, Copy)]
pub struct KeptPlace {
    pub address: u64,
    /// 0 where it isn't known.
    pub column: u64,
    pub prologue_end: bool,
    /// The number of the path of its file.
    pub path: usize,
}

/// The places of the least line that was told.
#[derive(Drop)]
pub struct Best {
    /// That line, where there are places.
    pub line: u64,
    pub places: Vec<KeptPlace>,
}

impl Best {
    ghost use Rattle.std.specs.Prelude.{◌≡◌, ◌+◌, ◌≤◌, ◌∷◌, [], ℕ, List, length, OnErr, OnOk, nat_lt, if◌then◌else◌};
    ghost use Rattle.dl_memory.specs.Refusals.{IsRefused};
    ghost use Rattle.dl_lines.specs.Kept.{both};
    ghost use Rattle.dl_lines.specs.Kept.{AreWithin, IsWithin, is_below_line, place_kept, places_kept};

    /// No place was told yet.
    pub fn new<M: Memory>(memory: &M) -> Best
        ensures { result.places.items ≡ [] }
    {
        Best {
            line: 0,
            places: Vec::new(memory.alloc()),
        }
    }

    /// Whether places of this line have no place beside those of a lesser one.
    fn is_below(&self, line: u64) -> bool
        ensures { result ≡ is_below_line self.now line }
    {
        !self.places.is_empty() && self.line < line
    }

    /// Forgets the places where their line is above this one.
    fn keep_up_to(&mut self, line: u64)
        ensures items { self.new.places.items ≡ (if nat_lt line self.old.line then [] else self.old.places.items) }
        ensures line { self.new.line ≡ self.old.line }
    {
        if line < self.line {
            self.places.clear();
        }
    }

    /// Takes a place of this line.
    pub fn add<M: Memory>(
        &mut self,
        memory: &M,
        line: u64,
        place: KeptPlace,
    ) -> Result<(), NoMemory>
        ensures both { OnOk result ((paths : List (List ℕ)) → places_kept paths self.new
            ≡ both (places_kept paths self.old) (place_kept paths line place ∷ [])) }
        ensures within { OnOk result ((count : ℕ) → AreWithin count self.old.places.items → IsWithin count place
            → AreWithin count self.new.places.items) }
        ensures few { OnOk result (length self.new.places.items ≤ length self.old.places.items + 1) }
        ensures refused { OnErr result (IsRefused (M.refuses memory.now) (length self.old.places.items + 1)) }
    {
        if self.is_below(line) {
            return Ok(());
        }
        self.keep_up_to(line);
        self.line = line;
        memory.push(&mut self.places, place)
    }

    /// Takes the places of another list, which were told later.
    pub fn add_all<M: Memory>(&mut self, memory: &M, others: &Best) -> Result<(), NoMemory>
        ensures both { OnOk result ((paths : List (List ℕ)) → places_kept paths self.new
            ≡ both (places_kept paths self.old) (places_kept paths others.now)) }
        ensures within { OnOk result ((count : ℕ) → AreWithin count self.old.places.items
            → AreWithin count others.now.places.items → AreWithin count self.new.places.items) }
        ensures few { OnOk result (length self.new.places.items
            ≤ length self.old.places.items + length others.now.places.items) }
        ensures refused { OnErr result (IsRefused (M.refuses memory.now)
            (length self.old.places.items + length others.now.places.items)) }
    {
        let more = others.places.as_slice();
        if more.is_empty() {
            return Ok(());
        }
        if self.is_below(others.line) {
            return Ok(());
        }
        self.keep_up_to(others.line);
        self.line = others.line;
        memory.extend_from_slice(&mut self.places, more)
    }
}
