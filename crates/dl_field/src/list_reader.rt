//! A table of versions 2 to 4, byte by byte: its entries one after the other, and a zero byte. DWARF 4, section 6.2.4.

ghost use Rattle.std.specs.Prelude.{◌≡◌, ◌≢◌, ◌+◌, ◌-◌, ◌^◌, ◌<◌, ◌≤◌, ◌++◌, ◌∷◌, [], length, min};
ghost use Rattle.std.specs.Prelude.{vec_len, vec_capacity};
ghost use Rattle.dl_num.specs.declared.fixed.Order.{Order};
ghost use Rattle.dl_table.specs.Held.{cells_held, held_end, value_held, values_end};
ghost use Rattle.dl_table.specs.Value.{Value};
ghost use Rattle.dl_field.specs.ListStep.{listed, most_pairs, path_start};
ghost use Rattle.dl_memory.specs.Refusals.{SystemRefuses, WasRefused};

use crate::field_step::FieldStep;
use crate::value_reader::held_number;
use dl_memory::{Memory, System};
use dl_num::{LebRange, Uleb};
use dl_table::table::cells_of;
use dl_table::{Extent, FaultKind, Form, Format, Pair, StoredValue, Table};
use std::alloc::Global;
use std::mem;

/// What an entry of a table of directories says: a path.
const DIRECTORY: [Pair; 1] = [Pair {
    content: 1,
    form: Form::String,
}];

/// What an entry of a table of files says: a path, the number of its directory, its time and its size.
const FILE: [Pair; 4] = [
    Pair {
        content: 1,
        form: Form::String,
    },
    Pair {
        content: 2,
        form: Form::Udata,
    },
    Pair {
        content: 3,
        form: Form::Udata,
    },
    Pair {
        content: 4,
        form: Form::Udata,
    },
];

/// Which table of versions 2 to 4 it is.
#[derive(Clone, Copy)]
pub enum ListKind {
    Directories,
    Files,
}

impl ListKind {
    /// What each entry says.
    fn pairs(self) -> &'static [Pair]
        ensures { result.now ≡ listed self }
    {
        match self {
            ListKind::Directories => &DIRECTORY,
            ListKind::Files => &FILE,
        }
    }

    /// How many numbers follow a path.
    pub(crate) fn numbers(self) -> usize
        ensures { result + 1 ≡ length (listed self) }
    {
        match self {
            ListKind::Directories => 0,
            ListKind::Files => 3,
        }
    }
}

/// What the next byte of a table of versions 2 to 4 is part of.
#[derive(Clone, Copy)]
pub(crate) enum ListPhase {
    /// The path of an entry, from this place of the pool on, or the zero byte after the last entry.
    Path(usize),
    /// How many numbers of the entry are left with this one.
    Number(usize, Uleb),
    /// The zero byte has come.
    Whole,
}

/// A table of versions 2 to 4 whose bytes come one at a time. The bytes of a path stand in the pool before it is
/// among the values. The pairs come with the last byte.
#[derive(Drop)]
pub struct ListReader {
    pub(crate) kind: ListKind,
    pub(crate) phase: ListPhase,
    pub(crate) pairs: Vec<Pair>,
    pub(crate) values: Vec<StoredValue>,
    pub(crate) pool: Vec<u8>,
    ghost few: { length pairs.items ≤ most_pairs phase },
    ghost begun: { path_start phase ≤ length pool.items },
    ghost within: { values_end values.items ≤ length pool.items },
}

impl ListReader {
    ghost use Rattle.dl_field.specs.declared.list_reader.ListPhase.TheVariants as phase;
    ghost use Rattle.dl_field.specs.declared.field_step.FieldStep.TheVariants as byte_makes;
    ghost use Rattle.dl_field.specs.ListPlace.{IsFreshList, list_cells, MakesList, TakesList, ListFollows, ListAdds};
    ghost use Rattle.dl_field.specs.ListPlace.{EntersList, OneListCell};

    /// No byte yet. It takes no memory.
    pub fn new(alloc: Global, kind: ListKind) -> ListReader
        ensures { IsFreshList kind result }
    {
        ListReader {
            kind,
            phase: ListPhase::Path(0),
            pairs: Vec::new(alloc),
            values: Vec::new(alloc),
            pool: Vec::new(alloc),
        }
    }

    /// How many cells the table holds so far; 2^64 - 1 where there are more.
    pub fn cells(&self) -> u64
        ensures { result ≡ min (list_cells self.now) (2 ^ 64 - 1) }
    {
        cells_of(&self.pairs, &self.values, &self.pool)
    }

    /// The table, where its zero byte has come; the reader is then as new, of a table of files.
    pub fn take(&mut self, alloc: Global, format: Format) -> Option<Table>
        requires { self.old.phase ≡ phase.Whole → MakesList self.old format }
        ensures { TakesList self.old format result self.new }
    {
        match self.phase {
            ListPhase::Whole => {
                let ListReader {
                    kind: _,
                    phase: _,
                    pairs,
                    values,
                    pool,
                } = mem::replace(self, ListReader::new(alloc, ListKind::Files));
                Some(Table::of_parts(format, pairs, values, pool))
            }
            _ => None,
        }
    }

    /// Takes the next byte, save where memory is refused; the reader is then unchanged.
    pub fn push(&mut self, byte: u8) -> FieldStep
        ensures made { ListFollows self.old (byte ∷ []) result self.new }
        ensures cells { ListAdds self.old (byte ∷ []) result self.new }
        ensures refused { result ≡ byte_makes.NoMemory → WasRefused SystemRefuses }
    {
        match self.phase {
            ListPhase::Path(start) => self.path(start, byte),
            ListPhase::Number(left, number) => self.number(left, number, byte),
            ListPhase::Whole => FieldStep::Within,
        }
    }

    #[tactic(auto, using(dl_table::proofs::HeldLemmas::pushes))]
    fn path(&mut self, start: usize, byte: u8) -> FieldStep
        requires { self.old.phase ≡ phase.Path start }
        ensures made { ListFollows self.old (byte ∷ []) result self.new }
        ensures cells { ListAdds self.old (byte ∷ []) result self.new }
        ensures refused { result ≡ byte_makes.NoMemory → WasRefused SystemRefuses }
    {
        if byte != 0 {
            if System::of(&self.pool).push(&mut self.pool, byte).is_err() {
                return FieldStep::NoMemory;
            }
            return FieldStep::Within;
        }
        let len = self.pool.len() - start;
        if len == 0 {
            return self.end();
        }
        let left = self.kind.numbers();
        self.enter(StoredValue::Text(Extent::new(start, len)), left)
    }

    /// The zero byte after the last entry.
    fn end(&mut self) -> FieldStep
        requires { self.old.phase ≡ phase.Path (length self.old.pool.items) }
        ensures made { ListFollows self.old (0 ∷ []) result self.new }
        ensures cells { ListAdds self.old (0 ∷ []) result self.new }
        ensures refused { result ≡ byte_makes.NoMemory → WasRefused SystemRefuses }
    {
        let pairs = self.kind.pairs();
        if System::of(&self.pairs)
            .extend_from_slice(&mut self.pairs, pairs)
            .is_err()
        {
            return FieldStep::NoMemory;
        }
        self.phase = ListPhase::Whole;
        FieldStep::Ends
    }

    fn number(&mut self, left: usize, mut number: Uleb, byte: u8) -> FieldStep
        requires { self.old.phase ≡ phase.Number left number }
        ensures made { ListFollows self.old (byte ∷ []) result self.new }
        ensures cells { ListAdds self.old (byte ∷ []) result self.new }
        ensures refused { result ≡ byte_makes.NoMemory → WasRefused SystemRefuses }
    {
        match number.push(byte) {
            None => {
                self.phase = ListPhase::Number(left, number);
                FieldStep::Within
            }
            Some(Err(LebRange)) => FieldStep::Refuses(FaultKind::LebRange),
            Some(Ok(number)) => {
                let left = left.saturating_sub(1);
                self.enter(held_number(Form::Udata, number), left)
            }
        }
    }

    /// Enters a value that is complete, and goes on to the next number of the entry, of which so many are left, or to
    /// the next entry where none is.
    #[inline(always)]
    #[tactic(auto, using(dl_table::proofs::HeldLemmas::pushes))]
    pub(crate) fn enter(&mut self, held: StoredValue, left: usize) -> FieldStep
        requires within { values_end self.old.values.items ≤ length self.old.pool.items }
        requires held { held_end held ≤ length self.old.pool.items }
        requires few { length self.old.pairs.items ≤ 0 }
        ensures made { EntersList self.old held left result self.new }
        ensures cells { OneListCell self.old result self.new }
        ensures room { vec_len self.old.values < vec_capacity self.old.values → result ≡ byte_makes.Ends }
        ensures going { result ≡ byte_makes.Ends → self.new.phase ≢ phase.Whole }
        ensures refused { result ≡ byte_makes.NoMemory → WasRefused SystemRefuses }
    {
        if System::of(&self.values)
            .push(&mut self.values, held)
            .is_err()
        {
            return FieldStep::NoMemory;
        }
        if left == 0 {
            self.phase = ListPhase::Path(self.pool.len());
        } else {
            self.phase = ListPhase::Number(left, Uleb::new());
        }
        FieldStep::Ends
    }
}
