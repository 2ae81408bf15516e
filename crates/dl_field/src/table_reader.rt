//! A table of directories or files, byte by byte: its pairs and the count of its entries. Section
//! 6.2.4.1.

ghost use Rattle.std.specs.Prelude.{◌≡◌, ◌+◌, ◌-◌, ◌^◌, ◌≤◌, Ok, length, max, min};
ghost use Rattle.dl_table.specs.Held.{values_end};
ghost use Rattle.dl_field.specs.TableStep.{pairs_due, row_end, text_start, bytes_due};
ghost use Rattle.dl_memory.specs.Refusals.{SystemRefuses, WasRefused};

use crate::field_step::FieldStep;
use crate::value_phase::{Cursor, ValuePhase};
use dl_memory::{Memory, System};
use dl_num::{LebRange, Order, Uleb};
use dl_table::table::cells_of;
use dl_table::{FaultKind, Form, Format, Pair, StoredValue, Table};
use std::alloc::Global;
use std::mem;

/// What the next byte of a table is part of.
#[derive(Clone, Copy)]
pub(crate) enum TablePhase {
    PairCount,
    /// How many pairs are left with this one, and its content code.
    ContentCode(u8, Uleb),
    /// How many pairs are left with this one, its content code, and its form code.
    FormCode(u8, u64, Uleb),
    EntryCount(Uleb),
    Value(Cursor, ValuePhase),
    /// The last entry is complete.
    Whole,
}

impl TablePhase {
    ghost use Rattle.dl_field.specs.TableMoves.{BeginsPair};

    /// The next pair where `left` are left, or the count of the entries where none is.
    fn of_pairs(left: u8) -> TablePhase
        ensures due { pairs_due result ≡ left }
        ensures no_row { row_end result ≡ 0 }
        ensures no_text { text_start result ≡ 0 }
        ensures no_block { bytes_due result ≡ 0 }
        ensures begins { BeginsPair left result }
    {
        if left == 0 {
            TablePhase::EntryCount(Uleb::new())
        } else {
            TablePhase::ContentCode(left, Uleb::new())
        }
    }
}

/// A table whose bytes come one at a time. The bytes of a text stand in the pool before the text is
/// among the values, those of a block after it.
#[derive(Drop)]
pub struct TableReader {
    pub(crate) phase: TablePhase,
    pub(crate) pairs: Vec<Pair>,
    pub(crate) values: Vec<StoredValue>,
    pub(crate) pool: Vec<u8>,
    ghost few: { pairs_due phase + length pairs.items ≤ 255 },
    ghost in_row: { row_end phase ≤ length pairs.items },
    ghost begun: { text_start phase ≤ length pool.items },
    ghost within: { values_end values.items ≤ length pool.items + bytes_due phase },
}

impl TableReader {
    ghost use Rattle.dl_field.specs.declared.field_step.FieldStep.TheVariants as byte_makes;
    ghost use Rattle.dl_field.specs.declared.table_reader.TablePhase.TheVariants as phase;
    ghost use Rattle.dl_field.specs.TablePlace.{IsFresh, reader_cells};
    ghost use Rattle.dl_field.specs.TableMoves.{MakesTable, Takes, TableFollows, TakesContent, TakesForm, TakesCount};
    ghost use Rattle.dl_field.specs.TableMoves.{KeepsCells, OneCell, PushFollows, ValueFollows};
    ghost use Rattle.dl_num.specs.declared.fixed.Order.{Order};

    /// No byte yet. It takes no memory.
    pub fn new(alloc: Global) -> TableReader
        ensures { IsFresh result }
    {
        TableReader {
            phase: TablePhase::PairCount,
            pairs: Vec::new(alloc),
            values: Vec::new(alloc),
            pool: Vec::new(alloc),
        }
    }

    /// How many cells the table holds so far; 2^64 - 1 where there are more.
    pub fn cells(&self) -> u64
        ensures { result ≡ min (reader_cells self.now) (2 ^ 64 - 1) }
    {
        cells_of(&self.pairs, &self.values, &self.pool)
    }

    /// The table, where its last entry is complete; the reader is then as new.
    pub fn take(&mut self, alloc: Global, format: Format) -> Option<Table>
        requires { self.old.phase ≡ phase.Whole → MakesTable self.old format }
        ensures { Takes self.old format result self.new }
    {
        match self.phase {
            TablePhase::Whole => {
                let TableReader {
                    phase: _,
                    pairs,
                    values,
                    pool,
                } = mem::replace(self, TableReader::new(alloc));
                Some(Table::of_parts(format, pairs, values, pool))
            }
            _ => None,
        }
    }

    /// Takes the next byte, save where memory is refused; the reader is then unchanged.
    pub fn push(&mut self, order: Order, format: Format, byte: u8) -> FieldStep
        ensures follows { PushFollows order format self.old byte result self.new }
        ensures refused { result ≡ byte_makes.NoMemory → WasRefused SystemRefuses }
    {
        match self.phase {
            TablePhase::PairCount => self.pair_count(byte),
            TablePhase::ContentCode(left, code) => self.content_code(left, code, byte),
            TablePhase::FormCode(left, content, code) => self.form_code(left, content, code, byte),
            TablePhase::EntryCount(count) => self.entry_count(count, format, byte),
            TablePhase::Value(at, value) => self.value(at, value, order, format, byte),
            TablePhase::Whole => FieldStep::Within,
        }
    }

    fn pair_count(&mut self, byte: u8) -> FieldStep
        requires { self.old.phase ≡ phase.PairCount }
        ensures made { TableFollows self.old byte result self.new }
        ensures cells { KeepsCells self.old result self.new }
        ensures refused { result ≡ byte_makes.NoMemory → WasRefused SystemRefuses }
    {
        self.phase = TablePhase::of_pairs(byte);
        FieldStep::Ends
    }

    fn content_code(&mut self, left: u8, mut code: Uleb, byte: u8) -> FieldStep
        requires { self.old.phase ≡ phase.ContentCode left code }
        ensures made { TableFollows self.old byte result self.new }
        ensures cells { KeepsCells self.old result self.new }
        ensures refused { result ≡ byte_makes.NoMemory → WasRefused SystemRefuses }
    {
        match code.push(byte) {
            None => {
                self.phase = TablePhase::ContentCode(left, code);
                FieldStep::Within
            }
            Some(Err(LebRange)) => FieldStep::Refuses(FaultKind::LebRange),
            Some(Ok(content)) => self.take_content(left, content),
        }
    }

    /// Goes on to the form code after a content code that is complete.
    fn take_content(&mut self, left: u8, content: u64) -> FieldStep
        requires few { max 1 left + length self.old.pairs.items ≤ 255 }
        requires whole { values_end self.old.values.items ≤ length self.old.pool.items }
        ensures made { TakesContent self.old left content result self.new }
        ensures cells { KeepsCells self.old result self.new }
        ensures refused { result ≡ byte_makes.NoMemory → WasRefused SystemRefuses }
    {
        self.phase = TablePhase::FormCode(left, content, Uleb::new());
        FieldStep::Ends
    }

    fn form_code(&mut self, left: u8, content: u64, mut code: Uleb, byte: u8) -> FieldStep
        requires { self.old.phase ≡ phase.FormCode left content code }
        ensures made { TableFollows self.old byte result self.new }
        ensures cells { OneCell self.old result self.new }
        ensures refused { result ≡ byte_makes.NoMemory → WasRefused SystemRefuses }
    {
        match code.push(byte) {
            None => {
                self.phase = TablePhase::FormCode(left, content, code);
                FieldStep::Within
            }
            Some(Err(LebRange)) => FieldStep::Refuses(FaultKind::LebRange),
            Some(Ok(code)) => self.take_form(left, content, code),
        }
    }

    /// Enters the pair of a form code that is complete.
    fn take_form(&mut self, left: u8, content: u64, code: u64) -> FieldStep
        requires few { max 1 left + length self.old.pairs.items ≤ 255 }
        requires whole { values_end self.old.values.items ≤ length self.old.pool.items }
        ensures made { TakesForm self.old left content code result self.new }
        ensures cells { OneCell self.old result self.new }
        ensures refused { result ≡ byte_makes.NoMemory → WasRefused SystemRefuses }
    {
        let Some(form) = Form::from_code(code) else {
            return FieldStep::Refuses(FaultKind::UnknownForm(code));
        };
        let pair = Pair { content, form };
        if System::of(&self.pairs).push(&mut self.pairs, pair).is_err() {
            return FieldStep::NoMemory;
        }
        self.phase = TablePhase::of_pairs(left.saturating_sub(1));
        FieldStep::Ends
    }

    fn entry_count(&mut self, mut count: Uleb, format: Format, byte: u8) -> FieldStep
        requires { self.old.phase ≡ phase.EntryCount count }
        ensures made { (order : Order) → ValueFollows order format self.old byte result self.new }
        ensures cells { KeepsCells self.old result self.new }
        ensures refused { result ≡ byte_makes.NoMemory → WasRefused SystemRefuses }
    {
        match count.push(byte) {
            None => {
                self.phase = TablePhase::EntryCount(count);
                FieldStep::Within
            }
            Some(count) => self.take_count(count, format),
        }
    }

    /// Begins the entries of a count that is complete. Without pairs it has to be 0.
    fn take_count(&mut self, count: Result<u64, LebRange>, format: Format) -> FieldStep
        requires { values_end self.old.values.items ≤ length self.old.pool.items }
        ensures made { TakesCount self.old count format result self.new }
        ensures cells { KeepsCells self.old result self.new }
        ensures refused { result ≡ byte_makes.NoMemory → WasRefused SystemRefuses }
    {
        match count {
            Ok(count) => self.begin_entries(count, format),
            Err(LebRange) => {
                if self.pairs.is_empty() {
                    return FieldStep::Refuses(FaultKind::EmptyFormat);
                }
                FieldStep::Refuses(FaultKind::LebRange)
            }
        }
    }

    /// Begins the entries, of which there are `count`.
    fn begin_entries(&mut self, count: u64, format: Format) -> FieldStep
        requires { values_end self.old.values.items ≤ length self.old.pool.items }
        ensures made { TakesCount self.old (Ok count) format result self.new }
        ensures cells { KeepsCells self.old result self.new }
        ensures refused { result ≡ byte_makes.NoMemory → WasRefused SystemRefuses }
    {
        if count == 0 {
            self.phase = TablePhase::Whole;
            return FieldStep::Ends;
        }
        if self.pairs.is_empty() {
            return FieldStep::Refuses(FaultKind::EmptyFormat);
        }
        let first = Cursor {
            column: 0,
            left: count,
        };
        self.begin_value(first, format);
        FieldStep::Ends
    }
}
