//! The values of a table, byte by byte. Section 7.5.5.

ghost use Rattle.std.specs.Prelude.{◌≡◌, ◌≢◌, ◌+◌, ◌<◌, ◌≤◌, ◌^◌, ◌++◌, ◌∷◌, [], ℕ, List, length};
ghost use Rattle.std.specs.Prelude.{vec_len, vec_capacity};
ghost use Rattle.dl_num.specs.declared.fixed.Order.{Order};
ghost use Rattle.dl_table.specs.Held.{cells_held, held_end, values_end, value_held};
ghost use Rattle.dl_field.specs.TablePlace.{number_value};
ghost use Rattle.dl_memory.specs.Refusals.{SystemRefuses, WasRefused};

use crate::field_step::FieldStep;
use crate::sixteen::Sixteen;
use crate::table_reader::{TablePhase, TableReader};
use crate::value_phase::{Cursor, ValuePhase};
use dl_memory::{Memory, System};
use dl_num::{LebRange, Order, PartialNumber, Uleb};
use dl_table::{Extent, FaultKind, Form, Format, StoredValue, Word};

impl TableReader {
    ghost use Rattle.dl_field.specs.declared.table_reader.TablePhase.TheVariants as phase;
    ghost use Rattle.dl_field.specs.declared.value_phase.ValuePhase.TheVariants as value;
    ghost use Rattle.dl_field.specs.declared.field_step.FieldStep.TheVariants as byte_makes;
    ghost use Rattle.dl_field.specs.TablePlace.{reader_cells};
    ghost use Rattle.dl_field.specs.TableMoves.{GoesOn, Enters, BeginsBlock, OneCell, EachCell, ValueFollows};
    ghost use Rattle.dl_field.specs.TableMoves.{ValueAdds};

    /// Takes the next byte of a value.
    pub(crate) fn value(
        &mut self,
        at: Cursor,
        value: ValuePhase,
        order: Order,
        format: Format,
        byte: u8,
    ) -> FieldStep
        requires { self.old.phase ≡ phase.Value at value }
        ensures made { ValueFollows order format self.old byte result self.new }
        ensures cells { ValueAdds order format self.old byte result self.new }
        ensures refused { result ≡ byte_makes.NoMemory → WasRefused SystemRefuses }
    {
        match value {
            ValuePhase::Number(form, number) => self.number(at, form, number, order, format, byte),
            ValuePhase::Leb(number) => self.leb(at, number, format, byte),
            ValuePhase::Text(start) => self.text(at, start, format, byte),
            ValuePhase::Data16(sixteen) => self.data16(at, sixteen, format, byte),
            ValuePhase::BlockLength(length) => self.block_length(at, length, order, format, byte),
            ValuePhase::LebBlockLength(number) => self.leb_block_length(at, number, format, byte),
            ValuePhase::Block(left) => self.block(at, left, format, byte),
        }
    }

    fn number(
        &mut self,
        at: Cursor,
        form: Form,
        number: PartialNumber,
        order: Order,
        format: Format,
        byte: u8,
    ) -> FieldStep
        requires { self.old.phase ≡ phase.Value at (value.Number form number) }
        ensures made { ValueFollows order format self.old byte result self.new }
        ensures cells { OneCell self.old result self.new }
        ensures refused { result ≡ byte_makes.NoMemory → WasRefused SystemRefuses }
    {
        match number.push(order, byte) {
            Err(number) => {
                self.phase = TablePhase::Value(at, ValuePhase::Number(form, number));
                FieldStep::Within
            }
            Ok(number) => self.enter(at, held_number(form, number), format),
        }
    }

    fn leb(&mut self, at: Cursor, mut number: Uleb, format: Format, byte: u8) -> FieldStep
        requires { self.old.phase ≡ phase.Value at (value.Leb number) }
        ensures made { (order : Order) → ValueFollows order format self.old byte result self.new }
        ensures cells { OneCell self.old result self.new }
        ensures refused { result ≡ byte_makes.NoMemory → WasRefused SystemRefuses }
    {
        match number.push(byte) {
            None => {
                self.phase = TablePhase::Value(at, ValuePhase::Leb(number));
                FieldStep::Within
            }
            Some(Err(LebRange)) => FieldStep::Refuses(FaultKind::LebRange),
            Some(Ok(number)) => self.enter(at, held_number(Form::Udata, number), format),
        }
    }

    fn data16(&mut self, at: Cursor, sixteen: Sixteen, format: Format, byte: u8) -> FieldStep
        requires { self.old.phase ≡ phase.Value at (value.Data16 sixteen) }
        ensures made { (order : Order) → ValueFollows order format self.old byte result self.new }
        ensures cells { OneCell self.old result self.new }
        ensures refused { result ≡ byte_makes.NoMemory → WasRefused SystemRefuses }
    {
        match sixteen.push(byte) {
            Err(sixteen) => {
                self.phase = TablePhase::Value(at, ValuePhase::Data16(sixteen));
                FieldStep::Within
            }
            Ok(bytes) => self.enter(at, StoredValue::Data16(bytes), format),
        }
    }

    fn text(&mut self, at: Cursor, start: usize, format: Format, byte: u8) -> FieldStep
        requires { self.old.phase ≡ phase.Value at (value.Text start) }
        ensures made { (order : Order) → ValueFollows order format self.old byte result self.new }
        ensures cells { EachCell self.old result self.new }
        ensures refused { result ≡ byte_makes.NoMemory → WasRefused SystemRefuses }
    {
        if byte == 0 {
            let len = self.pool.len() - start;
            return self.enter(at, StoredValue::Text(Extent::new(start, len)), format);
        }
        if System::of(&self.pool).push(&mut self.pool, byte).is_err() {
            return FieldStep::NoMemory;
        }
        FieldStep::Within
    }

    fn block_length(
        &mut self,
        at: Cursor,
        number: PartialNumber,
        order: Order,
        format: Format,
        byte: u8,
    ) -> FieldStep
        requires { self.old.phase ≡ phase.Value at (value.BlockLength number) }
        ensures made { ValueFollows order format self.old byte result self.new }
        ensures cells { ValueAdds order format self.old byte result self.new }
        ensures refused { result ≡ byte_makes.NoMemory → WasRefused SystemRefuses }
    {
        match number.push(order, byte) {
            Err(number) => {
                self.phase = TablePhase::Value(at, ValuePhase::BlockLength(number));
                FieldStep::Within
            }
            Ok(size) => self.begin_block(at, size, format),
        }
    }

    fn leb_block_length(
        &mut self,
        at: Cursor,
        mut number: Uleb,
        format: Format,
        byte: u8,
    ) -> FieldStep
        requires { self.old.phase ≡ phase.Value at (value.LebBlockLength number) }
        ensures made { (order : Order) → ValueFollows order format self.old byte result self.new }
        ensures cells { (order : Order) → ValueAdds order format self.old byte result self.new }
        ensures refused { result ≡ byte_makes.NoMemory → WasRefused SystemRefuses }
    {
        match number.push(byte) {
            None => {
                self.phase = TablePhase::Value(at, ValuePhase::LebBlockLength(number));
                FieldStep::Within
            }
            Some(Err(LebRange)) => FieldStep::Refuses(FaultKind::LebRange),
            Some(Ok(size)) => self.begin_block(at, size, format),
        }
    }

    /// Enters a block of this size, whose bytes are to come.
    #[tactic(auto, using(dl_table::proofs::HeldLemmas::pushes))]
    fn begin_block(&mut self, at: Cursor, size: u64, format: Format) -> FieldStep
        requires in_row { at.column < length self.old.pairs.items }
        requires whole { values_end self.old.values.items ≤ length self.old.pool.items }
        ensures small { size < 2 ^ 64 }
        ensures begins { BeginsBlock self.old at size format result self.new }
        ensures cells { EachCell self.old result self.new }
        ensures refused { result ≡ byte_makes.NoMemory → WasRefused SystemRefuses }
    {
        let start = self.pool.len();
        let len = size as usize;
        let block = StoredValue::Block(Extent::new(start, len));
        if System::of(&self.values)
            .push(&mut self.values, block)
            .is_err()
        {
            return FieldStep::NoMemory;
        }
        if size == 0 {
            self.end_value(at, format);
            return FieldStep::Ends;
        }
        self.phase = TablePhase::Value(at, ValuePhase::Block(size));
        FieldStep::Within
    }

    fn block(&mut self, at: Cursor, left: u64, format: Format, byte: u8) -> FieldStep
        requires { self.old.phase ≡ phase.Value at (value.Block left) }
        ensures made { (order : Order) → ValueFollows order format self.old byte result self.new }
        ensures cells { EachCell self.old result self.new }
        ensures refused { result ≡ byte_makes.NoMemory → WasRefused SystemRefuses }
    {
        if System::of(&self.pool).push(&mut self.pool, byte).is_err() {
            return FieldStep::NoMemory;
        }
        if left <= 1 {
            self.end_value(at, format);
            return FieldStep::Ends;
        }
        self.phase = TablePhase::Value(at, ValuePhase::Block(left - 1));
        FieldStep::Within
    }

    /// Enters a value that is complete.
    #[inline(always)]
    #[tactic(auto, using(dl_table::proofs::HeldLemmas::pushes))]
    pub(crate) fn enter(&mut self, at: Cursor, held: StoredValue, format: Format) -> FieldStep
        requires in_row { at.column < length self.old.pairs.items }
        requires whole { values_end self.old.values.items ≤ length self.old.pool.items }
        requires held { held_end held ≤ length self.old.pool.items }
        ensures made { Enters self.old at held format result self.new }
        ensures cells { OneCell self.old result self.new }
        ensures goes { result ≡ byte_makes.Ends → GoesOn self.old.pairs.items self.old.pool.items
            (self.old.values.items ++ held ∷ []) (at.column + 1) at.left format self.new }
        ensures room { vec_len self.old.values < vec_capacity self.old.values → result ≡ byte_makes.Ends }
        ensures refused { result ≡ byte_makes.NoMemory → WasRefused SystemRefuses }
    {
        if System::of(&self.values)
            .push(&mut self.values, held)
            .is_err()
        {
            return FieldStep::NoMemory;
        }
        self.end_value(at, format);
        FieldStep::Ends
    }

    /// Goes on to the value after this place.
    #[inline(always)]
    fn end_value(&mut self, at: Cursor, format: Format)
        requires in_row { at.column < length self.old.pairs.items }
        requires whole { values_end self.old.values.items ≤ length self.old.pool.items }
        ensures goes { GoesOn self.old.pairs.items self.old.pool.items self.old.values.items
            (at.column + 1) at.left format self.new }
        ensures cells { reader_cells self.new ≡ reader_cells self.old }
    {
        match at.next(self.pairs.len()) {
            Some(at) => self.begin_value(at, format),
            None => self.phase = TablePhase::Whole,
        }
    }

    /// Goes on to the value at this place.
    #[inline(always)]
    pub(crate) fn begin_value(&mut self, at: Cursor, format: Format)
        requires in_row { at.column < length self.old.pairs.items }
        requires whole { values_end self.old.values.items ≤ length self.old.pool.items }
        ensures goes { GoesOn self.old.pairs.items self.old.pool.items self.old.values.items
            at.column at.left format self.new }
        ensures cells { reader_cells self.new ≡ reader_cells self.old }
        ensures going { self.new.phase ≢ phase.Whole }
    {
        let form = self.pairs[at.column].form;
        let value = ValuePhase::new(form, format, self.pool.len());
        self.phase = TablePhase::Value(at, value);
    }
}

/// The number or offset of a form.
#[inline(always)]
pub(crate) fn held_number(form: Form, number: u64) -> StoredValue
    ensures end { held_end result ≡ 0 }
    ensures cell { cells_held result ≡ 1 }
    ensures small { number < 2 ^ 64 }
    ensures value { (pool : List ℕ) → value_held pool result ≡ number_value form number }
{
    match form {
        Form::LineStrp => StoredValue::LineStr(Word::new(number)),
        Form::Strp => StoredValue::Str(Word::new(number)),
        Form::StrpSup => StoredValue::StrSup(Word::new(number)),
        _ => StoredValue::Number(Word::new(number)),
    }
}
