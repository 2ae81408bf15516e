//! The values of symbols. System V ABI, chapter 4, "Symbol Table".
ghost use Rattle.std.specs.Prelude.{◌≡◌, ◌≤◌, ◌+◌, ◌++◌, ℕ, List, length, OnErr, OnOk};
ghost use Rattle.dl_memory.specs.Refusals.{IsRefused};
ghost use Rattle.dl_reloc.specs.Entries.{AreWholeSymbols, count, symbol_size, symbol_value, symbol_values, value_in};

use crate::table::{count, item, number_at};
use crate::target::{Class, Target};
use dl_memory::{Memory, NoMemory};
use dl_num::Order;

/// How many bytes a symbol has.
pub fn symbol_size(class: Class) -> usize
    ensures size { result ≡ symbol_size class }
    ensures some { 1 ≤ result }
{
    match class {
        Class::Bits32 => 16,
        Class::Bits64 => 24,
    }
}

/// The value of the symbol in these bytes (st_value).
fn value_in(class: Class, order: Order, bytes: &[u8]) -> u64
    requires { symbol_size class ≤ length bytes.now }
    ensures { result ≡ value_in class order bytes.now }
{
    match class {
        Class::Bits32 => number_at(order, 4, 4, bytes),
        Class::Bits64 => number_at(order, 8, 8, bytes),
    }
}

/// Puts the values of the whole symbols in these bytes of a symbol table after the others.
///
/// A table may come in parts, one call for each in order, where the parts before the last are whole symbols: then the
/// values are those of all bytes in one call. Where a growth is refused, which values are there isn't said.
pub fn push_symbol_values<M: Memory>(
    memory: &M,
    target: &Target,
    table: &[u8],
    values: &mut Vec<u64>,
) -> Result<(), NoMemory>
    ensures pushed { OnOk result
        (values.new.items ≡ values.old.items ++ symbol_values target.now.class target.now.order table.now) }
    ensures follows { (before : List ℕ) → AreWholeSymbols target.now.class before
        → values.old.items ≡ symbol_values target.now.class target.now.order before → OnOk result
        (values.new.items ≡ symbol_values target.now.class target.now.order (before ++ table.now)) }
    ensures refused { OnErr result (IsRefused (M.refuses memory.now)
        (length values.old.items + count (symbol_size target.now.class) table.now)) }
{
    let size = symbol_size(target.class);
    for index in 0..count(table, size) {
        let symbol = item(table, size, index);
        memory.push(values, value_in(target.class, target.order, symbol))?;
    }
    Ok(())
}

/// The value of a symbol; 0 of number 0, which is no symbol, and None where there is none of this number.
pub fn symbol_value(values: &[u64], number: u64) -> Option<u64>
    ensures { result ≡ symbol_value values.now number }
{
    if number == 0 {
        return Some(0);
    }
    if values.len() as u64 <= number {
        return None;
    }
    Some(values[number as usize])
}
