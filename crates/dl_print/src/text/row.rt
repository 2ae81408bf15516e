//! The line of a row.
ghost use Rattle.std.specs.Prelude.{◌≡◌, ◌+◌, ◌≤◌, [], ◌∷◌, ◌++◌, length, take, decimal};
ghost use Rattle.dl_print.specs.Text.{row_line, row_text, place_text, flags_text, flag, number_if_any};

use crate::text::digits::{
    write_byte, write_bytes, write_decimal, write_number, write_sixteen_digits,
};
use dl_rows::Row;

/// Writes a word where it is set, and answers where it ends.
#[inline]
fn write_if(buffer: &mut [u8], at: usize, is_set: bool, word: &[u8]) -> usize
    requires { at + length word.now ≤ length buffer.old }
    ensures written { take result buffer.new ≡ take at buffer.old ++ flag is_set word.now }
    ensures room { result ≤ at + length word.now }
{
    if is_set {
        write_bytes(buffer, at, word)
    } else {
        at
    }
}

/// Writes a space and a number, and answers where it ends.
#[inline]
#[tactic(auto, using(crate::proofs::DecimalLemmas::decimal_room))]
fn write_field(buffer: &mut [u8], at: usize, number: u64) -> usize
    requires { at + 21 ≤ length buffer.old }
    ensures written { take result buffer.new ≡ take at buffer.old ++ 32 ∷ [] ++ decimal number }
    ensures room { result ≤ at + 21 }
{
    let at = write_byte(buffer, at, b' ');
    write_decimal(buffer, at, number)
}

/// Writes a name and a number that isn't 0, and answers where they end.
#[inline]
fn write_number_if_any(buffer: &mut [u8], at: usize, name: &[u8], number: u64) -> usize
    requires { at + length name.now + 20 ≤ length buffer.old }
    ensures written { take result buffer.new
        ≡ take at buffer.old ++ number_if_any name.now number }
    ensures room { result ≤ at + length name.now + 20 }
{
    if number == 0 {
        return at;
    }
    write_number(buffer, at, name, number)
}

/// Writes the address and the numbers that each row has, and answers where they end.
#[inline]
#[tactic(auto, unfolding(crate::specs::Text::place_text))]
fn write_place(buffer: &mut [u8], at: usize, row: &Row) -> usize
    requires { at + 106 ≤ length buffer.old }
    ensures written { take result buffer.new ≡ take at buffer.old ++ place_text row.now }
    ensures room { result ≤ at + 106 }
{
    let at = write_bytes(buffer, at, b"row 0x");
    let at = write_sixteen_digits(buffer, at, row.address);
    let at = write_field(buffer, at, row.op_index as u64);
    let at = write_field(buffer, at, row.file);
    let at = write_field(buffer, at, row.line);
    write_field(buffer, at, row.column)
}

/// Writes the flags that are set, and answers where they end.
#[inline]
#[tactic(auto, unfolding(crate::specs::Text::flags_text))]
fn write_flags(buffer: &mut [u8], at: usize, row: &Row) -> usize
    requires { at + 34 ≤ length buffer.old }
    ensures written { take result buffer.new ≡ take at buffer.old ++ flags_text row.now }
    ensures room { result ≤ at + 34 }
{
    let at = write_if(buffer, at, row.is_stmt, b" stmt");
    let at = write_if(buffer, at, row.basic_block, b" block");
    let at = write_if(buffer, at, row.prologue_end, b" prologue");
    let at = write_if(buffer, at, row.epilogue_begin, b" epilogue");
    write_if(buffer, at, row.end_sequence, b" end")
}

/// Writes what the line of a row says, and answers where it ends.
#[inline]
pub fn write_row_text(buffer: &mut [u8], at: usize, row: &Row) -> usize
    requires { at + 191 ≤ length buffer.old }
    ensures written { take result buffer.new ≡ take at buffer.old ++ row_text row.now }
    ensures room { result ≤ at + 191 }
{
    let at = write_place(buffer, at, row);
    let at = write_flags(buffer, at, row);
    let at = write_number_if_any(buffer, at, b" isa ", row.isa);
    write_number_if_any(buffer, at, b" disc ", row.discriminator)
}

/// Writes the line of a row, and answers where it ends.
pub fn write_row(buffer: &mut [u8], at: usize, row: &Row) -> usize
    requires { at + 192 ≤ length buffer.old }
    ensures written { take result buffer.new ≡ take at buffer.old ++ row_line row.now }
    ensures room { result ≤ at + 192 }
{
    let at = write_row_text(buffer, at, row);
    write_byte(buffer, at, b'\n')
}
