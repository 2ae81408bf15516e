//! The numbers of columns, and how numbers are put.

ghost use Rattle.std.specs.Prelude.{◌≡◌, ◌+◌, ◌-◌, ◌<◌, ◌≤◌, ◌^◌, ◌++◌, IfOk, OnErr, length, vec_len, replicate};
ghost use Rattle.dl_memory.specs.Refusals.{IsRefused};
ghost use Rattle.dl_num.specs.Fixed.{little_bytes};
ghost use Rattle.dl_index.specs.Columns.{size_of};
ghost use Rattle.dl_index.specs.Layout.{rounded};
ghost use Rattle.dl_pack.specs.Columns.{told_number, number_of, least_size};
ghost use Rattle.dl_pack.specs.Mentioned.{order_of};

use crate::mentions::Mentions;
use dl_index::Width;
use dl_memory::{Memory, NoMemory};
use dl_stretch::{Stretch, Told};

/// A column of an index.
#[derive(Clone, Copy)]
pub enum Column {
    Start,
    File,
    Line,
    Column,
    Discriminator,
}

/// The number that what is told has in a column; 0 of a gap.
#[inline(always)]
fn told_number(files: &Mentions, column: Column, told: Option<Told>) -> u64
    ensures { result ≡ told_number (order_of files.now) column told }
{
    let Some(told) = told else {
        return 0;
    };
    match column {
        Column::Start => 0,
        Column::File => u64::from(files.number(told.file)),
        Column::Line => told.line,
        Column::Column => told.column,
        Column::Discriminator => told.discriminator,
    }
}

/// The number of a stretch in a column.
#[inline(always)]
pub fn number_of(base: u64, files: &Mentions, column: Column, stretch: &Stretch) -> u64
    ensures number { result ≡ number_of base (order_of files.now) column stretch.now }
    ensures start { stretch.now.start < 2 ^ 64 }
{
    let above_base = stretch.start.saturating_sub(base);
    match column {
        Column::Start => above_base,
        _ => told_number(files, column, stretch.told),
    }
}

/// The least width of numbers up to this one.
pub fn least_width(greatest: u64) -> Width
    ensures { size_of result ≡ least_size greatest }
{
    if greatest < 0x100 {
        Width::One
    } else if greatest < 0x1_0000 {
        Width::Two
    } else if greatest < 0x1_0000_0000 {
        Width::Four
    } else {
        Width::Eight
    }
}

/// Puts the lowest bytes of a number, the lowest first.
#[inline(always)]
pub fn put_number<M: Memory>(
    memory: &M,
    out: &mut Vec<u8>,
    size: usize,
    number: u64,
) -> Result<(), NoMemory>
    requires { size ≤ 8 }
    ensures put { IfOk result (λ _. out.new.items ≡ out.old.items ++ little_bytes size number) }
    ensures refused { OnErr result (IsRefused (M.refuses memory.now) (length out.old.items + size)) }
{
    let bytes = number.to_le_bytes();
    match memory.extend_from_slice(out, &bytes[..size]) {
        Ok(()) => Ok(()),
        Err(NoMemory) => Err(NoMemory),
    }
}

/// Puts some bytes.
pub fn put_slice<M: Memory>(memory: &M, out: &mut Vec<u8>, slice: &[u8]) -> Result<(), NoMemory>
    ensures put { IfOk result (λ _. out.new.items ≡ out.old.items ++ slice.now) }
    ensures refused { OnErr result (IsRefused (M.refuses memory.now) (length out.old.items + length slice.now)) }
{
    memory.extend_from_slice(out, slice)?;
    Ok(())
}

/// Puts this many bytes of 0.
pub fn put_zeros<M: Memory>(memory: &M, out: &mut Vec<u8>, count: usize) -> Result<(), NoMemory>
    requires { count ≤ 44 }
    ensures put { IfOk result (λ _. out.new.items ≡ out.old.items ++ replicate count 0) }
    ensures refused { OnErr result (IsRefused (M.refuses memory.now) (length out.old.items + count)) }
{
    let zeros = [0; 44];
    put_slice(memory, out, &zeros[..count])?;
    Ok(())
}

/// Puts 0 behind a part that begins at `start`, up to a multiple of 8 bytes from there.
pub fn pad<M: Memory>(memory: &M, out: &mut Vec<u8>, start: usize) -> Result<(), NoMemory>
    requires { start ≤ vec_len out.old }
    ensures put { IfOk result (λ _. out.new.items ≡ out.old.items
        ++ replicate (rounded (vec_len out.old - start) - (vec_len out.old - start)) 0) }
    ensures refused { OnErr result (IsRefused (M.refuses memory.now) (length out.old.items + 7)) }
{
    let len = out.len() - start;
    let rest = (len + 7) / 8 * 8 - len;
    put_zeros(memory, out, rest)?;
    Ok(())
}
