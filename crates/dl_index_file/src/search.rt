//! The search for the last start that isn't above a number, by single starts of a file, down to a few next to one another.

ghost use Rattle.std.specs.Prelude.{◌≡◌, ◌+◌, ◌*◌, ◌<◌, ◌≤◌, ◌^◌, length, IfOk, IfErr};
ghost use Rattle.dl_elf.specs.Elf.{bytes_at};
ghost use Rattle.dl_elf.specs.Source.{ForBytes};
ghost use Rattle.dl_index.specs.Columns.{number_at, size_of};
ghost use Rattle.dl_index_file.specs.Narrowed.{Narrowed};
ghost use Rattle.dl_index_file.specs.Reading.{ReadFails};

use crate::filling::number_at;
use dl_elf::{Range, ReadAt};
use dl_index::Width;
use std::io;

/// How many bytes of starts are read at once: where so few are left to be searched, they are read whole.
pub const PIECE: usize = 4096;

/// Starts that stand next to one another.
#[derive(Clone, Copy)]
pub struct Few {
    /// The number of the first one.
    pub first: u64,
    /// How many there are.
    pub count: u64,
}

/// Few starts, among which the last of `count` starts is that isn't above `x`. Each start that halves those that are left
/// is read by itself, until they fit a piece.
pub fn narrow<S: ReadAt>(
    source: &S,
    starts: &Range,
    width: Width,
    count: u64,
    x: u64,
) -> io::Result<Few>
    requires some { 0 < count }
    requires size { starts.now.size ≡ count * size_of width }
    requires below { starts.now.offset + starts.now.size < 2 ^ 64 }
    requires within { ForBytes (S.all_bytes source.now) (λ b. starts.now.offset + starts.now.size ≤ length b) }
    ensures some { IfOk result (λ few. 0 < few.count) }
    ensures fits { IfOk result (λ few. few.count * size_of width ≤ 4096) }
    ensures within { IfOk result (λ few. few.first + few.count ≤ count) }
    ensures narrowed { ForBytes (S.all_bytes source.now) (λ b. IfOk result (λ few.
        Narrowed (number_at (size_of width) (bytes_at starts.now.offset starts.now.size b)) count x few.first few.count)) }
    ensures fails { IfErr result (ReadFails (S.all_bytes source.now) (S.fails_with source.now)) }
{
    let size = width.size() as u64;
    let most = PIECE as u64 / size;
    let mut low = 0;
    let mut left = count;
    while left > most {
        let half = left / 2;
        if number_at(source, starts, width, low + half)? <= x {
            low += half;
        }
        left -= half;
    }
    Ok(Few {
        first: low,
        count: left,
    })
}
