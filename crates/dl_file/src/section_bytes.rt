//! The bytes of a section, read into memory.
ghost use Rattle.std.specs.Prelude.{◌≡◌, ◌≤◌, ◌<◌, ◌*◌, take, drop, true, length, IfOk, IfErr, IfSome, MatchOption};
ghost use Rattle.std.specs.Prelude.{option_map};
ghost use Rattle.dl_elf.specs.Answers.{IfRefused};
ghost use Rattle.dl_elf.specs.Elf.{bytes_at};
ghost use Rattle.dl_elf.specs.Source.{ForBytes};
ghost use Rattle.dl_elf.specs.Sections.{range_within};
ghost use Rattle.dl_file.specs.Answering.{StopsReading};
ghost use Rattle.dl_file.specs.Relocations.{bytes_in, symbols_in, values_in};
ghost use Rattle.dl_memory.specs.Refusals.{IsRefused, WasRefused};

use crate::relocating::target_of;
use dl_elf::{
    Elf, ElfFault, Range, ReadAt, SectionHeader, Window, fill_whole, lies_within, section_at,
    section_range,
};
use dl_memory::Memory;
use dl_reloc::{Target, push_symbol_values, symbol_size};
use std::io;

/// How many bytes of a section are read at a time: whole entries of relocations, in each of their sizes.
pub const PIECE: usize = 24_576;

/// The bytes of a section; None where they don't lie in the file. Memory is taken for all of them at once, where the
/// last one stands in the file.
pub fn read_bytes<S: ReadAt, M: Memory>(
    memory: &M,
    source: &S,
    section: &SectionHeader,
) -> Result<Option<Vec<u8>>, ElfFault>
    ensures bytes { ForBytes (S.all_bytes source.now) (λ f.
        IfOk result (λ read. option_map (λ v. v.items) read ≡ bytes_in f section.now)) }
    ensures stops { IfErr result (StopsReading (S.fails_with source.now)) }
    ensures refused { IfRefused (WasRefused (M.refuses memory.now)) result }
    ensures most { ForBytes (S.all_bytes source.now) (λ f. IfRefused (IsRefused (M.refuses memory.now) (length f)) result) }
{
    let range = section_range(section);
    if !lies_within(source, range.offset, range.size)? {
        return Ok(None);
    }
    let Ok(mut bytes) = memory.with_capacity(range.size as usize) else {
        return Err(ElfFault::NoMemory);
    };
    let mut buffer = [0; PIECE];
    for index in 0..range.size.div_ceil(PIECE as u64) {
        let Some(len) = read_piece(source, &range, index, &mut buffer)? else {
            return Ok(None);
        };
        let Ok(()) = memory.extend_from_slice(&mut bytes, &buffer[..len]) else {
            return Err(ElfFault::NoMemory);
        };
    }
    Ok(Some(bytes))
}

/// Reads the bytes of a range from piece `index` of them on into the front of the buffer, as many as there are and fit,
/// and answers how many; None where they don't lie in the file.
pub fn read_piece<S: ReadAt>(
    source: &S,
    range: &Range,
    index: u64,
    buffer: &mut [u8; PIECE],
) -> io::Result<Option<usize>>
    requires { index * 24576 < range.now.size }
    ensures fits { IfOk result (λ read. IfSome read (λ n. n ≤ 24576)) }
    ensures bytes { ForBytes (S.all_bytes source.now) (λ f. range_within range.now f ≡ true → IfOk result (λ read.
        MatchOption read ⊥ (λ n. take n buffer.new
        ≡ take 24576 (drop (index * 24576) (bytes_at range.now.offset range.now.size f))))) }
    ensures fails { IfErr result (S.fails_with source.now) }
{
    let start = index * PIECE as u64;
    let len = (range.size - start).min(PIECE as u64) as usize;
    let Some(at) = range.offset.checked_add(start) else {
        return Ok(None);
    };
    if fill_whole(source, at, &mut buffer[..len])? {
        Ok(Some(len))
    } else {
        Ok(None)
    }
}

/// The values of the symbols that a section has; None where its bytes don't lie in the file. Memory is taken for all
/// of them at once, where the last byte stands in the file.
fn read_values<S: ReadAt, M: Memory>(
    memory: &M,
    source: &S,
    target: &Target,
    section: &SectionHeader,
) -> Result<Option<Vec<u64>>, ElfFault>
    ensures values { ForBytes (S.all_bytes source.now) (λ f.
        IfOk result (λ read. option_map (λ v. v.items) read ≡ values_in target.now f section.now)) }
    ensures stops { IfErr result (StopsReading (S.fails_with source.now)) }
    ensures refused { IfRefused (WasRefused (M.refuses memory.now)) result }
    ensures most { ForBytes (S.all_bytes source.now) (λ f. IfRefused (IsRefused (M.refuses memory.now) (length f)) result) }
{
    let range = section_range(section);
    if !lies_within(source, range.offset, range.size)? {
        return Ok(None);
    }
    let count = range.size / symbol_size(target.class) as u64;
    let Ok(mut values) = memory.with_capacity(count as usize) else {
        return Err(ElfFault::NoMemory);
    };
    let mut buffer = [0; PIECE];
    for index in 0..range.size.div_ceil(PIECE as u64) {
        let Some(len) = read_piece(source, &range, index, &mut buffer)? else {
            return Ok(None);
        };
        let Ok(()) = push_symbol_values(memory, target, &buffer[..len], &mut values) else {
            return Err(ElfFault::NoMemory);
        };
    }
    Ok(Some(values))
}

/// The values of the symbols in the table of this number, none of number 0; None where it doesn't lie in the file.
pub fn read_symbols<S: ReadAt, M: Memory>(
    memory: &M,
    source: &S,
    elf: &Elf,
    number: u64,
) -> Result<Option<Vec<u64>>, ElfFault>
    ensures values { ForBytes (S.all_bytes source.now) (λ f.
        IfOk result (λ read. option_map (λ v. v.items) read ≡ symbols_in elf.now f number)) }
    ensures stops { IfErr result (StopsReading (S.fails_with source.now)) }
    ensures refused { IfRefused (WasRefused (M.refuses memory.now)) result }
    ensures most { ForBytes (S.all_bytes source.now) (λ f. IfRefused (IsRefused (M.refuses memory.now) (length f)) result) }
{
    if number == 0 {
        return Ok(Some(Vec::new(memory.alloc())));
    }
    if elf.count <= number {
        return Ok(None);
    }
    match section_at(source, &mut Window::new(), &elf.header, number)? {
        Some(section) => read_values(memory, source, &target_of(elf), &section),
        None => Ok(None),
    }
}
