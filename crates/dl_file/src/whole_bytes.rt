//! All bytes of a section, held in memory.
ghost use Rattle.dl_elf.specs.declared.fault.ElfFault.TheVariants.{NoMemory};
ghost use Rattle.std.specs.Prelude.{◌≡◌, ◌≢◌, ◌<◌, ◌^◌, ◌⊎◌, ◌+◌, IfSome, ℕ, List, Option, Some, true, length, drop};
ghost use Rattle.dl_elf.specs.Answers.{IfRead, IfRefused};
ghost use Rattle.dl_elf.specs.Sections.{range_within, section_range};
ghost use Rattle.dl_elf.specs.Source.{ForBytes};
ghost use Rattle.dl_file.specs.Answering.{IsHad, IsToldAs};
ghost use Rattle.dl_file.specs.ContentReader.{StreamFails, inflated_damage, inflated_left, inflated_name};
ghost use Rattle.dl_file.specs.ContentReader.{inflated_remaining};
ghost use Rattle.dl_file.specs.Inflating.{damage, inflated};
ghost use Rattle.dl_file.specs.LineTable.{Inflated, IsTooLong, content_of, held_bytes};
ghost use Rattle.dl_memory.specs.Refusals.{IsRefused, WasRefused};

use crate::content_reader::Readable;
use crate::inflated_reader::InflatedReader;
use crate::read_fault::ReadFault;
use crate::section_bytes::{PIECE, read_bytes};
use dl_elf::{CompressionHeader, ElfFault, Part, Range, ReadAt, SectionName};
use dl_memory::Memory;
use std::io::{Cursor, Read};

/// How many bytes a compressed section that is held may inflate to: 2^32.
const HELD_LIMIT: u64 = 1 << 32;

/// The fault of a section of this name of which a read failed so.
fn stopped_by(name: SectionName, fault: Option<ReadFault>) -> ElfFault
    ensures told { IsToldAs name fault result }
    ensures refused { IfSome fault (λ _. result ≢ NoMemory) }
{
    match fault {
        Some(ReadFault::DamagedStream(at)) => ElfFault::DamagedStream(name, at),
        Some(ReadFault::Read(error)) => ElfFault::Read(error),
        None => ElfFault::NoMemory,
    }
}

/// All bytes that a reader gives, of which there may be `size`. Where these are more than are held they are read without
/// being kept, so that the damage of their stream is told.
fn read_whole<S: ReadAt, M: Memory>(
    memory: &M,
    reader: &mut InflatedReader<'_, S>,
    size: u64,
) -> Result<Vec<u8>, ElfFault>
    requires { inflated_left reader.old ≡ size }
    ensures bytes { (bytes : List ℕ) (damage : Option ℕ) → inflated_remaining S.all_bytes reader.old ≡ Some bytes
        → inflated_damage S.all_bytes reader.old ≡ Some damage
        → IsHad (held_bytes (Inflated (inflated_name reader.old) bytes damage)) result }
    ensures read { IfRead (StreamFails S.all_bytes S.fails_with reader.old) result }
    ensures refused { IfRefused (WasRefused (M.refuses memory.now) ⊎ (2 ^ 32 < size)) result }
    ensures most { IfRefused (IsRefused (M.refuses memory.now) (2 ^ 32) ⊎ (2 ^ 32 < size)) result }
{
    let mut bytes = Vec::new(memory.alloc());
    let mut buffer = [0; PIECE];
    loop {
        let Ok(n) = reader.read(&mut buffer) else {
            return Err(stopped_by(reader.name(), reader.last_fault()));
        };
        if n == 0 && size <= HELD_LIMIT {
            return Ok(bytes);
        }
        if n == 0 {
            return Err(ElfFault::NoMemory);
        }
        if size <= HELD_LIMIT {
            let Ok(()) = memory.extend_from_slice(&mut bytes, &buffer[..n]) else {
                return Err(ElfFault::NoMemory);
            };
        }
    }
}

/// What the stream in the bytes of a compressed section of this name inflates to.
fn inflate_whole<M: Memory>(
    memory: &M,
    section: &[u8],
    name: SectionName,
    header: &CompressionHeader,
) -> Result<Vec<u8>, ElfFault>
    ensures bytes { length section.now < 2 ^ 64 → IsHad (held_bytes (Inflated name (inflated header.now (drop header.now.stream_offset section.now))
        (damage header.now (length section.now) (drop header.now.stream_offset section.now)))) result }
    ensures read { IfRead (λ error. ⊥) result }
    ensures refused { IfRefused (WasRefused (M.refuses memory.now) ⊎ (2 ^ 32 < header.now.size)) result }
    ensures most { IfRefused (IsRefused (M.refuses memory.now) (2 ^ 32) ⊎ (2 ^ 32 < header.now.size)) result }
{
    let source = Cursor::new(section);
    let range = Range {
        offset: 0,
        size: section.len() as u64,
    };
    let mut reader = InflatedReader::new(&source, name, range, header);
    read_whole(memory, &mut reader, header.size)
}

/// All bytes of a section that lies in the file; of one that is compressed, those that its stream inflates to.
///
/// `NoMemory` also where these are more than 2^32, as the section says.
pub fn whole_bytes<S: ReadAt, M: Memory>(
    memory: &M,
    source: &S,
    readable: &Readable,
) -> Result<Vec<u8>, ElfFault>
    requires within { ForBytes (S.all_bytes source.now)
        (λ f. range_within (section_range readable.now.section.header) f ≡ true) }
    ensures bytes { ForBytes (S.all_bytes source.now) (λ f. IsHad (held_bytes (content_of f readable.now)) result) }
    ensures read { IfRead (S.fails_with source.now) result }
    ensures refused { IfRefused (WasRefused (M.refuses memory.now) ⊎ IsTooLong readable.now) result }
    ensures most { ForBytes (S.all_bytes source.now) (λ f.
        IfRefused (IsRefused (M.refuses memory.now) (length f + 2 ^ 32) ⊎ IsTooLong readable.now) result) }
{
    let section = &readable.section;
    let Some(bytes) = read_bytes(memory, source, &section.header)? else {
        return Err(ElfFault::Damaged(Part::Section(section.name)));
    };
    let Some(header) = readable.stream else {
        return Ok(bytes);
    };
    inflate_whole(memory, bytes.as_slice(), section.name, &header)
}
