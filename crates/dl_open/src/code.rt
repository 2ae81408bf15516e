//! Where the code of an ELF file is, for the look-up.
ghost use Rattle.std.specs.Prelude.{◌≡◌, ◌≢◌, [], ℕ, IfErr, IfOk, MatchResult, Ok, length, map};
ghost use Rattle.std.specs.List.{list_any};
ghost use Rattle.dl_file.specs.Code.{IsCode};
ghost use Rattle.dl_elf.specs.Source.{ForBytes};
ghost use Rattle.dl_file.specs.declared.code.Code as code_data;
ghost use Rattle.dl_memory.specs.Refusals.{IsRefused};
ghost use Rattle.dl_look.specs.CodeRanges.{has_code};
ghost use Rattle.dl_look.specs.Ranges.{is_in};
ghost use Rattle.dl_open.specs.declared.fault.FileFault.TheVariants.{NoMemory};
ghost use Rattle.dl_open.specs.Code.{AreLive, RefusesCode, address_range, linked_ranges};

use crate::fault::FileFault;
use dl_elf::ReadAt;
use dl_file::{Code, CodeFault, ExecutableRange, find_code};
use dl_look::{AddressRange, CodeRanges};
use dl_memory::Memory;

/// Where a file has code.
#[derive(Drop)]
pub struct FileCode {
    /// The ranges of its code, in the order of its sections; none where it isn't linked.
    pub ranges: Vec<AddressRange>,
    /// In which of them sequences are live; None where sequences are live everywhere.
    pub live: Option<CodeRanges>,
}

/// The ranges as the look-up takes them.
fn address_ranges<M: Memory>(
    memory: &M,
    ranges: &[ExecutableRange],
) -> Result<Vec<AddressRange>, FileFault>
    ensures ranges { IfOk result (λ addresses. addresses.items ≡ map address_range ranges.now) }
    ensures memory { IfErr result (λ fault. (fault ≡ NoMemory) × IsRefused (M.refuses memory.now) (length ranges.now)) }
{
    let mut addresses = Vec::new(memory.alloc());
    for range in ranges {
        let address = AddressRange {
            start: range.start,
            size: range.size,
        };
        if memory.push(&mut addresses, address).is_err() {
            return Err(FileFault::NoMemory);
        }
    }
    Ok(addresses)
}

/// Where these ranges are, for the look-up.
fn ranges_of<M: Memory>(memory: &M, ranges: &[ExecutableRange]) -> Result<CodeRanges, FileFault>
    ensures has { IfOk result (λ code. (a : ℕ) → has_code code a ≡ list_any (is_in a) (map address_range ranges.now)) }
    ensures memory { IfErr result (λ fault. (fault ≡ NoMemory) × IsRefused (M.refuses memory.now) (length ranges.now)) }
{
    let addresses = address_ranges(memory, ranges)?;
    match CodeRanges::build(memory, addresses.as_slice()) {
        Ok(code) => Ok(code),
        Err(_) => Err(FileFault::NoMemory),
    }
}

/// The ranges in which sequences are live: those of the code, where the file is linked and has any.
fn live_ranges<M: Memory>(memory: &M, code: &Code) -> Result<Option<CodeRanges>, FileFault>
    ensures live { IfOk result (λ ranges. AreLive ranges code.now) }
    ensures memory { IfErr result (λ fault. (fault ≡ NoMemory) × (code.now.ranges.items ≢ [])
        × IsRefused (M.refuses memory.now) (length code.now.ranges.items)) }
{
    if !code.is_linked || code.ranges.is_empty() {
        return Ok(None);
    }
    Ok(Some(ranges_of(memory, code.ranges.as_slice())?))
}

/// The ranges of the code, where the file is linked.
fn linked_ranges<M: Memory>(memory: &M, code: &Code) -> Result<Vec<AddressRange>, FileFault>
    ensures ranges { IfOk result (λ ranges. ranges.items ≡ linked_ranges code.now) }
    ensures memory { IfErr result (λ fault. (fault ≡ NoMemory) × (code.now.ranges.items ≢ [])
        × IsRefused (M.refuses memory.now) (length code.now.ranges.items)) }
{
    if code.is_linked && !code.ranges.is_empty() {
        return address_ranges(memory, code.ranges.as_slice());
    }
    Ok(Vec::new(memory.alloc()))
}

/// The ranges of the code, where the file is linked, and in which of them sequences are live.
fn with_ranges<M: Memory>(memory: &M, code: &Code) -> Result<FileCode, FileFault>
    ensures ranges { IfOk result (λ found. found.ranges.items ≡ linked_ranges code.now) }
    ensures live { IfOk result (λ found. AreLive found.live code.now) }
    ensures memory { IfErr result (λ fault. (fault ≡ NoMemory) × (code.now.ranges.items ≢ [])
        × IsRefused (M.refuses memory.now) (length code.now.ranges.items)) }
{
    let ranges = linked_ranges(memory, code)?;
    let live = live_ranges(memory, code)?;
    Ok(FileCode { ranges, live })
}

/// The ranges of the code of an open file, and in which of them sequences are live.
pub fn file_code<M: Memory, S: ReadAt>(memory: &M, file: &S) -> Result<FileCode, FileFault>
    ensures { ForBytes (S.all_bytes file.now) (λ f. MatchResult result
        (λ found. (code : code_data.Code) × IsCode f (Ok code) × (found.ranges.items ≡ linked_ranges code)
        × AreLive found.live code)
        (RefusesCode (M.refuses memory.now) (S.fails_with file.now) f)) }
{
    match find_code(memory, file) {
        Ok(code) => with_ranges(memory, &code),
        Err(CodeFault::Elf(fault)) => Err(FileFault::Elf(fault)),
        Err(CodeFault::NoMemory) => Err(FileFault::NoMemory),
    }
}

/// Where an open file has code, if it is linked and has any.
pub fn code_of<M: Memory, S: ReadAt>(memory: &M, file: &S) -> Result<Option<CodeRanges>, FileFault>
    ensures { ForBytes (S.all_bytes file.now) (λ f. MatchResult result
        (λ ranges. (code : code_data.Code) × IsCode f (Ok code) × AreLive ranges code)
        (RefusesCode (M.refuses memory.now) (S.fails_with file.now) f)) }
{
    match find_code(memory, file) {
        Ok(code) => live_ranges(memory, &code),
        Err(CodeFault::Elf(fault)) => Err(FileFault::Elf(fault)),
        Err(CodeFault::NoMemory) => Err(FileFault::NoMemory),
    }
}
