//! The call that makes the index of a section.

ghost use Rattle.std.specs.Prelude.{◌≡◌, ℕ, true, false, IfOk, OnErr, length, map};
ghost use Rattle.dl_memory.specs.Refusals.{IsRefused};
ghost use Rattle.std.specs.List.{list_any};
ghost use Rattle.dl_addr.specs.Code.{is_code};
ghost use Rattle.dl_buffers.specs.Calls.{dialect_of, goes_on};
ghost use Rattle.dl_buffers.specs.PathCalls.{both_strings};
ghost use Rattle.dl_look.specs.CodeRanges.{has_code};
ghost use Rattle.dl_look.specs.Ranges.{is_in};
ghost use Rattle.dl_sections.specs.Commands.{strings_in};
ghost use Rattle.dl_building.specs.SectionBuilding.{BuildsSection, IsSectionBuilt, PutsSection, address_range, is_live};

use crate::faults::tell_run;
use crate::room::put;
use dl_buffers::{FaultRecord, Status, dialect_of, goes_on};
use dl_dirs::CompilationDirectories;
use dl_look::{AddressRange, CodeRanges};
use dl_making::{SetMemory, Table, make_index, make_index_around};
use dl_memory::{Memory, NoMemory};
use dl_sections::{DamagedUnits, Options, RunFault, SECTION_LIMIT};

/// A range of addresses that have code.
#[repr(C)]
#[derive(Clone, Copy)]
pub struct CodeRange {
    /// The first address.
    pub start: u64,
    /// How many addresses there are.
    pub size: u64,
}

/// The index of a section.
#[derive(Drop)]
pub struct SectionIndex {
    pub index: Vec<u8>,
    /// The units that are damaged, where they are gone around.
    pub damaged: Option<DamagedUnits>,
}

/// The ranges as the look-up takes them.
fn address_ranges<M: Memory>(
    memory: &M,
    ranges: &[CodeRange],
) -> Result<Vec<AddressRange>, NoMemory>
    ensures ranges { IfOk result (λ addresses. addresses.items ≡ map address_range ranges.now) }
    ensures refused { OnErr result (IsRefused (M.refuses memory.now) (length ranges.now)) }
{
    let mut addresses = Vec::new(memory.alloc());
    for range in ranges {
        let address = AddressRange {
            start: range.start,
            size: range.size,
        };
        memory.push(&mut addresses, address)?;
    }
    Ok(addresses)
}

/// Where these ranges are, for the look-up.
fn ranges_of<M: Memory>(memory: &M, ranges: &[CodeRange]) -> Result<CodeRanges, NoMemory>
    ensures code { IfOk result (λ code. (a : ℕ) → has_code code a ≡ list_any (is_in a) (map address_range ranges.now)) }
    ensures refused { OnErr result (IsRefused (M.refuses memory.now) (length ranges.now)) }
{
    let addresses = address_ranges(memory, ranges)?;
    CodeRanges::build(memory, addresses.as_slice())
}

/// In which code sequences count: in these ranges, or everywhere where all sequences do, or no range is given.
fn code_of<M: Memory>(
    memory: &M,
    all: bool,
    ranges: &[CodeRange],
) -> Result<Option<CodeRanges>, NoMemory>
    ensures code { IfOk result (λ code. (a : ℕ) → is_code code a ≡ is_live all ranges.now a) }
    ensures refused { OnErr result (IsRefused (M.refuses memory.now) (length ranges.now)) }
{
    if all || ranges.is_empty() {
        return Ok(None);
    }
    Ok(Some(ranges_of(memory, ranges)?))
}

/// The index of a section, up to a damaged unit.
fn index_to_fault<M: SetMemory>(
    memory: &M,
    section: &[u8],
    table: &Table<'_>,
    options: &Options<'_>,
) -> Result<SectionIndex, RunFault>
    requires { options.now.limit ≡ SECTION_LIMIT }
    ensures { IsSectionBuilt (M.refuses memory.now) false options.now.dialect (strings_in options.now) table.now section.now result }
{
    let mut input = section;
    match make_index(memory, &mut input, table, options) {
        Ok(made) => Ok(SectionIndex {
            index: made.index,
            damaged: None,
        }),
        Err(fault) => Err(fault),
    }
}

/// The index of a section, around damaged units.
fn index_around<M: SetMemory>(
    memory: &M,
    section: &[u8],
    table: &Table<'_>,
    options: &Options<'_>,
) -> Result<SectionIndex, RunFault>
    requires { options.now.limit ≡ SECTION_LIMIT }
    ensures { IsSectionBuilt (M.refuses memory.now) true options.now.dialect (strings_in options.now) table.now section.now result }
{
    let mut input = section;
    match make_index_around(memory, &mut input, table, options) {
        Ok(made) => Ok(SectionIndex {
            index: made.index,
            damaged: made.survey.damaged,
        }),
        Err(fault) => Err(fault),
    }
}

/// The index of a section, up to a damaged unit or around such units.
fn section_index<M: SetMemory>(
    memory: &M,
    section: &[u8],
    keep_going: bool,
    table: &Table<'_>,
    options: &Options<'_>,
) -> Result<SectionIndex, RunFault>
    requires { options.now.limit ≡ SECTION_LIMIT }
    ensures { IsSectionBuilt (M.refuses memory.now) keep_going options.now.dialect (strings_in options.now) table.now section.now result }
{
    if keep_going {
        index_around(memory, section, table, options)
    } else {
        index_to_fault(memory, section, table, options)
    }
}

/// Puts the index of a section, made with a table, into a room.
fn put_section<M: SetMemory>(
    memory: &M,
    section: &[u8],
    keep_going: bool,
    table: &Table<'_>,
    options: &Options<'_>,
    room: &mut [u8],
    len: &mut usize,
    fault: &mut FaultRecord,
) -> Status
    requires { options.now.limit ≡ SECTION_LIMIT }
    ensures { PutsSection (M.refuses memory.now) keep_going options.now.dialect (strings_in options.now) table.now section.now room.old room.new
        len.old len.new fault.old fault.new result }
{
    match section_index(memory, section, keep_going, table, options) {
        Ok(made) => put(made.index.as_slice(), made.damaged, room, len, fault),
        Err(run) => tell_run(run, fault),
    }
}

/// Makes the index of a section, whose paths stand as the section says them: of the sequences that begin in the ranges, in
/// any order, or of all; up to a damaged unit, or around such units where `how` says so. The string sections are
/// `.debug_line_str` and `.debug_str`.
///
/// Done, NoRoom, Fault, NoMemory: as of `build_file`.
pub fn build_section<M: SetMemory>(
    memory: &M,
    section: &[u8],
    how: u8,
    all: bool,
    line_str: &[u8],
    str: &[u8],
    code: &[CodeRange],
    room: &mut [u8],
    len: &mut usize,
    fault: &mut FaultRecord,
) -> Status
    ensures { BuildsSection (M.refuses memory.now) (goes_on how) (dialect_of how) (both_strings line_str.now str.now) all code.now section.now
        room.old room.new len.old len.new fault.old fault.new result }
{
    let Ok(code) = code_of(memory, all, code) else {
        return Status::NoMemory;
    };
    let table = Table {
        code: code.as_ref(),
        directories: CompilationDirectories::Unknown,
        all,
        build_id: b"",
    };
    let options = Options {
        dialect: dialect_of(how),
        debug_line_str: Some(line_str),
        debug_str: Some(str),
        limit: SECTION_LIMIT,
    };
    put_section(
        memory,
        section,
        goes_on(how),
        &table,
        &options,
        room,
        len,
        fault,
    )
}
