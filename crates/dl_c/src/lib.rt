//! The library for C: each export calls the function of another crate that does its work. Before them stand the calls of
//! bindings/c/calls.c, whose names begin with `dl_`: no slice here is at a null pointer, also where it is empty. What C
//! hands in and owes stands in include/boxantrel.h.
#![tactic(auto)]

ghost use Rattle.std.specs.Prelude.{◌≡◌, ◌≤◌, drop, length};
ghost use Rattle.dl_building.specs.FileBuilding.{BuildsFile};
ghost use Rattle.dl_building.specs.FileFaultTexts.{file_fault_words};
ghost use Rattle.dl_building.specs.SectionBuilding.{BuildsSection};
ghost use Rattle.dl_buffers.specs.declared.status.Status.{Status};
ghost use Rattle.dl_buffers.specs.AroundCalls.{ChecksBy, FindsAllBy};
ghost use Rattle.dl_buffers.specs.Calls.{dialect_of, goes_on};
ghost use Rattle.dl_buffers.specs.CopyCalls.{Copies};
ghost use Rattle.dl_buffers.specs.FaultCalls.{told_text};
ghost use Rattle.dl_buffers.specs.FindCalls.{Finds, place_at};
ghost use Rattle.dl_buffers.specs.PathCalls.{TellsPath, both_strings};
ghost use Rattle.dl_buffers.specs.PathsCalls.{TellsPaths};
ghost use Rattle.dl_buffers.specs.Records.{status_code};
ghost use Rattle.dl_buffers.specs.UnitCalls.{Describes, Lists, length_told, written_over};
ghost use Rattle.dl_memory.specs.Refusals.{SystemRefuses};
ghost use Rattle.dl_memory.specs.declared.system.System.{System};
ghost use Rattle.dl_finding_buffers.specs.FindingCalls.{FindsFindings};
ghost use Rattle.dl_source_buffers.specs.LineCalls.{FindsLines};
ghost use Rattle.dl_source_buffers.specs.SourceCalls.{FindsFiles, rooms};
ghost use Rattle.dl_index_buffers.specs.IndexFaultCalls as index_faults;
ghost use Rattle.dl_index_buffers.specs.IndexFindCalls.{FindsMany, FindsOne};
ghost use Rattle.dl_index_buffers.specs.IndexPathCalls.{path_told};
ghost use Rattle.dl_index_buffers.specs.OpenCalls.{Opens, OpensUnchecked};
ghost use Rattle.dl_index_buffers.specs.StretchCalls.{ListsStretch};

use dl_buffers::{Counts, FaultRecord, Place, RowRecord, UnitRecord};
use dl_building::CodeRange;
use dl_index_buffers::{IndexFaultRecord, IndexRecord, Layout, LocationRecord};
use dl_memory::System;
use dl_source_buffers::{PlaceRecord, SourceRecord};
use std::alloc::Global;

/// As `dl_buffers::check`.
#[unsafe(no_mangle)]
pub extern "C" fn boxantrel_check(
    alloc: Global,
    section: &[u8],
    how: u8,
    counts: &mut Counts,
    fault: &mut FaultRecord,
) -> u32
    ensures { (status : Status) × (result ≡ status_code status)
        × ChecksBy (goes_on how) (dialect_of how) section.now counts.old counts.new fault.old fault.new status }
{
    dl_buffers::check(alloc, section, how, counts, fault).code()
}

/// As `dl_buffers::unit_at`.
#[unsafe(no_mangle)]
pub extern "C" fn boxantrel_unit_at(
    alloc: Global,
    section: &[u8],
    how: u8,
    offset: u64,
    unit: &mut UnitRecord,
    fault: &mut FaultRecord,
) -> u32
    ensures { (status : Status) × (result ≡ status_code status)
        × Describes (dialect_of how) (drop offset section.now) offset unit.old unit.new fault.old fault.new status }
{
    dl_buffers::unit_at(alloc, section, how, offset, unit, fault).code()
}

/// As `dl_buffers::rows_at`.
#[unsafe(no_mangle)]
pub extern "C" fn boxantrel_rows_at(
    alloc: Global,
    section: &[u8],
    how: u8,
    offset: u64,
    rows: &mut [RowRecord],
    count: &mut usize,
    fault: &mut FaultRecord,
) -> u32
    ensures { (status : Status) × (result ≡ status_code status)
        × Lists (dialect_of how) (drop offset section.now) offset rows.old rows.new count.old count.new fault.old
        fault.new status }
{
    dl_buffers::rows_at(alloc, section, how, offset, rows, count, fault).code()
}

/// As `dl_buffers::find`.
#[unsafe(no_mangle)]
pub extern "C" fn boxantrel_find(
    alloc: Global,
    section: &[u8],
    how: u8,
    address: u64,
    op_index: u8,
    row: &mut RowRecord,
    unit: &mut u64,
    fault: &mut FaultRecord,
) -> u32
    ensures { (status : Status) × (result ≡ status_code status)
        × Finds (dialect_of how) section.now (place_at address op_index) row.old row.new unit.old unit.new fault.old
        fault.new status }
{
    let place = Place { address, op_index };
    dl_buffers::find(alloc, section, how, place, row, unit, fault).code()
}

/// As `dl_buffers::find_all`. `dl_find_all` hands in one number of addresses, rows and offsets.
#[unsafe(no_mangle)]
pub extern "C" fn boxantrel_find_all(
    alloc: Global,
    section: &[u8],
    how: u8,
    addresses: &[u64],
    rows: &mut [RowRecord],
    units: &mut [u64],
    fault: &mut FaultRecord,
) -> u32
    ensures { (status : Status) × (result ≡ status_code status)
        × FindsAllBy SystemRefuses (goes_on how) (dialect_of how) section.now addresses.now rows.old rows.new units.old units.new
        fault.old fault.new status }
{
    dl_buffers::find_all(
        &System::new(alloc),
        section,
        how,
        addresses,
        rows,
        units,
        fault,
    )
    .code()
}

/// As `dl_buffers::copy`.
#[unsafe(no_mangle)]
pub extern "C" fn boxantrel_copy(
    alloc: Global,
    section: &[u8],
    how: u8,
    room: &mut [u8],
    len: &mut usize,
    fault: &mut FaultRecord,
) -> u32
    ensures { (status : Status) × (result ≡ status_code status)
        × Copies SystemRefuses (dialect_of how) section.now room.old room.new len.old len.new fault.old fault.new status }
{
    dl_buffers::copy(&System::new(alloc), section, how, room, len, fault).code()
}

/// As `dl_buffers::path_at`.
#[unsafe(no_mangle)]
pub extern "C" fn boxantrel_path_at(
    alloc: Global,
    section: &[u8],
    how: u8,
    offset: u64,
    file: u64,
    line_str: &[u8],
    str: &[u8],
    path: &mut [u8],
    len: &mut usize,
    fault: &mut FaultRecord,
) -> u32
    ensures { (status : Status) × (result ≡ status_code status)
        × TellsPath (dialect_of how) (drop offset section.now) offset (both_strings line_str.now str.now) file path.old
        path.new len.old len.new fault.old fault.new status }
{
    dl_buffers::path_at(
        alloc, section, how, offset, file, line_str, str, path, len, fault,
    )
    .code()
}

/// As `dl_buffers::paths_at`. `dl_paths_at` hands in one number of files and ends.
#[unsafe(no_mangle)]
pub extern "C" fn boxantrel_paths_at(
    alloc: Global,
    section: &[u8],
    how: u8,
    offset: u64,
    files: &[u64],
    line_str: &[u8],
    str: &[u8],
    paths: &mut [u8],
    ends: &mut [usize],
    fault: &mut FaultRecord,
) -> u32
    ensures { (status : Status) × (result ≡ status_code status)
        × TellsPaths (dialect_of how) (drop offset section.now) offset (both_strings line_str.now str.now) files.now
        paths.old paths.new ends.old ends.new fault.old fault.new status }
{
    dl_buffers::paths_at(
        alloc, section, how, offset, files, line_str, str, paths, ends, fault,
    )
    .code()
}

/// As `dl_buffers::fault_text`.
#[unsafe(no_mangle)]
pub extern "C" fn boxantrel_fault_text(fault: &FaultRecord, text: &mut [u8]) -> usize
    ensures written { text.new ≡ written_over text.old (told_text fault.now) }
    ensures len { result ≡ length (told_text fault.now) }
    ensures few { result ≤ 128 }
{
    dl_buffers::fault_text(fault, text)
}

/// As `dl_source_buffers::lines`.
#[unsafe(no_mangle)]
pub extern "C" fn boxantrel_lines(
    alloc: Global,
    section: &[u8],
    how: u8,
    line_str: &[u8],
    str: &[u8],
    path: &[u8],
    line: u64,
    exact: bool,
    places: &mut [PlaceRecord],
    count: &mut usize,
    fault: &mut FaultRecord,
) -> u32
    ensures { (status : Status) × (result ≡ status_code status)
        × FindsLines SystemRefuses (goes_on how) (dialect_of how) (both_strings line_str.now str.now) path.now line exact section.now
        places.old places.new count.old count.new fault.old fault.new status }
{
    dl_source_buffers::lines(
        &System::new(alloc),
        section,
        how,
        line_str,
        str,
        path,
        line,
        exact,
        places,
        count,
        fault,
    )
    .code()
}

/// As `dl_source_buffers::sources`.
#[unsafe(no_mangle)]
pub extern "C" fn boxantrel_sources(
    alloc: Global,
    section: &[u8],
    how: u8,
    line_str: &[u8],
    str: &[u8],
    sources: &mut [SourceRecord],
    count: &mut usize,
    paths: &mut [u8],
    paths_len: &mut usize,
    fault: &mut FaultRecord,
) -> u32
    ensures { (status : Status) × (result ≡ status_code status)
        × FindsFiles SystemRefuses (goes_on how) (dialect_of how) (both_strings line_str.now str.now) section.now
        (rooms sources.old count.old paths.old paths_len.old) (rooms sources.new count.new paths.new paths_len.new)
        fault.old fault.new status }
{
    dl_source_buffers::sources(
        &System::new(alloc),
        section,
        how,
        line_str,
        str,
        sources,
        count,
        paths,
        paths_len,
        fault,
    )
    .code()
}

/// As `dl_finding_buffers::findings`.
#[unsafe(no_mangle)]
pub extern "C" fn boxantrel_findings(
    alloc: Global,
    section: &[u8],
    how: u8,
    rules: u32,
    line_str: &[u8],
    str: &[u8],
    findings: &mut [[u8; 72]],
    count: &mut usize,
    fault: &mut FaultRecord,
) -> u32
    ensures { (status : Status) × (result ≡ status_code status)
        × FindsFindings SystemRefuses (goes_on how) (dialect_of how) (both_strings line_str.now str.now) rules section.now
        findings.old findings.new count.old count.new fault.old fault.new status }
{
    dl_finding_buffers::findings(
        &System::new(alloc),
        section,
        how,
        rules,
        line_str,
        str,
        findings,
        count,
        fault,
    )
    .code()
}

/// As `dl_index_buffers::open`.
#[unsafe(no_mangle)]
pub extern "C" fn boxantrel_index_open(
    bytes: &[u8],
    index: &mut IndexRecord,
    fault: &mut IndexFaultRecord,
) -> u32
    ensures { (status : Status) × (result ≡ status_code status)
        × Opens bytes.now index.old index.new fault.old fault.new status }
{
    dl_index_buffers::open(bytes, index, fault).code()
}

/// As `dl_index_buffers::open_unchecked`.
#[unsafe(no_mangle)]
pub extern "C" fn boxantrel_index_open_unchecked(
    bytes: &[u8],
    index: &mut IndexRecord,
    fault: &mut IndexFaultRecord,
) -> u32
    ensures { (status : Status) × (result ≡ status_code status)
        × OpensUnchecked bytes.now index.old index.new fault.old fault.new status }
{
    dl_index_buffers::open_unchecked(bytes, index, fault).code()
}

/// As `dl_index_buffers::find`.
#[unsafe(no_mangle)]
pub extern "C" fn boxantrel_index_find(
    bytes: &[u8],
    layout: &Layout,
    address: u64,
    location: &mut LocationRecord,
) -> u32
    ensures { (status : Status) × (result ≡ status_code status)
        × FindsOne layout.now bytes.now address location.old location.new status }
{
    dl_index_buffers::find(bytes, layout, address, location).code()
}

/// As `dl_index_buffers::find_many`. `dl_index_find_many` hands in one number of addresses and locations.
#[unsafe(no_mangle)]
pub extern "C" fn boxantrel_index_find_many(
    bytes: &[u8],
    layout: &Layout,
    addresses: &[u64],
    locations: &mut [LocationRecord],
) -> u32
    ensures { (status : Status) × (result ≡ status_code status)
        × FindsMany layout.now bytes.now addresses.now locations.old locations.new status }
{
    dl_index_buffers::find_many(bytes, layout, addresses, locations).code()
}

/// As `dl_index_buffers::stretch`.
#[unsafe(no_mangle)]
pub extern "C" fn boxantrel_index_stretch(
    bytes: &[u8],
    layout: &Layout,
    k: usize,
    start: &mut u64,
    last: &mut u64,
    location: &mut LocationRecord,
) -> u32
    ensures { (status : Status) × (result ≡ status_code status)
        × ListsStretch layout.now bytes.now k start.old start.new last.old last.new location.old location.new status }
{
    dl_index_buffers::stretch(bytes, layout, k, start, last, location).code()
}

/// As `dl_index_buffers::path`.
#[unsafe(no_mangle)]
pub extern "C" fn boxantrel_index_path(
    bytes: &[u8],
    location: &LocationRecord,
    path: &mut [u8],
) -> usize
    ensures written { path.new ≡ written_over path.old (path_told bytes.now location.now) }
    ensures len { result ≡ length_told (path_told bytes.now location.now) }
{
    dl_index_buffers::path(bytes, location, path)
}

/// As `dl_index_buffers::fault_text`.
#[unsafe(no_mangle)]
pub extern "C" fn boxantrel_index_fault_text(fault: &IndexFaultRecord, text: &mut [u8]) -> usize
    ensures written { text.new ≡ written_over text.old (index_faults.told_text fault.now) }
    ensures len { result ≡ length_told (index_faults.told_text fault.now) }
{
    dl_index_buffers::fault_text(fault, text)
}

/// As `dl_building::build_file`.
#[unsafe(no_mangle)]
pub extern "C" fn boxantrel_index_build(
    alloc: Global,
    file: &[u8],
    all: bool,
    keep_going: bool,
    room: &mut [u8],
    len: &mut usize,
    fault: &mut FaultRecord,
) -> u32
    ensures { (status : Status) × (result ≡ status_code status)
        × BuildsFile SystemRefuses file.now all keep_going room.old room.new len.old len.new fault.old fault.new status }
{
    dl_building::build_file(&System::new(alloc), file, all, keep_going, room, len, fault).code()
}

/// As `dl_building::build_section`.
#[unsafe(no_mangle)]
pub extern "C" fn boxantrel_index_build_section(
    alloc: Global,
    section: &[u8],
    how: u8,
    all: bool,
    line_str: &[u8],
    str: &[u8],
    code: &[CodeRange],
    room: &mut [u8],
    len: &mut usize,
    fault: &mut FaultRecord,
) -> u32
    ensures { (status : Status) × (result ≡ status_code status)
        × BuildsSection SystemRefuses (goes_on how) (dialect_of how) (both_strings line_str.now str.now) all code.now section.now
        room.old room.new len.old len.new fault.old fault.new status }
{
    dl_building::build_section(
        &System::new(alloc),
        section,
        how,
        all,
        line_str,
        str,
        code,
        room,
        len,
        fault,
    )
    .code()
}

/// As `dl_building::file_fault_text`.
#[unsafe(no_mangle)]
pub extern "C" fn boxantrel_file_fault_text(kind: u32, text: &mut [u8]) -> usize
    ensures written { text.new ≡ written_over text.old (file_fault_words kind) }
    ensures len { result ≡ length (file_fault_words kind) }
{
    dl_building::file_fault_text(kind, text)
}
