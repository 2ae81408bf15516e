//! The call that finds the source files of a section.

ghost use Rattle.std.specs.Prelude.{◌≡◌, ◌++◌, List, true, false, map, Some};
ghost use Rattle.dl_buffers.specs.Calls.{dialect_of, goes_on};
ghost use Rattle.dl_buffers.specs.PathCalls.{both_strings};
ghost use Rattle.dl_buffers.specs.UnitCalls.{written_over};
ghost use Rattle.dl_sections.specs.Commands.{strings_in};
ghost use Rattle.dl_sources.specs.SourceFiles.{files_held};
ghost use Rattle.dl_source_buffers.specs.declared.source_files.SourceRecord as records;
ghost use Rattle.dl_source_buffers.specs.SourceCalls.{AreFound, FindsFiles, TellsFiles, count_told, file_records};
ghost use Rattle.dl_source_buffers.specs.SourceCalls.{paths_text, rooms, source_records};
ghost use Rattle.dl_source_buffers.specs.SourceRooms.{file_with, with_sum};

use crate::end::{End, end_around, end_of};
use crate::room::add;
use dl_buffers::{FaultRecord, Status, dialect_of, goes_on};
use dl_sections::{Options, SECTION_LIMIT};
use dl_sources::{
    CompilationDirectories, FilesQuestion, MapMemory, PathTotals, SourceTable, find_sources,
    find_sources_around,
};
use std::slice;

/// A source file, with one of its MD5 sums; one that has none without one.
#[repr(C)]
#[derive(Clone, Copy)]
pub struct SourceRecord {
    /// The byte of the paths at which its path begins.
    pub path_begin: usize,
    /// How many bytes its path has.
    pub path_len: usize,
    /// How many rows name it. It stays at 2^64 - 1 where there are more.
    pub rows: u64,
    /// How many bytes of code these rows have, as `rows`.
    pub bytes: u64,
    /// The MD5 sum; zeros where there is none.
    pub md5: [u8; 16],
    /// 1 where there is a sum, else 0.
    pub has_md5: u8,
}

/// The source files of a section, and how its reading ended.
#[derive(Drop)]
pub struct FoundFiles {
    pub table: SourceTable,
    pub end: End,
}

/// Finds the source files of a section, as `dl_sources::find_sources` does, of which each sequence counts: each path that a table
/// of files names, in the order of their bytes, with its counts, once for each of its MD5 sums, or once where it has none. The
/// string sections are `.debug_line_str` and `.debug_str`.
///
/// Done: as many source files are told as there is room for, and how many there are; and of their paths, which stand one after the
/// other, as many bytes, and how many there are. Fault: the first fault is told, and the source files that the units before it
/// name; or, where `how` says that damaged units are gone around, those of all that are whole. NoMemory: nothing is told. What
/// isn't told stays as it was.
pub fn sources<M: MapMemory>(
    memory: &M,
    section: &[u8],
    how: u8,
    line_str: &[u8],
    str: &[u8],
    sources: &mut [SourceRecord],
    count: &mut usize,
    paths: &mut [u8],
    paths_len: &mut usize,
    fault: &mut FaultRecord,
) -> Status
    ensures { FindsFiles (M.refuses memory.now) (goes_on how) (dialect_of how) (both_strings line_str.now str.now) section.now
        (rooms sources.old count.old paths.old paths_len.old) (rooms sources.new count.new paths.new paths_len.new)
        fault.old fault.new result }
{
    let question = FilesQuestion {
        code: None,
        directories: CompilationDirectories::Unknown,
    };
    let options = Options {
        dialect: dialect_of(how),
        debug_line_str: Some(line_str),
        debug_str: Some(str),
        limit: SECTION_LIMIT,
    };
    let found = found_in(memory, section, goes_on(how), &question, &options);
    tell(
        &found.table,
        found.end,
        sources,
        count,
        paths,
        paths_len,
        fault,
    )
}

/// What is found up to the first fault, or around damaged units.
fn found_in<M: MapMemory>(
    memory: &M,
    section: &[u8],
    keep_going: bool,
    question: &FilesQuestion<'_>,
    options: &Options<'_>,
) -> FoundFiles
    requires { options.now.limit ≡ SECTION_LIMIT }
    ensures { AreFound (M.refuses memory.now) keep_going options.now.dialect (strings_in options.now) question.now section.now
        (files_held result.table) result.end }
{
    if keep_going {
        found_around(memory, section, question, options)
    } else {
        found_to_fault(memory, section, question, options)
    }
}

/// What is found up to the first fault.
fn found_to_fault<M: MapMemory>(
    memory: &M,
    section: &[u8],
    question: &FilesQuestion<'_>,
    options: &Options<'_>,
) -> FoundFiles
    requires { options.now.limit ≡ SECTION_LIMIT }
    ensures { AreFound (M.refuses memory.now) false options.now.dialect (strings_in options.now) question.now section.now
        (files_held result.table) result.end }
{
    let mut input = section;
    let found = find_sources(memory, &mut input, question, options);
    let end = end_of(&found.end);
    FoundFiles {
        table: found.table,
        end,
    }
}

/// What is found around damaged units.
fn found_around<M: MapMemory>(
    memory: &M,
    section: &[u8],
    question: &FilesQuestion<'_>,
    options: &Options<'_>,
) -> FoundFiles
    requires { options.now.limit ≡ SECTION_LIMIT }
    ensures { AreFound (M.refuses memory.now) true options.now.dialect (strings_in options.now) question.now section.now
        (files_held result.table) result.end }
{
    let mut input = section;
    let found = find_sources_around(memory, &mut input, question, options);
    let end = end_around(&found.end);
    FoundFiles {
        table: found.table,
        end,
    }
}

/// Tells what was found.
fn tell(
    table: &SourceTable,
    end: End,
    sources: &mut [SourceRecord],
    count: &mut usize,
    paths: &mut [u8],
    paths_len: &mut usize,
    fault: &mut FaultRecord,
) -> Status
    ensures { TellsFiles (files_held table.now) end
        (rooms sources.old count.old paths.old paths_len.old) (rooms sources.new count.new paths.new paths_len.new)
        fault.old fault.new result }
{
    match end {
        End::Whole => {
            put_files(table, sources, count, paths, paths_len);
            Status::Done
        }
        End::Fault(told) => {
            put_files(table, sources, count, paths, paths_len);
            *fault = told;
            Status::Fault
        }
        End::NoMemory => Status::NoMemory,
    }
}

/// Writes source files and their paths into rooms, as far as they fit, and tells how many files there are, and how many bytes
/// the paths have.
fn put_files(
    table: &SourceTable,
    sources: &mut [SourceRecord],
    count: &mut usize,
    paths: &mut [u8],
    paths_len: &mut usize,
)
    ensures sources { sources.new ≡ written_over sources.old (source_records (files_held table.now)) }
    ensures count { count.new ≡ count_told (source_records (files_held table.now)) }
    ensures paths { paths.new ≡ written_over paths.old (paths_text (files_held table.now)) }
    ensures paths_len { paths_len.new ≡ count_told (paths_text (files_held table.now)) }
{
    let mut number = 0;
    let mut len = 0;
    for (path, totals) in &table.paths {
        let text = path.as_slice();
        number = put_file(sources, number, len, text, totals);
        len = add(paths, len, text);
    }
    *count = number;
    *paths_len = len;
}

/// Writes a source file, whose path begins at that byte of the paths, into a room after those that were written, of which there are
/// `at`: once for each of its sums, or once where it has none. Answers how many there are then.
fn put_file(
    room: &mut [SourceRecord],
    at: usize,
    path_begin: usize,
    path: &[u8],
    totals: &PathTotals,
) -> usize
    ensures written { (first items : List records.SourceRecord) → room.old ≡ written_over first items → at ≡ count_told items
        → room.new ≡ written_over first (items ++ file_records path_begin (file_with path.now totals.now)) }
    ensures count { (items : List records.SourceRecord) → at ≡ count_told items
        → result ≡ count_told (items ++ file_records path_begin (file_with path.now totals.now)) }
{
    let source = SourceRecord {
        path_begin,
        path_len: path.len(),
        rows: totals.counts.rows,
        bytes: totals.counts.bytes,
        md5: [0; 16],
        has_md5: 0,
    };
    if totals.sums.is_empty() {
        add(room, at, slice::from_ref(&source))
    } else {
        put_sums(room, at, source, totals)
    }
}

/// Writes a source file once for each of its sums.
fn put_sums(
    room: &mut [SourceRecord],
    at: usize,
    source: SourceRecord,
    totals: &PathTotals,
) -> usize
    ensures written { (first items : List records.SourceRecord) → room.old ≡ written_over first items → at ≡ count_told items
        → room.new ≡ written_over first (items ++ map (with_sum source) totals.now.sums.keys) }
    ensures count { (items : List records.SourceRecord) → at ≡ count_told items
        → result ≡ count_told (items ++ map (with_sum source) totals.now.sums.keys) }
{
    let mut number = at;
    for sum in &totals.sums {
        let told = source.with_sum(*sum);
        number = add(room, number, slice::from_ref(&told));
    }
    number
}

impl SourceRecord {
    /// The same with this sum.
    fn with_sum(self, sum: [u8; 16]) -> SourceRecord
        ensures { result ≡ with_sum self sum }
    {
        SourceRecord {
            md5: sum,
            has_md5: 1,
            ..self
        }
    }
}
