//! The call that finds the places of a line.

ghost use Rattle.std.specs.Prelude.{◌≡◌, true, false, length, map};
ghost use Rattle.dl_buffers.specs.Calls.{dialect_of, goes_on};
ghost use Rattle.dl_buffers.specs.PathCalls.{both_strings};
ghost use Rattle.dl_buffers.specs.UnitCalls.{written_over};
ghost use Rattle.dl_sections.specs.Commands.{strings_in};
ghost use Rattle.dl_source_buffers.specs.LineCalls.{FindsLines, IsFound, TellsPlaces, place_record};

use crate::end::{End, end_around, end_of};
use crate::room::put;
use dl_buffers::{FaultRecord, Status, dialect_of, goes_on};
use dl_lines::{
    CompilationDirectories, LinePlace, PlacesQuestion, Wanted, find_places, find_places_around,
};
use dl_memory::Memory;
use dl_sections::{Options, SECTION_LIMIT};

/// A place of a line.
#[repr(C)]
#[derive(Clone, Copy)]
pub struct PlaceRecord {
    pub address: u64,
    /// The line that answers.
    pub line: u64,
    /// From 1 on; 0 is the line's left edge.
    pub column: u64,
    /// 1 where a breakpoint at the entry of a function belongs here, else 0.
    pub prologue_end: u8,
}

/// The places of a line, and how the reading of the section ended.
#[derive(Drop)]
pub struct Found {
    pub places: Vec<LinePlace>,
    pub end: End,
}

/// Finds the places of the line of a file in a section, as `dl_lines::find_places` does, of which each sequence counts: those of
/// the line, or of the least line above it that has one; with `exact` those of the line alone. The path is that of a file, or
/// the end of it from after a slash on. The string sections are `.debug_line_str` and `.debug_str`.
///
/// Done: as many places are told as there is room for, by their addresses, and how many there are. NoAnswer: there is none, and
/// nothing is told. Fault: the first fault is told, and the places of the units before it; or, where `how` says that damaged units
/// are gone around, of all that are whole. NoMemory: nothing is told. What isn't told stays as it was.
pub fn lines<M: Memory>(
    memory: &M,
    section: &[u8],
    how: u8,
    line_str: &[u8],
    str: &[u8],
    path: &[u8],
    line: u64,
    exact: bool,
    places: &mut [PlaceRecord],
    count: &mut usize,
    fault: &mut FaultRecord,
) -> Status
    ensures { FindsLines (M.refuses memory.now) (goes_on how) (dialect_of how) (both_strings line_str.now str.now) path.now line exact
        section.now places.old places.new count.old count.new fault.old fault.new result }
{
    let question = PlacesQuestion {
        wanted: Wanted { path, line },
        exact,
        code: None,
        directories: CompilationDirectories::Unknown,
    };
    let options = Options {
        dialect: dialect_of(how),
        debug_line_str: Some(line_str),
        debug_str: Some(str),
        limit: SECTION_LIMIT,
    };
    let found = found_in(memory, section, goes_on(how), &question, &options);
    tell(found.places.as_slice(), found.end, places, count, fault)
}

/// What is found up to the first fault, or around damaged units.
fn found_in<M: Memory>(
    memory: &M,
    section: &[u8],
    keep_going: bool,
    question: &PlacesQuestion<'_>,
    options: &Options<'_>,
) -> Found
    requires { options.now.limit ≡ SECTION_LIMIT }
    ensures { IsFound (M.refuses memory.now) keep_going options.now.dialect (strings_in options.now) question.now section.now
        result.places.items result.end }
{
    if keep_going {
        found_around(memory, section, question, options)
    } else {
        found_to_fault(memory, section, question, options)
    }
}

/// What is found up to the first fault.
fn found_to_fault<M: Memory>(
    memory: &M,
    section: &[u8],
    question: &PlacesQuestion<'_>,
    options: &Options<'_>,
) -> Found
    requires { options.now.limit ≡ SECTION_LIMIT }
    ensures { IsFound (M.refuses memory.now) false options.now.dialect (strings_in options.now) question.now section.now
        result.places.items result.end }
{
    let mut input = section;
    let found = find_places(memory, &mut input, question, options);
    let end = end_of(&found.end);
    Found {
        places: found.places,
        end,
    }
}

/// What is found around damaged units.
fn found_around<M: Memory>(
    memory: &M,
    section: &[u8],
    question: &PlacesQuestion<'_>,
    options: &Options<'_>,
) -> Found
    requires { options.now.limit ≡ SECTION_LIMIT }
    ensures { IsFound (M.refuses memory.now) true options.now.dialect (strings_in options.now) question.now section.now
        result.places.items result.end }
{
    let mut input = section;
    let found = find_places_around(memory, &mut input, question, options);
    let end = end_around(&found.end);
    Found {
        places: found.places,
        end,
    }
}

/// Tells what was found.
fn tell(
    found: &[LinePlace],
    end: End,
    places: &mut [PlaceRecord],
    count: &mut usize,
    fault: &mut FaultRecord,
) -> Status
    ensures { TellsPlaces found.now end places.old places.new count.old count.new fault.old fault.new result }
{
    match end {
        End::Whole if found.is_empty() => Status::NoAnswer,
        End::Whole => {
            put_places(found, places, count);
            Status::Done
        }
        End::Fault(told) => {
            put_places(found, places, count);
            *fault = told;
            Status::Fault
        }
        End::NoMemory => Status::NoMemory,
    }
}

/// Writes places into a room, as far as they fit, and tells how many there are.
fn put_places(places: &[LinePlace], room: &mut [PlaceRecord], count: &mut usize)
    ensures written { room.new ≡ written_over room.old (map place_record places.now) }
    ensures count { count.new ≡ length places.now }
{
    for number in 0..places.len() {
        put(room, number, PlaceRecord::of(&places[number]));
    }
    *count = places.len();
}

impl PlaceRecord {
    fn of(place: &LinePlace) -> PlaceRecord
        ensures { result ≡ place_record place.now }
    {
        PlaceRecord {
            address: place.address,
            line: place.line,
            column: place.column,
            prologue_end: u8::from(place.prologue_end),
        }
    }
}
