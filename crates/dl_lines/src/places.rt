//! The places of one line, which are found and not printed.

ghost use Rattle.std.specs.Prelude.{◌≡◌, ◌⊎◌, ◌<◌, ◌≤◌, ◌+◌, ◌++◌, ◌∷◌, [], ℕ, Bool, true, false, List, Option, Err, IfOk, OnErr};
ghost use Rattle.std.specs.Prelude.{OnOk, length, map, slice_index_or};
ghost use Rattle.std.specs.Io.KnownBytes.{Appends, Consumes};
ghost use Rattle.dl_input.specs.Failing.{Blames};
ghost use Rattle.dl_memory.specs.Refusals.{IsRefused};
ghost use Rattle.dl_print.specs.ValueText.{strings_of};
ghost use Rattle.dl_sections.specs.Commands.{strings_in};
ghost use Rattle.dl_sections.specs.Ending.{WhereWhole};
ghost use Rattle.dl_sections.specs.Section.{Visit};
ghost use Rattle.dl_lines.specs.declared.question.Wanted.{Wanted};
ghost use Rattle.dl_lines.specs.declared.search.Search.{Search};
ghost use Rattle.dl_lines.specs.declared.seeker.LineSeeker as seekers;
ghost use Rattle.dl_lines.specs.FoundPlaces.{FindsPlaces, FindsPlacesAround, known_to, place_told, places_told};
ghost use Rattle.dl_lines.specs.Kept.{Rises};
ghost use Rattle.dl_lines.specs.Printing.{AllRise, found_places, is_no_memory};
ghost use Rattle.dl_lines.specs.Room.{told_room};
ghost use Rattle.dl_lines.specs.Seeking.{IsMadeFor, Seeking, heard_after, known_of, nothing_heard};
ghost use Rattle.dl_lines.specs.Telling.{IsCollected, IsNothing, once_place, search_places};

use crate::answering::{is_no_memory, seeker_of};
use crate::printing::is_repeated;
use crate::question::{LinesQuestion, PlacesQuestion};
use crate::search::Search;
use crate::seeker::LineSeeker;
use dl_input::Source;
use dl_memory::{Memory, NoMemory};
use dl_print::{StringSections, Summary};
use dl_sections::{Options, RunFault, SECTION_LIMIT, Survey, read_units, read_units_around};
use std::{io, slice};

/// A place of a line.
#[repr(C)]
#[derive(Clone, Copy)]
pub struct LinePlace {
    pub address: u64,
    /// The line that answers.
    pub line: u64,
    /// 0 where it isn't known.
    pub column: u64,
    /// Whether a breakpoint at the entry of a function belongs here.
    pub prologue_end: bool,
}

/// The places that answer for a line.
#[derive(Drop)]
pub struct FoundPlaces<A> {
    /// By their addresses, each once; none where memory was refused.
    pub places: Vec<LinePlace>,
    /// How the reading ended.
    pub end: Result<A, RunFault>,
}

/// Finds the places that answer for a line, as `lines` prints them: those of the units before the end of the section, or before
/// a fault, which is told beside them.
///
/// Where memory is refused, no place is told, and the reading ends with `NoMemory`; else it ends as that of `lines`.
pub fn find_places<M: Memory, R: Source>(
    memory: &M,
    input: &mut R,
    question: &PlacesQuestion<'_>,
    options: &Options<'_>,
) -> FoundPlaces<Summary>
    requires { options.now.limit ≤ SECTION_LIMIT }
    ensures ran { (bs : List ℕ) × Consumes (R.remaining input.old) (R.remaining input.new) bs
        × FindsPlaces (M.refuses memory.now) options.now.dialect (strings_in options.now) question.now options.now.limit bs
        (R.remaining input.new) result }
    ensures blames { Blames R.follows R.fails input.old input.new (result.end ≡ Err RunFault.Read) }
    ensures over { OnOk result.end (R.over input.new) }
{
    let strings = StringSections::new(options.debug_line_str, options.debug_str);
    let Ok(mut seeker) = seeker_for(memory, &strings, question) else {
        return no_places(memory);
    };
    let ended = read_units(memory.alloc(), input, &mut io::sink(), options, &mut seeker);
    collect(memory, &mut seeker, ended)
}

/// Finds the places that answer for a line as `find_places` does, and goes on after units that are damaged, which have no
/// places.
///
/// The section is read as `read_units_around` reads it, whose answer says of damaged units what is wrong with the first, and
/// how many others there are.
pub fn find_places_around<M: Memory, R: Source>(
    memory: &M,
    input: &mut R,
    question: &PlacesQuestion<'_>,
    options: &Options<'_>,
) -> FoundPlaces<Survey>
    requires { options.now.limit ≤ SECTION_LIMIT }
    ensures ran { (bs : List ℕ) × Consumes (R.remaining input.old) (R.remaining input.new) bs
        × FindsPlacesAround (M.refuses memory.now) options.now.dialect (strings_in options.now) question.now options.now.limit bs
        (R.remaining input.new) result }
    ensures blames { Blames R.follows R.fails input.old input.new (result.end ≡ Err RunFault.Read) }
    ensures over { WhereWhole (R.over input.new) result.end }
{
    let strings = StringSections::new(options.debug_line_str, options.debug_str);
    let Ok(mut seeker) = seeker_for(memory, &strings, question) else {
        return no_places(memory);
    };
    let ended = read_units_around(memory.alloc(), input, &mut io::sink(), options, &mut seeker);
    collect(memory, &mut seeker, ended)
}

/// A seeker for one line.
fn seeker_for<'s, 'o, 'q, M: Memory>(
    memory: &'q M,
    strings: &'s StringSections<'o>,
    question: &'q PlacesQuestion<'q>,
) -> Result<LineSeeker<'s, 'o, 'q, M>, NoMemory>
    ensures made { IfOk result (λ l. IsMadeFor l (question.now.wanted ∷ []) question.now.exact) }
    ensures begins { IfOk result (λ l. (start : Option (List ℕ)) → Appends start start [] → Seeking M.refuses l l start start []) }
    ensures known { IfOk result (λ l. known_of l ≡ known_to (strings_of strings.now) question.now) }
    ensures memory { IfOk result (λ l. l.memory.now ≡ memory.now) }
    ensures refused { OnErr result (IsRefused (M.refuses memory.now) 1) }
{
    let one = LinesQuestion {
        wanted: slice::from_ref(&question.wanted),
        exact: question.exact,
        code: question.code,
        directories: question.directories,
    };
    seeker_of(memory, strings, &one)
}

/// What is found where memory was refused.
fn no_places<A: Copy, M: Memory>(memory: &M) -> FoundPlaces<A>
    ensures { IsNothing result }
{
    FoundPlaces {
        places: Vec::new(memory.alloc()),
        end: Err(RunFault::NoMemory),
    }
}

/// What is found where the reading ended so.
fn collect<A: Copy, M: Memory>(
    memory: &M,
    seeker: &mut LineSeeker<'_, '_, '_, M>,
    ended: Result<A, RunFault>,
) -> FoundPlaces<A>
    ensures refused { is_no_memory ended ≡ true → IsNothing result }
    ensures collected { (first : seekers.LineSeeker M) (start held : Option (List ℕ)) (visits : List Visit) (wanted : Wanted)
        (exact : Bool) → is_no_memory ended ≡ false → first.memory.now ≡ memory.now
        → Seeking M.refuses first seeker.old start held visits → IsMadeFor first (wanted ∷ []) exact
        → IsCollected (IsRefused (M.refuses memory.now) (told_room (known_of first) visits))
        (places_told exact wanted (heard_after (known_of first) nothing_heard visits).ended) ended result }
    ensures ends { (result.end ≡ ended) ⊎ (result.end ≡ Err RunFault.NoMemory) }
{
    if is_no_memory(&ended) {
        return no_places(memory);
    }
    match ordered_places(memory, seeker) {
        Ok(places) => FoundPlaces { places, end: ended },
        Err(NoMemory) => no_places(memory),
    }
}

/// The places of the first search of a seeker that was told all units.
fn ordered_places<M: Memory>(
    memory: &M,
    seeker: &mut LineSeeker<'_, '_, '_, M>,
) -> Result<Vec<LinePlace>, NoMemory>
    ensures places { IfOk result (λ list. (first : seekers.LineSeeker M) (start held : Option (List ℕ)) (visits : List Visit)
        (wanted : Wanted) (exact : Bool) → Seeking M.refuses first seeker.old start held visits
        → IsMadeFor first (wanted ∷ []) exact
        → list.items ≡ places_told exact wanted (heard_after (known_of first) nothing_heard visits).ended) }
    ensures refused { OnErr result ((first : seekers.LineSeeker M) (start held : Option (List ℕ)) (visits : List Visit)
        (wanted : Wanted) (exact : Bool) → first.memory.now ≡ memory.now
        → Seeking M.refuses first seeker.old start held visits → IsMadeFor first (wanted ∷ []) exact
        → IsRefused (M.refuses memory.now) (told_room (known_of first) visits)) }
{
    seeker.order()?;
    first_places(memory, seeker.searches())
}

/// What is told of the places of the first search, where there is one.
fn first_places<M: Memory>(memory: &M, searches: &[Search<'_>]) -> Result<Vec<LinePlace>, NoMemory>
    requires { AllRise searches.now }
    ensures places { IfOk result (λ list. (d : Search) → 0 < length searches.now
        → list.items ≡ search_places (slice_index_or searches.now 0 d)) }
    ensures refused { OnErr result ((0 < length searches.now) × ((d : Search)
        → IsRefused (M.refuses memory.now) (length (slice_index_or searches.now 0 d).kept.places.items))) }
{
    match searches.first() {
        Some(search) => places_of(memory, search),
        None => Ok(Vec::new(memory.alloc())),
    }
}

/// What is told of the places of a search, which are in order.
fn places_of<M: Memory>(memory: &M, search: &Search<'_>) -> Result<Vec<LinePlace>, NoMemory>
    requires { Rises search.now.kept.places.items }
    ensures places { IfOk result (λ list. list.items ≡ search_places search.now) }
    ensures refused { OnErr result (IsRefused (M.refuses memory.now) (length search.now.kept.places.items)) }
{
    let mut told = Vec::new(memory.alloc());
    let mut number = 0;
    while number < search.kept.places.len() {
        tell_once(memory, &mut told, search, number)?;
        number += 1;
    }
    Ok(told)
}

/// Tells the place of this number, where no place before it is the same.
fn tell_once<M: Memory>(
    memory: &M,
    told: &mut Vec<LinePlace>,
    search: &Search<'_>,
    number: usize,
) -> Result<(), NoMemory>
    requires rises { Rises search.now.kept.places.items }
    requires within { number < length search.now.kept.places.items }
    ensures told { OnOk result (told.new.items ≡ told.old.items ++ map place_told (once_place (found_places search.now) number)) }
    ensures refused { OnErr result (M.refuses memory.now (length told.old.items + 1)) }
{
    if is_repeated(search, number) {
        return Ok(());
    }
    let place = search.kept.places[number];
    memory.push(
        told,
        LinePlace {
            address: place.address,
            line: search.kept.line,
            column: place.column,
            prologue_end: place.prologue_end,
        },
    )
}
