//! The source files of a section, which are found and not printed.

ghost use Rattle.std.specs.Prelude.{◌≡◌, ◌≤◌, ◌||◌, ℕ, List, true, false, Err, OnOk};
ghost use Rattle.std.specs.Io.KnownBytes.{Consumes};
ghost use Rattle.dl_input.specs.Failing.{Blames};
ghost use Rattle.dl_sections.specs.Commands.{strings_in};
ghost use Rattle.dl_sections.specs.Ending.{WhereWhole};
ghost use Rattle.dl_sources.specs.Ended.{is_want};
ghost use Rattle.dl_sources.specs.FoundSources.{FindsSources, FindsSourcesAround, IsNothing, asked};

use crate::lister::Lister;
use crate::listing::lacks_memory;
use crate::map_memory::MapMemory;
use crate::question::{FilesQuestion, SourcesQuestion};
use crate::table::SourceTable;
use dl_input::Source;
use dl_print::{StringSections, Summary};
use dl_sections::{Options, RunFault, SECTION_LIMIT, Survey, read_units, read_units_around};
use std::{io, mem};

/// The source files of a section.
#[derive(Drop)]
pub struct FoundSources<A> {
    /// The paths that tables of files name; none where memory was refused.
    pub table: SourceTable,
    /// How the reading ended.
    pub end: Result<A, RunFault>,
}

/// Finds each path that a table of files of a unit of the section names, with its counts and its MD5 sums, as `sources` prints
/// them: those of the units before the end of the section, or before a fault, which is told beside them.
///
/// Where memory is refused, no path is told, and the reading ends with `NoMemory`; else it ends as that of `sources`.
pub fn find_sources<M: MapMemory, R: Source>(
    memory: &M,
    input: &mut R,
    question: &FilesQuestion<'_>,
    options: &Options<'_>,
) -> FoundSources<Summary>
    requires { options.now.limit ≤ SECTION_LIMIT }
    ensures ran { (bs : List ℕ) × Consumes (R.remaining input.old) (R.remaining input.new) bs
        × FindsSources (M.refuses memory.now) options.now.dialect (strings_in options.now) question.now options.now.limit bs
        (R.remaining input.new) result }
    ensures blames { Blames R.follows R.fails input.old input.new (result.end ≡ Err RunFault.Read) }
    ensures over { OnOk result.end (R.over input.new) }
{
    let strings = StringSections::new(options.debug_line_str, options.debug_str);
    let mut lister = Lister::new(memory, &strings, asked(question));
    let ended = read_units(memory.alloc(), input, &mut io::sink(), options, &mut lister);
    collect(memory, &mut lister, ended)
}

/// Finds the paths as `find_sources` does, and goes on after units that are damaged, of which nothing is told.
///
/// The section is read as `read_units_around` reads it, whose answer says of damaged units what is wrong with the first, and
/// how many others there are.
pub fn find_sources_around<M: MapMemory, R: Source>(
    memory: &M,
    input: &mut R,
    question: &FilesQuestion<'_>,
    options: &Options<'_>,
) -> FoundSources<Survey>
    requires { options.now.limit ≤ SECTION_LIMIT }
    ensures ran { (bs : List ℕ) × Consumes (R.remaining input.old) (R.remaining input.new) bs
        × FindsSourcesAround (M.refuses memory.now) options.now.dialect (strings_in options.now) question.now options.now.limit
        bs (R.remaining input.new) result }
    ensures blames { Blames R.follows R.fails input.old input.new (result.end ≡ Err RunFault.Read) }
    ensures over { WhereWhole (R.over input.new) result.end }
{
    let strings = StringSections::new(options.debug_line_str, options.debug_str);
    let mut lister = Lister::new(memory, &strings, asked(question));
    let ended = read_units_around(memory.alloc(), input, &mut io::sink(), options, &mut lister);
    collect(memory, &mut lister, ended)
}

/// The same asked of `sources`, with all that it tells of a path.
fn asked<'q>(question: &FilesQuestion<'q>) -> SourcesQuestion<'q>
    ensures { result ≡ asked question.now }
{
    SourcesQuestion {
        rows: true,
        md5: true,
        json: false,
        code: question.code,
        directories: question.directories,
    }
}

/// What is found where the reading ended so: the table of the lister, or none where memory was refused.
fn collect<A: Copy, M: MapMemory>(
    memory: &M,
    lister: &mut Lister<'_, '_, '_, M>,
    ended: Result<A, RunFault>,
) -> FoundSources<A>
    ensures wanted { (lister.old.is_refused || is_want ended) ≡ true → IsNothing result }
    ensures found { (lister.old.is_refused || is_want ended) ≡ false
        → (result.end ≡ ended) × (result.table ≡ lister.old.table) }
{
    let none = SourceTable::new(memory.alloc());
    if lacks_memory(lister.is_refused, &ended) {
        return FoundSources {
            table: none,
            end: Err(RunFault::NoMemory),
        };
    }
    FoundSources {
        table: mem::replace(&mut lister.table, none),
        end: ended,
    }
}
