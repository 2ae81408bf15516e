//! What is asked of a line table.
ghost use Rattle.std.specs.Prelude.{◌≡◌, ◌≤◌, ◌&&◌, ℕ, List, [], option_map};
ghost use Rattle.std.specs.Option.{option_copied};
ghost use Rattle.std.specs.Io.KnownBytes.{Consumes};
ghost use Rattle.dl_input.specs.Failing.{Blames};
ghost use Rattle.dl_sections.specs.Blaming.{BlamesWriter};
ghost use Rattle.dl_sections.specs.Commands.{strings_in};
ghost use Rattle.dl_cmd.specs.Job.{request_made};
ghost use Rattle.dl_dirs.specs.Compilation.{directory_by};
ghost use Rattle.dl_program.specs.Asked.{Does, WithoutTable, command_asked, command_seen, command_of, is_copy, looks_up};
ghost use Rattle.dl_program.specs.Asked.{sections_of};
ghost use Rattle.dl_program.specs.Shown.{directories_asked, directories_seen, shows_found_paths, under, wants_directories};
ghost use Rattle.dl_program.specs.Whole.{HasReadAll};

use crate::answers::{all_whole, answered, answered_around, summed, summed_around, unit_shown};
use crate::asking::{dump_of, place};
use crate::unit_words::{are_sizes, units_of};
use dl_addr::{Question, addr, addr_around};
use dl_cmd::Job;
use dl_dirs::CompilationDirectories;
use dl_dump::{
    Details, dump_details, dump_details_around, dump_range, dump_range_around, dump_unit,
};
use dl_dump_json::{dump_json, dump_json_around};
use dl_head::{Dialect, Older};
use dl_input::Source;
use dl_lines::{LinesQuestion, lines, lines_around};
use dl_look::{AddressRange, Place};
use dl_making::{
    Table, write_index, write_index_around, write_index_until, write_index_until_around,
};
use dl_memory::Memory;
use dl_num::Order;
use dl_open::Sections;
use dl_output::Destination;
use dl_sections::{
    DamageSink, Options, RunFault, SECTION_LIMIT, Survey, check, check_around, copy, copy_to_5,
    find,
};
use dl_sources::{MapMemory, SourcesQuestion, sources, sources_around, sources_of_unit};

/// The options of a section without string sections.
const NO_STRINGS: Options<'static> = Options {
    dialect: Dialect {
        order: Order::Little,
        older: Older::Foreign,
    },
    debug_line_str: None,
    debug_str: None,
    limit: SECTION_LIMIT,
};

/// What is asked of a line table.
#[derive(Clone, Copy)]
pub enum Command<'a> {
    /// Print all units, with these details.
    Dump(Details<'a>),
    /// Print all units, those that are damaged as far as they are not, and tell of these.
    DumpAround(Details<'a>),
    /// Print the unit at this offset of the section, with these details.
    DumpUnit(Details<'a>, u64),
    /// Print the sequences that cover an address of this range, with these details.
    DumpRange(Details<'a>, AddressRange),
    /// Print them, of the units that are damaged those before their faults, and tell of these.
    DumpRangeAround(Details<'a>, AddressRange),
    /// Print all units as JSON objects.
    DumpJson,
    /// Print them, those that are damaged as far as they are not, and tell of these.
    DumpJsonAround,
    /// Count units, sequences and rows.
    Check,
    /// Count them, and the units that are damaged, and tell of these.
    CheckAround,
    /// Look up a place.
    Find(Place),
    /// Write all units anew.
    Copy,
    /// Write all units anew as units of version 5, which were compiled in this directory.
    CopyTo5(Option<&'a str>),
    /// Print where addresses are in the source.
    Addr(Question<'a>),
    /// Print where they are, by all units that are whole.
    AddrAround(Question<'a>),
    /// Write the index of all units.
    Index(Table<'a>),
    /// Write that of all units that are whole.
    IndexAround(Table<'a>),
    /// Write the index of the units before the end or the first fault.
    IndexUntil(Table<'a>),
    /// Write that of the whole units before them, around damaged ones.
    IndexUntilAround(Table<'a>),
    /// Print the addresses of source lines.
    Lines(LinesQuestion<'a>),
    /// Print them, by all units that are whole.
    LinesAround(LinesQuestion<'a>),
    /// Print the source files.
    Sources(SourcesQuestion<'a>),
    /// Print those of all units that are whole.
    SourcesAround(SourcesQuestion<'a>),
    /// Print those of the unit at this offset of the section.
    SourcesUnit(SourcesQuestion<'a>, u64),
}

/// The compilation directory of all units, where it is said.
pub fn directory_said(directory: Option<&str>) -> CompilationDirectories<'_>
    ensures by { (n : ℕ) → directory_by result n ≡ option_copied directory.entry }
    ensures said { directories_seen result ≡ directories_asked (option_map (λ s. s.now) directory.entry) }
{
    match directory {
        Some(directory) => CompilationDirectories::Said(directory.as_bytes()),
        None => CompilationDirectories::Unknown,
    }
}

/// Whether paths are shown by the directories in which units were compiled, of which none is said.
fn shows_found_paths(details: Details<'_>) -> bool
    ensures { result ≡ shows_found_paths details.entry }
{
    details.paths && matches!(details.directories, CompilationDirectories::Unknown)
}

/// The same details, of units that were compiled in these directories.
fn details_under<'a>(details: Details<'a>, directories: CompilationDirectories<'a>) -> Details<'a>
    ensures { result ≡ record details.entry { directories = directories.entry } }
{
    Details {
        directories,
        ..details
    }
}

impl<'a> Command<'a> {
    /// What a job asks; None where its ADDRESS, OFFSET or LOW-HIGH says no address or a size no size, where it names a section of an
    /// object file without a file, and of `addr`, `lines`, `index`, `sources` and `lint`, which aren't commands or are asked
    /// with what the file tells.
    pub fn of(job: &Job<'a>) -> Option<Command<'a>>
        ensures { option_map command_seen result ≡ command_of (request_made job.now) }
    {
        if !are_sizes(units_of(job)) {
            return None;
        }
        Command::asked(job)
    }

    /// The same, whatever the sizes are.
    fn asked(job: &Job<'a>) -> Option<Command<'a>>
        ensures { option_map command_seen result ≡ command_asked (request_made job.now) }
    {
        match job {
            Job::Dump(words) => dump_of(words),
            Job::Check {
                keep_going: true,
                ..
            } => Some(Command::CheckAround),
            Job::Check { .. } => Some(Command::Check),
            Job::Find {
                file: None,
                section: Some(_),
                ..
            } => None,
            Job::Find { address, op, .. } => Some(Command::Find(place(*address, *op)?)),
            Job::Copy {
                to_5: true,
                comp_dir,
                ..
            } => Some(Command::CopyTo5(*comp_dir)),
            Job::Copy { .. } => Some(Command::Copy),
            Job::Addr(_) | Job::Index(_) | Job::Lines(_) | Job::Sources(_) | Job::Lint(_) => None,
        }
    }

    /// Whether it shows paths by the directories in which units were compiled, of which none is said.
    pub fn wants_directories(self) -> bool
        ensures { result ≡ wants_directories self.entry }
    {
        match self {
            Command::Dump(details)
            | Command::DumpAround(details)
            | Command::DumpUnit(details, _)
            | Command::DumpRange(details, _)
            | Command::DumpRangeAround(details, _) => shows_found_paths(details),
            _ => false,
        }
    }

    /// The same, of units that were compiled in these directories, where it shows paths by them.
    pub fn under(self, directories: CompilationDirectories<'a>) -> Command<'a>
        ensures { result ≡ under self.entry directories.entry }
    {
        match self {
            Command::Dump(details) => Command::Dump(details_under(details, directories)),
            Command::DumpAround(details) => {
                Command::DumpAround(details_under(details, directories))
            }
            Command::DumpUnit(details, unit) => {
                Command::DumpUnit(details_under(details, directories), unit)
            }
            Command::DumpRange(details, range) => {
                Command::DumpRange(details_under(details, directories), range)
            }
            Command::DumpRangeAround(details, range) => {
                Command::DumpRangeAround(details_under(details, directories), range)
            }
            other => other,
        }
    }

    /// What it looks into of a file: the string sections where it tells their texts.
    pub fn sections(self) -> Sections
        ensures { result ≡ sections_of self.entry }
    {
        match self {
            Command::Dump(_)
            | Command::DumpAround(_)
            | Command::DumpUnit(_, _)
            | Command::DumpRange(_, _)
            | Command::DumpRangeAround(_, _)
            | Command::DumpJson
            | Command::DumpJsonAround
            | Command::Find(_)
            | Command::Addr(_)
            | Command::AddrAround(_)
            | Command::Index(_)
            | Command::IndexAround(_)
            | Command::IndexUntil(_)
            | Command::IndexUntilAround(_)
            | Command::Lines(_)
            | Command::LinesAround(_)
            | Command::Sources(_)
            | Command::SourcesAround(_)
            | Command::SourcesUnit(_, _) => Sections::LinesAndTexts,
            Command::Check | Command::CheckAround | Command::Copy | Command::CopyTo5(_) => {
                Sections::Lines
            }
        }
    }

    /// Whether it looks up addresses or lines, or tells what is looked up.
    pub fn looks_up(self) -> bool
        ensures { result ≡ looks_up self.entry }
    {
        matches!(
            self,
            Command::Find(_)
                | Command::Addr(_)
                | Command::AddrAround(_)
                | Command::Index(_)
                | Command::IndexAround(_)
                | Command::IndexUntil(_)
                | Command::IndexUntilAround(_)
                | Command::Lines(_)
                | Command::LinesAround(_)
        )
    }

    /// Whether it would lose what belongs to a file: `copy` would lose the relocations of an object
    /// file.
    pub fn loses(self, is_object: bool) -> bool
        ensures { result ≡ (is_copy self.entry && is_object) }
    {
        matches!(self, Command::Copy | Command::CopyTo5(_)) && is_object
    }

    /// Says what there is to say where there is no line table: of `addr`, that each address has no answer, as over a
    /// section without bytes. Whether that could be written, or memory was refused for it, isn't told, since the file's
    /// fault is.
    pub fn without_table<M: Memory, W: Destination>(self, memory: &M, output: &mut W)
        ensures { WithoutTable (M.refuses memory.now) self.entry (W.contents output.old) (W.contents output.new) }
    {
        if let Command::Addr(question) | Command::AddrAround(question) = self {
            let mut nothing: &[u8] = &[];
            let _ = addr(memory, &mut nothing, output, &question, &NO_STRINGS);
        }
    }

    /// Works through the section, and tells of the units that are damaged where it goes on after them.
    #[inline(never)]
    pub fn run<M: MapMemory, R: Source, W: Destination, D: DamageSink>(
        self,
        memory: &M,
        input: &mut R,
        output: &mut W,
        options: &Options<'_>,
        damages: &mut D,
    ) -> Result<Survey, RunFault>
        requires { options.now.limit ≤ SECTION_LIMIT }
        ensures ran { (bytes : List ℕ) × Consumes (R.remaining input.old) (R.remaining input.new) bytes
            × (D.hears damages.old damages.old [] → Does (M.refuses memory.now) self.entry options.now.dialect
            (strings_in options.now) options.now.limit bytes (R.remaining input.new) (W.contents output.old) (W.contents output.new)
            (D.hears damages.old damages.new) result) }
        ensures blames { Blames R.follows R.fails input.old input.new
            ((D.hears damages.old damages.old []) × (result ≡ Err RunFault.Read)) }
        ensures blames_writer { D.hears damages.old damages.old [] → BlamesWriter W.fails result }
        ensures over { D.hears damages.old damages.old [] → HasReadAll self.entry result → R.over input.new }
    {
        let alloc = memory.alloc();
        match self {
            Command::DumpAround(details) => {
                dump_details_around(alloc, input, output, options, &details, damages)
            }
            Command::CheckAround => check_around(alloc, input, output, options, damages),
            Command::Dump(details) => {
                all_whole(dump_details(alloc, input, output, options, &details))
            }
            Command::DumpUnit(details, unit) => all_whole(unit_shown(dump_unit(
                alloc, input, output, options, &details, unit,
            ))),
            Command::DumpRange(details, range) => all_whole(dump_range(
                memory, input, output, options, &details, range,
            )),
            Command::DumpRangeAround(details, range) => {
                dump_range_around(memory, input, output, options, &details, range, damages)
            }
            Command::DumpJson => all_whole(dump_json(alloc, input, output, options)),
            Command::DumpJsonAround => dump_json_around(alloc, input, output, options, damages),
            Command::Check => all_whole(check(alloc, input, output, options)),
            Command::Find(place) => all_whole(find(alloc, input, output, place, options)),
            Command::Copy => all_whole(copy(memory, input, output, options)),
            Command::CopyTo5(directory) => {
                let directories = directory_said(directory);
                all_whole(copy_to_5(memory, input, output, directories, options))
            }
            Command::Addr(question) => {
                all_whole(answered(addr(memory, input, output, &question, options)))
            }
            Command::AddrAround(question) => {
                answered_around(addr_around(memory, input, output, &question, options))
            }
            Command::Index(table) => {
                all_whole(write_index(memory, input, output, &table, options))
            }
            Command::IndexAround(table) => {
                write_index_around(memory, input, output, &table, options)
            }
            Command::IndexUntil(table) => {
                all_whole(write_index_until(memory, input, output, &table, options))
            }
            Command::IndexUntilAround(table) => {
                write_index_until_around(memory, input, output, &table, options)
            }
            Command::Lines(question) => {
                all_whole(answered(lines(memory, input, output, &question, options)))
            }
            Command::LinesAround(question) => {
                answered_around(lines_around(memory, input, output, &question, options))
            }
            Command::Sources(question) => {
                all_whole(summed(sources(memory, input, output, &question, options)))
            }
            Command::SourcesAround(question) => {
                summed_around(sources_around(memory, input, output, &question, options))
            }
            Command::SourcesUnit(question, unit) => all_whole(summed(sources_of_unit(
                memory, input, output, &question, options, unit,
            ))),
        }
    }
}
