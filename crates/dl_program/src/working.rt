//! What the program does for a job.
ghost use Rattle.std.specs.Prelude.{◌≡◌, ℕ, List, [], option_map};
ghost use Rattle.std.specs.Io.KnownBytes.{Consumes};
ghost use Rattle.dl_input.specs.Failing.{Blames};
ghost use Rattle.dl_cmd.specs.Job.{request_made};
ghost use Rattle.dl_program.specs.Asked.{file_of, followed_path, looked_into, part_name_of, section_of, unless_input};
ghost use Rattle.dl_elf.specs.Source.{ForBytes};
ghost use Rattle.dl_program.specs.Held.{section_seen};
ghost use Rattle.dl_program.specs.Blaming.{BlamesOver, BlamesWriter};
ghost use Rattle.dl_program.specs.Work.{BlamesInput, OnHeld, OnOpened, Works};

use crate::command::Command;
use crate::over_file::on_file;
use crate::over_input::{Section, on_input};
use crate::stop::{Stop, answer_over_file};
use crate::unit_words::file_units;
use dl_cmd::Job;
use dl_dirs::CompilationDirectories;
use dl_elf::ReadAt;
use dl_input::Source;
use dl_open::{FileFault, FileSource, FileStop, FileUnits, directories_of, open_file};
use dl_output::Destination;
use dl_sections::{DamageSink, Survey};
use dl_sources::MapMemory;

/// The path that stands for a section on the input.
pub const INPUT: &str = "-";

/// The path, unless it stands for the section on the input.
pub fn unless_input<'a>(path: Option<&'a str>) -> Option<&'a str>
    ensures { option_map (λ s. s.now) result ≡ unless_input (option_map (λ s. s.now) path.entry) }
{
    let path = path?;
    if path == INPUT { None } else { Some(path) }
}

/// The path of the ELF file that a job names.
fn file<'a>(job: &Job<'a>) -> Option<&'a str>
    ensures { option_map (λ s. s.now) result ≡ file_of (request_made job.now) }
{
    match job {
        Job::Dump(words) => words.file,
        Job::Check { file, .. } | Job::Find { file, .. } | Job::Copy { file, .. } => *file,
        Job::Addr(words) => words.file,
        Job::Index(words) => words.file,
        Job::Lines(words) => words.file,
        Job::Sources(words) => words.file,
        Job::Lint(words) => words.file,
    }
}

/// The name of the section of an object file in which a job looks.
fn part_name<'a>(job: &Job<'a>) -> Option<&'a str>
    ensures { option_map (λ s. s.now) result ≡ part_name_of (request_made job.now) }
{
    match job {
        Job::Find { section, .. } => *section,
        Job::Addr(words) => words.section,
        Job::Index(words) => words.section,
        Job::Lines(words) => words.section,
        Job::Dump(_) | Job::Check { .. } | Job::Copy { .. } | Job::Sources(_) | Job::Lint(_) =>
            None,
    }
}

/// The path of the ELF file in which a job looks up addresses or lines, or whose addresses its index tells.
pub fn looked_into<'a>(job: &Job<'a>) -> Option<&'a str>
    ensures { option_map (λ s. s.now) result ≡ looked_into (request_made job.now) }
{
    match job {
        Job::Find { file, .. } => *file,
        Job::Addr(words) => unless_input(words.file),
        Job::Lines(words) => unless_input(words.file),
        Job::Index(words) => { if words.list { None } else { words.file } }
        Job::Dump(_) | Job::Check { .. } | Job::Copy { .. } | Job::Sources(_) | Job::Lint(_) =>
            None,
    }
}

/// The path of the ELF file of a job in whose place one with its debug information may be read. `copy` has none.
pub fn followed_path<'a>(job: &Job<'a>) -> Option<&'a str>
    ensures { option_map (λ s. s.now) result ≡ followed_path (request_made job.now) }
{
    match job {
        Job::Dump(words) => words.file,
        Job::Check { file, .. } => *file,
        Job::Sources(words) => words.file,
        Job::Lint(words) => words.file,
        Job::Find { .. } | Job::Addr(_) | Job::Index(_) | Job::Lines(_) | Job::Copy { .. } =>
            looked_into(job),
    }
}

/// What a job says of a section on the input.
pub fn section<'a>(job: &Job<'a>) -> Section<'a>
    ensures { section_seen result ≡ section_of (request_made job.now) }
{
    match job {
        Job::Dump(words) => Section {
            big: words.big,
            older: words.units.older,
            line_str: words.line_str,
            strings: words.strings,
        },
        Job::Find {
            big,
            units,
            line_str,
            strings,
            ..
        } => Section {
            big: *big,
            older: units.older,
            line_str: *line_str,
            strings: *strings,
        },
        Job::Check { big, units, .. } | Job::Copy { big, units, .. } => Section {
            big: *big,
            older: units.older,
            line_str: None,
            strings: None,
        },
        Job::Addr(words) => Section {
            big: words.big,
            older: words.units.older,
            line_str: words.line_str,
            strings: words.strings,
        },
        Job::Index(words) => Section {
            big: false,
            older: words.units.older,
            line_str: None,
            strings: None,
        },
        Job::Lines(words) => Section {
            big: words.big,
            older: words.units.older,
            line_str: words.line_str,
            strings: words.strings,
        },
        Job::Sources(words) => Section {
            big: words.big,
            older: words.units.older,
            line_str: words.line_str,
            strings: words.strings,
        },
        Job::Lint(words) => Section {
            big: words.big,
            older: words.units.older,
            line_str: words.line_str,
            strings: words.strings,
        },
    }
}

/// Does what is asked of the line table of the file at this path, which is open. Where paths are shown by the directories in which
/// units were compiled, and none is said, these are those that the file says.
fn on_opened<'p, M: MapMemory, S: ReadAt, W: Destination, D: DamageSink>(
    memory: &M,
    path: &'p str,
    file: &S,
    units: FileUnits,
    section: Option<&'p str>,
    command: Command<'_>,
    output: &mut W,
    damages: &mut D,
) -> Result<Survey, FileStop<'p>>
    ensures ran { D.hears damages.old damages.old [] → ForBytes (S.all_bytes file.now) (λ f. OnOpened (M.refuses memory.now) units
        (S.fails_with file.now) path.entry.now (option_map (λ s. s.now) section.entry) command.entry f
        (W.contents output.old) (W.contents output.new) (D.hears damages.old damages.new) result) }
    ensures blames { D.hears damages.old damages.old [] → BlamesOver W.fails result }
{
    if !command.wants_directories() {
        return on_file(memory, path, file, units, section, command, output, damages);
    }
    match directories_of(memory, file) {
        Ok(found) => {
            let command = command.under(CompilationDirectories::Found(&found));
            on_file(memory, path, file, units, section, command, output, damages)
        }
        Err(fault) => {
            Err(FileStop::File {
                path,
                fault: FileFault::Elf(fault),
            })
        }
    }
}

/// Does what is asked of the line table of the file at this path. Addresses are looked up in the section of this name.
fn on_named<'p, M: MapMemory, F: FileSource, W: Destination, D: DamageSink>(
    memory: &M,
    files: &F,
    path: &'p str,
    units: FileUnits,
    section: Option<&'p str>,
    command: Command<'_>,
    output: &mut W,
    damages: &mut D,
) -> Result<Survey, FileStop<'p>>
    ensures ran { D.hears damages.old damages.old [] → ForBytes (F.held files.now path.entry.now) (λ f. OnHeld (M.refuses memory.now) units
        (F.fails_with files.now path.entry.now) path.entry.now (option_map (λ s. s.now) section.entry) command.entry f
        (W.contents output.old) (W.contents output.new) (D.hears damages.old damages.new) result) }
    ensures blames { D.hears damages.old damages.old [] → BlamesOver W.fails result }
{
    match open_file(files, path) {
        Ok(file) => on_opened(
            memory, path, &file, units, section, command, output, damages,
        ),
        Err(fault) => {
            command.without_table(memory, output);
            Err(FileStop::File { path, fault })
        }
    }
}

/// Does what a job asks for, of the ELF file that it names, or where it names none of the section on
/// the input.
///
/// ADDRESS is read first. Of an ELF file then the sections are found, and the string sections read
/// by the commands that look into them; else the files of `--line-str` and `--str` are read, in this
/// order. Then the command works through the section. Of each damaged unit after which it goes on `damages` is told,
/// where that is asked for, and the answer says how many there are.
///
/// `NotUnderstood` where there is no job, ADDRESS is no address, a size is no size, a section of an object file is named without a file,
/// or the job is `addr`, `lines`, `index` or `sources`, which are asked with what the file tells, or `lint`, which is no command; then, and at each fault before the command, nothing is
/// written. Of the input nothing is read then, nor where a file is named.
pub fn work<'a, M: MapMemory, F: FileSource, R: Source, W: Destination, D: DamageSink>(
    memory: &M,
    job: Option<Job<'a>>,
    files: &F,
    input: &mut R,
    output: &mut W,
    damages: &mut D,
) -> Result<Survey, Stop<'a>>
    ensures ran { (bytes : List ℕ) × Consumes (R.remaining input.old) (R.remaining input.new) bytes
        × (D.hears damages.old damages.old [] → Works (M.refuses memory.now) (F.held files.now) (F.fails_with files.now)
        (option_map request_made job.entry) bytes (R.remaining input.new) (W.contents output.old)
        (W.contents output.new) (D.hears damages.old damages.new) result) }
    ensures blames { Blames R.follows R.fails input.old input.new ((D.hears damages.old damages.old [])
        × BlamesInput (M.refuses memory.now) (F.held files.now) (F.fails_with files.now)
        (option_map request_made job.entry) result) }
    ensures blames_writer { D.hears damages.old damages.old [] → BlamesWriter W.fails result }
{
    let Some(job) = job else {
        return Err(Stop::NotUnderstood);
    };
    let Some(command) = Command::of(&job) else {
        return Err(Stop::NotUnderstood);
    };
    match file(&job) {
        Some(path) => answer_over_file(on_named(
            memory,
            files,
            path,
            file_units(&job),
            part_name(&job),
            command,
            output,
            damages,
        )),
        None => on_input(
            memory,
            files,
            section(&job),
            command,
            input,
            output,
            damages,
        ),
    }
}
