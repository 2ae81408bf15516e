//! What is asked of a line table with what its file tells beside it: where there is code, and where units were compiled.
ghost use Rattle.std.specs.Prelude.{ℕ, List};
ghost use Rattle.std.specs.Io.KnownBytes.{Consumes};
ghost use Rattle.dl_input.specs.Failing.{Blames};
ghost use Rattle.dl_program.specs.Blaming.{BlamesWriter};
ghost use Rattle.dl_locating.specs.WithTable.{BlamesSection, BlamesTable, InputRead, TableFileRead, TableRead, table_seen};

use crate::code::{everywhere, live_in};
use crate::compiled::compiled_in;
use crate::opening::open_with_code;
use dl_cmd::UnitWords;
use dl_input::Source;
use dl_lines::{CompilationDirectories, LinesQuestion, Wanted};
use dl_look::CodeRanges;
use dl_open::FileSource;
use dl_output::Destination;
use dl_program::{
    Command, MapMemory, Section, Stop, Unheard, answer_over_file, directory_said, is_size, on_file,
    on_input, units_of_file,
};
use dl_sections::Survey;
use dl_sources::SourcesQuestion;

/// What the words say of the line table.
#[derive(Clone, Copy)]
pub struct TableWords<'a> {
    /// The path of the ELF file; None where the section comes on the input.
    pub file: Option<&'a str>,
    /// Sequences that begin outside executable sections count too.
    pub all: bool,
    /// The name of the section of an object file that is looked into.
    pub section: Option<&'a str>,
    pub big: bool,
    pub units: UnitWords<'a>,
    /// The compilation directory, in place of the one that the file says.
    pub comp_dir: Option<&'a str>,
    pub line_str: Option<&'a str>,
    pub strings: Option<&'a str>,
}

/// What is asked of the line table.
#[derive(Clone, Copy)]
pub enum Wish<'q> {
    /// The addresses of source lines.
    Lines {
        wanted: &'q [Wanted<'q>],
        /// No line above one that has no place answers for it.
        exact: bool,
        /// After a damaged unit the next one isn't read.
        stop: bool,
    },
    /// The source files.
    Sources {
        rows: bool,
        md5: bool,
        json: bool,
        /// The offset of the unit whose source files are told alone.
        unit: Option<u64>,
        /// After a damaged unit the next one is read.
        keep_going: bool,
    },
}

impl<'q> Wish<'q> {
    ghost use Rattle.std.specs.Prelude.{◌≡◌};
    ghost use Rattle.dl_locating.specs.WithTable.{command_for};

    /// The command that answers it, where there is this code, of units that were compiled in these directories.
    fn command(
        self,
        code: Option<&'q CodeRanges>,
        directories: CompilationDirectories<'q>,
    ) -> Command<'q>
        ensures { result ≡ command_for self.entry code.entry directories.entry }
    {
        match self {
            Wish::Lines {
                wanted,
                exact,
                stop,
            } => {
                let question = LinesQuestion {
                    wanted,
                    exact,
                    code,
                    directories,
                };
                if stop {
                    Command::Lines(question)
                } else {
                    Command::LinesAround(question)
                }
            }
            Wish::Sources {
                rows,
                md5,
                json,
                unit,
                keep_going,
            } => {
                let question = SourcesQuestion {
                    rows,
                    md5,
                    json,
                    code,
                    directories,
                };
                if let Some(unit) = unit {
                    Command::SourcesUnit(question, unit)
                } else if keep_going {
                    Command::SourcesAround(question)
                } else {
                    Command::Sources(question)
                }
            }
        }
    }
}

impl TableWords<'_> {
    ghost use Rattle.std.specs.Prelude.{◌≡◌, is_none};
    ghost use Rattle.dl_locating.specs.WithTable.{suits_file, suits_input, table_seen};

    /// Whether the directories are looked for that a file says: none is said.
    fn wants_directories(&self) -> bool
        ensures { result ≡ is_none (table_seen self.now).comp_dir }
    {
        self.comp_dir.is_none()
    }

    /// Whether what they say suits a section on the input.
    fn suits_input(&self) -> bool
        ensures { result ≡ suits_input (table_seen self.now) }
    {
        self.section.is_none()
            && !self.units.version_5
            && self.units.address_size.is_none()
            && is_size(self.units.older)
    }

    /// Whether it suits an ELF file.
    fn suits_file(&self) -> bool
        ensures { result ≡ suits_file (table_seen self.now) }
    {
        !self.big
            && self.line_str.is_none()
            && self.strings.is_none()
            && self.units.older.is_none()
            && is_size(self.units.address_size)
    }
}

/// Does what is asked of the section on the input.
fn of_input<'a, M: MapMemory, F: FileSource, R: Source, W: Destination>(
    memory: &M,
    words: &TableWords<'_>,
    wish: Wish<'_>,
    files: &F,
    input: &mut R,
    output: &mut W,
) -> Result<Survey, Stop<'a>>
    ensures read { (bytes : List ℕ) × Consumes (R.remaining input.old) (R.remaining input.new) bytes
        × InputRead (M.refuses memory.now) (F.held files.now) (F.fails_with files.now) (table_seen words.now) wish.entry bytes
        (R.remaining input.new) (W.contents output.old) (W.contents output.new) result }
    ensures blames { Blames R.follows R.fails input.old input.new (BlamesSection (M.refuses memory.now) (F.held files.now)
        (F.fails_with files.now) (table_seen words.now) result) }
    ensures blames_writer { BlamesWriter W.fails result }
{
    if !words.suits_input() {
        return Err(Stop::NotUnderstood);
    }
    let section = Section {
        big: words.big,
        older: words.units.older,
        line_str: words.line_str,
        strings: words.strings,
    };
    let command = wish.command(everywhere(), directory_said(words.comp_dir));
    on_input(memory, files, section, command, input, output, &mut Unheard)
}

/// Does what is asked of the line table of the ELF file at this path.
fn of_file<'a, M: MapMemory, F: FileSource, W: Destination>(
    memory: &M,
    words: &TableWords<'a>,
    wish: Wish<'_>,
    path: &'a str,
    files: &F,
    output: &mut W,
) -> Result<Survey, Stop<'a>>
    ensures read { TableFileRead (M.refuses memory.now) (F.held files.now) (F.fails_with files.now) path.entry.now
        (table_seen words.now) wish.entry (W.contents output.old) (W.contents output.new) result }
    ensures blames_writer { BlamesWriter W.fails result }
{
    if !words.suits_file() {
        return Err(Stop::NotUnderstood);
    }
    let wanted = words.wants_directories();
    let (file, code, directories) = match open_with_code(memory, wanted, files, path) {
        Ok(opened) => opened,
        Err(fault) => return Err(Stop::File { path, fault }),
    };
    let code = live_in(words.all, code.as_ref());
    let command = wish.command(code, compiled_in(words.comp_dir, &directories));
    let units = units_of_file(words.units);
    answer_over_file(on_file(
        memory,
        path,
        &file,
        units,
        words.section,
        command,
        output,
        &mut Unheard,
    ))
}

/// Does what is asked of the line table that the words name.
pub fn ask_table<'a, M: MapMemory, F: FileSource, R: Source, W: Destination>(
    memory: &M,
    words: &TableWords<'a>,
    wish: Wish<'_>,
    files: &F,
    input: &mut R,
    output: &mut W,
) -> Result<Survey, Stop<'a>>
    ensures read { (bytes : List ℕ) × Consumes (R.remaining input.old) (R.remaining input.new) bytes
        × TableRead (M.refuses memory.now) (F.held files.now) (F.fails_with files.now) (table_seen words.now) wish.entry bytes
        (R.remaining input.new) (W.contents output.old) (W.contents output.new) result }
    ensures blames { Blames R.follows R.fails input.old input.new
        (BlamesTable (M.refuses memory.now) (F.held files.now) (F.fails_with files.now) (table_seen words.now) result) }
    ensures blames_writer { BlamesWriter W.fails result }
{
    match words.file {
        Some(path) => of_file(memory, words, wish, path, files, output),
        None => of_input(memory, words, wish, files, input, output),
    }
}
