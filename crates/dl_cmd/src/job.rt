//! What the words of the command line ask for.

ghost use Rattle.std.specs.Prelude.{◌≡◌};
ghost use Rattle.dl_cmd.specs.Job.{request_made, with_file};

/// What the words say of units of versions 2 to 4, whose headers don't have the size of an address. The sizes are the
/// words as they stand.
#[derive(Clone, Copy, Debug, PartialEq, Eq)]
pub struct UnitWords<'a> {
    /// The size of an address in those of a section on standard input; without it they aren't read.
    pub older: Option<&'a str>,
    /// The size of an address in those of an ELF file, where it isn't that of the file's class.
    pub address_size: Option<&'a str>,
    /// Units of version 5 alone are read of an ELF file.
    pub version_5: bool,
}

/// What the program is to do. Paths, addresses and sizes are the words as they stand.
///
/// Where the path of an ELF file is given, its words say neither an order nor the path of a string section.
#[derive(Debug, Drop, PartialEq, Eq)]
pub enum Job<'a> {
    /// Print units.
    Dump(DumpWords<'a>),
    /// Count units, sequences and rows.
    Check {
        /// The path of the ELF file; None where the section comes on standard input.
        file: Option<&'a str>,
        /// The section is big-endian.
        big: bool,
        /// Which units of versions 2 to 4 are read.
        units: UnitWords<'a>,
        /// After a unit that is damaged the next one is read.
        keep_going: bool,
    },
    /// Look up an address.
    Find {
        file: Option<&'a str>,
        big: bool,
        units: UnitWords<'a>,
        address: Option<&'a str>,
        /// The operation index.
        op: u8,
        /// The name of the section of an object file that is looked into.
        section: Option<&'a str>,
        /// The path of the section `.debug_line_str`.
        line_str: Option<&'a str>,
        /// The path of the section `.debug_str`.
        strings: Option<&'a str>,
    },
    /// Write all units anew.
    Copy {
        file: Option<&'a str>,
        big: bool,
        units: UnitWords<'a>,
        /// Units of versions 2 to 4 are copied too, as units of version 5.
        to_5: bool,
        /// The compilation directory of those, in place of the one that the file says.
        comp_dir: Option<&'a str>,
    },
    /// Print where addresses are in the source.
    Addr(AddrWords<'a>),
    /// Make the index of a file, or list one.
    Index(IndexWords<'a>),
    /// Print the source files.
    Sources(SourcesWords<'a>),
    /// Print the addresses of source lines.
    Lines(LinesWords<'a>),
    /// Tell what in line tables misleads a debugger.
    Lint(LintWords<'a>),
}

impl<'a> Job<'a> {
    /// The same job over the file at this path.
    pub fn of_file(self, path: &'a str) -> Job<'a>
        ensures { request_made result ≡ with_file (request_made self.entry) path.entry.now }
    {
        let mut job = self;
        match &mut job {
            Job::Dump(words) => words.file = Some(path),
            Job::Check { file, .. } => *file = Some(path),
            Job::Find { file, .. } => *file = Some(path),
            Job::Copy { file, .. } => *file = Some(path),
            Job::Addr(words) => words.file = Some(path),
            Job::Index(words) => words.file = Some(path),
            Job::Sources(words) => words.file = Some(path),
            Job::Lines(words) => words.file = Some(path),
            Job::Lint(words) => words.file = Some(path),
        }
        job
    }
}

/// Where the line table of a file that has none is looked for, and what is told of it.
#[derive(Debug, Drop, PartialEq, Eq)]
pub struct FollowWords<'a> {
    /// Folders for separate debug files, in the order of the words; `/usr/lib/debug` alone where none is said.
    pub debug_dirs: Vec<&'a str>,
    /// No other file is read in place of FILE.
    pub no_follow: bool,
    /// Which file is read and what is passed over is told on standard error.
    pub verbose: bool,
}

/// The files of `check` beside the first, and how they are told.
#[derive(Debug, Drop, PartialEq, Eq)]
pub struct FilesWords<'a> {
    /// FILEs after the first one.
    pub others: Vec<&'a str>,
    /// The path of a list of files; `-` stands for standard input.
    pub files_from: Option<&'a str>,
    /// Paths of the list end with a zero byte, and not with a newline.
    pub null: bool,
    /// A line on standard error tells how far the work is.
    pub progress: bool,
}

/// What the words of the command line say.
#[derive(Drop)]
pub struct Words<'a> {
    pub job: Job<'a>,
    pub follow: FollowWords<'a>,
    pub files: FilesWords<'a>,
}

/// The words of `dump`.
#[derive(Clone, Copy, Debug, PartialEq, Eq)]
pub struct DumpWords<'a> {
    /// The path of the ELF file; None where the section comes on standard input.
    pub file: Option<&'a str>,
    pub big: bool,
    pub units: UnitWords<'a>,
    pub line_str: Option<&'a str>,
    pub strings: Option<&'a str>,
    /// After a unit that is damaged the next one is read.
    pub keep_going: bool,
    /// The fields of headers are printed.
    pub header: bool,
    /// Each operation is printed before the row that it makes.
    pub operations: bool,
    /// The path of its file is printed at the end of each row.
    pub paths: bool,
    /// The compilation directory for these.
    pub comp_dir: Option<&'a str>,
    /// Each unit and each row is a JSON object.
    pub json: bool,
    /// The offset of the unit that is printed alone.
    pub unit: Option<&'a str>,
    /// The addresses whose sequences are printed alone, as LOW-HIGH.
    pub range: Option<&'a str>,
}

/// The words of `lint`.
#[derive(Debug, Drop, PartialEq, Eq)]
pub struct LintWords<'a> {
    /// The path of the ELF file; None where the section comes on standard input.
    pub file: Option<&'a str>,
    /// The names of the rules whose findings are told; where none is said, those of all rules are.
    pub rules: Vec<&'a str>,
    /// The names of rules whose findings aren't told.
    pub no_rules: Vec<&'a str>,
    /// Each finding is a JSON object.
    pub json: bool,
    /// After a unit that is damaged the next one is read.
    pub keep_going: bool,
    pub big: bool,
    pub units: UnitWords<'a>,
    pub line_str: Option<&'a str>,
    pub strings: Option<&'a str>,
}

/// The words of `index`.
#[derive(Clone, Copy, Debug, PartialEq, Eq)]
pub struct IndexWords<'a> {
    /// The path of the ELF file; of an index, where that is listed.
    pub file: Option<&'a str>,
    /// The path under which the index is written; `-` stands for standard output.
    pub output: Option<&'a str>,
    /// The stretches of an index are listed, and none is made.
    pub list: bool,
    /// Sequences that begin outside executable sections count too.
    pub all: bool,
    /// After a unit that is damaged the next one is read.
    pub keep_going: bool,
    /// The name of the section of an object file whose addresses are told.
    pub section: Option<&'a str>,
    pub units: UnitWords<'a>,
    /// The compilation directory, in place of the one that the file says.
    pub comp_dir: Option<&'a str>,
}

/// The words of `addr`. A path `-` of an ELF file stands for a section on standard input.
#[derive(Debug, Drop, PartialEq, Eq)]
pub struct AddrWords<'a> {
    pub file: Option<&'a str>,
    /// The addresses; where there is none, they come on standard input.
    pub addresses: Vec<&'a str>,
    /// Digits without `0x` are hexadecimal too, unless `--decimal` is said.
    pub hex: bool,
    /// What is subtracted from each address.
    pub base: Option<&'a str>,
    /// Each address is printed before its location.
    pub with_addresses: bool,
    /// Paths are printed by their last component alone.
    pub basenames: bool,
    /// Answers are printed as JSON objects, each with its address.
    pub json: bool,
    /// Sequences that begin outside executable sections count too.
    pub all: bool,
    /// After a unit that is damaged the next one isn't read.
    pub stop: bool,
    /// The name of the section of an object file that is looked into.
    pub section: Option<&'a str>,
    pub big: bool,
    pub units: UnitWords<'a>,
    /// The compilation directory, in place of the one that the file says.
    pub comp_dir: Option<&'a str>,
    /// The path of the ELF file of which the index is made that is asked.
    pub made_of: Option<&'a str>,
    pub line_str: Option<&'a str>,
    pub strings: Option<&'a str>,
}

/// The words of `sources`.
#[derive(Clone, Copy, Debug, PartialEq, Eq)]
pub struct SourcesWords<'a> {
    /// The path of the ELF file; None where the section comes on standard input.
    pub file: Option<&'a str>,
    /// How many rows name each path, and how many bytes of code they have, is told.
    pub rows: bool,
    /// The MD5 sums of each path are told.
    pub md5: bool,
    /// Each line is a JSON object.
    pub json: bool,
    /// The offset of the unit whose paths are printed alone.
    pub unit: Option<&'a str>,
    /// Sequences that begin outside executable sections count too.
    pub all: bool,
    /// After a unit that is damaged the next one is read.
    pub keep_going: bool,
    pub big: bool,
    pub units: UnitWords<'a>,
    /// The compilation directory, in place of the one that the file says.
    pub comp_dir: Option<&'a str>,
    pub line_str: Option<&'a str>,
    pub strings: Option<&'a str>,
}

/// The words of `lines`. A path `-` of an ELF file stands for a section on standard input.
#[derive(Debug, Drop, PartialEq, Eq)]
pub struct LinesWords<'a> {
    pub file: Option<&'a str>,
    /// The lines that are asked for, as PATH:LINE.
    pub wanted: Vec<&'a str>,
    /// A line answers alone for itself, and no line above it does.
    pub exact: bool,
    /// Sequences that begin outside executable sections count too.
    pub all: bool,
    /// After a unit that is damaged the next one isn't read.
    pub stop: bool,
    /// The name of the section of an object file that is looked into.
    pub section: Option<&'a str>,
    pub big: bool,
    pub units: UnitWords<'a>,
    /// The compilation directory, in place of the one that the file says.
    pub comp_dir: Option<&'a str>,
    pub line_str: Option<&'a str>,
    pub strings: Option<&'a str>,
}
