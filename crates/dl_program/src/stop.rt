//! Why the program stops before its work is done.
ghost use Rattle.std.specs.Prelude.{◌≡◌, IfSome, OnErr, OnOk};
ghost use Rattle.std.specs.Io.KnownBytes.{Appends};
ghost use Rattle.dl_open.specs.Stops.{stop_line};
ghost use Rattle.dl_program.specs.Stops.{MayFail, index_status, over_file, stop_of, stop_status, stop_text};

use crate::fault_line::write_fault_line;
use dl_asked::OtherLine;
use dl_index_file::OpenFault;
use dl_open::{FileFault, FileStop, Shown, ShownBytes};
use dl_output::Destination;
use dl_sections::{Damage, DamagedUnits, RunFault};
use std::{fmt, io};

/// Why the program stops before its work is done.
#[derive(Debug, Drop)]
pub enum Stop<'a> {
    /// The words name no work, or what they name isn't an address.
    NotUnderstood,
    /// This word of `addr` is no address. Nothing here answers it.
    NotAddress { word: &'a str },
    /// This word of `lines` is no line of a path. Nothing here answers it.
    NotLine { word: &'a str },
    /// This word of `lint` is the name of no rule. Nothing here answers it.
    NotRule { word: &'a str },
    /// A string section couldn't be read, or the command stopped.
    Run(RunFault),
    /// The ELF file at this path stops it.
    File { path: &'a str, fault: FileFault },
    /// The index at this path can't be read, or is none that is.
    Index { path: &'a str, fault: OpenFault },
    /// The index at this path isn't of the file that the words name.
    OtherFile { path: &'a str },
    /// The ELF file at this path has no section of this name, in which addresses are to be looked up.
    NoSection { path: &'a str, name: &'a str },
    /// These units are damaged, and the others answered. Only `locate` answers it.
    Damaged { units: DamagedUnits },
    /// This line of the input is no address. Only `Located::told` answers it.
    NoAddress { line: OtherLine },
}

impl<'a> Stop<'a> {
    /// The program's status: 2 where the words are to blame, 1 where a line is, else that of the fault.
    pub fn status(&self) -> u8
        ensures { result ≡ stop_status self.now }
    {
        match self {
            Stop::NotUnderstood
            | Stop::NotAddress { .. }
            | Stop::NotLine { .. }
            | Stop::NotRule { .. } => 2,
            Stop::Run(fault) => fault.status(),
            Stop::File { fault, .. } => fault.status(),
            Stop::Index { fault, .. } => index_status(fault),
            Stop::OtherFile { .. }
            | Stop::NoSection { .. }
            | Stop::Damaged { .. }
            | Stop::NoAddress { .. } => 1,
        }
    }

    /// Writes the line that says why the program stopped.
    pub fn write_line<W: Destination>(&self, errors: &mut W) -> io::Result<()>
        ensures written { OnOk result (IfSome (stop_text self.now) (λ text.
            Appends (W.contents errors.old) (W.contents errors.new) (stop_line text))) }
        ensures blames { OnErr result (MayFail W.fails self.now) }
    {
        match self {
            Stop::Run(fault) => write_fault_line(errors, *fault),
            _ => writeln!(errors, "dwline: {self}"),
        }
    }
}

/// The status where an index can't be read, or is none that is.
fn index_status(fault: &OpenFault) -> u8
    ensures { result ≡ index_status fault.now }
{
    match fault {
        OpenFault::Read(_) => 3,
        OpenFault::Index(_) => 1,
    }
}

/// Damaged units as they are printed: the fault of the first, and how many others there are.
#[derive(Clone, Copy)]
struct ShownUnits(DamagedUnits);

impl fmt::Display for ShownUnits {
    ghost use Rattle.std.specs.Prelude.{Some};
    ghost use Rattle.dl_program.specs.Stops.{damaged_text};

    ghost output = { λ shown. Some (damaged_text shown.0) };

    fn fmt<W: fmt::Write>(&self, f: &mut fmt::Formatter<W>) -> fmt::Result {
        let DamagedUnits { first, others } = self.0;
        let Damage { offset, kind } = first;
        let fault = RunFault::Damage { offset, kind };
        if others == 0 {
            return write!(f, "{fault}");
        }
        if others == 1 {
            return write!(f, "{fault}, and 1 more damaged unit");
        }
        write!(f, "{fault}, and {others} more damaged units")
    }
}

impl<'a> From<FileStop<'a>> for Stop<'a> {
    ghost from_gives = { λ stop given. given ≡ stop_of stop };

    fn from(stop: FileStop<'a>) -> Self {
        match stop {
            FileStop::Run(fault) => Stop::Run(fault),
            FileStop::File { path, fault } => Stop::File { path, fault },
            FileStop::NoSection { path, name } => Stop::NoSection { path, name },
        }
    }
}

/// What a command over a file answered, as the program answers.
pub fn answer_over_file<'a, A>(answer: Result<A, FileStop<'a>>) -> Result<A, Stop<'a>>
    ensures { result ≡ over_file answer.entry }
{
    match answer {
        Ok(answered) => Ok(answered),
        Err(stop) => Err(Stop::from(stop)),
    }
}

impl fmt::Display for Stop<'_> {
    ghost output = { stop_text };

    fn fmt<W: fmt::Write>(&self, f: &mut fmt::Formatter<W>) -> fmt::Result {
        match self {
            Stop::NotUnderstood => write!(f, "words not understood"),
            Stop::NotAddress { word } => write!(f, "{} is no address", Shown(word)),
            Stop::NotLine { word } => write!(f, "{} is no PATH:LINE", Shown(word)),
            Stop::NotRule { word } => write!(f, "{} is no rule", Shown(word)),
            Stop::Run(fault) => write!(f, "{fault}"),
            Stop::File { path, fault } => write!(f, "{}: {fault}", Shown(path)),
            Stop::Index { path, fault } => write!(f, "{}: {fault}", Shown(path)),
            Stop::OtherFile { path } => write!(f, "{}: made of another file", Shown(path)),
            Stop::NoSection { path, name } => {
                write!(f, "{}: no section {}", Shown(path), Shown(name))
            }
            Stop::Damaged { units } => write!(f, "{}", ShownUnits(*units)),
            Stop::NoAddress { line } => write!(
                f,
                "line {}: {} is no address",
                line.number,
                ShownBytes(line.word.as_bytes())
            ),
        }
    }
}
