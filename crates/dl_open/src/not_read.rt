//! What is said of the units of other versions, which aren't read, where an address has no answer.
ghost use Rattle.std.specs.Prelude.{◌≡◌, IfSome, OnOk, option_map};
ghost use Rattle.std.specs.Io.KnownBytes.{Appends};
ghost use Rattle.dl_elf.specs.Source.{ForBytes};
ghost use Rattle.dl_file.specs.LineTable.{GivesTable, LineTable};
ghost use Rattle.dl_open.specs.NotRead.{IsToldOfFile, PassesOverTable, not_read_text, told_of};
ghost use Rattle.dl_open.specs.Stops.{stop_line};

use crate::dialect::{FileUnits, file_dialect};
use crate::files::{FileSource, open_file};
use crate::shown::Shown;
use dl_elf::ReadAt;
use dl_file::{LineFile, Wanted, open_line_file};
use dl_memory::Memory;
use dl_sections::{Options, PassedOver, RunFault, SECTION_LIMIT, passed_over};
use std::alloc::Global;
use std::io::Write;
use std::{fmt, io};

/// The units of other versions than 5 in the line table of a file, which aren't read.
#[derive(Debug, Drop)]
pub struct UnitsNotRead<'a> {
    /// The file's path.
    pub path: &'a str,
    pub units: PassedOver,
}

impl UnitsNotRead<'_> {
    /// Writes the line that tells of them.
    pub fn write_line<W: Write>(&self, errors: &mut W) -> io::Result<()>
        ensures { OnOk result
            (Appends (W.contents errors.old) (W.contents errors.new) (stop_line (not_read_text self.now))) }
    {
        writeln!(errors, "dwline: {self}")
    }
}

impl fmt::Display for UnitsNotRead<'_> {
    ghost use Rattle.std.specs.Prelude.{Some};
    ghost use Rattle.dl_open.specs.NotRead.{not_read_text};

    ghost output = { λ units. Some (not_read_text units) };

    fn fmt<W: fmt::Write>(&self, f: &mut fmt::Formatter<W>) -> fmt::Result {
        write!(f, "{}: {}", Shown(self.path), Units(self.units))
    }
}

/// That some units aren't read.
#[derive(Clone, Copy)]
struct Units(PassedOver);

impl fmt::Display for Units {
    ghost use Rattle.std.specs.Prelude.{Some};
    ghost use Rattle.dl_open.specs.NotRead.{units_text};

    ghost output = { λ units. Some (units_text units.0) };

    fn fmt<W: fmt::Write>(&self, f: &mut fmt::Formatter<W>) -> fmt::Result {
        let versions = Versions(self.0);
        if self.0.units == 1 {
            write!(f, "1 unit of {versions} is not read")
        } else {
            write!(f, "{} units of {versions} are not read", self.0.units)
        }
    }
}

/// The versions of some units.
#[derive(Clone, Copy)]
struct Versions(PassedOver);

impl fmt::Display for Versions {
    ghost use Rattle.std.specs.Prelude.{Some};
    ghost use Rattle.dl_open.specs.NotRead.{versions_text};

    ghost output = { λ versions. Some (versions_text versions.0) };

    fn fmt<W: fmt::Write>(&self, f: &mut fmt::Formatter<W>) -> fmt::Result {
        let (least, greatest) = (self.0.least, self.0.greatest);
        if least == greatest {
            write!(f, "version {least}")
        } else {
            write!(f, "versions {least} to {greatest}")
        }
    }
}

/// The units of other versions in a line table, which is read.
fn in_table<S: ReadAt>(
    alloc: Global,
    units: FileUnits,
    table: LineFile<'_, S>,
) -> Result<Option<PassedOver>, RunFault>
    ensures { (source : _) (t : LineTable) → GivesTable S.all_bytes S.fails_with (S.fails_with source) table.entry t
        → PassesOverTable units t result }
{
    let LineFile {
        order,
        class,
        mut line,
        ..
    } = table;
    let options = Options {
        dialect: file_dialect(order, class, units),
        debug_line_str: None,
        debug_str: None,
        limit: SECTION_LIMIT,
    };
    passed_over(alloc, &mut line, &options)
}

/// The units of other versions, unless there was a fault.
fn told(answer: Result<Option<PassedOver>, RunFault>) -> Option<PassedOver>
    ensures { result ≡ told_of answer }
{
    match answer {
        Ok(units) => units,
        Err(_) => None,
    }
}

/// The units of other versions in the line table of an open file. None where there is none, or at a fault.
fn in_file<M: Memory, S: ReadAt>(memory: &M, units: FileUnits, file: &S) -> Option<PassedOver>
    ensures { ForBytes (S.all_bytes file.now) (λ f. IsToldOfFile (M.refuses memory.now) units (S.fails_with file.now) f result) }
{
    match open_line_file(memory, file, Wanted::LineSection) {
        Ok(table) => told(in_table(memory.alloc(), units, table)),
        Err(_) => None,
    }
}

/// The units that aren't read in the line table of the file at this path, which is opened and read anew. None where
/// there is none; also at a fault, of which nothing is told.
pub fn units_not_read<'a, M: Memory, F: FileSource>(
    memory: &M,
    files: &F,
    path: &'a str,
    read: FileUnits,
) -> Option<UnitsNotRead<'a>>
    ensures path { IfSome result (λ units. units.path ≡ path.entry) }
    ensures units { ForBytes (F.held files.now path.entry.now) (λ f. IsToldOfFile (M.refuses memory.now) read
        (F.fails_with files.now path.entry.now) f (option_map (λ units. units.units) result)) }
{
    match open_file(files, path) {
        Ok(file) => {
            let units = in_file(memory, read, &file)?;
            Some(UnitsNotRead { path, units })
        }
        Err(_) => None,
    }
}
