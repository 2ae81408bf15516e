//! Commands over a section that comes on the input.
ghost use Rattle.std.specs.Prelude.{◌≡◌, ℕ, List, []};
ghost use Rattle.std.specs.Io.KnownBytes.{Consumes};
ghost use Rattle.dl_input.specs.Failing.{Blames};
ghost use Rattle.dl_open.specs.Files.{FilesStop};
ghost use Rattle.dl_program.specs.Blaming.{BlamesWriter};
ghost use Rattle.dl_program.specs.Held.{section_seen};
ghost use Rattle.dl_program.specs.Work.{OnInput, stopped};

use crate::command::Command;
use crate::stop::Stop;
use crate::unit_words::older_by;
use dl_head::Dialect;
use dl_input::Source;
use dl_num::Order;
use dl_open::{FileSource, StringSections};
use dl_output::Destination;
use dl_sections::{DamageSink, RunFault, Survey};
use dl_sources::MapMemory;

/// What the words say of a section on the input.
#[derive(Clone, Copy)]
pub struct Section<'a> {
    pub big: bool,
    /// The size of an address in units of versions 2 to 4; without it they aren't read.
    pub older: Option<&'a str>,
    pub line_str: Option<&'a str>,
    pub strings: Option<&'a str>,
}

impl Section<'_> {
    ghost use Rattle.std.specs.Prelude.{◌≡◌};
    ghost use Rattle.dl_program.specs.Asked.{dialect_of};
    ghost use Rattle.dl_program.specs.Held.{section_seen};

    /// What is read of the section: units of version 5, in the order that the words say, and those of versions 2 to 4
    /// where they say the size of their addresses.
    pub fn dialect(self) -> Dialect
        ensures { result ≡ dialect_of (section_seen self.entry) }
    {
        Dialect {
            order: if self.big { Order::Big } else { Order::Little },
            older: older_by(self.older),
        }
    }
}

/// A command's answer, its fault being the reason to stop.
pub fn stopped<'a, A>(answer: Result<A, RunFault>) -> Result<A, Stop<'a>>
    ensures { result ≡ stopped answer }
{
    match answer {
        Ok(answered) => Ok(answered),
        Err(fault) => Err(Stop::Run(fault)),
    }
}

/// Does what is asked of the section on the input. The string sections are read first.
pub fn on_input<'p, M: MapMemory, F: FileSource, R: Source, W: Destination, D: DamageSink>(
    memory: &M,
    files: &F,
    section: Section<'_>,
    command: Command<'_>,
    input: &mut R,
    output: &mut W,
    damages: &mut D,
) -> Result<Survey, Stop<'p>>
    ensures ran { (bytes : List ℕ) × Consumes (R.remaining input.old) (R.remaining input.new) bytes
        × (D.hears damages.old damages.old [] → OnInput (M.refuses memory.now) (F.held files.now) (F.fails_with files.now) (section_seen section.entry) command.entry
        bytes (R.remaining input.new) (W.contents output.old) (W.contents output.new)
        (D.hears damages.old damages.new) result) }
    ensures blames { Blames R.follows R.fails input.old input.new ((D.hears damages.old damages.old [])
        × (result ≡ Err (Stop.Run RunFault.Read))
        × ¬ FilesStop (M.refuses memory.now) (F.held files.now) (F.fails_with files.now)
        (section_seen section.entry).line_str (section_seen section.entry).strings RunFault.Read) }
    ensures blames_writer { D.hears damages.old damages.old [] → BlamesWriter W.fails result }
{
    match StringSections::of_files(memory, files, section.line_str, section.strings) {
        Ok(strings) => {
            let options = strings.options(section.dialect());
            stopped(command.run(memory, input, output, &options, damages))
        }
        Err(fault) => Err(Stop::Run(fault)),
    }
}
