//! The findings of a section that comes on the input.
ghost use Rattle.std.specs.Prelude.{◌≡◌, ℕ, List, []};
ghost use Rattle.std.specs.Io.KnownBytes.{Consumes};
ghost use Rattle.dl_input.specs.Failing.{Blames};
ghost use Rattle.dl_program.specs.Blaming.{BlamesWriter};
ghost use Rattle.dl_program.specs.Held.{section_seen};
ghost use Rattle.dl_linting.specs.Linting.{BlamesSection, OnInput};

use crate::section::{Choice, lint_section};
use dl_input::Source;
use dl_lint::LintedAround;
use dl_memory::Memory;
use dl_open::{FileSource, StringSections};
use dl_output::Destination;
use dl_program::{Section, Stop, stopped};
use dl_sections::DamageSink;

/// Tells what is found in the section on the input. The string sections are read first.
pub fn on_input<'p, M: Memory, F: FileSource, R: Source, W: Destination, D: DamageSink>(
    memory: &M,
    files: &F,
    section: Section<'_>,
    choice: Choice,
    input: &mut R,
    output: &mut W,
    damages: &mut D,
) -> Result<LintedAround, Stop<'p>>
    ensures ran { (bytes : List ℕ) × Consumes (R.remaining input.old) (R.remaining input.new) bytes
        × (D.hears damages.old damages.old [] → OnInput (M.refuses memory.now) (F.held files.now) (F.fails_with files.now)
        (section_seen section.entry) choice bytes (R.remaining input.new) (W.contents output.old) (W.contents output.new)
        (D.hears damages.old damages.new) result) }
    ensures blames { Blames R.follows R.fails input.old input.new ((D.hears damages.old damages.old [])
        × BlamesSection (M.refuses memory.now) (F.held files.now) (F.fails_with files.now) (section_seen section.entry) result) }
    ensures blames_writer { D.hears damages.old damages.old [] → BlamesWriter W.fails result }
{
    match StringSections::of_files(memory, files, section.line_str, section.strings) {
        Ok(strings) => {
            let options = strings.options(section.dialect());
            let wish = choice.of_section();
            stopped(lint_section(memory, input, output, wish, &options, damages))
        }
        Err(fault) => Err(Stop::Run(fault)),
    }
}
