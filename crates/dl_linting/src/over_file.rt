//! The findings of the line table of an ELF file.
ghost use Rattle.std.specs.Prelude.{◌≡◌, []};
ghost use Rattle.dl_elf.specs.Source.{ForBytes};
ghost use Rattle.dl_file.specs.LineTable.{GivesLine, GivesTable, LineTable};
ghost use Rattle.dl_sections.specs.Commands.{strings_in};
ghost use Rattle.dl_open.specs.Tables.{IsWhole, file_dialect};
ghost use Rattle.dl_open.specs.declared.dialect.FileUnits.{FileUnits};
ghost use Rattle.dl_program.specs.Blaming.{BlamesOver};
ghost use Rattle.dl_linting.specs.Linting.{OnCode, OnFile, OnHeld, OnTable, TellsTable};

use crate::section::{Choice, Wish, lint_section};
use dl_elf::ReadAt;
use dl_file::{LineFile, LineReader};
use dl_lint::LintedAround;
use dl_memory::Memory;
use dl_open::{
    FileSource, FileStop, FileUnits, Sections, StringSections, file_code, file_dialect, open_file,
    open_table,
};
use dl_output::Destination;
use dl_sections::{DamageSink, Options, SECTION_LIMIT};

/// Tells what is found in the line section of the file at this path.
fn on_line<'p, M: Memory, S: ReadAt, W: Destination, D: DamageSink>(
    memory: &M,
    path: &'p str,
    wish: Wish<'_>,
    line: &mut LineReader<'_, S>,
    options: &Options<'_>,
    output: &mut W,
    damages: &mut D,
) -> Result<LintedAround, FileStop<'p>>
    requires { options.now.limit ≡ SECTION_LIMIT }
    ensures ran { (source : _) (units : FileUnits) (t : LineTable)
        → GivesLine S.all_bytes S.fails_with (S.fails_with source) line.old t.line → options.now.dialect ≡ file_dialect units t
        → IsWhole t.line_str t.str (strings_in options.now) → D.hears damages.old damages.old []
        → TellsTable (M.refuses memory.now) units (S.fails_with source) path.entry.now wish.entry t (W.contents output.old)
        (W.contents output.new) (D.hears damages.old damages.new) result }
    ensures blames { D.hears damages.old damages.old [] → BlamesOver W.fails result }
{
    let stream = line.stream_name();
    match lint_section(memory, line, output, wish, options, damages) {
        Ok(linted) => Ok(linted),
        Err(fault) => Err(FileStop::at(path, stream, fault, line.last_fault())),
    }
}

/// Tells what is found in the line table of the file at this path, which is opened.
fn on_table<'p, M: Memory, S: ReadAt, W: Destination, D: DamageSink>(
    memory: &M,
    path: &'p str,
    wish: Wish<'_>,
    units: FileUnits,
    table: LineFile<'_, S>,
    output: &mut W,
    damages: &mut D,
) -> Result<LintedAround, FileStop<'p>>
    ensures ran { (source : _) (t : LineTable) → GivesTable S.all_bytes S.fails_with (S.fails_with source) table.entry t
        → D.hears damages.old damages.old []
        → OnTable (M.refuses memory.now) units (S.fails_with source) path.entry.now wish.entry t (W.contents output.old)
        (W.contents output.new) (D.hears damages.old damages.new) result }
    ensures blames { D.hears damages.old damages.old [] → BlamesOver W.fails result }
{
    let LineFile {
        order,
        class,
        mut line,
        debug_line_str,
        debug_str,
        ..
    } = table;
    let strings = StringSections::of_table(memory, path, debug_line_str, debug_str)?;
    let options = strings.options(file_dialect(order, class, units));
    on_line(memory, path, wish, &mut line, &options, output, damages)
}

/// Tells what is found in the line table of the file at this path, which is open.
fn on_file<'p, M: Memory, S: ReadAt, W: Destination, D: DamageSink>(
    memory: &M,
    path: &'p str,
    file: &S,
    units: FileUnits,
    wish: Wish<'_>,
    output: &mut W,
    damages: &mut D,
) -> Result<LintedAround, FileStop<'p>>
    ensures ran { D.hears damages.old damages.old [] → ForBytes (S.all_bytes file.now) (λ f. OnFile (M.refuses memory.now) units
        (S.fails_with file.now) path.entry.now wish.entry f (W.contents output.old) (W.contents output.new)
        (D.hears damages.old damages.new) result) }
    ensures blames { D.hears damages.old damages.old [] → BlamesOver W.fails result }
{
    let table = open_table(memory, path, file, units, Sections::LinesAndTexts)?;
    on_table(memory, path, wish, units, table, output, damages)
}

/// Tells what is found in the line table of the file at this path, which is open, once it is known where it has code.
fn on_code<'p, M: Memory, S: ReadAt, W: Destination, D: DamageSink>(
    memory: &M,
    path: &'p str,
    file: &S,
    units: FileUnits,
    choice: Choice,
    output: &mut W,
    damages: &mut D,
) -> Result<LintedAround, FileStop<'p>>
    ensures ran { D.hears damages.old damages.old [] → ForBytes (S.all_bytes file.now) (λ f. OnCode (M.refuses memory.now) units
        (S.fails_with file.now) path.entry.now choice f (W.contents output.old) (W.contents output.new)
        (D.hears damages.old damages.new) result) }
    ensures blames { D.hears damages.old damages.old [] → BlamesOver W.fails result }
{
    match file_code(memory, file) {
        Ok(code) => on_file(
            memory,
            path,
            file,
            units,
            choice.of_file(&code),
            output,
            damages,
        ),
        Err(fault) => Err(FileStop::File { path, fault }),
    }
}

/// Tells what is found in the line table of the file at this path.
pub fn on_named<'p, M: Memory, F: FileSource, W: Destination, D: DamageSink>(
    memory: &M,
    files: &F,
    path: &'p str,
    units: FileUnits,
    choice: Choice,
    output: &mut W,
    damages: &mut D,
) -> Result<LintedAround, FileStop<'p>>
    ensures ran { D.hears damages.old damages.old [] → ForBytes (F.held files.now path.entry.now) (λ f. OnHeld (M.refuses memory.now)
        units (F.fails_with files.now path.entry.now) path.entry.now choice f (W.contents output.old) (W.contents output.new)
        (D.hears damages.old damages.new) result) }
    ensures blames { D.hears damages.old damages.old [] → BlamesOver W.fails result }
{
    match open_file(files, path) {
        Ok(file) => on_code(memory, path, &file, units, choice, output, damages),
        Err(fault) => Err(FileStop::File { path, fault }),
    }
}
