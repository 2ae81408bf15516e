//! Commands over an ELF file.
ghost use Rattle.std.specs.Prelude.{◌≡◌, [], option_map};
ghost use Rattle.std.specs.Option.{option_copied};
ghost use Rattle.dl_elf.specs.Source.{ForBytes};
ghost use Rattle.dl_file.specs.LineTable.{GivesLine, GivesTable, LineTable, Plain};
ghost use Rattle.dl_sections.specs.Commands.{strings_in};
ghost use Rattle.dl_open.specs.Tables.{IsWhole, file_dialect};
ghost use Rattle.dl_open.specs.declared.dialect.FileUnits.{FileUnits};
ghost use Rattle.dl_program.specs.Blaming.{BlamesOver};
ghost use Rattle.dl_program.specs.Tables.{OnFile, OnFound, OnLines, OnTable, RunsOn};

use crate::command::Command;
use dl_elf::ReadAt;
use dl_file::{LineFile, LineReader};
use dl_open::{
    FileFault, FileStop, FileUnits, Part, StringSections, file_dialect, kept_bytes, open_table,
    part_of,
};
use dl_output::Destination;
use dl_sections::{DamageSink, Options, SECTION_LIMIT, Survey};
use dl_sources::MapMemory;

/// Works through the line section of the file at this path.
fn on_section<'p, M: MapMemory, S: ReadAt, W: Destination, D: DamageSink>(
    memory: &M,
    path: &'p str,
    command: Command<'_>,
    line: &mut LineReader<'_, S>,
    options: &Options<'_>,
    output: &mut W,
    damages: &mut D,
) -> Result<Survey, FileStop<'p>>
    requires { options.now.limit ≡ SECTION_LIMIT }
    ensures ran { (source : _) (units : FileUnits) (t : LineTable)
        → GivesLine S.all_bytes S.fails_with (S.fails_with source) line.old t.line → options.now.dialect ≡ file_dialect units t
        → IsWhole t.line_str t.str (strings_in options.now) → D.hears damages.old damages.old []
        → RunsOn (M.refuses memory.now) units (S.fails_with source) path.entry.now command.entry t (W.contents output.old) (W.contents output.new)
        (D.hears damages.old damages.new) result }
    ensures blames { D.hears damages.old damages.old [] → BlamesOver W.fails result }
{
    let stream = line.stream_name();
    match command.run(memory, line, output, options, damages) {
        Ok(survey) => Ok(survey),
        Err(fault) => Err(FileStop::at(path, stream, fault, line.last_fault())),
    }
}

/// Works through what is left of the line section of the object file at this path.
fn on_kept<'p, M: MapMemory, W: Destination, D: DamageSink>(
    memory: &M,
    path: &'p str,
    command: Command<'_>,
    bytes: &[u8],
    options: &Options<'_>,
    output: &mut W,
    damages: &mut D,
) -> Result<Survey, FileStop<'p>>
    requires { options.now.limit ≡ SECTION_LIMIT }
    ensures ran { (units : FileUnits) (t : LineTable) → t.line ≡ Plain bytes.now → options.now.dialect ≡ file_dialect units t
        → IsWhole t.line_str t.str (strings_in options.now) → D.hears damages.old damages.old []
        → RunsOn (M.refuses memory.now) units (λ error. ⊥) path.entry.now command.entry t (W.contents output.old) (W.contents output.new)
        (D.hears damages.old damages.new) result }
    ensures blames { D.hears damages.old damages.old [] → BlamesOver W.fails result }
{
    let mut input = bytes;
    match command.run(memory, &mut input, output, options, damages) {
        Ok(survey) => Ok(survey),
        Err(fault) => Err(FileStop::at(path, None, fault, None)),
    }
}

/// Works through the line section of the file at this path, or through the sequences of a part of it.
fn on_lines<'p, M: MapMemory, S: ReadAt, W: Destination, D: DamageSink>(
    memory: &M,
    path: &'p str,
    command: Command<'_>,
    part: Option<&Part>,
    line: &mut LineReader<'_, S>,
    options: &Options<'_>,
    output: &mut W,
    damages: &mut D,
) -> Result<Survey, FileStop<'p>>
    requires { options.now.limit ≡ SECTION_LIMIT }
    ensures ran { (source : _) (units : FileUnits) (t : LineTable)
        → GivesLine S.all_bytes S.fails_with (S.fails_with source) line.old t.line → options.now.dialect ≡ file_dialect units t
        → IsWhole t.line_str t.str (strings_in options.now) → D.hears damages.old damages.old []
        → OnLines (M.refuses memory.now) units (S.fails_with source) path.entry.now command.entry t (option_copied part.entry) (W.contents output.old)
        (W.contents output.new) (D.hears damages.old damages.new) result }
    ensures blames { D.hears damages.old damages.old [] → BlamesOver W.fails result }
{
    let Some(part) = part else {
        return on_section(memory, path, command, line, options, output, damages);
    };
    match kept_bytes(memory, path, options.dialect, part, line) {
        Ok(bytes) => on_kept(
            memory,
            path,
            command,
            bytes.as_slice(),
            options,
            output,
            damages,
        ),
        Err(stop) => {
            command.without_table(memory, output);
            Err(stop)
        }
    }
}

/// Does what is asked of the line table of the file at this path, which is opened, or of a part of it.
fn on_table<'p, M: MapMemory, S: ReadAt, W: Destination, D: DamageSink>(
    memory: &M,
    path: &'p str,
    command: Command<'_>,
    units: FileUnits,
    table: LineFile<'_, S>,
    part: Option<&Part>,
    output: &mut W,
    damages: &mut D,
) -> Result<Survey, FileStop<'p>>
    ensures ran { (source : _) (t : LineTable) → GivesTable S.all_bytes S.fails_with (S.fails_with source) table.entry t
        → D.hears damages.old damages.old []
        → OnTable (M.refuses memory.now) units (S.fails_with source) path.entry.now command.entry t (option_copied part.entry) (W.contents output.old)
        (W.contents output.new) (D.hears damages.old damages.new) result }
    ensures blames { D.hears damages.old damages.old [] → BlamesOver W.fails result }
{
    let LineFile {
        order,
        class,
        is_object,
        mut line,
        debug_line_str,
        debug_str,
        ..
    } = table;
    if command.loses(is_object) {
        command.without_table(memory, output);
        return Err(FileStop::File {
            path,
            fault: FileFault::ObjectCopy,
        });
    }
    let strings = match StringSections::of_table(memory, path, debug_line_str, debug_str) {
        Ok(strings) => strings,
        Err(stop) => {
            command.without_table(memory, output);
            return Err(stop);
        }
    };
    let options = strings.options(file_dialect(order, class, units));
    on_lines(
        memory, path, command, part, &mut line, &options, output, damages,
    )
}

/// Does what is asked of the line table of the file at this path, whose table was found. Addresses are looked up in the
/// section of this name.
fn on_found<'p, M: MapMemory, S: ReadAt, W: Destination, D: DamageSink>(
    memory: &M,
    path: &'p str,
    file: &S,
    units: FileUnits,
    section: Option<&'p str>,
    command: Command<'_>,
    table: LineFile<'_, S>,
    output: &mut W,
    damages: &mut D,
) -> Result<Survey, FileStop<'p>>
    ensures ran { ForBytes (S.all_bytes file.now) (λ f. (t : LineTable)
        → GivesTable S.all_bytes S.fails_with (S.fails_with file.now) table.entry t → D.hears damages.old damages.old [] → OnFound (M.refuses memory.now) units (S.fails_with file.now) path.entry.now
        (option_map (λ s. s.now) section.entry) command.entry f t (W.contents output.old) (W.contents output.new)
        (D.hears damages.old damages.new) result) }
    ensures blames { D.hears damages.old damages.old [] → BlamesOver W.fails result }
{
    if !command.looks_up() {
        return on_table(memory, path, command, units, table, None, output, damages);
    }
    match part_of(memory, path, file, table.is_object, section) {
        Ok(part) => on_table(
            memory,
            path,
            command,
            units,
            table,
            part.as_ref(),
            output,
            damages,
        ),
        Err(stop) => {
            command.without_table(memory, output);
            Err(stop)
        }
    }
}

/// Does what is asked of the line table of the file at this path, which is open. In an object file addresses are looked
/// up in the section of this name, or where none is named in that of its code. Where the table can't be had, `addr`
/// says of each address that it has no answer.
pub fn on_file<'p, M: MapMemory, S: ReadAt, W: Destination, D: DamageSink>(
    memory: &M,
    path: &'p str,
    file: &S,
    units: FileUnits,
    section: Option<&'p str>,
    command: Command<'_>,
    output: &mut W,
    damages: &mut D,
) -> Result<Survey, FileStop<'p>>
    ensures ran { D.hears damages.old damages.old [] → ForBytes (S.all_bytes file.now) (λ f. OnFile (M.refuses memory.now) units
        (S.fails_with file.now) path.entry.now (option_map (λ s. s.now) section.entry) command.entry f
        (W.contents output.old) (W.contents output.new) (D.hears damages.old damages.new) result) }
    ensures blames { D.hears damages.old damages.old [] → BlamesOver W.fails result }
{
    match open_table(memory, path, file, units, command.sections()) {
        Ok(table) => on_found(
            memory, path, file, units, section, command, table, output, damages,
        ),
        Err(stop) => {
            command.without_table(memory, output);
            Err(stop)
        }
    }
}
