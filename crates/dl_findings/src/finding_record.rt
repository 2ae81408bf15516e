//! A finding as a record of 72 bytes.

ghost use Rattle.std.specs.Prelude.{◌≡◌};
ghost use Rattle.dl_print.specs.Output.{BlamesWriter, Prints};
ghost use Rattle.dl_findings.specs.FindingRecord.{eight_bytes_each, finding_record, found_numbers, missing_numbers, opcode_numbers};
ghost use Rattle.dl_findings.specs.FindingRecord.{row_numbers, section_number};

use crate::finding::{Finding, Found, Opcode, RowSeen, TableEntry, TextSection};
use dl_output::Destination;
use dl_print::{Printer, WriteFault};

/// Prints the record of a finding.
pub(crate) fn print_record<W: Destination>(
    printer: &mut Printer,
    output: &mut W,
    finding: &Finding,
) -> Result<(), WriteFault>
    ensures printed { Prints (W.contents output.old) (W.contents output.new) printer.old printer.new
        (finding_record finding.now) result }
    ensures blames { BlamesWriter W.fails result }
{
    let place = finding.found.rule().place();
    print_bytes_of(printer, output, &[finding.offset, place as u64])?;
    print_bytes_of(printer, output, &numbers_of_row(&finding.row))?;
    print_bytes_of(printer, output, &numbers_of_found(&finding.found))
}

/// Prints numbers of eight bytes each.
fn print_bytes_of<W: Destination>(
    printer: &mut Printer,
    output: &mut W,
    numbers: &[u64],
) -> Result<(), WriteFault>
    ensures printed { Prints (W.contents output.old) (W.contents output.new) printer.old printer.new
        (eight_bytes_each numbers.now) result }
    ensures blames { BlamesWriter W.fails result }
{
    for number in numbers {
        printer.put(output, &number.to_le_bytes())?;
    }
    Ok(())
}

/// The numbers of the row that a finding is about.
fn numbers_of_row(row: &Option<RowSeen>) -> [u64; 3]
    ensures { result ≡ row_numbers row.now }
{
    match row {
        Some(row) => [row.number, row.place.address, u64::from(row.place.op_index)],
        None => [0, 0, 0],
    }
}

/// The numbers of what is found.
fn numbers_of_found(found: &Found) -> [u64; 4]
    ensures { result ≡ found_numbers found.now }
{
    match found {
        Found::FileIndex { file, files, first } => [*file, *files, *first, 0],
        Found::DirectoryIndex {
            file,
            directory,
            directories,
            first,
        } => [*file, *directory, *directories, *first],
        Found::FallingPlace { before } => [before.address, u64::from(before.op_index), 0, 0],
        Found::NoEnd => [0; 4],
        Found::EmptySequence => [0; 4],
        Found::Overlap { place, unit } => [place.address, u64::from(place.op_index), *unit, 0],
        Found::DeadSequence { sequences, first } => [*sequences, *first, 0, 0],
        Found::MissingText {
            entry,
            section,
            offset,
        } => numbers_of_missing(*entry, *section, *offset),
        Found::DuplicateFile { file, same_as } => [*file, *same_as, 0, 0],
        Found::UnusedFile { files, first } => [*files, *first, 0, 0],
        Found::Md5Missing { files, first } => [*files, *first, 0, 0],
        Found::LongNumber { bytes } => [*bytes, 0, 0, 0],
        Found::Padding { bytes } => [*bytes, 0, 0, 0],
        Found::WrappedAddress { from, size } => [*from, *size, 0, 0],
        Found::LineWrapped { line } => [*line, 0, 0, 0],
        Found::NoStatement => [0; 4],
        Found::SplitInstruction { first, least } => [*first, *least, 0, 0],
        Found::UnknownOpcode { opcode } => numbers_of_opcode(*opcode),
        Found::UnknownContent { content_code } => [2, *content_code, 0, 0],
        Found::NoCode { start, size } => [*start, *size, 0, 0],
    }
}

/// The numbers of a text that a section doesn't have.
fn numbers_of_missing(entry: TableEntry, section: TextSection, offset: u64) -> [u64; 4]
    ensures { result ≡ missing_numbers entry section offset }
{
    match entry {
        TableEntry::Directory(number) => [0, number, number_of_section(section), offset],
        TableEntry::File(number) => [1, number, number_of_section(section), offset],
    }
}

/// The number of a section.
fn number_of_section(section: TextSection) -> u64
    ensures { result ≡ section_number section }
{
    match section {
        TextSection::DebugLineStr => 0,
        TextSection::DebugStr => 1,
    }
}

/// The numbers of an opcode that is passed over.
fn numbers_of_opcode(opcode: Opcode) -> [u64; 4]
    ensures { result ≡ opcode_numbers opcode }
{
    match opcode {
        Opcode::Standard(number) => [0, u64::from(number), 0, 0],
        Opcode::Extended(number) => [1, u64::from(number), 0, 0],
    }
}
