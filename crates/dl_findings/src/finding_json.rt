//! A finding as a JSON object. RFC 8259.

ghost use Rattle.std.specs.Prelude.{◌≡◌, ◌++◌, codes, decimal};
ghost use Rattle.dl_print.specs.Output.{BlamesWriter, Prints};
ghost use Rattle.dl_findings.specs.FindingJson.{address_member, both_members, counted_members, directory_members, file_members};
ghost use Rattle.dl_findings.specs.FindingJson.{dead_members, entry_members, finding_object, found_members, missing_members, object_start, opcode_members, overlap_members};
ghost use Rattle.dl_findings.specs.FindingJson.{row_members, subject_members};

use crate::finding::{Finding, Found, Opcode, RowSeen, TableEntry, TextSection};
use crate::parts::{print_number, print_numbers, print_section};
use dl_look::Place;
use dl_output::Destination;
use dl_print::{Printer, WriteFault};

/// Prints the JSON object of a finding, and ends its line.
pub(crate) fn print_object<W: Destination>(
    printer: &mut Printer,
    output: &mut W,
    finding: &Finding,
) -> Result<(), WriteFault>
    ensures printed { Prints (W.contents output.old) (W.contents output.new) printer.old printer.new
        (finding_object finding.now) result }
    ensures blames { BlamesWriter W.fails result }
{
    print_start(printer, output, finding.offset, finding.found.rule().name())?;
    print_subject(printer, output, &finding.row)?;
    print_found(printer, output, &finding.found)?;
    printer.put(output, b"}\n")
}

/// Prints where a finding is, and the name of its rule.
#[tactic(auto, unfolding(crate::specs::FindingJson::object_start))]
fn print_start<W: Destination>(
    printer: &mut Printer,
    output: &mut W,
    offset: u64,
    name: &[u8],
) -> Result<(), WriteFault>
    ensures printed { Prints (W.contents output.old) (W.contents output.new) printer.old printer.new
        (object_start offset name.now) result }
    ensures blames { BlamesWriter W.fails result }
{
    printer.number(output, b"{\"offset\":", offset)?;
    printer.put(output, b",\"rule\":\"")?;
    printer.put(output, name)?;
    printer.put(output, b"\"")
}

/// Prints what a finding is about.
fn print_subject<W: Destination>(
    printer: &mut Printer,
    output: &mut W,
    row: &Option<RowSeen>,
) -> Result<(), WriteFault>
    ensures printed { Prints (W.contents output.old) (W.contents output.new) printer.old printer.new
        (subject_members row.now) result }
    ensures blames { BlamesWriter W.fails result }
{
    match row {
        Some(row) => print_row(printer, output, row),
        None => printer.put(output, b""),
    }
}

/// Prints which row it is.
#[tactic(auto, unfolding(crate::specs::FindingJson::row_members))]
fn print_row<W: Destination>(
    printer: &mut Printer,
    output: &mut W,
    row: &RowSeen,
) -> Result<(), WriteFault>
    ensures printed { Prints (W.contents output.old) (W.contents output.new) printer.old printer.new
        (row_members row.now) result }
    ensures blames { BlamesWriter W.fails result }
{
    printer.number(output, b",\"row\":", row.number)?;
    print_place(
        printer,
        output,
        b",\"address\":\"",
        row.place,
        b",\"op_index\":",
    )
}

/// Prints what is found.
fn print_found<W: Destination>(
    printer: &mut Printer,
    output: &mut W,
    found: &Found,
) -> Result<(), WriteFault>
    ensures printed { Prints (W.contents output.old) (W.contents output.new) printer.old printer.new
        (found_members found.now) result }
    ensures blames { BlamesWriter W.fails result }
{
    match found {
        Found::FileIndex { file, files, first } => {
            print_file(printer, output, *file, *files, *first)
        }
        Found::DirectoryIndex {
            file,
            directory,
            directories,
            first,
        } => print_directory(printer, output, *file, *directory, *directories, *first),
        Found::FallingPlace { before } => print_place(
            printer,
            output,
            b",\"before\":\"",
            *before,
            b",\"before_op_index\":",
        ),
        Found::NoEnd => printer.put(output, b""),
        Found::EmptySequence => printer.put(output, b""),
        Found::Overlap { place, unit } => print_overlap(printer, output, *place, *unit),
        Found::DeadSequence { sequences, first } => {
            print_dead(printer, output, *sequences, *first)
        }
        Found::MissingText {
            entry,
            section,
            offset,
        } => print_missing(printer, output, *entry, *section, *offset),
        Found::DuplicateFile { file, same_as } => print_numbers(
            printer,
            output,
            b",\"file\":",
            *file,
            b",\"same_as\":",
            *same_as,
        ),
        Found::UnusedFile { files, first } => print_numbers(
            printer,
            output,
            b",\"unused\":",
            *files,
            b",\"first\":",
            *first,
        ),
        Found::Md5Missing { files, first } => print_numbers(
            printer,
            output,
            b",\"without\":",
            *files,
            b",\"first\":",
            *first,
        ),
        Found::LongNumber { bytes } => printer.number(output, b",\"bytes\":", *bytes),
        Found::Padding { bytes } => printer.number(output, b",\"bytes\":", *bytes),
        Found::WrappedAddress { from, size } => print_both(
            printer,
            output,
            b",\"from\":\"",
            *from,
            b",\"size\":",
            *size,
        ),
        Found::LineWrapped { line } => printer.number(output, b",\"line\":", *line),
        Found::NoStatement => printer.put(output, b""),
        Found::SplitInstruction { first, least } => print_both(
            printer,
            output,
            b",\"first\":\"",
            *first,
            b",\"least\":",
            *least,
        ),
        Found::UnknownOpcode { opcode } => print_opcode(printer, output, *opcode),
        Found::UnknownContent { content_code } => {
            printer.number(output, b",\"content_code\":", *content_code)
        }
        Found::NoCode { start, size } => print_both(
            printer,
            output,
            b",\"start\":\"",
            *start,
            b",\"size\":",
            *size,
        ),
    }
}

/// Prints which place another sequence covers too, and the unit of that one.
#[tactic(auto, unfolding(crate::specs::FindingJson::overlap_members))]
fn print_overlap<W: Destination>(
    printer: &mut Printer,
    output: &mut W,
    place: Place,
    unit: u64,
) -> Result<(), WriteFault>
    ensures printed { Prints (W.contents output.old) (W.contents output.new) printer.old printer.new
        (overlap_members place unit) result }
    ensures blames { BlamesWriter W.fails result }
{
    print_place(
        printer,
        output,
        b",\"covered\":\"",
        place,
        b",\"covered_op_index\":",
    )?;
    printer.number(output, b",\"unit\":", unit)
}

/// Prints how many sequences there are, and where the first begins.
#[tactic(auto, unfolding(crate::specs::FindingJson::dead_members))]
fn print_dead<W: Destination>(
    printer: &mut Printer,
    output: &mut W,
    sequences: u64,
    first: u64,
) -> Result<(), WriteFault>
    ensures printed { Prints (W.contents output.old) (W.contents output.new) printer.old printer.new
        (dead_members sequences first) result }
    ensures blames { BlamesWriter W.fails result }
{
    printer.number(output, b",\"sequences\":", sequences)?;
    print_address(printer, output, b",\"first\":\"", first)
}

/// Prints where a section has no text.
#[tactic(auto, unfolding(crate::specs::FindingJson::missing_members))]
fn print_missing<W: Destination>(
    printer: &mut Printer,
    output: &mut W,
    entry: TableEntry,
    section: TextSection,
    offset: u64,
) -> Result<(), WriteFault>
    ensures printed { Prints (W.contents output.old) (W.contents output.new) printer.old printer.new
        (missing_members entry section offset) result }
    ensures blames { BlamesWriter W.fails result }
{
    print_entry(printer, output, entry)?;
    printer.put(output, b",\"section\":\"")?;
    print_section(printer, output, section)?;
    print_number(printer, output, b"\",\"at\":", offset)
}

/// Prints which entry of a table it is.
fn print_entry<W: Destination>(
    printer: &mut Printer,
    output: &mut W,
    entry: TableEntry,
) -> Result<(), WriteFault>
    ensures printed { Prints (W.contents output.old) (W.contents output.new) printer.old printer.new
        (entry_members entry) result }
    ensures blames { BlamesWriter W.fails result }
{
    match entry {
        TableEntry::Directory(number) => {
            print_number(printer, output, b",\"directory\":", number)
        }
        TableEntry::File(number) => print_number(printer, output, b",\"file\":", number),
    }
}

/// Prints which opcode is passed over.
fn print_opcode<W: Destination>(
    printer: &mut Printer,
    output: &mut W,
    opcode: Opcode,
) -> Result<(), WriteFault>
    ensures printed { Prints (W.contents output.old) (W.contents output.new) printer.old printer.new
        (opcode_members opcode) result }
    ensures blames { BlamesWriter W.fails result }
{
    match opcode {
        Opcode::Standard(number) => {
            print_code(printer, output, b",\"standard_opcode\":", number)
        }
        Opcode::Extended(number) => {
            print_code(printer, output, b",\"extended_opcode\":", number)
        }
    }
}

/// Prints which file is named, and how many there are.
#[tactic(auto, unfolding(crate::specs::FindingJson::file_members))]
fn print_file<W: Destination>(
    printer: &mut Printer,
    output: &mut W,
    file: u64,
    files: u64,
    first: u64,
) -> Result<(), WriteFault>
    ensures printed { Prints (W.contents output.old) (W.contents output.new) printer.old printer.new
        (file_members file files first) result }
    ensures blames { BlamesWriter W.fails result }
{
    printer.number(output, b",\"file\":", file)?;
    print_counted(printer, output, b",\"files\":", files, first)
}

/// Prints which file names which directory, and how many of these there are.
#[tactic(auto, unfolding(crate::specs::FindingJson::directory_members))]
fn print_directory<W: Destination>(
    printer: &mut Printer,
    output: &mut W,
    file: u64,
    directory: u64,
    directories: u64,
    first: u64,
) -> Result<(), WriteFault>
    ensures printed { Prints (W.contents output.old) (W.contents output.new) printer.old printer.new
        (directory_members file directory directories first) result }
    ensures blames { BlamesWriter W.fails result }
{
    printer.number(output, b",\"file\":", file)?;
    printer.number(output, b",\"directory\":", directory)?;
    print_counted(printer, output, b",\"directories\":", directories, first)
}

/// Prints how many there are, under this name, and the number of the first.
#[tactic(auto, unfolding(crate::specs::FindingJson::counted_members))]
fn print_counted<W: Destination>(
    printer: &mut Printer,
    output: &mut W,
    name: &[u8],
    count: u64,
    first: u64,
) -> Result<(), WriteFault>
    ensures printed { Prints (W.contents output.old) (W.contents output.new) printer.old printer.new
        (counted_members name.now count first) result }
    ensures blames { BlamesWriter W.fails result }
{
    print_number(printer, output, name, count)?;
    printer.number(output, b",\"first\":", first)
}

/// Prints an address and a number, each under its name.
#[tactic(auto, unfolding(crate::specs::FindingJson::both_members))]
fn print_both<W: Destination>(
    printer: &mut Printer,
    output: &mut W,
    name: &[u8],
    address: u64,
    other: &[u8],
    number: u64,
) -> Result<(), WriteFault>
    ensures printed { Prints (W.contents output.old) (W.contents output.new) printer.old printer.new
        (both_members name.now address other.now number) result }
    ensures blames { BlamesWriter W.fails result }
{
    print_address(printer, output, name, address)?;
    print_number(printer, output, other, number)
}

/// Prints an address under this name.
#[tactic(auto, unfolding(crate::specs::FindingJson::address_member))]
fn print_address<W: Destination>(
    printer: &mut Printer,
    output: &mut W,
    name: &[u8],
    address: u64,
) -> Result<(), WriteFault>
    ensures printed { Prints (W.contents output.old) (W.contents output.new) printer.old printer.new
        (address_member name.now address) result }
    ensures blames { BlamesWriter W.fails result }
{
    printer.put(output, name)?;
    printer.address(output, address)?;
    printer.put(output, b"\"")
}

/// Prints the address and the op_index of a place, each under its name.
#[tactic(auto, unfolding(crate::specs::FindingJson::both_members))]
fn print_place<W: Destination>(
    printer: &mut Printer,
    output: &mut W,
    name: &[u8],
    place: Place,
    other: &[u8],
) -> Result<(), WriteFault>
    ensures printed { Prints (W.contents output.old) (W.contents output.new) printer.old printer.new
        (both_members name.now place.address other.now place.op_index) result }
    ensures blames { BlamesWriter W.fails result }
{
    print_address(printer, output, name, place.address)?;
    print_code(printer, output, other, place.op_index)
}

/// Prints a code of one byte under this name.
fn print_code<W: Destination>(
    printer: &mut Printer,
    output: &mut W,
    name: &[u8],
    code: u8,
) -> Result<(), WriteFault>
    ensures printed { Prints (W.contents output.old) (W.contents output.new) printer.old printer.new
        (name.now ++ decimal code) result }
    ensures blames { BlamesWriter W.fails result }
{
    printer.put(output, name)?;
    printer.number(output, b"", u64::from(code))
}
