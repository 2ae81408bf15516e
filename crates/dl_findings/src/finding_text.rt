//! The line of a finding.

ghost use Rattle.std.specs.Prelude.{◌≡◌, ◌++◌, codes, decimal};
ghost use Rattle.dl_print.specs.Output.{BlamesWriter, Prints};
ghost use Rattle.dl_print.specs.Text.{number_if_any};
ghost use Rattle.dl_findings.specs.FindingText.{dead_text, file_index_text, finding_line, finding_start, found_text, no_code_text, numbered_text, padding_text};
ghost use Rattle.dl_findings.specs.FindingText.{directory_index_text, long_text, opcode_text, overlap_text, passed_text, place_text, row_text, split_text, subject_text, wrapped_text};

use crate::finding::{Finding, Found, Opcode, RowSeen};
use crate::missing_text::print_missing;
use crate::parts::{print_number, print_numbers};
use dl_look::Place;
use dl_output::Destination;
use dl_print::{Printer, WriteFault};

/// Prints the line of a finding.
pub(crate) fn print_line<W: Destination>(
    printer: &mut Printer,
    output: &mut W,
    finding: &Finding,
) -> Result<(), WriteFault>
    ensures printed { Prints (W.contents output.old) (W.contents output.new) printer.old printer.new
        (finding_line finding.now) result }
    ensures blames { BlamesWriter W.fails result }
{
    print_start(printer, output, finding.offset, finding.found.rule().name())?;
    print_subject(printer, output, &finding.row)?;
    print_found(printer, output, &finding.found)?;
    printer.put(output, b"\n")
}

/// Prints where a finding is, and the name of its rule.
#[tactic(auto, unfolding(crate::specs::FindingText::finding_start))]
fn print_start<W: Destination>(
    printer: &mut Printer,
    output: &mut W,
    offset: u64,
    name: &[u8],
) -> Result<(), WriteFault>
    ensures printed { Prints (W.contents output.old) (W.contents output.new) printer.old printer.new
        (finding_start offset name.now) result }
    ensures blames { BlamesWriter W.fails result }
{
    printer.hexadecimal_number(output, b"0x", offset)?;
    printer.put(output, b" ")?;
    printer.put(output, name)?;
    printer.put(output, b": ")
}

/// Prints what a finding is about.
fn print_subject<W: Destination>(
    printer: &mut Printer,
    output: &mut W,
    row: &Option<RowSeen>,
) -> Result<(), WriteFault>
    ensures printed { Prints (W.contents output.old) (W.contents output.new) printer.old printer.new
        (subject_text row.now) result }
    ensures blames { BlamesWriter W.fails result }
{
    match row {
        Some(row) => print_row(printer, output, row),
        None => printer.put(output, b""),
    }
}

/// Prints what is found.
fn print_found<W: Destination>(
    printer: &mut Printer,
    output: &mut W,
    found: &Found,
) -> Result<(), WriteFault>
    ensures printed { Prints (W.contents output.old) (W.contents output.new) printer.old printer.new
        (found_text found.now) result }
    ensures blames { BlamesWriter W.fails result }
{
    match found {
        Found::FileIndex { file, files, first } => {
            print_file_index(printer, output, *file, *files, *first)
        }
        Found::DirectoryIndex {
            file,
            directory,
            directories,
            first,
        } => print_directory_index(printer, output, *file, *directory, *directories, *first),
        Found::FallingPlace { before } => print_before(printer, output, *before),
        Found::NoEnd => printer.put(output, b"is the last of its unit and no end row"),
        Found::EmptySequence => printer.put(output, b"ends a sequence that covers no address"),
        Found::Overlap { place, unit } => print_overlap(printer, output, *place, *unit),
        Found::DeadSequence { sequences, first } => {
            print_dead(printer, output, *sequences, *first)
        }
        Found::MissingText {
            entry,
            section,
            offset,
        } => print_missing(printer, output, *entry, *section, *offset),
        Found::DuplicateFile { file, same_as } => print_numbers(
            printer,
            output,
            b"file ",
            *file,
            b" has all values of file ",
            *same_as,
        ),
        Found::UnusedFile { files, first } => print_numbers(
            printer,
            output,
            b"no row names ",
            *files,
            b" of the files, the first is file ",
            *first,
        ),
        Found::Md5Missing { files, first } => print_numbers(
            printer,
            output,
            b"no MD5 sum is given for ",
            *files,
            b" of the files, the first is file ",
            *first,
        ),
        Found::LongNumber { bytes } => print_long(printer, output, *bytes),
        Found::Padding { bytes } => print_padding(printer, output, *bytes),
        Found::WrappedAddress { from, size } => print_wrapped(printer, output, *from, *size),
        Found::LineWrapped { line } => printer.number(output, b"has line ", *line),
        Found::NoStatement => {
            printer.put(output, b"ends a sequence in which no row is a statement")
        }
        Found::SplitInstruction { first, least } => print_split(printer, output, *first, *least),
        Found::UnknownOpcode { opcode } => print_opcode(printer, output, *opcode),
        Found::UnknownContent { content_code } => {
            print_passed(printer, output, b"content code 0x", *content_code)
        }
        Found::NoCode { start, size } => print_no_code(printer, output, *start, *size),
    }
}

/// Prints which row it is.
#[tactic(auto, unfolding(crate::specs::FindingText::row_text))]
fn print_row<W: Destination>(
    printer: &mut Printer,
    output: &mut W,
    row: &RowSeen,
) -> Result<(), WriteFault>
    ensures printed { Prints (W.contents output.old) (W.contents output.new) printer.old printer.new
        (row_text row.now) result }
    ensures blames { BlamesWriter W.fails result }
{
    printer.number(output, b"row ", row.number)?;
    printer.put(output, b" at ")?;
    print_place(printer, output, row.place)?;
    printer.put(output, b" ")
}

/// Prints a place.
#[tactic(auto, unfolding(crate::specs::FindingText::place_text))]
fn print_place<W: Destination>(
    printer: &mut Printer,
    output: &mut W,
    place: Place,
) -> Result<(), WriteFault>
    ensures printed { Prints (W.contents output.old) (W.contents output.new) printer.old printer.new
        (place_text place) result }
    ensures blames { BlamesWriter W.fails result }
{
    printer.address(output, place.address)?;
    print_op_index(printer, output, place.op_index)
}

/// Prints an op_index that isn't 0.
fn print_op_index<W: Destination>(
    printer: &mut Printer,
    output: &mut W,
    op_index: u8,
) -> Result<(), WriteFault>
    ensures printed { Prints (W.contents output.old) (W.contents output.new) printer.old printer.new
        (number_if_any (codes " op_index ") op_index) result }
    ensures blames { BlamesWriter W.fails result }
{
    if op_index == 0 {
        return printer.put(output, b"");
    }
    printer.number(output, b" op_index ", u64::from(op_index))
}

/// Prints which file is named, and how many there are.
#[tactic(auto, unfolding(crate::specs::FindingText::file_index_text))]
fn print_file_index<W: Destination>(
    printer: &mut Printer,
    output: &mut W,
    file: u64,
    files: u64,
    first: u64,
) -> Result<(), WriteFault>
    ensures printed { Prints (W.contents output.old) (W.contents output.new) printer.old printer.new
        (file_index_text file files first) result }
    ensures blames { BlamesWriter W.fails result }
{
    printer.number(output, b"names file ", file)?;
    print_numbered(printer, output, files, first)
}

/// Prints which file names which directory, and how many of these there are.
#[tactic(auto, unfolding(crate::specs::FindingText::directory_index_text))]
fn print_directory_index<W: Destination>(
    printer: &mut Printer,
    output: &mut W,
    file: u64,
    directory: u64,
    directories: u64,
    first: u64,
) -> Result<(), WriteFault>
    ensures printed { Prints (W.contents output.old) (W.contents output.new) printer.old printer.new
        (directory_index_text file directory directories first) result }
    ensures blames { BlamesWriter W.fails result }
{
    printer.number(output, b"file ", file)?;
    print_named_directory(printer, output, directory)?;
    print_numbered(printer, output, directories, first)
}

/// Prints which directory is named.
fn print_named_directory<W: Destination>(
    printer: &mut Printer,
    output: &mut W,
    directory: u64,
) -> Result<(), WriteFault>
    ensures printed { Prints (W.contents output.old) (W.contents output.new) printer.old printer.new
        (codes " names directory " ++ decimal directory) result }
    ensures blames { BlamesWriter W.fails result }
{
    printer.put(output, b" names directory ")?;
    printer.number(output, b"", directory)
}

/// Prints how many files or directories there are.
#[tactic(auto, unfolding(crate::specs::FindingText::numbered_text))]
fn print_numbered<W: Destination>(
    printer: &mut Printer,
    output: &mut W,
    files: u64,
    first: u64,
) -> Result<(), WriteFault>
    ensures printed { Prints (W.contents output.old) (W.contents output.new) printer.old printer.new
        (numbered_text files first) result }
    ensures blames { BlamesWriter W.fails result }
{
    printer.number(output, b" of ", files)?;
    printer.number(output, b", numbered from ", first)
}

/// Prints where the row before a row stands.
fn print_before<W: Destination>(
    printer: &mut Printer,
    output: &mut W,
    before: Place,
) -> Result<(), WriteFault>
    ensures printed { Prints (W.contents output.old) (W.contents output.new) printer.old printer.new
        (codes "is below the row before it at " ++ place_text before) result }
    ensures blames { BlamesWriter W.fails result }
{
    printer.put(output, b"is below the row before it at ")?;
    print_place(printer, output, before)
}

/// Prints how many bytes stand after the tables of a header.
#[tactic(auto, unfolding(crate::specs::FindingText::padding_text))]
fn print_padding<W: Destination>(
    printer: &mut Printer,
    output: &mut W,
    bytes: u64,
) -> Result<(), WriteFault>
    ensures printed { Prints (W.contents output.old) (W.contents output.new) printer.old printer.new
        (padding_text bytes) result }
    ensures blames { BlamesWriter W.fails result }
{
    printer.number(output, b"", bytes)?;
    printer.put(output, b" bytes stand between the tables and the program")
}

/// Prints how many bytes a number has.
#[tactic(auto, unfolding(crate::specs::FindingText::long_text))]
fn print_long<W: Destination>(
    printer: &mut Printer,
    output: &mut W,
    bytes: u64,
) -> Result<(), WriteFault>
    ensures printed { Prints (W.contents output.old) (W.contents output.new) printer.old printer.new
        (long_text bytes) result }
    ensures blames { BlamesWriter W.fails result }
{
    printer.put(output, b"a number in LEB128 has ")?;
    printer.number(output, b"", bytes)?;
    printer.put(output, b" bytes")
}

/// Prints of what an address is no multiple.
#[tactic(auto, unfolding(crate::specs::FindingText::split_text))]
fn print_split<W: Destination>(
    printer: &mut Printer,
    output: &mut W,
    first: u64,
    least: u64,
) -> Result<(), WriteFault>
    ensures printed { Prints (W.contents output.old) (W.contents output.new) printer.old printer.new
        (split_text first least) result }
    ensures blames { BlamesWriter W.fails result }
{
    printer.put(output, b"lies no multiple of ")?;
    printer.number(output, b"", least)?;
    printer.put(output, b" bytes from ")?;
    printer.address(output, first)?;
    printer.put(output, b", where its sequence begins")
}

/// Prints from where an advance goes past the size of an address.
#[tactic(auto, unfolding(crate::specs::FindingText::wrapped_text))]
fn print_wrapped<W: Destination>(
    printer: &mut Printer,
    output: &mut W,
    from: u64,
    size: u64,
) -> Result<(), WriteFault>
    ensures printed { Prints (W.contents output.old) (W.contents output.new) printer.old printer.new
        (wrapped_text from size) result }
    ensures blames { BlamesWriter W.fails result }
{
    printer.put(output, b"an advance from ")?;
    printer.address(output, from)?;
    printer.put(output, b" goes past an address of ")?;
    printer.number(output, b"", size)?;
    printer.put(output, b" bytes")
}

/// Prints which place another sequence covers too, and the unit of that one.
#[tactic(auto, unfolding(crate::specs::FindingText::overlap_text))]
fn print_overlap<W: Destination>(
    printer: &mut Printer,
    output: &mut W,
    place: Place,
    unit: u64,
) -> Result<(), WriteFault>
    ensures printed { Prints (W.contents output.old) (W.contents output.new) printer.old printer.new
        (overlap_text place unit) result }
    ensures blames { BlamesWriter W.fails result }
{
    printer.put(output, b"ends a sequence that covers ")?;
    print_place(printer, output, place)?;
    printer.put(output, b", as one of the unit at ")?;
    printer.hexadecimal_number(output, b"0x", unit)?;
    printer.put(output, b" does")
}

/// Prints how many sequences begin outside the code, and where the first does.
#[tactic(auto, unfolding(crate::specs::FindingText::dead_text))]
fn print_dead<W: Destination>(
    printer: &mut Printer,
    output: &mut W,
    sequences: u64,
    first: u64,
) -> Result<(), WriteFault>
    ensures printed { Prints (W.contents output.old) (W.contents output.new) printer.old printer.new
        (dead_text sequences first) result }
    ensures blames { BlamesWriter W.fails result }
{
    printer.number(output, b"", sequences)?;
    printer.put(output, b" sequences begin outside the code, the first at ")?;
    printer.address(output, first)
}

/// Prints which code no sequence covers.
#[tactic(auto, unfolding(crate::specs::FindingText::no_code_text))]
fn print_no_code<W: Destination>(
    printer: &mut Printer,
    output: &mut W,
    start: u64,
    size: u64,
) -> Result<(), WriteFault>
    ensures printed { Prints (W.contents output.old) (W.contents output.new) printer.old printer.new
        (no_code_text start size) result }
    ensures blames { BlamesWriter W.fails result }
{
    print_number(
        printer,
        output,
        b"no sequence covers an address of the ",
        size,
    )?;
    printer.put(output, b" bytes of code from ")?;
    printer.address(output, start)?;
    printer.put(output, b" on")
}

/// Prints which opcode is passed over.
fn print_opcode<W: Destination>(
    printer: &mut Printer,
    output: &mut W,
    opcode: Opcode,
) -> Result<(), WriteFault>
    ensures printed { Prints (W.contents output.old) (W.contents output.new) printer.old printer.new
        (opcode_text opcode) result }
    ensures blames { BlamesWriter W.fails result }
{
    match opcode {
        Opcode::Standard(number) => {
            print_passed_opcode(printer, output, b"standard opcode 0x", number)
        }
        Opcode::Extended(number) => {
            print_passed_opcode(printer, output, b"extended opcode 0x", number)
        }
    }
}

/// Prints that the opcode of this number is passed over.
fn print_passed_opcode<W: Destination>(
    printer: &mut Printer,
    output: &mut W,
    name: &[u8],
    number: u8,
) -> Result<(), WriteFault>
    ensures printed { Prints (W.contents output.old) (W.contents output.new) printer.old printer.new
        (passed_text name.now number) result }
    ensures blames { BlamesWriter W.fails result }
{
    print_passed(printer, output, name, u64::from(number))
}

/// Prints that this code is passed over.
#[tactic(auto, unfolding(crate::specs::FindingText::passed_text))]
fn print_passed<W: Destination>(
    printer: &mut Printer,
    output: &mut W,
    name: &[u8],
    code: u64,
) -> Result<(), WriteFault>
    ensures printed { Prints (W.contents output.old) (W.contents output.new) printer.old printer.new
        (passed_text name.now code) result }
    ensures blames { BlamesWriter W.fails result }
{
    printer.put(output, name)?;
    printer.hexadecimal_number(output, b"", code)?;
    printer.put(output, b" is passed over")
}
