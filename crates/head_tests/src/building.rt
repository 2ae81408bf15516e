//! Tables and headers that are built.

use crate::vectors::{DWARF64_WITH_MD5, EMPTY_PROGRAM, MD5, is_header_of};
use dl_head::{
    BuildFault, Form, Format, Header, Pair, ParamFault, Params, Refused, Table, ValueRef,
};
use std::alloc::Global;
use std::process::Abort;
use std::test::Fail;
use test_support::{opcode_lengths, params};

const FITS: Result<(), BuildFault> = Ok(());

const WRONG: Result<(), BuildFault> = Err(BuildFault::WrongValue(0));

const TOO_MANY: Result<(), BuildFault> = Err(BuildFault::WrongValue(1));

/// A form, the values of an entry, and what a table with one pair of this form answers to it.
type Entry<'a> = (Form, &'a [ValueRef<'a>], Result<(), BuildFault>);

/// In the 32-bit format.
const ENTRIES: &[Entry<'static>] = &[
    (Form::String, &[ValueRef::Text(b"a")], FITS),
    (Form::String, &[ValueRef::Text(b"a\0")], WRONG),
    (Form::String, &[], WRONG),
    (Form::String, &[ValueRef::Number(1)], WRONG),
    (
        Form::String,
        &[ValueRef::Text(b"a"), ValueRef::Text(b"a")],
        TOO_MANY,
    ),
    (Form::String, &[ValueRef::Block(b"a")], WRONG),
    (Form::Data1, &[ValueRef::Number(255)], FITS),
    (Form::Data1, &[ValueRef::Number(256)], WRONG),
    (Form::Data2, &[ValueRef::Number(65_535)], FITS),
    (Form::Data2, &[ValueRef::Number(65_536)], WRONG),
    (Form::Data4, &[ValueRef::Number(0xffff_ffff)], FITS),
    (Form::Data4, &[ValueRef::Number(0x1_0000_0000)], WRONG),
    (Form::Data8, &[ValueRef::Number(u64::MAX)], FITS),
    (Form::Udata, &[ValueRef::Number(u64::MAX)], FITS),
    (Form::Strp, &[ValueRef::Str(0xffff_ffff)], FITS),
    (Form::Strp, &[ValueRef::Str(0x1_0000_0000)], WRONG),
    (Form::Strp, &[ValueRef::LineStr(0)], WRONG),
    (Form::LineStrp, &[ValueRef::LineStr(0xffff_ffff)], FITS),
    (Form::LineStrp, &[ValueRef::LineStr(0x1_0000_0000)], WRONG),
    (Form::StrpSup, &[ValueRef::StrSup(7)], FITS),
    (Form::Block1, &[ValueRef::Block(&[0; 255])], FITS),
    (Form::Block1, &[ValueRef::Block(&[0; 256])], WRONG),
    (Form::Block, &[ValueRef::Block(&[0; 256])], FITS),
    (Form::Block2, &[ValueRef::Block(&[0; 256])], FITS),
    (Form::Block4, &[ValueRef::Block(&[])], FITS),
    (Form::Data16, &[ValueRef::Data16(MD5)], FITS),
    (Form::Data16, &[ValueRef::Block(&MD5)], WRONG),
];

const LAST_OFFSET: &[Entry<'static>] = &[(Form::Strp, &[ValueRef::Str(u64::MAX)], FITS)];

/// Whether the table has no entry, or one with this value of content code 1.
fn holds(table: &Table, value: Option<ValueRef<'_>>) -> bool {
    match table.entry(0) {
        Some(entry) => table.len() == 1 && entry.get(1) == value,
        None => value.is_none(),
    }
}

/// Asserts what an empty table answers to an entry of these values, and what it holds then.
pub fn assert_pushed(
    rt: &impl Abort,
    table: &mut Table,
    values: &[ValueRef<'_>],
    answer: Result<(), BuildFault>,
) {
    assert!(rt; table.push_entry(values) == answer, "{answer:?}");
    let value = values.first().copied();
    assert!(rt; holds(table, if answer.is_ok() { value } else { None }));
}

/// Asserts the same of a new table of these pairs.
fn assert_entered(
    rt: &impl Abort,
    alloc: Global,
    format: Format,
    pairs: &[Pair],
    values: &[ValueRef<'_>],
    answer: Result<(), BuildFault>,
) {
    let mut table = Table::new(alloc, format, pairs).expect(rt, "a table");
    assert_pushed(rt, &mut table, values, answer);
}

/// Asserts the same for each of these.
fn assert_entries(rt: &impl Abort, alloc: Global, format: Format, entries: &[Entry<'_>]) {
    for (form, values, answer) in entries {
        let pairs = [Pair {
            content: 1,
            form: *form,
        }];
        assert_entered(rt, alloc, format, &pairs, values, *answer);
    }
}

#[test]
fn values_are_those_of_their_forms(rt: HostRuntime) {
    assert_entries(&rt, rt.alloc(), Format::Dwarf32, ENTRIES);
    assert_entries(&rt, rt.alloc(), Format::Dwarf64, LAST_OFFSET);
}

#[test]
fn an_empty_format_has_no_entries(rt: HostRuntime) {
    let empty = Err(BuildFault::EmptyFormat);
    assert_entered(&rt, rt.alloc(), Format::Dwarf32, &[], &[], empty);
}

/// Why a table of these pairs is refused.
pub fn why_refused(alloc: Global, pairs: &[Pair]) -> Option<BuildFault> {
    Table::new(alloc, Format::Dwarf32, pairs).err()
}

#[test]
fn formats_have_255_pairs_at_most(rt: HostRuntime) {
    let pairs = [PATH; 256];
    let fault = BuildFault::TooManyFormats;
    assert!(rt; why_refused(rt.alloc(), &pairs) == Some(fault));
    assert!(rt; why_refused(rt.alloc(), &pairs[..255]).is_none());
}

/// Adds entries, up to one that is refused.
fn push_all(table: &mut Table, entries: &[&[ValueRef<'_>]]) -> Result<(), BuildFault> {
    for values in entries {
        table.push_entry(values)?;
    }
    Ok(())
}

/// A table of these pairs and entries.
fn table_of(
    alloc: Global,
    format: Format,
    pairs: &[Pair],
    entries: &[&[ValueRef<'_>]],
) -> Result<Table, BuildFault> {
    let mut table = Table::new(alloc, format, pairs)?;
    push_all(&mut table, entries)?;
    Ok(table)
}

const PATH: Pair = Pair {
    content: 1,
    form: Form::String,
};

/// The pairs of a text and a block.
pub const PAIRS: &[Pair] = &[
    PATH,
    Pair {
        content: 0x2001,
        form: Form::Block1,
    },
];

/// Two entries of these pairs.
const TEXTS_AND_BLOCKS: &[&[ValueRef<'static>]] = &[
    &[ValueRef::Text(b"ab"), ValueRef::Block(&[0x00, 0xff])],
    &[ValueRef::Text(b""), ValueRef::Block(&[])],
];

/// What came back of the parts of a header: opcode_base, how many lengths of opcodes, and how many directories and
/// files.
type Returned = (u8, usize, [usize; 2]);

/// The cells of a header, or why it was refused, and what came back of its parts.
type Made = Result<u64, (ParamFault, Returned)>;

fn returned(refused: &Refused) -> Returned {
    (
        refused.params.opcode_base,
        refused.params.lengths.len(),
        [refused.directories.len(), refused.files.len()],
    )
}

/// What comes of a header of these parts.
fn made(params: Params, directories: Table, files: Table) -> Made {
    match Header::new(params, directories, files) {
        Ok(header) => Ok(header.cells()),
        Err(refused) => Err((refused.fault, returned(&refused))),
    }
}

/// version, address_size, maximum_operations_per_instruction, line_range and opcode_base; the lengths of opcodes; and how
/// many cells the header has, or why it is refused.
type Parts<'a> = ([u8; 5], &'a [u8], Result<u64, ParamFault>);

const STANDARD: &[u8] = &[0, 1, 1, 1, 1, 0, 0, 0, 1, 0, 0, 1];

const ELEVEN: &[u8] = &[0, 1, 1, 1, 1, 0, 0, 0, 1, 0, 0];

const SECOND_ZERO: &[u8] = &[0, 0, 1, 1, 1, 0, 0, 0, 1, 0, 0, 1];

const WRONG_LENGTH: Result<u64, ParamFault> = Err(ParamFault::StandardLength(2));

const PARTS: &[Parts<'static>] = &[
    ([5, 8, 1, 14, 13], STANDARD, Ok(10)),
    ([5, 3, 1, 14, 13], STANDARD, Err(ParamFault::AddressSize)),
    ([2, 8, 1, 14, 13], STANDARD, Ok(10)),
    ([1, 8, 1, 14, 13], STANDARD, Err(ParamFault::Version)),
    ([6, 3, 1, 14, 13], STANDARD, Err(ParamFault::Version)),
    ([3, 8, 2, 14, 13], STANDARD, Err(ParamFault::MaxOps)),
    ([4, 8, 2, 14, 13], STANDARD, Ok(10)),
    ([5, 8, 0, 14, 13], STANDARD, Err(ParamFault::MaxOps)),
    ([5, 8, 1, 0, 13], STANDARD, Err(ParamFault::LineRange)),
    ([5, 8, 1, 14, 0], STANDARD, Err(ParamFault::OpcodeBase)),
    ([5, 8, 1, 14, 13], ELEVEN, Err(ParamFault::OpcodeBase)),
    ([5, 8, 1, 14, 13], SECOND_ZERO, WRONG_LENGTH),
];

/// The params of most compilers in the 32-bit format, with these numbers and lengths of opcodes.
fn params_of(numbers: [u8; 5], lengths: &[u8]) -> Params {
    let [version, address_size, operations, line_range, opcode_base] = numbers;
    Params {
        version: u16::from(version),
        address_size,
        maximum_operations_per_instruction: operations,
        line_range,
        opcode_base,
        lengths: opcode_lengths(lengths),
        ..params(Format::Dwarf32)
    }
}

/// Asserts what comes of a header of these parts, two directories and no file, whose tables have these formats.
fn assert_made(
    rt: &impl Abort,
    alloc: Global,
    [format, of_files]: [Format; 2],
    parts: &Parts<'_>,
) -> Result<(), BuildFault> {
    let (numbers, lengths, wanted) = *parts;
    let directories = table_of(alloc, format, PAIRS, TEXTS_AND_BLOCKS)?;
    let files = Table::without_pairs(alloc, of_files);
    let made = made(params_of(numbers, lengths), directories, files);
    let [_, _, _, _, opcode_base] = numbers;
    let wanted = match wanted {
        Ok(cells) => Ok(cells),
        Err(fault) => Err((fault, (opcode_base, lengths.len(), [2, 0]))),
    };
    assert!(rt; made == wanted, "{made:?}");
    Ok(())
}

#[test]
fn headers_of_wrong_parts_are_refused(rt: HostRuntime) -> Result<(), Fail> {
    let (short, long) = (Format::Dwarf32, Format::Dwarf64);
    for parts in PARTS {
        assert_made(&rt, rt.alloc(), [short, short], parts)?;
    }
    let parts = ([5, 8, 1, 14, 13], STANDARD, Err(ParamFault::TableFormat));
    assert_made(&rt, rt.alloc(), [short, long], &parts)?;
    assert_made(&rt, rt.alloc(), [long, short], &parts)?;
    Ok(())
}

/// The pairs of the files of the header of dwarf64 with MD5.
const FILE_PAIRS: &[Pair] = &[
    PATH,
    Pair {
        content: 2,
        form: Form::Udata,
    },
    Pair {
        content: 5,
        form: Form::Data16,
    },
];

const FILE: &[ValueRef<'static>] = &[
    ValueRef::Text(b"a.c"),
    ValueRef::Number(0),
    ValueRef::Data16(MD5),
];

/// The header of dwarf64 with MD5.
fn header_with_md5(alloc: Global) -> Result<Option<Header>, BuildFault> {
    let format = Format::Dwarf64;
    let directories = table_of(alloc, format, &[PATH], &[&[ValueRef::Text(b"/s")]])?;
    let files = table_of(alloc, format, FILE_PAIRS, &[FILE])?;
    Ok(Header::new(params(format), directories, files).ok())
}

/// Asserts that the header is that of dwarf64 with MD5, and another one than that of an empty program.
fn assert_built(rt: &impl Abort, alloc: Global, header: &Header) {
    assert!(rt; header.cells() == 13 && *header.directories() != *header.files());
    assert!(rt; is_header_of(alloc, DWARF64_WITH_MD5, Some(header)));
    assert!(rt; !is_header_of(alloc, EMPTY_PROGRAM, Some(header)));
}

#[test]
fn a_built_header_is_the_one_that_is_read(rt: HostRuntime) -> Result<(), Fail> {
    let header = header_with_md5(rt.alloc())?.expect(&rt, "a header");
    assert_built(&rt, rt.alloc(), &header);
    Ok(())
}
