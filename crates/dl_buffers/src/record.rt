//! What crosses to C: structs of numbers.

ghost use Rattle.std.specs.Prelude.{◌≡◌};
ghost use Rattle.dl_buffers.specs.Records.{counts_of, record_of, kind_code, kind_detail, told_kind, plain_kind};
ghost use Rattle.dl_buffers.specs.Records.{opcode_told, row_record, flags_of};

use dl_head::FaultKind;
use dl_print::Summary;
use dl_rows::Row;

/// What the units of a section come to.
#[repr(C)]
#[derive(Clone, Copy)]
pub struct Counts {
    /// Units of version 5.
    pub units: u64,
    /// Units of another version, which were passed over.
    pub skipped: u64,
    /// End rows.
    pub sequences: u64,
    /// Rows, end rows among them.
    pub rows: u64,
    /// Units that are damaged, after which the reading went on; else 0.
    pub damaged: u64,
}

impl Counts {
    pub(crate) fn of(summary: &Summary, damaged: u64) -> Counts
        ensures { result ≡ counts_of summary.now damaged }
    {
        Counts {
            units: summary.units,
            skipped: summary.skipped,
            sequences: summary.sequences,
            rows: summary.rows,
            damaged,
        }
    }
}

/// The first fault of a section.
#[repr(C)]
#[derive(Clone, Copy)]
pub struct FaultRecord {
    /// Where it stands, from the section's first byte.
    pub offset: u64,
    /// The standard opcode of kind 10, the code of the form of kind 11; else 0.
    pub detail: u64,
    /// 1 to 17, in the order of `FaultKind`.
    pub kind: u32,
}

impl FaultRecord {
    /// That of a fault at an offset.
    pub fn of(offset: u64, kind: FaultKind) -> FaultRecord
        ensures { result ≡ record_of offset kind }
    {
        FaultRecord {
            offset,
            detail: detail_of(kind),
            kind: code_of(kind),
        }
    }

    /// The kind that its numbers stand for; None where they stand for none.
    pub(crate) fn told(&self) -> Option<FaultKind>
        ensures { result ≡ told_kind self.now.kind self.now.detail }
    {
        match self.kind {
            10 => opcode_told(self.detail),
            11 => Some(FaultKind::UnknownForm(self.detail)),
            kind => plain_kind(kind),
        }
    }
}

/// A unit that was read whole. Section 6.2.4.
#[repr(C)]
#[derive(Clone, Copy)]
pub struct UnitRecord {
    /// Where it begins, from the section's first byte.
    pub offset: u64,
    /// How many bytes it has, its initial length included.
    pub length: u64,
    /// How many rows it has, end rows among them; 0 of a version other than 5.
    pub rows: u64,
    /// How many entries its table of directories has; 0 of a version other than 5.
    pub directories: u64,
    /// How many entries its table of files has; 0 of a version other than 5.
    pub files: u64,
    pub version: u16,
    /// The size of an address in bytes; 0 of a version other than 5.
    pub address_size: u8,
    /// 1 where it is of the 64-bit DWARF format, else 0. Section 7.4.
    pub is_dwarf64: u8,
}

/// A row of the matrix. Section 6.2.2.
#[repr(C)]
#[derive(Clone, Copy)]
pub struct RowRecord {
    /// The address of the instruction.
    pub address: u64,
    /// The number of the source file in the table of files.
    pub file: u64,
    /// The number of the source line, modulo 2^64.
    pub line: u64,
    /// The column in the source line from 1 on; 0 is the line's left edge.
    pub column: u64,
    /// The instruction set architecture.
    pub isa: u64,
    /// The block that the instruction belongs to; 0 where there is but one.
    pub discriminator: u64,
    /// The operation in its instruction.
    pub op_index: u8,
    /// 1 for is_stmt, 2 for basic_block, 4 for prologue_end, 8 for epilogue_begin, 16 for end_sequence,
    /// in sum.
    pub flags: u8,
}

impl RowRecord {
    #[inline(always)]
    pub(crate) fn of(row: &Row) -> RowRecord
        ensures { result ≡ row_record row.now }
    {
        RowRecord {
            address: row.address,
            file: row.file,
            line: row.line,
            column: row.column,
            isa: row.isa,
            discriminator: row.discriminator,
            op_index: row.op_index,
            flags: flags_of(row),
        }
    }
}

/// The flags of a row in one number.
#[inline(always)]
fn flags_of(row: &Row) -> u8
    ensures { result ≡ flags_of row.now }
{
    u8::from(row.is_stmt)
        + 2 * u8::from(row.basic_block)
        + 4 * u8::from(row.prologue_end)
        + 8 * u8::from(row.epilogue_begin)
        + 16 * u8::from(row.end_sequence)
}

/// The number of the kind, from 1 on.
fn code_of(kind: FaultKind) -> u32
    ensures { result ≡ kind_code kind }
{
    match kind {
        FaultKind::ReservedLength => 1,
        FaultKind::UnitTooLong => 2,
        FaultKind::UnitOverrun => 3,
        FaultKind::AddressSize => 4,
        FaultKind::HeaderBeyondUnit => 5,
        FaultKind::HeaderOverrun => 6,
        FaultKind::MaxOps => 7,
        FaultKind::LineRange => 8,
        FaultKind::OpcodeBase => 9,
        FaultKind::StandardLength(_) => 10,
        FaultKind::UnknownForm(_) => 11,
        FaultKind::EmptyFormat => 12,
        FaultKind::LebRange => 13,
        FaultKind::ExtendedEmpty => 14,
        FaultKind::ExtendedLength => 15,
        FaultKind::OpcodeOverrun => 16,
        FaultKind::Truncated => 17,
    }
}

/// What the kind says besides.
fn detail_of(kind: FaultKind) -> u64
    ensures { result ≡ kind_detail kind }
{
    match kind {
        FaultKind::StandardLength(opcode) => u64::from(opcode),
        FaultKind::UnknownForm(code) => code,
        _ => 0,
    }
}

/// The kind of this number, which says nothing besides; None where there is none.
#[tactic(auto, unfolding(crate::specs::Records::plain_kind))]
fn plain_kind(kind: u32) -> Option<FaultKind>
    ensures { result ≡ plain_kind kind }
{
    match kind {
        1 => Some(FaultKind::ReservedLength),
        2 => Some(FaultKind::UnitTooLong),
        3 => Some(FaultKind::UnitOverrun),
        4 => Some(FaultKind::AddressSize),
        5 => Some(FaultKind::HeaderBeyondUnit),
        6 => Some(FaultKind::HeaderOverrun),
        7 => Some(FaultKind::MaxOps),
        8 => Some(FaultKind::LineRange),
        9 => Some(FaultKind::OpcodeBase),
        12 => Some(FaultKind::EmptyFormat),
        13 => Some(FaultKind::LebRange),
        14 => Some(FaultKind::ExtendedEmpty),
        15 => Some(FaultKind::ExtendedLength),
        16 => Some(FaultKind::OpcodeOverrun),
        17 => Some(FaultKind::Truncated),
        _ => None,
    }
}

/// The kind that says besides which standard opcode it is; None where that doesn't fit a byte.
fn opcode_told(detail: u64) -> Option<FaultKind>
    ensures { result ≡ opcode_told detail }
{
    if detail < 256 {
        Some(FaultKind::StandardLength(detail as u8))
    } else {
        None
    }
}
