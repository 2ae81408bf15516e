//! What crosses to C: structs of numbers.

ghost use Rattle.std.specs.Prelude.{◌≡◌, ℕ, List, IfSome, option_map};
ghost use Rattle.dl_index.specs.Shown.{bytes_of, told};
ghost use Rattle.dl_index.specs.TextPlaces.{AreAt, StandsAt};
ghost use Rattle.dl_index_buffers.specs.IndexRecords.{Answers, IsAbout, IsSpan, bytes_told, fault_record, has_path};
ghost use Rattle.dl_index_buffers.specs.IndexRecords.{nothing, part_code, told_fault, told_part, Tells};

use dl_index::{FoundLine, IndexFault, IndexPart, IndexRef, Layout, PathTexts};

/// An index that was opened.
#[repr(C)]
#[derive(Clone, Copy)]
pub struct IndexRecord {
    /// How many stretches it has, gaps among them.
    pub stretches: u64,
    /// How many bytes the build ID of its file has, which stands from byte 84 on; 0 where there is none.
    pub build_id_len: u64,
    /// 1 where each sequence counts, a dead one too; else 0.
    pub is_all: u8,
    /// Its layout, by which the calls over it find its parts.
    pub layout: Layout,
}

impl IndexRecord {
    pub(crate) fn of(index: &IndexRef<'_>) -> IndexRecord
        ensures { IsAbout (bytes_of index.now) result }
    {
        IndexRecord {
            stretches: index.count() as u64,
            build_id_len: index.build_id().len() as u64,
            is_all: u8::from(index.has_all_sequences()),
            layout: index.layout(),
        }
    }
}

/// Why bytes aren't an index.
#[repr(C)]
#[derive(Clone, Copy)]
pub struct IndexFaultRecord {
    /// 1 where they don't begin as one, 2 where it is of another version, 3 to 8 where it is damaged, in the order of
    /// `IndexPart`.
    pub kind: u32,
    /// The version of kind 2; else 0.
    pub version: u32,
}

impl IndexFaultRecord {
    pub(crate) fn of(fault: IndexFault) -> IndexFaultRecord
        ensures { result ≡ fault_record fault }
    {
        match fault {
            IndexFault::NotAnIndex => IndexFaultRecord {
                kind: 1,
                version: 0,
            },
            IndexFault::Version(version) => IndexFaultRecord { kind: 2, version },
            IndexFault::Damaged(part) => IndexFaultRecord {
                kind: code_of(part),
                version: 0,
            },
        }
    }

    /// The fault that its numbers stand for; None where they stand for none.
    pub(crate) fn told(&self) -> Option<IndexFault>
        ensures { result ≡ told_fault self.now }
    {
        match self.kind {
            1 => Some(IndexFault::NotAnIndex),
            2 => Some(IndexFault::Version(self.version)),
            kind => Some(IndexFault::Damaged(part_of(kind)?)),
        }
    }
}

/// The number of a part that is damaged.
fn code_of(part: IndexPart) -> u32
    ensures { result ≡ part_code part }
{
    match part {
        IndexPart::Length => 3,
        IndexPart::Place => 4,
        IndexPart::Sum => 5,
        IndexPart::Order => 6,
        IndexPart::File => 7,
        IndexPart::Text => 8,
    }
}

/// The part of this number; None where there is none.
fn part_of(code: u32) -> Option<IndexPart>
    ensures { result ≡ told_part code }
{
    match code {
        3 => Some(IndexPart::Length),
        4 => Some(IndexPart::Place),
        5 => Some(IndexPart::Sum),
        6 => Some(IndexPart::Order),
        7 => Some(IndexPart::File),
        8 => Some(IndexPart::Text),
        _ => None,
    }
}

/// What an index tells of an address. Section 6.2.2.
#[repr(C)]
#[derive(Clone, Copy)]
pub struct LocationRecord {
    /// The offset of the unit in the line section.
    pub unit: u64,
    pub line: u64,
    pub column: u64,
    pub discriminator: u64,
    /// Where the texts of the path stand in the bytes of the index, one after the other, and how many bytes each has; 0
    /// of a text that there isn't.
    pub first: usize,
    pub first_len: usize,
    pub second: usize,
    pub second_len: usize,
    pub third: usize,
    pub third_len: usize,
    /// 1 where the row is a recommended place for a breakpoint, else 0.
    pub is_stmt: u8,
    /// 1 where the path is known, else 0.
    pub has_path: u8,
    /// 1 where something is told; 0 where nothing is, and then all numbers are 0.
    pub is_found: u8,
}

/// Where a text stands, and how many bytes it has.
#[derive(Clone, Copy)]
struct Span {
    place: usize,
    len: usize,
}

/// Where a text stands of which this is said; at the front of all bytes where there is none.
fn span_of(text: Option<&[u8]>, place: usize) -> Span
    ensures { (b : List ℕ) → IfSome text.entry (λ t. StandsAt b place t.now)
        → IsSpan b result.place result.len (bytes_told text.entry) }
{
    match text {
        Some(text) => Span {
            place,
            len: text.len(),
        },
        None => Span { place: 0, len: 0 },
    }
}

/// Whether there is a text.
fn has_path(texts: &PathTexts<'_>) -> bool
    ensures { result ≡ has_path texts.now }
{
    texts.first.is_some() || texts.second.is_some() || texts.third.is_some()
}

impl LocationRecord {
    /// That tells nothing.
    pub(crate) fn nothing() -> LocationRecord
        ensures { result ≡ nothing }
    {
        LocationRecord {
            unit: 0,
            line: 0,
            column: 0,
            discriminator: 0,
            first: 0,
            first_len: 0,
            second: 0,
            second_len: 0,
            third: 0,
            third_len: 0,
            is_stmt: 0,
            has_path: 0,
            is_found: 0,
        }
    }

    /// That tells what was found.
    #[inline(always)]
    pub(crate) fn found(found: &FoundLine<'_>) -> LocationRecord
        ensures { (b : List ℕ) → AreAt b found.now → Tells b (told found.now) result }
    {
        let first = span_of(found.texts.first, found.places.first);
        let second = span_of(found.texts.second, found.places.second);
        let third = span_of(found.texts.third, found.places.third);
        LocationRecord {
            unit: found.unit,
            line: found.line,
            column: found.column,
            discriminator: found.discriminator,
            first: first.place,
            first_len: first.len,
            second: second.place,
            second_len: second.len,
            third: third.place,
            third_len: third.len,
            is_stmt: u8::from(found.is_stmt),
            has_path: u8::from(has_path(&found.texts)),
            is_found: 1,
        }
    }

    /// That tells what was found, or nothing.
    #[inline(always)]
    pub(crate) fn of(found: Option<FoundLine<'_>>) -> LocationRecord
        ensures { (b : List ℕ) → IfSome found.entry (AreAt b) → Answers b (option_map told found.entry) result }
    {
        match found {
            Some(found) => LocationRecord::found(&found),
            None => LocationRecord::nothing(),
        }
    }
}
