//! What is found.

use crate::rule::Rule;
use dl_look::Place;

/// A row that a finding is about.
#[derive(Clone, Copy)]
pub struct RowSeen {
    /// Which row of its unit it is, from 1 on; 2^64 - 1 for all above it too.
    pub number: u64,
    /// Where it stands. Section 6.2.2.
    pub place: Place,
}

/// A finding, and where.
#[derive(Clone, Copy)]
pub struct Finding {
    /// The offset in the section: of the first byte of the operation that it is about, which for a row is the one that appends
    /// it. Of a unit whose end row is missing it is the end of its program, and of a header, or of the rows of a unit together,
    /// that of its unit. Of code that no sequence covers it is the end of the last unit. 2^64 - 1 stands for every offset above it too.
    pub offset: u64,
    /// The row that it is about, where it is about one.
    pub row: Option<RowSeen>,
    pub found: Found,
}

/// An opcode that is passed over. Sections 6.2.5.2 and 6.2.5.3.
#[derive(Clone, Copy, Debug, PartialEq, Eq)]
pub enum Opcode {
    /// A standard one, by its number.
    Standard(u8),
    /// An extended one, by its number.
    Extended(u8),
}

/// An entry of a table of a header, by its number. Section 6.2.4.
#[derive(Clone, Copy, Debug, PartialEq, Eq)]
pub enum TableEntry {
    /// One of the table of directories.
    Directory(u64),
    /// One of the table of files.
    File(u64),
}

/// A section in which texts of tables stand. Section 7.5.5.
#[derive(Clone, Copy, Debug, PartialEq, Eq)]
pub enum TextSection {
    /// `.debug_line_str`, which DW_FORM_line_strp names.
    DebugLineStr,
    /// `.debug_str`, which DW_FORM_strp names.
    DebugStr,
}

impl TextSection {
    ghost use Rattle.std.specs.Prelude.{◌≡◌};
    ghost use Rattle.dl_findings.specs.FindingText.{section_name};

    /// The name of the section.
    #[tactic(auto, unfolding(crate::specs::FindingText::section_name))]
    pub fn name(self) -> &'static [u8]
        ensures { result.now ≡ section_name self }
    {
        match self {
            TextSection::DebugLineStr => b".debug_line_str",
            TextSection::DebugStr => b".debug_str",
        }
    }
}

/// What is found, with all numbers that tell it beside the row.
#[derive(Clone, Copy)]
pub enum Found {
    /// The row names the file of this number. There are so many `files`, and the number of the first is `first`.
    FileIndex {
        file: u64,
        files: u64,
        first: u64,
    },
    /// The file of this number names this directory. There are so many `directories`, and the number of the first is `first`.
    DirectoryIndex {
        file: u64,
        directory: u64,
        directories: u64,
        first: u64,
    },
    /// The row stands below the place `before` of the row before it.
    FallingPlace {
        before: Place,
    },
    /// The row is the last of its unit, and no end row.
    NoEnd,
    /// The row ends a sequence whose first row has its address.
    EmptySequence,
    /// The row ends a sequence that covers `place`, the first of its places that a live sequence before it covers too. The first
    /// of those that cover it is one of the unit at the offset `unit`.
    Overlap {
        place: Place,
        unit: u64,
    },
    /// So many `sequences` of the unit, more than none, begin where the file has no code, the first of them at the address `first`.
    DeadSequence {
        sequences: u64,
        first: u64,
    },
    /// A value of this entry is a text at this offset of a section, which has none there: the offset lies outside it, or no
    /// zero byte follows.
    MissingText {
        entry: TableEntry,
        section: TextSection,
        offset: u64,
    },
    /// The file of this number has the values of the file of the number `same_as`, which is the first that has them.
    DuplicateFile {
        file: u64,
        same_as: u64,
    },
    /// No row names so many `files` of the unit, more than none, of those but the numbers 0 and 1. The number of the first is `first`.
    UnusedFile {
        files: u64,
        first: u64,
    },
    /// So many `files` of the unit, more than none, have no MD5 sum, and others have one. The number of the first is `first`.
    Md5Missing {
        files: u64,
        first: u64,
    },
    /// A number in LEB128 of the operation has so many bytes, more than ten. Section 7.6.
    LongNumber {
        bytes: u64,
    },
    /// So many bytes, more than none, stand between the tables of a header and the program.
    Padding {
        bytes: u64,
    },
    /// The operation advances the address `from` past what an address of `size` bytes holds.
    WrappedAddress {
        from: u64,
        size: u64,
    },
    /// The row has this line, which is above 2^32 - 1.
    LineWrapped {
        line: u64,
    },
    /// The row ends a sequence of which no row before it is a statement.
    NoStatement,
    /// The address of the row is no multiple of `least` bytes, the least length of an instruction, from the address `first` of
    /// the first row of its sequence.
    SplitInstruction {
        first: u64,
        least: u64,
    },
    /// The operation has this opcode, which the standard doesn't name and no operation of the unit before it has.
    UnknownOpcode {
        opcode: Opcode,
    },
    /// The standard doesn't name this content code of a format of the header's tables. Section 6.2.4.1.
    UnknownContent {
        content_code: u64,
    },
    /// No live sequence covers an address of the range of code of `size` bytes from the address `start` on.
    NoCode {
        start: u64,
        size: u64,
    },
}

impl Found {
    ghost use Rattle.std.specs.Prelude.{◌≡◌};
    ghost use Rattle.dl_findings.specs.FindingText.{rule_of};

    /// The rule that finds it.
    pub fn rule(&self) -> Rule
        ensures { result ≡ rule_of self.now }
    {
        match self {
            Found::FileIndex { .. } => Rule::FileIndex,
            Found::DirectoryIndex { .. } => Rule::DirectoryIndex,
            Found::FallingPlace { .. } => Rule::FallingPlace,
            Found::NoEnd => Rule::NoEnd,
            Found::EmptySequence => Rule::EmptySequence,
            Found::Overlap { .. } => Rule::Overlap,
            Found::DeadSequence { .. } => Rule::DeadSequence,
            Found::MissingText { .. } => Rule::MissingText,
            Found::DuplicateFile { .. } => Rule::DuplicateFile,
            Found::UnusedFile { .. } => Rule::UnusedFile,
            Found::Md5Missing { .. } => Rule::Md5Missing,
            Found::LongNumber { .. } => Rule::LongNumber,
            Found::Padding { .. } => Rule::Padding,
            Found::WrappedAddress { .. } => Rule::WrappedAddress,
            Found::LineWrapped { .. } => Rule::LineWrapped,
            Found::NoStatement => Rule::NoStatement,
            Found::SplitInstruction { .. } => Rule::SplitInstruction,
            Found::UnknownOpcode { .. } => Rule::UnknownOpcode,
            Found::UnknownContent { .. } => Rule::UnknownOpcode,
            Found::NoCode { .. } => Rule::NoCode,
        }
    }
}
