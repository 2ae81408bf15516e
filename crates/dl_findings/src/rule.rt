//! The rules, and their names.

ghost use Rattle.std.specs.Prelude.{◌≡◌, ◌<◌};
ghost use Rattle.dl_findings.specs.RuleNames.{named, rule_name, rule_place};

/// A rule of what is told of a line table that reads well.
#[derive(Clone, Copy, Debug, PartialEq, Eq)]
pub enum Rule {
    /// A row that isn't an end row names no entry of the table of files. Sections 6.2.2 and 6.2.4.
    FileIndex,
    /// An entry of the table of files names no entry of the table of directories. Section 6.2.4.1.
    DirectoryIndex,
    /// The place of a row is below that of the row before it in its sequence. Section 6.2.5.
    FallingPlace,
    /// The last sequence of a unit has no end row. Section 6.2.5.3.
    NoEnd,
    /// A sequence covers no address. Section 6.2.2.
    EmptySequence,
    /// A sequence covers a place that a live one before it covers too. Section 6.2.2.
    Overlap,
    /// A sequence begins where the file has no code. Section 6.2.2.
    DeadSequence,
    /// A value of a table names a text that its string section doesn't have. Sections 6.2.4.1 and 7.5.5.
    MissingText,
    /// Two entries of the table of files have the same values. Section 6.2.4.1.
    DuplicateFile,
    /// No row names an entry of the table of files. Sections 6.2.2 and 6.2.4.1.
    UnusedFile,
    /// Some files of the table have an MD5 sum, and others none. Section 6.2.4.1.
    Md5Missing,
    /// A number in LEB128 has more than ten bytes. Section 7.6.
    LongNumber,
    /// Bytes stand between the tables of a header and the program. Section 6.2.4.
    Padding,
    /// An advance leads the address past the size of one. Section 6.2.5.1.
    WrappedAddress,
    /// The line of a row is above 2^32 - 1. Section 6.2.2.
    LineWrapped,
    /// No row of a sequence is a statement. Section 6.2.2.
    NoStatement,
    /// The address of a row lies within an instruction that begins before it. Section 6.2.4.
    SplitInstruction,
    /// An opcode or a content code isn't one of the standard's. Sections 6.2.4.1, 6.2.5.2 and 6.2.5.3.
    UnknownOpcode,
    /// No sequence covers an address of a range of code. Section 6.2.
    NoCode,
}

/// How many rules there are.
pub(crate) const COUNT: usize = 19;

/// All rules, in the order in which the findings of one place are told.
pub const RULES: [Rule; COUNT] = [
    Rule::FileIndex,
    Rule::DirectoryIndex,
    Rule::FallingPlace,
    Rule::NoEnd,
    Rule::EmptySequence,
    Rule::Overlap,
    Rule::DeadSequence,
    Rule::MissingText,
    Rule::DuplicateFile,
    Rule::UnusedFile,
    Rule::Md5Missing,
    Rule::LongNumber,
    Rule::Padding,
    Rule::WrappedAddress,
    Rule::LineWrapped,
    Rule::NoStatement,
    Rule::SplitInstruction,
    Rule::UnknownOpcode,
    Rule::NoCode,
];

impl Rule {
    /// The name by which a rule is told and chosen.
    #[tactic(auto, unfolding(crate::specs::RuleNames::rule_name))]
    pub fn name(self) -> &'static [u8]
        ensures { result.now ≡ rule_name self }
    {
        match self {
            Rule::FileIndex => b"file-index",
            Rule::DirectoryIndex => b"directory-index",
            Rule::FallingPlace => b"falling-place",
            Rule::NoEnd => b"no-end",
            Rule::EmptySequence => b"empty-sequence",
            Rule::Overlap => b"overlap",
            Rule::DeadSequence => b"dead-sequence",
            Rule::MissingText => b"missing-text",
            Rule::DuplicateFile => b"duplicate-file",
            Rule::UnusedFile => b"unused-file",
            Rule::Md5Missing => b"md5-missing",
            Rule::LongNumber => b"long-number",
            Rule::Padding => b"padding",
            Rule::WrappedAddress => b"wrapped-address",
            Rule::LineWrapped => b"line-wrapped",
            Rule::NoStatement => b"no-statement",
            Rule::SplitInstruction => b"split-instruction",
            Rule::UnknownOpcode => b"unknown-opcode",
            Rule::NoCode => b"no-code",
        }
    }

    /// The rule of this name. None where no rule has it.
    pub fn named(name: &[u8]) -> Option<Rule>
        ensures { result ≡ named name.now }
    {
        for rule in &RULES {
            if rule.name() == name {
                return Some(*rule);
            }
        }
        None
    }

    /// Its place in `RULES`, from 0 on.
    pub fn place(self) -> usize
        ensures place { result ≡ rule_place self }
        ensures within { result < 19 }
    {
        match self {
            Rule::FileIndex => 0,
            Rule::DirectoryIndex => 1,
            Rule::FallingPlace => 2,
            Rule::NoEnd => 3,
            Rule::EmptySequence => 4,
            Rule::Overlap => 5,
            Rule::DeadSequence => 6,
            Rule::MissingText => 7,
            Rule::DuplicateFile => 8,
            Rule::UnusedFile => 9,
            Rule::Md5Missing => 10,
            Rule::LongNumber => 11,
            Rule::Padding => 12,
            Rule::WrappedAddress => 13,
            Rule::LineWrapped => 14,
            Rule::NoStatement => 15,
            Rule::SplitInstruction => 16,
            Rule::UnknownOpcode => 17,
            Rule::NoCode => 18,
        }
    }
}
