//! Why a file's line table can't be had, with its text.

use crate::build_id::BuildId;
use crate::compression::Compression;
use crate::name::SectionName;
use std::{fmt, io};

/// What lies outside a file, or doesn't fit what it stands in.
#[derive(Clone, Copy, Debug, PartialEq, Eq)]
pub enum Part {
    /// A section header has fewer bytes than the ABI gives it.
    SectionHeaderSize,
    /// The section headers.
    SectionHeaders,
    /// The section with the sections' names.
    NameTable,
    /// The bytes of a section.
    Section(SectionName),
    /// The compression header that a section begins with.
    CompressionHeader(SectionName),
    /// The bytes of a section of relocations, which change this section.
    Relocations(SectionName),
    /// The symbol table of relocations that change this section, or a symbol that one of them names.
    Symbols(SectionName),
}

/// The first fault of a file. Of several the first in the order of the variants is told, but that those of
/// relocations come with the first relocation that has one, and their parts of the file with them.
#[derive(Debug, Drop)]
pub enum ElfFault {
    /// A read failed, with this error.
    Read(io::Error),
    /// The bytes don't begin with the header of an ELF file.
    NotElf,
    /// Something lies outside the file.
    Damaged(Part),
    /// There is no section with a line table. Where the file names the build that it came from, its
    /// debug information may be in a file of its own.
    NoLineSection(Option<BuildId>),
    /// A section that is wanted is compressed otherwise than with zlib.
    Compressed(SectionName, Compression),
    /// What the zlib stream of this section inflates to isn't the section, and the byte that shows it, counted from the
    /// first byte of the section as it stands in the file: the byte at which the stream is damaged, where the size
    /// stands that the stream hasn't, or the section's end where the stream is cut short.
    DamagedStream(SectionName, u64),
    /// It is an object file, and a relocation of this section has a type that isn't known of the machine
    /// (e_machine), or the machine isn't known.
    UnknownRelocation {
        section: SectionName,
        number: u64,
        machine: u64,
    },
    /// It is an object file, and the bytes that a relocation of this section changes don't lie in it.
    RelocationOutside(SectionName),
    /// A growth was refused.
    NoMemory,
}

impl fmt::Display for ElfFault {
    ghost use Rattle.dl_elf.specs.FaultText.{fault_text};

    ghost output = { fault_text };

    fn fmt<W: fmt::Write>(&self, f: &mut fmt::Formatter<W>) -> fmt::Result {
        match self {
            ElfFault::Read(error) => write!(f, "cannot read: {error}"),
            ElfFault::NotElf => write!(f, "not an ELF file"),
            ElfFault::Damaged(part) => write!(f, "damaged ELF file: {part}"),
            ElfFault::NoLineSection(None) => write!(f, "no section .debug_line"),
            ElfFault::NoLineSection(Some(build_id)) => write!(
                f,
                "no section .debug_line (its debug information may be in {build_id})"
            ),
            ElfFault::Compressed(name, method) => write!(
                f,
                "section {name} is compressed {method}; run objcopy --decompress-debug-sections"
            ),
            ElfFault::DamagedStream(name, at) => {
                write!(f, "section {name}: damaged zlib stream at 0x{at:x}")
            }
            ElfFault::UnknownRelocation {
                section,
                number,
                machine,
            } => write!(
                f,
                "section {section}: unknown relocation {number} of machine {machine}"
            ),
            ElfFault::RelocationOutside(name) => {
                write!(f, "section {name}: relocation outside the section")
            }
            ElfFault::NoMemory => write!(f, "out of memory"),
        }
    }
}

impl fmt::Display for Part {
    ghost use Rattle.std.specs.Prelude.{Some};
    ghost use Rattle.dl_elf.specs.FaultText.{part_text};

    ghost output = { λ part. Some (part_text part) };

    fn fmt<W: fmt::Write>(&self, f: &mut fmt::Formatter<W>) -> fmt::Result {
        match self {
            Part::SectionHeaderSize => write!(f, "section header size"),
            Part::SectionHeaders => write!(f, "section headers"),
            Part::NameTable => write!(f, "section name table"),
            Part::Section(name) => write!(f, "section {name}"),
            Part::CompressionHeader(name) => write!(f, "compression header of section {name}"),
            Part::Relocations(name) => write!(f, "relocations of section {name}"),
            Part::Symbols(name) => write!(f, "symbols of the relocations of section {name}"),
        }
    }
}

impl From<io::Error> for ElfFault {
    ghost use Rattle.std.specs.Prelude.{◌≡◌};
    ghost use Rattle.dl_elf.specs.declared.fault.ElfFault.TheVariants.{Read};

    ghost from_gives = { λ error fault. fault ≡ Read error };

    fn from(error: io::Error) -> ElfFault {
        ElfFault::Read(error)
    }
}
