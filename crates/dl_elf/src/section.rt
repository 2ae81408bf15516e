//! Section headers. System V ABI, chapter 4, "Section Header".
ghost use Rattle.std.specs.Prelude.{◌≡◌, ◌+◌, ◌≤◌, ◌<◌, length};
ghost use Rattle.dl_elf.specs.Elf.{section_header_size, section_fields};

use crate::header::{Class, number_at};
use dl_num::Order;

/// The type of a section that takes no bytes of the file (SHT_NOBITS).
pub const NOBITS: u64 = 8;

/// The type of a section of relocations with addends (SHT_RELA).
pub const RELA: u64 = 4;

/// The type of a section of relocations without addends (SHT_REL).
pub const REL: u64 = 9;

/// The type of a section of relocations as differences in LEB128 (SHT_CREL).
pub const CREL: u64 = 0x4000_0014;

/// The bit in `flags` of a section that takes memory while the program runs (SHF_ALLOC).
const ALLOC: u64 = 2;

/// The bit in `flags` of a section with instructions (SHF_EXECINSTR).
const EXECINSTR: u64 = 4;

/// The bit in `flags` of a section whose bytes are compressed (SHF_COMPRESSED).
pub const COMPRESSED: u64 = 0x800;

/// What a section header says. The names that the ABI gives the fields stand in parentheses.
#[derive(Clone, Copy)]
pub struct SectionHeader {
    /// Where the section's name begins, in bytes from the first of the name table (sh_name).
    pub name_offset: u64,
    /// What kind of section it is (sh_type).
    pub section_type: u64,
    /// A bit for each of its attributes (sh_flags).
    pub flags: u64,
    /// The address of its first byte while the program runs (sh_addr).
    pub address: u64,
    /// Where its bytes begin, from the file's first (sh_offset).
    pub offset: u64,
    /// How many bytes it has (sh_size).
    pub size: u64,
    /// The number of a section that belongs to it (sh_link).
    pub link: u64,
    /// More about it, by its type; of relocations, the number of the section that they change
    /// (sh_info).
    pub info: u64,
}

impl SectionHeader {
    ghost use Rattle.dl_elf.specs.Elf.{has_relocations, relocates, is_executable};
    ghost use Rattle.dl_elf.specs.Forward.{relocates_later};

    /// Whether it is a section of relocations.
    fn has_relocations(&self) -> bool
        ensures { result ≡ has_relocations self.now }
    {
        self.section_type == RELA || self.section_type == REL || self.section_type == CREL
    }

    /// Whether the section has relocations of section `number`.
    pub fn relocates(&self, number: u64) -> bool
        ensures { result ≡ relocates number self.now }
    {
        self.info == number && self.has_relocations()
    }

    /// Whether it is section `number` and has relocations of a later one.
    pub(crate) fn relocates_later(&self, number: u64) -> bool
        ensures { result ≡ relocates_later number self.now }
    {
        number < self.info && self.has_relocations()
    }

    /// Whether the section has instructions that stand in memory while the program runs.
    pub fn is_executable(&self) -> bool
        ensures { result ≡ is_executable self.now }
    {
        self.flags & ALLOC != 0 && self.flags & EXECINSTR != 0
    }
}

/// How many bytes of a section header are defined.
pub fn section_header_size(class: Class) -> usize
    ensures { result ≡ section_header_size class }
{
    match class {
        Class::Bits32 => 40,
        Class::Bits64 => 64,
    }
}

/// The section header that the bytes begin with.
pub fn section_fields(class: Class, order: Order, bytes: &[u8]) -> SectionHeader
    requires { section_header_size class ≤ length bytes.now }
    ensures { result ≡ section_fields class order bytes.now }
{
    match class {
        Class::Bits32 => SectionHeader {
            name_offset: number_at(order, 0, 4, bytes),
            section_type: number_at(order, 4, 4, bytes),
            flags: number_at(order, 8, 4, bytes),
            address: number_at(order, 12, 4, bytes),
            offset: number_at(order, 16, 4, bytes),
            size: number_at(order, 20, 4, bytes),
            link: number_at(order, 24, 4, bytes),
            info: number_at(order, 28, 4, bytes),
        },
        Class::Bits64 => SectionHeader {
            name_offset: number_at(order, 0, 4, bytes),
            section_type: number_at(order, 4, 4, bytes),
            flags: number_at(order, 8, 8, bytes),
            address: number_at(order, 16, 8, bytes),
            offset: number_at(order, 24, 8, bytes),
            size: number_at(order, 32, 8, bytes),
            link: number_at(order, 40, 4, bytes),
            info: number_at(order, 44, 4, bytes),
        },
    }
}
