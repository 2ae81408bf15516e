//! The header of an ELF file. System V ABI, chapter 4, "ELF Header".
ghost use Rattle.std.specs.Prelude.{◌≡◌, ◌+◌, ◌≤◌, ◌<◌, length, IsTrue};
ghost use Rattle.dl_num.specs.Fixed.{is_number_size};
ghost use Rattle.dl_elf.specs.Elf.{number_at, class_of, order_of, header_size, header_fields, header_in, is_linked};
ghost use Rattle.dl_elf.specs.Elf.{is_object};
ghost use Rattle.dl_elf.specs.Elf.{is_magic};

use dl_num::{Order, number_of};

/// How wide the file's addresses and offsets are (EI_CLASS).
#[derive(Clone, Copy)]
pub enum Class {
    /// ELFCLASS32
    Bits32,
    /// ELFCLASS64
    Bits64,
}

/// The type of an object file that a linker reads (ET_REL).
const ET_REL: u64 = 1;

/// The type of a program (ET_EXEC).
const ET_EXEC: u64 = 2;

/// The type of a shared object, as programs are too that may stand at any address (ET_DYN).
const ET_DYN: u64 = 3;

/// What the header of a file says. The names that the ABI gives the fields stand in parentheses.
#[derive(Clone, Copy)]
pub struct FileHeader {
    /// How wide addresses and offsets are (EI_CLASS).
    pub class: Class,
    /// The order in which the bytes of numbers stand (EI_DATA).
    pub order: Order,
    /// What kind of object file it is (e_type).
    pub file_type: u64,
    /// The machine that it is for, by its number: 62 is x86-64 (e_machine).
    pub machine: u64,
    /// Where the section headers begin, in bytes from the file's first; 0 where there are none
    /// (e_shoff).
    pub table_offset: u64,
    /// How many bytes one section header takes (e_shentsize).
    pub entry_size: u64,
    /// How many section headers there are; 0 where section header 0 says it (e_shnum).
    pub entry_count: u64,
    /// The number of the section with the sections' names; 0 where there is none, 0xffff where
    /// section header 0 says it (e_shstrndx).
    pub names_number: u64,
}

/// The number that `size` bytes spell from `at` on.
pub fn number_at(order: Order, at: usize, size: usize, bytes: &[u8]) -> u64
    requires within { at + size ≤ length bytes.now }
    requires size { IsTrue (is_number_size size) }
    ensures { result ≡ number_at order at size bytes.now }
{
    number_of(&bytes[at..at + size], order)
}

fn class_of(number: u8) -> Option<Class>
    ensures { result ≡ class_of number }
{
    match number {
        1 => Some(Class::Bits32),
        2 => Some(Class::Bits64),
        _ => None,
    }
}

fn order_of(number: u8) -> Option<Order>
    ensures { result ≡ order_of number }
{
    match number {
        1 => Some(Order::Little),
        2 => Some(Order::Big),
        _ => None,
    }
}

fn header_size(class: Class) -> usize
    ensures { result ≡ header_size class }
{
    match class {
        Class::Bits32 => 52,
        Class::Bits64 => 64,
    }
}

fn header_fields(class: Class, order: Order, bytes: &[u8]) -> FileHeader
    requires { header_size class ≤ length bytes.now }
    ensures { result ≡ header_fields class order bytes.now }
{
    match class {
        Class::Bits32 => FileHeader {
            class,
            order,
            file_type: number_at(order, 16, 2, bytes),
            machine: number_at(order, 18, 2, bytes),
            table_offset: number_at(order, 32, 4, bytes),
            entry_size: number_at(order, 46, 2, bytes),
            entry_count: number_at(order, 48, 2, bytes),
            names_number: number_at(order, 50, 2, bytes),
        },
        Class::Bits64 => FileHeader {
            class,
            order,
            file_type: number_at(order, 16, 2, bytes),
            machine: number_at(order, 18, 2, bytes),
            table_offset: number_at(order, 40, 8, bytes),
            entry_size: number_at(order, 58, 2, bytes),
            entry_count: number_at(order, 60, 2, bytes),
            names_number: number_at(order, 62, 2, bytes),
        },
    }
}

/// Whether the bytes begin as those of an ELF file of version 1.
fn is_magic(bytes: &[u8]) -> bool
    requires { 7 ≤ length bytes.now }
    ensures { result ≡ is_magic bytes.now }
{
    bytes[0] == 0x7f && bytes[1] == b'E' && bytes[2] == b'L' && bytes[3] == b'F' && bytes[6] == 1
}

impl FileHeader {
    /// The header that the bytes begin with; None where they aren't those of an ELF file.
    pub fn read(bytes: &[u8]) -> Option<FileHeader>
        ensures { result ≡ header_in bytes.now }
    {
        if bytes.len() < 52 || !is_magic(bytes) {
            return None;
        }
        let class = class_of(bytes[4])?;
        let order = order_of(bytes[5])?;
        if bytes.len() < header_size(class) {
            return None;
        }
        Some(header_fields(class, order, bytes))
    }

    /// Whether it is an object file that a linker reads.
    pub fn is_object(&self) -> bool
        ensures { result ≡ is_object self.now }
    {
        self.file_type == ET_REL
    }

    /// Whether the file is linked: a program or a shared object.
    pub fn is_linked(&self) -> bool
        ensures { result ≡ is_linked self.now }
    {
        self.file_type == ET_EXEC || self.file_type == ET_DYN
    }
}
