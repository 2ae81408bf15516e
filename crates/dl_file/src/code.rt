//! At which addresses a file has code. System V ABI, chapter 4.
ghost use Rattle.std.specs.Prelude.{◌≡◌, IfOk, IfErr};
ghost use Rattle.dl_elf.specs.Source.{ForBytes};
ghost use Rattle.dl_elf.specs.Window.{Shows};
ghost use Rattle.dl_memory.specs.Refusals.{IsRefused, WasRefused};
ghost use Rattle.dl_file.specs.Code.{IsCode, IfCodeRead, IfCodeRefused, RangesRefused};
ghost use Rattle.dl_file.specs.Code.{StopsRanges, executable_range_at, executable_ranges};

use dl_elf::{Elf, ElfFault, ReadAt, Window, open_elf, section_at};
use dl_memory::{Memory, NoMemory};
use std::io;

/// The addresses of a section with code.
#[derive(Clone, Copy, Debug, PartialEq, Eq)]
pub struct ExecutableRange {
    /// The first (sh_addr).
    pub start: u64,
    /// How many there are (sh_size). The sum of both may pass 2^64; it doesn't wrap around.
    pub size: u64,
}

/// Where a file has code.
#[derive(Debug, Drop)]
pub struct Code {
    /// Whether it is a program or a shared object (e_type is ET_EXEC or ET_DYN).
    pub is_linked: bool,
    /// The addresses of the sections that have the flags SHF_ALLOC and SHF_EXECINSTR, in the order of
    /// the section headers, from number 1 on.
    pub ranges: Vec<ExecutableRange>,
}

/// Why it can't be told where a file has code.
#[derive(Debug, Drop)]
pub enum CodeFault {
    /// Its headers can't be read: `Read`, `NotElf`, or `Damaged` with what lies outside the file.
    Elf(ElfFault),
    /// A growth was refused.
    NoMemory,
}

impl From<ElfFault> for CodeFault {
    ghost use Rattle.std.specs.Prelude.{◌≡◌};
    ghost use Rattle.dl_file.specs.declared.code.CodeFault.TheVariants.{Elf};

    ghost from_gives = { λ fault given. given ≡ Elf fault };

    fn from(fault: ElfFault) -> CodeFault {
        CodeFault::Elf(fault)
    }
}

impl From<NoMemory> for CodeFault {
    ghost use Rattle.std.specs.Prelude.{◌≡◌};
    ghost use Rattle.dl_file.specs.declared.code.CodeFault.TheVariants as code;

    ghost from_gives = { λ refused given. given ≡ code.NoMemory };

    fn from(_refused: NoMemory) -> CodeFault {
        CodeFault::NoMemory
    }
}

impl From<io::Error> for CodeFault {
    ghost use Rattle.std.specs.Prelude.{◌≡◌};
    ghost use Rattle.dl_file.specs.declared.code.CodeFault.TheVariants.{Elf};
    ghost use Rattle.dl_elf.specs.declared.fault.ElfFault.TheVariants.{Read};

    ghost from_gives = { λ error given. given ≡ Elf (Read error) };

    fn from(error: io::Error) -> CodeFault {
        CodeFault::Elf(ElfFault::Read(error))
    }
}

/// The addresses of section `at`, where it has code.
fn executable_range_at<S: ReadAt>(
    source: &S,
    window: &mut Window,
    elf: &Elf,
    at: u64,
) -> io::Result<Option<ExecutableRange>>
    requires shows { Shows (S.all_bytes source.now) window.old }
    ensures shows { Shows (S.all_bytes source.now) window.new }
    ensures range { ForBytes (S.all_bytes source.now) (λ f.
        IfOk result (λ range. range ≡ executable_range_at elf.now f at)) }
    ensures fails { IfErr result (S.fails_with source.now) }
{
    match section_at(source, window, &elf.header, at)? {
        Some(section) if section.is_executable() => Ok(Some(ExecutableRange {
            start: section.address,
            size: section.size,
        })),
        _ => Ok(None),
    }
}

/// The addresses of all sections with code.
fn executable_ranges<S: ReadAt, M: Memory>(
    memory: &M,
    source: &S,
    elf: &Elf,
) -> Result<Vec<ExecutableRange>, CodeFault>
    ensures ranges { ForBytes (S.all_bytes source.now) (λ f.
        IfOk result (λ ranges. ranges.items ≡ executable_ranges elf.now f)) }
    ensures memory { ForBytes (S.all_bytes source.now) (λ f. IfErr result (StopsRanges elf.now f)) }
    ensures read { IfCodeRead (S.fails_with source.now) result }
    ensures refused { IfCodeRefused (WasRefused (M.refuses memory.now)) result }
    ensures most { IfCodeRefused (IsRefused (M.refuses memory.now) elf.now.count) result }
{
    let mut window = Window::new();
    let mut ranges = Vec::new(memory.alloc());
    for at in 1..elf.count {
        if let Some(range) = executable_range_at(source, &mut window, elf, at)? {
            memory.push(&mut ranges, range)?;
        }
    }
    Ok(ranges)
}

/// Where a file has code.
///
/// `Elf` is the first fault of the file's headers, or `Read` where a read failed. Memory is taken for the ranges
/// alone, as they are found; where a growth is refused the fault is `NoMemory`.
pub fn find_code<S: ReadAt, M: Memory>(memory: &M, source: &S) -> Result<Code, CodeFault>
    ensures code { ForBytes (S.all_bytes source.now) (λ f. IsCode f result) }
    ensures read { IfCodeRead (S.fails_with source.now) result }
    ensures refused { IfCodeRefused (WasRefused (M.refuses memory.now)) result }
    ensures most { ForBytes (S.all_bytes source.now) (λ f. IfCodeRefused (RangesRefused (M.refuses memory.now) f) result) }
{
    let elf = open_elf(source)?;
    let ranges = executable_ranges(memory, source, &elf)?;
    Ok(Code {
        is_linked: elf.header.is_linked(),
        ranges,
    })
}
