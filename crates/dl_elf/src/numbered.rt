//! The number of a section, by its name or by what it holds.
ghost use Rattle.std.specs.Prelude.{◌≡◌, ◌↔◌, codes, slice_get, Some, IsTrue, IfOk, IfErr};
ghost use Rattle.dl_elf.specs.Source.{ForBytes};
ghost use Rattle.dl_elf.specs.Window.{Shows};
ghost use Rattle.dl_elf.specs.Numbered.{code_section, first_code, first_named, has_name, is_code_at, is_full_at};
ghost use Rattle.dl_elf.specs.Numbered.{is_named_at, or_else, section_number};

use crate::file::{Elf, section_at};
use crate::section::{NOBITS, SectionHeader};
use crate::source::ReadAt;
use crate::window::Window;
use std::io;

/// The name of the section with a program's instructions.
const TEXT: &[u8] = b".text";

/// Whether this byte stands at an offset.
fn has_byte<S: ReadAt>(source: &S, window: &mut Window, at: u64, byte: u8) -> io::Result<bool>
    requires shows { Shows (S.all_bytes source.now) window.old }
    ensures shows { Shows (S.all_bytes source.now) window.new }
    ensures byte { ForBytes (S.all_bytes source.now) (λ f.
        IfOk result (λ has. IsTrue has ↔ (slice_get f at ≡ Some byte))) }
    ensures fails { IfErr result (S.fails_with source.now) }
{
    let len = window.show(source, at, 1)?;
    Ok(len == 1 && window.shown(at, len)[0] == byte)
}

/// Whether the section has the name: it and a zero byte stand in the name table. The bytes are compared one by one,
/// since a name may be longer than a window.
fn has_name<S: ReadAt>(
    source: &S,
    names: &mut Window,
    elf: &Elf,
    section: &SectionHeader,
    name: &[u8],
) -> io::Result<bool>
    requires shows { Shows (S.all_bytes source.now) names.old }
    ensures shows { Shows (S.all_bytes source.now) names.new }
    ensures named { ForBytes (S.all_bytes source.now) (λ f.
        IfOk result (λ named. named ≡ has_name elf.now f name.now section.now)) }
    ensures fails { IfErr result (S.fails_with source.now) }
{
    let left = elf.names.size.saturating_sub(section.name_offset);
    if left <= name.len() as u64 {
        return Ok(false);
    }
    let start = elf.names.offset.saturating_add(section.name_offset);
    for (index, wanted) in name.iter().enumerate() {
        let at = start.saturating_add(index as u64);
        if !has_byte(source, names, at, *wanted)? {
            return Ok(false);
        }
    }
    let end = start.saturating_add(name.len() as u64);
    has_byte(source, names, end, 0)
}

/// Whether section `number` has the name, and its type isn't SHT_NOBITS.
fn is_named_at<S: ReadAt>(
    source: &S,
    headers: &mut Window,
    names: &mut Window,
    elf: &Elf,
    number: u64,
    name: &[u8],
) -> io::Result<bool>
    requires headers { Shows (S.all_bytes source.now) headers.old }
    requires names { Shows (S.all_bytes source.now) names.old }
    ensures headers { Shows (S.all_bytes source.now) headers.new }
    ensures names { Shows (S.all_bytes source.now) names.new }
    ensures named { ForBytes (S.all_bytes source.now) (λ f.
        IfOk result (λ named. named ≡ is_named_at elf.now f name.now number)) }
    ensures fails { IfErr result (S.fails_with source.now) }
{
    let Some(section) = section_at(source, headers, &elf.header, number)? else {
        return Ok(false);
    };
    if section.section_type == NOBITS {
        return Ok(false);
    }
    has_name(source, names, elf, &section, name)
}

/// Whether section `number` has bytes, where that is asked for.
fn is_full_at<S: ReadAt>(
    source: &S,
    headers: &mut Window,
    elf: &Elf,
    full: bool,
    number: u64,
) -> io::Result<bool>
    requires headers { Shows (S.all_bytes source.now) headers.old }
    ensures headers { Shows (S.all_bytes source.now) headers.new }
    ensures full { ForBytes (S.all_bytes source.now) (λ f.
        IfOk result (λ is. is ≡ is_full_at elf.now f full number)) }
    ensures fails { IfErr result (S.fails_with source.now) }
{
    if !full {
        return Ok(true);
    }
    match section_at(source, headers, &elf.header, number)? {
        Some(section) => Ok(section.size != 0),
        None => Ok(false),
    }
}

/// The number of the first section from number 1 on that has the name and whose type isn't SHT_NOBITS, with `full` of those
/// that have bytes; None where there is none. The headers are looked at in one pass.
fn first_named<S: ReadAt>(source: &S, elf: &Elf, full: bool, name: &[u8]) -> io::Result<Option<u64>>
    ensures number { ForBytes (S.all_bytes source.now) (λ f.
        IfOk result (λ number. number ≡ first_named elf.now f full name.now)) }
    ensures fails { IfErr result (S.fails_with source.now) }
{
    let mut headers = Window::new();
    let mut names = Window::new();
    for number in 1..elf.count {
        let is_named = is_named_at(source, &mut headers, &mut names, elf, number, name)?;
        let is_full = is_full_at(source, &mut headers, elf, full, number)?;
        if is_named && is_full {
            return Ok(Some(number));
        }
    }
    Ok(None)
}

/// The number of the first section from number 1 on that has the name, has bytes and whose type isn't SHT_NOBITS, or where
/// none has bytes, of the first without; None where there is none either.
pub fn section_number<S: ReadAt>(source: &S, elf: &Elf, name: &[u8]) -> io::Result<Option<u64>>
    ensures number { ForBytes (S.all_bytes source.now) (λ f.
        IfOk result (λ number. number ≡ section_number elf.now f name.now)) }
    ensures fails { IfErr result (S.fails_with source.now) }
{
    match first_named(source, elf, true, name)? {
        Some(number) => Ok(Some(number)),
        None => first_named(source, elf, false, name),
    }
}

/// Whether section `number` has instructions that stand in memory while the program runs.
fn is_code_at<S: ReadAt>(
    source: &S,
    headers: &mut Window,
    elf: &Elf,
    number: u64,
) -> io::Result<bool>
    requires headers { Shows (S.all_bytes source.now) headers.old }
    ensures headers { Shows (S.all_bytes source.now) headers.new }
    ensures code { ForBytes (S.all_bytes source.now) (λ f.
        IfOk result (λ code. code ≡ is_code_at elf.now f number)) }
    ensures fails { IfErr result (S.fails_with source.now) }
{
    match section_at(source, headers, &elf.header, number)? {
        Some(section) => Ok(section.is_executable()),
        None => Ok(false),
    }
}

/// The number of the first section with instructions, with `full` of those that have bytes.
fn first_code<S: ReadAt>(source: &S, elf: &Elf, full: bool) -> io::Result<Option<u64>>
    ensures number { ForBytes (S.all_bytes source.now) (λ f.
        IfOk result (λ number. number ≡ first_code elf.now f full)) }
    ensures fails { IfErr result (S.fails_with source.now) }
{
    let mut headers = Window::new();
    for number in 1..elf.count {
        let is_code = is_code_at(source, &mut headers, elf, number)?;
        let is_full = is_full_at(source, &mut headers, elf, full, number)?;
        if is_code && is_full {
            return Ok(Some(number));
        }
    }
    Ok(None)
}

/// The number of the section `.text`, or where there is none, of the first section with instructions (SHF_ALLOC and
/// SHF_EXECINSTR), with `full` of those that have bytes.
fn text_or_code<S: ReadAt>(source: &S, elf: &Elf, full: bool) -> io::Result<Option<u64>>
    ensures number { ForBytes (S.all_bytes source.now) (λ f.
        IfOk result (λ number. number ≡ or_else (first_named elf.now f full (codes ".text")) (first_code elf.now f full))) }
    ensures fails { IfErr result (S.fails_with source.now) }
{
    match first_named(source, elf, full, TEXT)? {
        Some(number) => Ok(Some(number)),
        None => first_code(source, elf, full),
    }
}

/// The number of the section `.text`, or where there is none that has bytes, of the first section with instructions
/// (SHF_ALLOC and SHF_EXECINSTR) that has; where none has bytes, of these without. None where there is none either.
pub fn code_section<S: ReadAt>(source: &S, elf: &Elf) -> io::Result<Option<u64>>
    ensures number { ForBytes (S.all_bytes source.now) (λ f.
        IfOk result (λ number. number ≡ code_section elf.now f)) }
    ensures fails { IfErr result (S.fails_with source.now) }
{
    match text_or_code(source, elf, true)? {
        Some(number) => Ok(Some(number)),
        None => text_or_code(source, elf, false),
    }
}
