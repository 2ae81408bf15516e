//! The build ID that a linker puts into a file. System V ABI, chapter 5, "Note Section".
ghost use Rattle.std.specs.Prelude.{◌≡◌, ◌≤◌, ◌<◌, ◌+◌, ◌^◌, ℕ, List, length, drop, option_map, Some, None, IfErr};
ghost use Rattle.std.specs.Prelude.{IfOk, IsTrue};
ghost use Rattle.std.specs.Char.{digit_char};
ghost use Rattle.dl_elf.specs.Source.{ForBytes};
ghost use Rattle.dl_elf.specs.Notes.{padded, build_id_in, build_id_of, build_id_bytes};

use crate::file::{Elf, section_range};
use crate::header::number_at;
use crate::named::NamedSection;
use crate::source::{ReadAt, fill_whole};
use arrayvec::ArrayVec;
use dl_num::Order;
use std::{fmt, io, str};

/// How many bytes a section with a build ID may have.
const NOTES: usize = 4096;

/// How many bytes of a note come before its name: three numbers.
const HEADER: usize = 12;

/// The type of a note with a build ID (NT_GNU_BUILD_ID).
const GNU_BUILD_ID: u64 = 3;

/// What a linker calls the build that a file came from: 2 to 64 bytes. Debug information that was
/// taken out of the file is looked for under this name. Its Display is the path, below a folder for
/// debug information.
#[derive(Debug, Drop)]
pub struct BuildId {
    bytes: ArrayVec<u8, 64>,
}

impl BuildId {
    ghost use Rattle.dl_elf.specs.Notes.{build_id_bytes, usable};

    /// The build ID of these bytes; None where there are fewer than 2 or more than 64.
    fn new(bytes: &[u8]) -> Option<BuildId>
        ensures { option_map build_id_bytes result ≡ usable bytes.now }
    {
        if bytes.len() < 2 {
            return None;
        }
        let mut id = ArrayVec::new();
        id.try_extend_from_slice(bytes).ok()?;
        Some(BuildId { bytes: id })
    }

    /// Its bytes.
    pub fn as_bytes(&self) -> &[u8]
        ensures { result.now ≡ build_id_bytes self.entry.now }
    {
        self.bytes.as_slice()
    }
}

impl fmt::Display for BuildId {
    ghost use Rattle.dl_elf.specs.FaultText.{build_id_text};

    ghost output = { λ id. Some (build_id_text id) };

    fn fmt<W: fmt::Write>(&self, f: &mut fmt::Formatter<W>) -> fmt::Result {
        let bytes = self.bytes.as_slice();
        let first = Hexadecimal(&bytes[..bytes.len().min(1)]);
        let rest = Hexadecimal(&bytes[bytes.len().min(1)..]);
        write!(f, ".build-id/{first}/{rest}.debug")
    }
}

/// Bytes that are shown as two digits each, in lower case.
#[derive(Clone, Copy)]
struct Hexadecimal<'a>(&'a [u8]);

impl fmt::Display for Hexadecimal<'_> {
    ghost use Rattle.dl_elf.specs.FaultText.{hexadecimal};

    ghost output = { λ shown. Some (hexadecimal shown.0.now) };

    fn fmt<W: fmt::Write>(&self, f: &mut fmt::Formatter<W>) -> fmt::Result {
        for byte in self.0 {
            let digits = [digit_of(*byte / 16), digit_of(*byte % 16)];
            f.write_str(str::from_utf8(&digits).map_err(|_| fmt::Error)?)?;
        }
        Ok(())
    }
}

/// The digit of a number below 16.
fn digit_of(number: u8) -> u8
    requires { number < 16 }
    ensures { result ≡ digit_char number }
{
    if number < 10 {
        b'0' + number
    } else {
        b'a' + (number - 10)
    }
}

/// A size with what fills it up to four bytes.
fn padded(size: u64) -> u64
    requires { size ≤ 4096 }
    ensures { result ≡ padded size }
{
    size.div_ceil(4) * 4
}

/// The note that some bytes begin with.
#[derive(Clone, Copy)]
struct Note<'a> {
    name: &'a [u8],
    note_type: u64,
    description: &'a [u8],
    /// What follows it.
    rest: &'a [u8],
}

impl<'a> Note<'a> {
    ghost use Rattle.std.specs.Prelude.{MatchOption, IsFalse};
    ghost use Rattle.dl_elf.specs.Notes.{has_note, is_build_id};
    ghost use Rattle.dl_elf.specs.NoteParts.{IsNote};

    /// The note that the bytes begin with; None where they end before it does.
    fn first(order: Order, bytes: &'a [u8]) -> Option<Note<'a>>
        requires { length bytes.now ≤ 4096 }
        ensures { MatchOption result (IsFalse (has_note order bytes.entry.now)) (IsNote order bytes.entry.now) }
    {
        if bytes.len() < HEADER {
            return None;
        }
        let name_size = number_at(order, 0, 4, bytes);
        let description_size = number_at(order, 4, 4, bytes);
        let len = bytes.len() as u64;
        if len < name_size || len < description_size {
            return None;
        }
        let start = HEADER as u64 + padded(name_size);
        if len < start + description_size {
            return None;
        }
        let (start, end) = (start as usize, (start + description_size) as usize);
        let next = bytes.len().min(start + padded(description_size) as usize);
        Some(Note {
            name: &bytes[HEADER..HEADER + name_size as usize],
            note_type: number_at(order, 8, 4, bytes),
            description: &bytes[start..end],
            rest: &bytes[next..],
        })
    }

    /// Whether its description is a build ID.
    fn is_build_id(&self) -> bool
        ensures { (order : Order) → (bytes : List ℕ) → IsNote order bytes self.now → result ≡ is_build_id order bytes }
    {
        self.note_type == GNU_BUILD_ID && self.name == b"GNU\0".as_slice()
    }
}

/// The description of the first note of a build ID.
fn build_id_in(order: Order, notes: &[u8]) -> Option<&[u8]>
    requires { length notes.now ≤ 4096 }
    ensures { option_map (λ id. id.now) result ≡ build_id_in order notes.entry.now }
{
    let mut rest = notes;
    while let Some(note) = Note::first(order, rest) {
        if note.is_build_id() {
            return Some(note.description);
        }
        rest = note.rest;
    }
    None
}

/// The build ID that a section of notes has, if it has one.
pub fn read_build_id<S: ReadAt>(
    source: &S,
    elf: &Elf,
    section: Option<NamedSection>,
) -> io::Result<Option<BuildId>>
    ensures told { ForBytes (S.all_bytes source.now) (λ f.
        IfOk result (λ told. option_map build_id_bytes told ≡ build_id_of elf.now f section)) }
    ensures fails { IfErr result (S.fails_with source.now) }
{
    let Some(section) = section else {
        return Ok(None);
    };
    let range = section_range(&section.header);
    if range.size == 0 || (NOTES as u64) < range.size {
        return Ok(None);
    }
    let mut buffer = [0; NOTES];
    let bytes = &mut buffer[..range.size as usize];
    if !fill_whole(source, range.offset, bytes)? {
        return Ok(None);
    }
    Ok(build_id_in(elf.header.order, bytes).and_then(BuildId::new))
}
