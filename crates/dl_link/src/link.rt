//! The debug link of a file: the name of the file with its debug information, and that file's check value.
ghost use Rattle.std.specs.Prelude.{◌≡◌, ◌≤◌, ◌<◌, ◌==◌, length, take, position, IfOk, IfErr, IfSome, option_map};
ghost use Rattle.dl_elf.specs.Source.{ForBytes};
ghost use Rattle.dl_link.specs.DebugLink.{crc_place, front_of, is_file_name, link_in, link_of, link_with};
ghost use Rattle.dl_link.specs.Told.{link_seen};

use arrayvec::ArrayVec;
use dl_elf::{Elf, ReadAt, SectionHeader, Window, fill, section_at, section_number, section_range};
use dl_num::{Order, first_of, number_of};
use std::io;

/// The section that has it.
const SECTION: &[u8] = b".gnu_debuglink";

/// How many bytes of it are read: a name, its zero byte, and the check value.
const FRONT: usize = 260;

/// How many bytes the name of a file has at most.
const NAME: usize = 255;

/// What the section `.gnu_debuglink` says.
#[derive(Debug, Drop)]
pub struct DebugLink {
    /// The name of the file, of 1 to 255 bytes, among them no slash; neither `.` nor `..`.
    pub name: ArrayVec<u8, NAME>,
    /// CRC-32 of its bytes, which has 32 bits.
    pub crc: u64,
}

/// The debug link of an open ELF file; None where it has none, or its name isn't that of a file in a folder.
pub fn read_debug_link<S: ReadAt>(source: &S, elf: &Elf) -> io::Result<Option<DebugLink>>
    ensures link { ForBytes (S.all_bytes source.now) (λ f. IfOk result (λ link. option_map link_seen link ≡ link_of elf.now f)) }
    ensures fails { IfErr result (S.fails_with source.now) }
{
    let Some(number) = section_number(source, elf, SECTION)? else {
        return Ok(None);
    };
    let section = section_at(source, &mut Window::new(), &elf.header, number)?;
    let Some(section) = section else {
        return Ok(None);
    };
    let mut buffer = [0; FRONT];
    let len = read_front(source, &section, &mut buffer)?;
    Ok(link_in(elf.header.order, &buffer[..len]))
}

/// Reads the first bytes of a section into the front of a buffer, and answers how many came.
fn read_front<S: ReadAt>(
    source: &S,
    section: &SectionHeader,
    buffer: &mut [u8; FRONT],
) -> io::Result<usize>
    ensures front { ForBytes (S.all_bytes source.now) (λ f. IfOk result (λ n. take n buffer.new ≡ front_of f section.now)) }
    ensures within { IfOk result (λ n. n ≤ 260) }
    ensures fails { IfErr result (S.fails_with source.now) }
{
    let range = section_range(section);
    let room = range.size.min(FRONT as u64) as usize;
    fill(source, range.offset, &mut buffer[..room])
}

/// The debug link in the first bytes of its section.
fn link_in(order: Order, bytes: &[u8]) -> Option<DebugLink>
    ensures { option_map link_seen result ≡ link_in order bytes.now }
{
    match first_of(bytes, 0) {
        Some(len) => link_with(order, bytes, len),
        None => None,
    }
}

/// The debug link whose name has so many bytes.
fn link_with(order: Order, bytes: &[u8], len: usize) -> Option<DebugLink>
    requires { len ≤ length bytes.now }
    ensures { option_map link_seen result ≡ link_with order bytes.now len }
{
    let file_name = &bytes[..len];
    if !is_file_name(file_name) {
        return None;
    }
    let place = crc_place(len);
    if bytes.len() < place + 4 {
        return None;
    }
    let mut name = ArrayVec::new();
    name.try_extend_from_slice(file_name).ok()?;
    Some(DebugLink {
        name,
        crc: number_of(&bytes[place..place + 4], order),
    })
}

/// Where the check value stands behind a name of so many bytes.
fn crc_place(len: usize) -> usize
    requires { len ≤ 255 }
    ensures { result ≡ crc_place len }
{
    (len + 1).div_ceil(4) * 4
}

/// Whether it is the name of a file in a folder.
fn is_file_name(name: &[u8]) -> bool
    ensures { result ≡ is_file_name name.now }
{
    if name.is_empty() || NAME < name.len() {
        return false;
    }
    if first_of(name, b'/').is_some() {
        return false;
    }
    !(name == b".".as_slice() || name == b"..".as_slice())
}
