//! How a section is compressed. System V ABI, chapter 4, "Section Compression".
ghost use Rattle.std.specs.Prelude.{◌≡◌, ◌≤◌, length, option_map, IfOk, IfErr};
ghost use Rattle.dl_elf.specs.Source.{ForBytes};
ghost use Rattle.dl_elf.specs.Compressed.{method_of, compression_header_size, header_length, section_damage};
ghost use Rattle.dl_elf.specs.Compressed.{begins_as_named, compression_fields, zdebug_fields, front_of};
ghost use Rattle.dl_elf.specs.Compressed.{flagged_header, compression_header};

use crate::fault::Part;
use crate::file::{Elf, section_range};
use crate::header::{Class, number_at};
use crate::named::NamedSection;
use crate::section::COMPRESSED;
use crate::source::{ReadAt, fill_whole, lies_within};
use dl_num::Order;
use std::{fmt, io};

/// The method by which a section is compressed (ch_type).
#[derive(Clone, Copy, Debug, PartialEq, Eq)]
pub enum Compression {
    /// ELFCOMPRESS_ZLIB, and sections whose names begin `.zdebug_`.
    Zlib,
    /// ELFCOMPRESS_ZSTD
    Zstd,
    /// Another method, by its number, which is below 2^32.
    Other(u64),
}

impl fmt::Display for Compression {
    ghost use Rattle.std.specs.Prelude.{Some};
    ghost use Rattle.dl_elf.specs.FaultText.{compression_text};

    ghost output = { λ method. Some (compression_text method) };

    fn fmt<W: fmt::Write>(&self, f: &mut fmt::Formatter<W>) -> fmt::Result {
        match self {
            Compression::Zlib => write!(f, "with zlib"),
            Compression::Zstd => write!(f, "with zstd"),
            Compression::Other(number) => write!(f, "by method {number}"),
        }
    }
}

/// The method of a ch_type.
fn method_of(number: u64) -> Compression
    ensures { result ≡ method_of number }
{
    match number {
        1 => Compression::Zlib,
        2 => Compression::Zstd,
        _ => Compression::Other(number),
    }
}

/// What a section begins with whose name begins `.zdebug_`.
const ZDEBUG_MAGIC: &[u8] = b"ZLIB";

/// How many bytes of such a section come before the stream: these, and the size.
const ZDEBUG_LENGTH: u64 = 12;

/// No compression header has more bytes.
const LONGEST: usize = 24;

/// What the bytes before the stream of a compressed section say. Places are counted from the first byte of
/// the section.
#[derive(Clone, Copy, Debug, PartialEq, Eq)]
pub struct CompressionHeader {
    /// How it is compressed (ch_type).
    pub method: Compression,
    /// How many bytes the stream inflates to (ch_size).
    pub size: u64,
    /// Where the size stands.
    pub size_offset: u64,
    /// Where the stream begins.
    pub stream_offset: u64,
}

/// How many bytes a compression header has.
fn header_size(class: Class) -> u64
    ensures { result ≡ compression_header_size class }
{
    match class {
        Class::Bits32 => 12,
        Class::Bits64 => 24,
    }
}

/// How many bytes of a section come before the stream; 0 where it isn't compressed.
fn header_length(elf: &Elf, section: &NamedSection) -> u64
    ensures { result ≡ header_length elf.now section.now }
{
    if section.name.is_zdebug() {
        ZDEBUG_LENGTH
    } else if section.header.flags & COMPRESSED != 0 {
        header_size(elf.header.class)
    } else {
        0
    }
}

/// Whether the section begins as its name says.
fn begins_as_named<S: ReadAt>(source: &S, section: &NamedSection) -> io::Result<bool>
    ensures begins { ForBytes (S.all_bytes source.now) (λ f.
        IfOk result (λ begins. begins ≡ begins_as_named f section.now)) }
    ensures fails { IfErr result (S.fails_with source.now) }
{
    if !section.name.is_zdebug() {
        return Ok(true);
    }
    let mut bytes = [0; 4];
    if !fill_whole(source, section.header.offset, &mut bytes)? {
        return Ok(false);
    }
    Ok(bytes.as_slice() == ZDEBUG_MAGIC)
}

/// What of a section lies outside the file, or outside the section.
pub fn section_damage<S: ReadAt>(
    source: &S,
    elf: &Elf,
    section: &NamedSection,
) -> io::Result<Option<Part>>
    ensures part { ForBytes (S.all_bytes source.now) (λ f.
        IfOk result (λ part. part ≡ section_damage elf.now f section.now)) }
    ensures fails { IfErr result (S.fails_with source.now) }
{
    let range = section_range(&section.header);
    if !lies_within(source, range.offset, range.size)? {
        return Ok(Some(Part::Section(section.name)));
    }
    if range.size < header_length(elf, section) {
        return Ok(Some(Part::CompressionHeader(section.name)));
    }
    if !begins_as_named(source, section)? {
        return Ok(Some(Part::CompressionHeader(section.name)));
    }
    Ok(None)
}

/// What a compression header says.
fn compression_fields(class: Class, order: Order, bytes: &[u8]) -> CompressionHeader
    requires { compression_header_size class ≤ length bytes.now }
    ensures { result ≡ compression_fields class order bytes.now }
{
    let method = method_of(number_at(order, 0, 4, bytes));
    match class {
        Class::Bits32 => CompressionHeader {
            method,
            size: number_at(order, 4, 4, bytes),
            size_offset: 4,
            stream_offset: 12,
        },
        Class::Bits64 => CompressionHeader {
            method,
            size: number_at(order, 8, 8, bytes),
            size_offset: 8,
            stream_offset: 24,
        },
    }
}

/// What the bytes before the stream of a section say whose name begins `.zdebug_`. The size is big-endian in
/// files of either order.
fn zdebug_fields(bytes: &[u8]) -> CompressionHeader
    requires { 12 ≤ length bytes.now }
    ensures { result ≡ zdebug_fields bytes.now }
{
    CompressionHeader {
        method: Compression::Zlib,
        size: number_at(Order::Big, 4, 8, bytes),
        size_offset: 4,
        stream_offset: 12,
    }
}

/// What comes before the stream of a section whose name begins `.zdebug_`; None where the file ends before.
fn read_zdebug_header<S: ReadAt>(
    source: &S,
    section: &NamedSection,
) -> io::Result<Option<CompressionHeader>>
    ensures header { ForBytes (S.all_bytes source.now) (λ f.
        IfOk result (λ header. header ≡ option_map zdebug_fields (front_of f section.now 12))) }
    ensures fails { IfErr result (S.fails_with source.now) }
{
    let mut bytes = [0; 12];
    if !fill_whole(source, section.header.offset, &mut bytes)? {
        return Ok(None);
    }
    Ok(Some(zdebug_fields(&bytes)))
}

/// The compression header of a section that has one; None where the file ends before.
fn read_flagged_header<S: ReadAt>(
    source: &S,
    elf: &Elf,
    section: &NamedSection,
) -> io::Result<Option<CompressionHeader>>
    ensures header { ForBytes (S.all_bytes source.now) (λ f.
        IfOk result (λ header. header ≡ flagged_header elf.now f section.now)) }
    ensures fails { IfErr result (S.fails_with source.now) }
{
    let mut buffer = [0; LONGEST];
    let bytes = &mut buffer[..header_size(elf.header.class) as usize];
    if !fill_whole(source, section.header.offset, bytes)? {
        return Ok(None);
    }
    Ok(Some(compression_fields(elf.header.class, elf.header.order, bytes)))
}

/// What the bytes before the stream of a section say; None where it isn't compressed.
pub fn compression_header<S: ReadAt>(
    source: &S,
    elf: &Elf,
    section: &NamedSection,
) -> io::Result<Option<CompressionHeader>>
    ensures header { ForBytes (S.all_bytes source.now) (λ f.
        IfOk result (λ header. header ≡ compression_header elf.now f section.now)) }
    ensures fails { IfErr result (S.fails_with source.now) }
{
    if section.name.is_zdebug() {
        return read_zdebug_header(source, section);
    }
    if section.header.flags & COMPRESSED == 0 {
        return Ok(None);
    }
    read_flagged_header(source, elf, section)
}
