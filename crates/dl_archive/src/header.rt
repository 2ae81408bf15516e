//! The header of an entry.
ghost use Rattle.std.specs.Prelude.{◌≡◌, ◌≤◌, ◌<◌, ◌^◌, ◌+◌, length, IfOk, IfErr, IfSome};
ghost use Rattle.dl_elf.specs.Source.{ForBytes};
ghost use Rattle.dl_archive.specs.Archive.{HasName, header_at, header_in};

use crate::field::{number_of, without_end};
use crate::kind::Kind;
use crate::name_field::{NameField, name_field};
use dl_elf::{ReadAt, fill_whole};
use std::io;

/// How many bytes a header has.
pub(crate) const HEADER: usize = 60;

/// The header of an entry.
#[derive(Clone, Copy)]
pub(crate) struct Header {
    /// Where it stands.
    pub offset: u64,
    pub name: NameField,
    /// The size that it says.
    pub size: u64,
}

/// What the 60 bytes of a header at this offset say; None where they are no header.
fn header_in(offset: u64, bytes: &[u8; HEADER]) -> Option<Header>
    ensures header { result ≡ header_in offset bytes.now }
    ensures named { IfSome result (λ header. HasName header.name) }
    ensures offset { IfSome result (λ header. header.offset ≡ offset) }
{
    if bytes[58] != b'`' || bytes[59] != b'\n' {
        return None;
    }
    let name = name_field(without_end(&bytes[..16], b' '))?;
    let size = number_of(without_end(&bytes[48..58], b' '))?;
    Some(Header { offset, name, size })
}

/// The header at an offset; None where it doesn't lie in the file, or the bytes there are none.
pub(crate) fn header_at<S: ReadAt>(source: &S, offset: u64) -> io::Result<Option<Header>>
    ensures header { ForBytes (S.all_bytes source.now) (λ f. IfOk result (λ header. header ≡ header_at f offset)) }
    ensures named { IfOk result (λ header. IfSome header (λ h. HasName h.name)) }
    ensures offset { IfOk result (λ header. IfSome header (λ h. h.offset ≡ offset)) }
    ensures fails { IfErr result (S.fails_with source.now) }
{
    let mut bytes = [0; HEADER];
    if fill_whole(source, offset, &mut bytes)? {
        Ok(header_in(offset, &bytes))
    } else {
        Ok(None)
    }
}

impl NameField {
    ghost use Rattle.std.specs.Prelude.{◌≡◌};
    ghost use Rattle.dl_archive.specs.Archive.{is_table};

    /// Whether the entry is a table, which is in the archive in any case.
    fn is_table(&self) -> bool
        ensures { result ≡ is_table self.now }
    {
        match self {
            NameField::Symbols | NameField::LongNames => true,
            NameField::InTable(_) | NameField::InMember(_) | NameField::Here(_) => false,
        }
    }
}

impl Header {
    ghost use Rattle.std.specs.Prelude.{◌≡◌, ◌+◌, ◌<◌, ◌^◌, MatchOption, ◌≤◌};
    ghost use Rattle.dl_archive.specs.Archive.{body_of, stored, end_of};

    /// How many bytes follow it in the archive.
    pub(crate) fn stored(&self, kind: Kind) -> u64
        ensures { result ≡ stored kind self.now }
    {
        match kind {
            Kind::Whole => self.size,
            Kind::Thin => { if self.name.is_table() { self.size } else { 0 } }
        }
    }

    /// Where the bytes that follow it begin, and where they end; None past 2^64 - 1.
    pub(crate) fn ends(&self, kind: Kind) -> Option<(u64, u64)>
        ensures { MatchOption result (2 ^ 64 ≤ end_of kind self.now) (λ r. (r.0 ≡ body_of self.now) × (r.1 ≡ end_of kind self.now)
            × (r.1 < 2 ^ 64)) }
    {
        let body = self.offset.checked_add(HEADER as u64)?;
        let end = body.checked_add(self.stored(kind))?;
        Some((body, end))
    }
}
