//! An entry of an archive.
ghost use Rattle.std.specs.Prelude.{◌≡◌, ◌≤◌, ◌<◌, ◌^◌, ◌+◌, ◌-◌, length, take, IfOk, IfErr, IfSome, option_map};
ghost use Rattle.dl_elf.specs.Source.{ForBytes};
ghost use Rattle.dl_archive.specs.Told.{IsBelow, entry_and_next, entry_seen, seen};
ghost use Rattle.dl_archive.specs.Archive.{HasName, before_slash, long_text, body_of, end_of, entry_at, entry_of, long_name, names_after, stored, with_name, with_name_before};

use crate::header::{Header, header_at};
use crate::kind::Kind;
use crate::member::{Member, NAME_LIMIT};
use crate::name_field::NameField;
use dl_elf::{Range, ReadAt, fill, lies_within};
use dl_num::first_of;
use std::io;

/// What an entry of an archive is.
#[derive(Drop)]
pub(crate) enum ArchiveEntry {
    /// A table of symbols, which isn't read.
    Symbols,
    /// The table of long names, which stands there.
    LongNames(Range),
    Member(Member),
}

/// How many bytes of a text there are without a slash at its end.
fn before_slash(text: &[u8]) -> usize
    ensures len { result ≡ before_slash text.now }
    ensures within { result ≤ length text.now }
{
    match text.last() {
        Some(b'/') => text.len() - 1,
        _ => text.len(),
    }
}

/// Reads the text at this byte of the table of long names into the front of a buffer, with what ends it if that is there;
/// answers how many bytes were read.
fn read_long_text<S: ReadAt>(
    source: &S,
    table: Range,
    at: u64,
    text: &mut [u8; NAME_LIMIT],
) -> io::Result<usize>
    requires { table.offset + table.size < 2 ^ 64 }
    ensures text { ForBytes (S.all_bytes source.now) (λ f. IfOk result (λ n. take n text.new ≡ long_text f table at)) }
    ensures within { IfOk result (λ n. n ≤ 4096) }
    ensures left { IfOk result (λ n. n ≤ table.size - at) }
    ensures fails { IfErr result (S.fails_with source.now) }
{
    let left = table.size.saturating_sub(at);
    let room = left.min(NAME_LIMIT as u64) as usize;
    fill(source, table.offset.saturating_add(at), &mut text[..room])
}

/// Where the name stands that begins at this byte of the table of long names; None where no newline ends it.
fn long_name<S: ReadAt>(source: &S, names: Option<Range>, at: u64) -> io::Result<Option<Range>>
    requires { IfSome names (λ t. t.offset + t.size < 2 ^ 64) }
    ensures name { ForBytes (S.all_bytes source.now) (λ f. IfOk result (λ name. name ≡ long_name f names at)) }
    ensures short { IfOk result (λ name. IfSome name (λ n. n.size ≤ 4096)) }
    ensures fails { IfErr result (S.fails_with source.now) }
{
    let Some(table) = names else {
        return Ok(None);
    };
    let mut buffer = [0; NAME_LIMIT];
    let len = read_long_text(source, table, at, &mut buffer)?;
    let text = &buffer[..len];
    let Some(end) = first_of(text, b'\n') else {
        return Ok(None);
    };
    Ok(Some(Range {
        offset: table.offset + at,
        size: before_slash(&text[..end]) as u64,
    }))
}

/// A member whose name stands there; `body` is where the bytes behind its header begin.
fn with_name(kind: Kind, header: &Header, body: u64, name: Range) -> Member
    requires short { name.size ≤ 4096 }
    requires below { body + stored kind header.now < 2 ^ 64 }
    ensures { body ≡ body_of header.now → seen result ≡ with_name kind header.now name }
{
    let place = match kind {
        Kind::Whole => Some(Range {
            offset: body,
            size: header.size,
        }),
        Kind::Thin => None,
    };
    Member {
        header: header.offset,
        name,
        place,
    }
}

/// A member whose name is so many of the first bytes behind its header.
fn with_name_before(kind: Kind, header: &Header, body: u64, len: u64) -> Option<Member>
    requires { body + stored kind header.now < 2 ^ 64 }
    ensures { body ≡ body_of header.now → option_map seen result ≡ with_name_before kind header.now len }
{
    if kind == Kind::Thin || (NAME_LIMIT as u64) < len {
        return None;
    }
    let size = header.size.checked_sub(len)?;
    Some(Member {
        header: header.offset,
        name: Range {
            offset: body,
            size: len,
        },
        place: Some(Range {
            offset: body + len,
            size,
        }),
    })
}

/// What the entry with this header is; None where its name isn't there.
fn entry_of<S: ReadAt>(
    source: &S,
    kind: Kind,
    names: Option<Range>,
    header: &Header,
    body: u64,
) -> io::Result<Option<ArchiveEntry>>
    requires names { IfSome names (λ t. t.offset + t.size < 2 ^ 64) }
    requires named { HasName header.now.name }
    requires body { body ≡ body_of header.now }
    requires below { end_of kind header.now < 2 ^ 64 }
    ensures entry { ForBytes (S.all_bytes source.now) (λ f. IfOk result (λ entry.
        option_map entry_seen entry ≡ entry_of kind f names header.now header.now.name)) }
    ensures below { IfOk result (λ entry. IfSome entry IsBelow) }
    ensures fails { IfErr result (S.fails_with source.now) }
{
    let member = match header.name {
        NameField::Symbols => return Ok(Some(ArchiveEntry::Symbols)),
        NameField::LongNames => {
            return Ok(Some(ArchiveEntry::LongNames(Range {
                offset: body,
                size: header.size,
            })));
        }
        NameField::Here(len) => {
            let name = Range {
                offset: header.offset,
                size: len as u64,
            };
            Some(with_name(kind, header, body, name))
        }
        NameField::InTable(at) => match long_name(source, names, at)? {
            Some(name) => Some(with_name(kind, header, body, name)),
            None => None,
        },
        NameField::InMember(len) => with_name_before(kind, header, body, len),
    };
    Ok(member.map(ArchiveEntry::Member))
}

/// The entry at an offset, and where the next one begins; None where none stands there, or it doesn't lie in the file.
pub(crate) fn entry_at<S: ReadAt>(
    source: &S,
    kind: Kind,
    names: Option<Range>,
    offset: u64,
) -> io::Result<Option<(ArchiveEntry, u64)>>
    requires { IfSome names (λ t. t.offset + t.size < 2 ^ 64) }
    ensures entry { ForBytes (S.all_bytes source.now) (λ f. IfOk result (λ entry. option_map entry_and_next entry ≡ entry_at kind f names offset)) }
    ensures below { IfOk result (λ entry. IfSome entry (λ e. IsBelow e.0)) }
    ensures later { IfOk result (λ entry. IfSome entry (λ e. offset < e.1)) }
    ensures fails { IfErr result (S.fails_with source.now) }
{
    let Some(header) = header_at(source, offset)? else {
        return Ok(None);
    };
    let Some((body, end)) = header.ends(kind) else {
        return Ok(None);
    };
    if !lies_within(source, body, header.stored(kind))? {
        return Ok(None);
    }
    let Some(entry) = entry_of(source, kind, names, &header, body)? else {
        return Ok(None);
    };
    Ok(Some((entry, end.saturating_add(end % 2))))
}

/// The table of long names behind an entry.
pub(crate) fn names_after(entry: &ArchiveEntry, names: Option<Range>) -> Option<Range>
    requires entry { IsBelow entry.now }
    requires names { IfSome names (λ t. t.offset + t.size < 2 ^ 64) }
    ensures names { result ≡ names_after (entry_seen entry.now) names }
    ensures below { IfSome result (λ t. t.offset + t.size < 2 ^ 64) }
{
    match entry {
        ArchiveEntry::LongNames(table) => Some(*table),
        ArchiveEntry::Symbols | ArchiveEntry::Member(_) => names,
    }
}
