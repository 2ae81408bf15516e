//! What is an archive.
ghost use Rattle.std.specs.Prelude.{◌≡◌, ◌≤◌, length, IfOk, IfErr};
ghost use Rattle.dl_elf.specs.Source.{ForBytes};
ghost use Rattle.dl_archive.specs.Archive.{kind_of};

use dl_elf::{ReadAt, fill};
use std::io;

/// How an archive begins, and how a thin one does.
const WHOLE: &[u8] = b"!<arch>\n";

const THIN: &[u8] = b"!<thin>\n";

/// What an archive holds of its members.
#[derive(Debug, Clone, Copy, PartialEq, Eq)]
pub enum Kind {
    /// Their headers and their bytes.
    Whole,
    /// Their headers alone; each is a file of its own.
    Thin,
}

/// What a file is by its first eight bytes; None where it is no archive.
pub fn archive_kind<S: ReadAt>(source: &S) -> io::Result<Option<Kind>>
    ensures kind { ForBytes (S.all_bytes source.now) (λ f. IfOk result (λ kind. kind ≡ kind_of f)) }
    ensures fails { IfErr result (S.fails_with source.now) }
{
    let mut buffer = [0; 8];
    let n = fill(source, 0, &mut buffer)?;
    Ok(kind_of(&buffer[..n]))
}

/// What a file is that begins with these bytes, at most eight.
fn kind_of(front: &[u8]) -> Option<Kind>
    ensures { length front.now ≤ 8 → result ≡ kind_of front.now }
{
    if front == WHOLE {
        Some(Kind::Whole)
    } else if front == THIN {
        Some(Kind::Thin)
    } else {
        None
    }
}
