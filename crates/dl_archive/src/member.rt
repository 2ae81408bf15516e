//! A member of an archive, and its bytes.
ghost use Rattle.std.proofs.Props.{props};
ghost use Rattle.std.specs.Prelude.{◌≡◌, ◌≤◌, ◌<◌, ◌+◌, ◌^◌, ℕ, List, Option, IfOk, IfErr, IfSome, take, option_map, Some, None};

use crate::field::without_end;
use dl_elf::{Range, ReadAt, fill};
use std::io;

/// How many bytes a name has at most.
pub const NAME_LIMIT: usize = 4096;

/// A member of an archive.
#[derive(Drop)]
pub struct Member {
    /// Where its header stands.
    pub(crate) header: u64,
    /// Where its name stands.
    pub(crate) name: Range,
    /// Where its bytes stand; None in a thin archive, of which each member is a file of its own.
    pub(crate) place: Option<Range>,
    ghost short: { name.size ≤ 4096 },
    ghost below: { IfSome place (λ r. r.offset + r.size < 2 ^ 64) } by { Prim.hlevel props },
}

impl Member {
    ghost use Rattle.std.specs.Prelude.{◌≡◌, ◌≤◌, IfOk, IfErr, take, option_map, MatchOption, Some, None};
    ghost use Rattle.dl_elf.specs.Source.{ForBytes};
    ghost use Rattle.dl_archive.specs.Archive.{name_of};
    ghost use Rattle.dl_archive.specs.Bytes.{IsBytesOf};
    ghost use Rattle.dl_archive.specs.Told.{seen};

    /// Reads its name into the front of a buffer, and answers how many bytes it has: that of a thin archive is the path
    /// of its file, beside the archive.
    pub fn read_name<S: ReadAt>(
        &self,
        source: &S,
        buffer: &mut [u8; NAME_LIMIT],
    ) -> io::Result<usize>
        ensures name { ForBytes (S.all_bytes source.now) (λ f. IfOk result (λ n. take n buffer.new ≡ name_of f (seen self.now))) }
        ensures within { IfOk result (λ n. n ≤ 4096) }
        ensures fails { IfErr result (S.fails_with source.now) }
    {
        let size = self.name.size as usize;
        let n = fill(source, self.name.offset, &mut buffer[..size])?;
        Ok(without_end(&buffer[..n], 0).len())
    }

    /// Its bytes; None in a thin archive, where they are those of a file.
    pub fn bytes<'a, S: ReadAt>(&self, source: &'a S) -> Option<MemberBytes<'a, S>>
        ensures { IsBytesOf S.all_bytes S.fails_with source.entry.now self.now result }
    {
        let range = self.place?;
        Some(MemberBytes { source, range })
    }
}

/// The bytes of a member, which can be read as those of a file.
#[derive(Drop)]
pub struct MemberBytes<'a, S> {
    source: &'a S,
    range: Range,
    ghost below: { range.offset + range.size < 2 ^ 64 },
}

impl<S: ReadAt> ReadAt for MemberBytes<'_, S> {
    ghost use Rattle.dl_archive.specs.Bytes.{bytes_of, source_of};

    ghost all_bytes = { bytes_of S.all_bytes };

    ghost fails_with = { λ m. S.fails_with (source_of m) };

    fn read_at(&self, offset: u64, buffer: &mut [u8]) -> io::Result<usize> {
        let left = self.range.size.saturating_sub(offset);
        let room = left.min(buffer.len() as u64) as usize;
        if room == 0 {
            return Ok(0);
        }
        self.source
            .read_at(self.range.offset + offset, &mut buffer[..room])
    }
}
