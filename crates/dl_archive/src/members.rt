//! The members of an archive, one after the other.
ghost use Rattle.std.proofs.Props.{props};
ghost use Rattle.std.specs.Prelude.{◌≡◌, ◌≤◌, ◌<◌, ◌+◌, ◌^◌, IfOk, IfErr, IfSome};

use crate::entry::{ArchiveEntry, entry_at, names_after};
use crate::fault::ArchiveFault;
use crate::kind::{Kind, archive_kind};
use crate::member::Member;
use dl_elf::{Range, ReadAt, lies_within};
use std::io;

/// Where the first entry of an archive stands.
const FIRST: u64 = 8;

/// The members of an archive, from one on.
#[derive(Drop)]
pub struct Members<'a, S> {
    source: &'a S,
    kind: Kind,
    /// The table of long names, once it was met.
    names: Option<Range>,
    /// Where the next entry stands.
    next: u64,
    ghost below: { IfSome names (λ t. t.offset + t.size < 2 ^ 64) } by { Prim.hlevel props },
}

impl<'a, S: ReadAt> Members<'a, S> {
    ghost use Rattle.std.specs.Prelude.{◌≡◌, ◌<◌, ◌^◌, IfOk, IfErr, IfSome, MatchOption, None};
    ghost use Rattle.dl_elf.specs.Source.{ForBytes};
    ghost use Rattle.dl_archive.specs.Archive.{kind_of};
    ghost use Rattle.dl_archive.specs.Told.{AreAll, Ended, EntryTold, FailsAsRead, MemberTold, archive_of, next_of};

    /// All members of an archive; None where the file is none.
    pub fn of(source: &'a S) -> io::Result<Option<Members<'a, S>>>
        ensures all { ForBytes (S.all_bytes source.entry.now) (λ f. IfOk result (λ members.
            MatchOption members (kind_of f ≡ None) (AreAll f))) }
        ensures source { IfOk result (λ members. IfSome members (λ m. archive_of m ≡ source.entry.now)) }
        ensures fails { IfErr result (S.fails_with source.entry.now) }
    {
        let Some(kind) = archive_kind(source)? else {
            return Ok(None);
        };
        Ok(Some(Members {
            source,
            kind,
            names: None,
            next: FIRST,
        }))
    }

    /// The next entry, behind which the members are left; None at the end.
    fn next_entry(&mut self) -> Result<Option<ArchiveEntry>, ArchiveFault>
        ensures source { archive_of self.new ≡ archive_of self.old }
        ensures told { ForBytes (S.all_bytes (archive_of self.old)) (λ f. EntryTold f
            self.old self.new result) }
        ensures moves { IfOk result (λ entry. IfSome entry (λ _.
            (self.old.next < self.new.next) × (self.new.next < 2 ^ 64))) }
        ensures fails { IfErr result (FailsAsRead (S.fails_with (archive_of self.old))) }
    {
        let entry = entry_at(self.source, self.kind, self.names, self.next)?;
        let Some((entry, next)) = entry else {
            return match self.end() {
                Ok(()) => Ok(None),
                Err(fault) => Err(fault),
            };
        };
        self.names = names_after(&entry, self.names);
        self.next = next;
        Ok(Some(entry))
    }

    /// What is told where no entry stands: that it is the end, or that the archive is damaged there.
    fn end(&self) -> Result<(), ArchiveFault>
        ensures ended { ForBytes (S.all_bytes (archive_of self.now)) (λ f. Ended f
            self.now.next result) }
        ensures fails { IfErr result (FailsAsRead (S.fails_with (archive_of self.now))) }
    {
        if lies_within(self.source, self.next, 1)? {
            Err(ArchiveFault::Damaged(self.next))
        } else {
            Ok(())
        }
    }

    /// The next member; None behind the last one. Where an entry is damaged nothing behind it is told, and the same fault is
    /// answered again. After each member it stands further on.
    pub fn next_member(&mut self) -> Result<Option<Member>, ArchiveFault>
        ensures source { archive_of self.new ≡ archive_of self.old }
        ensures told { ForBytes (S.all_bytes (archive_of self.old)) (λ f. MemberTold f
            self.old self.new result) }
        ensures moves { IfOk result (λ member. IfSome member (λ _. (next_of self.old < next_of self.new) × (next_of self.new < 2 ^ 64))) }
        ensures fails { IfErr result (FailsAsRead (S.fails_with (archive_of self.old))) }
    {
        loop {
            match self.next_entry()? {
                Some(ArchiveEntry::Member(member)) => return Ok(Some(member)),
                Some(ArchiveEntry::Symbols | ArchiveEntry::LongNames(_)) => {}
                None => return Ok(None),
            }
        }
    }
}
