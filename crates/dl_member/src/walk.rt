//! All members of an archive, one after the other.
ghost use Rattle.std.specs.Prelude.{◌≡◌, ◌<◌, ◌^◌, [], List, IfOk, IfSome};
ghost use Rattle.dl_archive.specs.Told.{archive_of, left, next_of};
ghost use Rattle.dl_cmd.specs.Job.{request_made};
ghost use Rattle.dl_elf.specs.Source.{ForBytes};
ghost use Rattle.dl_member.specs.Files.{bytes_of_file, fails_of_file};
ghost use Rattle.dl_member.specs.Onward.{Adds, NextStep};
ghost use Rattle.dl_member.specs.Walking.{AreCounted, Ends, Walks};
ghost use Rattle.dl_member.specs.declared.step.Step.{Step};

use crate::counts::Counts;
use crate::fault::WalkFault;
use crate::sink::MemberSink;
use crate::step::{Step, at_member};
use dl_archive::{ArchiveFault, Members};
use dl_cmd::Job;
use dl_elf::ReadAt;
use dl_open::FileSource;
use dl_output::Destination;
use dl_program::MapMemory;

/// What came of the members of an archive, and how the walk over them ended.
#[derive(Drop)]
pub struct Walked {
    pub counts: Counts,
    pub end: Result<(), WalkFault>,
}

impl Walked {
    ghost use Rattle.std.specs.Prelude.{◌≡◌};
    ghost use Rattle.dl_member.specs.Walking.{walk_status};

    /// The program's status: the worst of those of the members and of how the walk ended.
    pub fn status(&self) -> u8
        ensures { result ≡ walk_status self.now.counts self.now.end }
    {
        match &self.end {
            Ok(()) => self.counts.worst,
            Err(fault) => self.counts.worst.max(fault.status()),
        }
    }
}

/// What comes of the next member; None behind the last one.
fn next_step<M: MapMemory, F: FileSource, S: ReadAt, W: Destination, T: MemberSink>(
    memory: &M,
    job: &Job<'_>,
    files: &F,
    path: &str,
    archive: &S,
    members: &mut Members<'_, S>,
    output: &mut W,
    sink: &mut T,
) -> Result<Option<Step>, ArchiveFault>
    ensures source { archive_of members.new ≡ archive_of members.old }
    ensures moves { IfOk result (λ step. IfSome step (λ _. (next_of members.old < next_of members.new) × (next_of members.new < 2 ^ 64))) }
    ensures step { archive_of members.old ≡ archive.now → ((t : T) → T.hears t t []) → ForBytes (S.all_bytes archive.now) (λ f.
        NextStep (M.refuses memory.now) (F.held files.now)
        (F.fails_with files.now) W.fails (request_made job.now) T.hears T.tells (S.fails_with archive.now)
        (bytes_of_file S.all_bytes F.File.all_bytes) (fails_of_file S.fails_with F.File.fails_with) f path.now (left f members.old) (left f members.new)
        (W.contents output.old) (W.contents output.new) sink.old sink.new result) }
{
    match members.next_member()? {
        Some(member) => {
            let step = at_member(memory, job, files, path, archive, &member, output, sink)?;
            Ok(Some(step))
        }
        None => Ok(None),
    }
}

/// Goes through the members that are left, and counts what comes of each.
fn walk_left<M: MapMemory, F: FileSource, S: ReadAt, W: Destination, T: MemberSink>(
    memory: &M,
    job: &Job<'_>,
    files: &F,
    path: &str,
    archive: &S,
    mut members: Members<'_, S>,
    counts: &mut Counts,
    output: &mut W,
    sink: &mut T,
) -> Result<(), WalkFault>
    ensures walked { archive_of members.entry ≡ archive.now → ((t : T) → T.hears t t []) → ForBytes (S.all_bytes archive.now) (λ f.
        (steps : List Step) × Adds counts.old counts.new steps
        × Ends (M.refuses memory.now) (F.held files.now)
        (F.fails_with files.now) W.fails (request_made job.now) T.hears T.tells (S.fails_with archive.now)
        (bytes_of_file S.all_bytes F.File.all_bytes) (fails_of_file S.fails_with F.File.fails_with) f path.now (left f members.entry).0 (left f members.entry).1 steps
        (W.contents output.old) (W.contents output.new) sink.old sink.new result) }
{
    while let Some(step) = next_step(
        memory,
        job,
        files,
        path,
        archive,
        &mut members,
        output,
        sink,
    )? {
        counts.add(step)?;
    }
    Ok(())
}

/// Does what a job asks for, which is `dump` or `check`, with each member of an archive, in its order: what `at_member` does.
///
/// The walk ends behind the last member; before that where the archive is damaged, where a read of it fails, or where the line before
/// a member can't be written. What came of the members before that is counted.
pub fn walk_members<M: MapMemory, F: FileSource, S: ReadAt, W: Destination, T: MemberSink>(
    memory: &M,
    job: &Job<'_>,
    files: &F,
    path: &str,
    archive: &S,
    output: &mut W,
    sink: &mut T,
) -> Walked
    ensures { ((t : T) → T.hears t t []) → ForBytes (S.all_bytes archive.now) (λ f.
        (steps : List Step) × AreCounted result.counts steps
        × Walks (M.refuses memory.now) (F.held files.now)
        (F.fails_with files.now) W.fails (request_made job.now) T.hears T.tells (S.fails_with archive.now)
        (bytes_of_file S.all_bytes F.File.all_bytes) (fails_of_file S.fails_with F.File.fails_with) f path.now steps
        (W.contents output.old) (W.contents output.new) sink.old sink.new result.end) }
{
    let mut counts = Counts::none();
    let end = walk(memory, job, files, path, archive, &mut counts, output, sink);
    Walked { counts, end }
}

/// The same, where nothing was counted.
fn walk<M: MapMemory, F: FileSource, S: ReadAt, W: Destination, T: MemberSink>(
    memory: &M,
    job: &Job<'_>,
    files: &F,
    path: &str,
    archive: &S,
    counts: &mut Counts,
    output: &mut W,
    sink: &mut T,
) -> Result<(), WalkFault>
    ensures { ((t : T) → T.hears t t []) → ForBytes (S.all_bytes archive.now) (λ f.
        (steps : List Step) × Adds counts.old counts.new steps
        × Walks (M.refuses memory.now) (F.held files.now)
        (F.fails_with files.now) W.fails (request_made job.now) T.hears T.tells (S.fails_with archive.now)
        (bytes_of_file S.all_bytes F.File.all_bytes) (fails_of_file S.fails_with F.File.fails_with) f path.now steps
        (W.contents output.old) (W.contents output.new) sink.old sink.new result) }
{
    let Some(members) = Members::of(archive)? else {
        return Err(WalkFault::NotArchive);
    };
    walk_left(
        memory, job, files, path, archive, members, counts, output, sink,
    )
}
