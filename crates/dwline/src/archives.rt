//! Archives, and members of archives, as FILE.

use crate::ending::{Ending, report};
use crate::members::{MemberWork, blames_words, walk_each};
use dl_archive::archive_kind;
use dl_cmd::Job;
use dl_member::{MemberFault, WalkFault, Walked, job_over, split_member, walk_members};
use dl_memory::System;
use dl_open::{FileSource, Shown};
use dl_program::{Stop, StopLines, work};
use dl_sections::RunFault;
use dl_system::{SystemFile, SystemFiles};
use std::io::Write;

/// What stands at a path.
#[derive(Drop)]
pub enum Standing<'a> {
    /// An archive.
    Archive(SystemFile),
    /// An archive, its path, and the name of a member.
    Member {
        archive: SystemFile,
        parts: (&'a str, &'a str),
    },
    /// Another file, or nothing.
    File,
}

/// Whether a file begins as an archive does.
fn is_archive(file: &SystemFile) -> bool {
    matches!(archive_kind(file), Ok(Some(_)))
}

/// What stands at this path.
#[inline(never)]
pub fn what_stands<'a>(rt: &HostRuntime, path: &'a str) -> Standing<'a> {
    let files = SystemFiles { rt };
    if let Ok(file) = files.open(path) {
        return if is_archive(&file) {
            Standing::Archive(file)
        } else {
            Standing::File
        };
    }
    let Some(parts) = split_member(path) else {
        return Standing::File;
    };
    match files.open(parts.0) {
        Ok(archive) => Standing::Member { archive, parts },
        Err(_) => Standing::File,
    }
}

/// Whether a job goes through the members of an archive.
pub fn is_over_members(job: &Job<'_>) -> bool {
    matches!(
        job,
        Job::Dump(_) | Job::Check { .. } | Job::Lint(_) | Job::Sources(_)
    )
}

/// Does what a job says, which is `dump`, `check`, `lint` or `sources`, of each member of the archive at this path, and answers the
/// worst status.
#[inline(never)]
pub fn run_members(
    rt: &HostRuntime,
    job: &Job<'_>,
    path: &str,
    archive: &SystemFile,
    is_verbose: bool,
) -> u8 {
    match walk(rt, job, path, archive) {
        Ok(walked) => tell_walked(rt, path, walked, is_verbose),
        Err(stop) => report(rt, Ending::Stop(stop)),
    }
}

/// The stop where the words of `dump` or `check` are to blame.
///
/// The work is done with the archive itself. That is no ELF file, so that nothing is written; but words that are wrong are told.
fn wrong_words<'a>(rt: &HostRuntime, job: &Job<'a>, path: &'a str) -> Option<Stop<'a>> {
    let over = job_over(job, path)?;
    let done = work(
        &System::new(rt.alloc()),
        Some(over),
        &SystemFiles { rt },
        &mut rt.stdin(),
        &mut rt.stdout(),
        &mut StopLines::new(rt.stderr()),
    );
    match done {
        Err(stop) if blames_words(&stop) => Some(stop),
        _ => None,
    }
}

/// Does what a job says of each member of the archive at this path, and answers what came of them; the stop where the words are to
/// blame, and then no member is gone through.
fn walk<'a>(
    rt: &'a HostRuntime,
    job: &'a Job<'a>,
    path: &'a str,
    archive: &'a SystemFile,
) -> Result<Walked, Stop<'a>> {
    if let Some(each) = MemberWork::of(job) {
        return walk_each(rt, each, path, archive);
    }
    if let Some(stop) = wrong_words(rt, job, path) {
        return Err(stop);
    }
    Ok(walk_members(
        &System::new(rt.alloc()),
        job,
        &SystemFiles { rt },
        path,
        archive,
        &mut rt.stdout(),
        &mut StopLines::new(rt.stderr()),
    ))
}

/// Tells how a walk over the members of the archive at this path ended, and answers the worst status.
fn tell_walked(rt: &HostRuntime, path: &str, walked: Walked, is_verbose: bool) -> u8 {
    if is_verbose {
        let _ = writeln!(
            rt.stderr(),
            "{}: {} members without a line table",
            Shown(path),
            walked.counts.passed_over
        );
    }
    let status = walked.status();
    if let Err(fault) = walked.end {
        let _ = report(rt, ending_of(path, fault));
    }
    status
}

/// How the walk over the members of the archive at this path ended before the last one.
fn ending_of(path: &str, fault: WalkFault) -> Ending<'_> {
    let fault = match fault {
        WalkFault::NotArchive => MemberFault::NotArchive,
        WalkFault::Archive(fault) => MemberFault::Archive(fault),
        WalkFault::Unwritten(lost) => return Ending::Stop(Stop::Run(RunFault::from(lost))),
    };
    Ending::Member { path, fault }
}
