//! `lint` and `sources` of the members of an archive.

use crate::ending::{Ending, report};
use crate::findings::FindingSums;
use crate::running::{lint, lint_status, run_sources};
use dl_archive::{Member, Members, NAME_LIMIT};
use dl_cmd::{Job, LintWords, SourcesWords};
use dl_elf::ReadAt;
use dl_member::{
    Counts, Step, WalkFault, Walked, WithMember, file_of_member, has_no_table, path_of_member,
    tell_unopened, write_path,
};
use dl_open::FileSource;
use dl_program::{Stop, StopLines};
use dl_system::{SystemFile, SystemFiles};
use std::io;
use std::io::ErrorKind;

/// What is done with each member that has a line table.
#[derive(Drop)]
pub enum MemberWork<'a> {
    /// Its findings are told, and counted with those of the other members.
    Lint {
        words: &'a LintWords<'a>,
        sums: FindingSums,
    },
    /// Its source files are listed.
    Sources(&'a SourcesWords<'a>),
}

impl<'a> MemberWork<'a> {
    /// What a job asks for; None where it is neither `lint` nor `sources`.
    pub fn of(job: &'a Job<'a>) -> Option<MemberWork<'a>> {
        match job {
            Job::Lint(words) => Some(MemberWork::Lint {
                words,
                sums: FindingSums::none(),
            }),
            Job::Sources(words) => Some(MemberWork::Sources(words)),
            Job::Dump(_)
            | Job::Check { .. }
            | Job::Find { .. }
            | Job::Copy { .. }
            | Job::Addr(_)
            | Job::Index(_)
            | Job::Lines(_) => None,
        }
    }

    /// Does it with the file of these that the words name, and answers the status.
    fn run<F: FileSource>(&mut self, rt: &HostRuntime, files: &F) -> Result<u8, Stop<'a>> {
        match self {
            MemberWork::Lint { words, sums } => {
                let linted = lint(rt, files, words)?;
                sums.add(&linted.counts);
                Ok(lint_status(&linted))
            }
            MemberWork::Sources(words) => run_sources(rt, files, words),
        }
    }

    /// Says what is said once of all members.
    fn tell_sums(&self, rt: &HostRuntime) {
        if let MemberWork::Lint { sums, .. } = self {
            sums.tell(rt);
        }
    }
}

/// The same stop, of a file under this path.
fn under<'a>(stop: Stop<'a>, path: &'a str) -> Stop<'a> {
    match stop {
        Stop::File { fault, .. } => Stop::File { path, fault },
        stop => stop,
    }
}

/// Whether the words are to blame.
pub fn blames_words(stop: &Stop<'_>) -> bool {
    matches!(stop, Stop::NotUnderstood | Stop::NotRule { .. })
}

/// A walk over the members of the archive at a path. Each stands under this path, which the words name, while the work over it is done.
#[derive(Drop)]
struct Walk<'a> {
    rt: &'a HostRuntime,
    path: &'a str,
    archive: &'a SystemFile,
    work: MemberWork<'a>,
}

impl<'a> Walk<'a> {
    /// Does the work with this file, under the path of the archive.
    fn run<S: ReadAt>(&mut self, file: &S) -> Result<u8, Stop<'a>> {
        let files = WithMember {
            path: self.path,
            file,
            files: &SystemFiles { rt: self.rt },
        };
        self.work.run(self.rt, &files)
    }

    /// What comes of the file of a member, whose own path this is.
    fn over_file<S: ReadAt>(&mut self, own: &str, file: &S) -> Step {
        if has_no_table(file) {
            return Step::PassedOver;
        }
        if let Err(fault) = write_path(&mut self.rt.stdout(), own) {
            return Step::Unwritten(fault);
        }
        let status = match self.run(file) {
            Ok(status) => status,
            Err(stop) => report(self.rt, Ending::Stop(under(stop, own))),
        };
        Step::Done(status)
    }

    /// What comes of a member of this name.
    fn at_named(&mut self, member: &Member, name: &[u8]) -> Step {
        let mut stops = StopLines::new(self.rt.stderr());
        let Ok(own) = path_of_member(self.path, name) else {
            return tell_unopened(
                self.path,
                io::Error::from(ErrorKind::InvalidFilename),
                &mut stops,
            );
        };
        let files = SystemFiles { rt: self.rt };
        match file_of_member(&files, self.path, self.archive, member, name) {
            Ok(file) => self.over_file(own.as_str(), &file),
            Err(error) => tell_unopened(own.as_str(), error, &mut stops),
        }
    }

    /// What comes of a member. The error is that of reading its name.
    fn at_member(&mut self, member: &Member) -> io::Result<Step> {
        let mut buffer = [0; NAME_LIMIT];
        let len = member.read_name(self.archive, &mut buffer)?;
        Ok(self.at_named(member, &buffer[..len]))
    }

    /// Goes through the members, and counts what comes of each.
    fn walk(&mut self, counts: &mut Counts) -> Result<(), WalkFault> {
        let Some(mut members) = Members::of(self.archive)? else {
            return Err(WalkFault::NotArchive);
        };
        while let Some(member) = members.next_member()? {
            counts.add(self.at_member(&member)?)?;
        }
        Ok(())
    }
}

/// Does the work with each member of the archive at this path, in their order, and answers what came of them; the stop where the
/// words are to blame.
///
/// The work is done with the archive itself first. That is no ELF file, so that nothing is written then; but words that are wrong
/// are told, once, and no member is gone through.
pub fn walk_each<'a>(
    rt: &'a HostRuntime,
    work: MemberWork<'a>,
    path: &'a str,
    archive: &'a SystemFile,
) -> Result<Walked, Stop<'a>> {
    let mut walk = Walk {
        rt,
        path,
        archive,
        work,
    };
    if let Err(stop) = walk.run(archive)
        && blames_words(&stop)
    {
        return Err(stop);
    }
    let mut counts = Counts::none();
    let end = walk.walk(&mut counts);
    walk.work.tell_sums(rt);
    Ok(Walked { counts, end })
}
