//! `check` of several files: a line for each, of its counts or of its fault.

use crate::archives::{Standing, run_members, what_stands};
use crate::ending::{Ending, report, report_of};
use crate::progress::Progress;
use dl_cmd::{FilesWords, FollowWords, Job, UnitWords};
use dl_member::{WithMember, open_member};
use dl_memory::System;
use dl_open::{FileSource, Shown, ShownBytes};
use dl_output::Destination;
use dl_program::{Stop, work};
use dl_sections::{Damage, DamageSink, RunFault};
use dl_several::{CheckFiles, PathList, Several, check_several};
use dl_system::{Search, SystemFile, SystemFiles};
use std::fs::File;
use std::io;
use std::io::{Read, Stderr, Stdout, Write};

/// The path that stands for standard input.
const INPUT: &str = "-";

/// Whether more than one file may be named.
pub fn are_several(files: &FilesWords<'_>) -> bool {
    !files.others.is_empty() || files.files_from.is_some()
}

/// Standard output, where a path is written before the first bytes.
#[derive(Drop)]
struct Labelled<'p> {
    path: &'p str,
    has_begun: bool,
    output: Stdout,
}

impl Write for Labelled<'_> {
    fn write(&mut self, bytes: &[u8]) -> io::Result<usize> {
        if !self.has_begun {
            write!(self.output, "{}: ", Shown(self.path))?;
            self.has_begun = true;
        }
        self.output.write(bytes)
    }

    fn flush(&mut self) -> io::Result<()> {
        self.output.flush()
    }
}

impl Destination for Labelled<'_> {
    fn write_next(&mut self, bytes: &[u8]) -> io::Result<usize> {
        self.write(bytes)
    }
}

/// Writes the line of each damaged unit of a file.
#[derive(Drop)]
struct FileDamages<'p> {
    path: &'p str,
    errors: Stderr,
}

impl DamageSink for FileDamages<'_> {
    ghost hears = { λ first now damages. Unit {0} };

    fn damaged(&mut self, damage: Damage) {
        let Damage { offset, kind } = damage;
        let fault = RunFault::Damage { offset, kind };
        let _ = writeln!(self.errors, "dwline: {}: {fault}", Shown(self.path));
    }
}

/// What is asked of each file.
#[derive(Clone, Copy)]
struct Asked<'a> {
    units: UnitWords<'a>,
    keep_going: bool,
    follow: &'a FollowWords<'a>,
}

/// Checks the file at this path for that at the other one, under whose path it is told of.
fn check<'p, F: FileSource>(
    rt: &HostRuntime,
    files: &F,
    asked: Asked<'p>,
    path: &'p str,
    named: &str,
) -> Result<u8, Ending<'p>> {
    let mut output = Labelled {
        path: named,
        has_begun: false,
        output: rt.stdout(),
    };
    let mut damages = FileDamages {
        path: named,
        errors: rt.stderr(),
    };
    let survey = work(
        &System::new(rt.alloc()),
        Some(asked.job(path)),
        files,
        &mut rt.stdin(),
        &mut output,
        &mut damages,
    )?;
    Ok(if survey.damaged.is_some() { 1 } else { 0 })
}

impl<'a> Asked<'a> {
    /// The job of the file at this path.
    fn job(self, path: &'a str) -> Job<'a> {
        Job::Check {
            file: Some(path),
            big: false,
            units: self.units,
            keep_going: self.keep_going,
        }
    }

    /// Checks the file whose line table is read for the one at this path, and answers the status.
    fn check_followed(&self, rt: &HostRuntime, path: &str) -> u8 {
        let search = match Search::of(rt, path, self.follow) {
            Ok(search) => search,
            Err(error) => return report(rt, Ending::from(error)),
        };
        match check(rt, &SystemFiles { rt }, *self, search.path(path), path) {
            Ok(status) => status,
            Err(ending) => report_of(rt, path, ending.without_lines(search.lost())),
        }
    }

    /// Checks a member of an archive, under the path that names both, and answers the status.
    fn check_member(
        &self,
        rt: &HostRuntime,
        path: &str,
        archive: &SystemFile,
        parts: (&str, &str),
    ) -> u8 {
        let files = SystemFiles { rt };
        let file = match open_member(&files, parts.0, archive, parts.1) {
            Ok(file) => file,
            Err(fault) => return report(rt, Ending::Member { path, fault }),
        };
        let files = WithMember {
            path,
            file: &file,
            files: &files,
        };
        match check(rt, &files, *self, path, path) {
            Ok(status) => status,
            Err(ending) => report_of(rt, path, ending),
        }
    }

    /// Checks what stands at this path, and answers the status.
    fn check_file(&self, rt: &HostRuntime, path: &str) -> u8 {
        match what_stands(rt, path) {
            Standing::Archive(archive) => {
                run_members(rt, &self.job(path), path, &archive, self.follow.verbose)
            }
            Standing::Member { archive, parts } => self.check_member(rt, path, &archive, parts),
            Standing::File => self.check_followed(rt, path),
        }
    }
}

/// All bytes of the list at a path.
fn read_list(rt: &HostRuntime, path: &str) -> io::Result<Vec<u8>> {
    let mut list = Vec::new(rt.alloc());
    if path == INPUT {
        rt.stdin().read_to_end(&mut list)?;
    } else {
        File::open(rt, path)?.read_to_end(&mut list)?;
    }
    Ok(list)
}

/// Checks files of the system, and tells how far it has come.
#[derive(Drop)]
struct SystemChecker<'a> {
    rt: &'a HostRuntime,
    asked: Asked<'a>,
    progress: Progress,
}

impl CheckFiles for SystemChecker<'_> {
    ghost checks = { λ old path status new. Unit {0} };

    ghost refuses = { λ old path status new. Unit {0} };

    ghost reads = { λ old path bytes new. Unit {0} };

    ghost misses = { λ old path status new. Unit {0} };

    fn check(&mut self, path: &str) -> u8 {
        let status = self.asked.check_file(self.rt, path);
        self.progress.step(self.rt);
        status
    }

    fn refuse(&mut self, path: &[u8]) -> u8 {
        let _ = writeln!(
            self.rt.stderr(),
            "dwline: {}: the path isn't UTF-8",
            ShownBytes(path)
        );
        self.progress.step(self.rt);
        3
    }

    fn read_list(&mut self, path: &str) -> Result<Vec<u8>, u8> {
        match read_list(self.rt, path) {
            Ok(list) => Ok(list),
            Err(error) => {
                let _ = writeln!(
                    self.rt.stderr(),
                    "dwline: {}: cannot read: {error}",
                    Shown(path)
                );
                Err(3)
            }
        }
    }
}

/// The list of paths that the words name.
fn list_of<'a>(files: &FilesWords<'a>) -> Option<PathList<'a>> {
    let path = files.files_from?;
    let end = if files.null { 0 } else { b'\n' };
    Some(PathList { path, end })
}

/// Checks the files that the words name, and answers the worst status.
#[inline(never)]
pub fn check_files(
    rt: &HostRuntime,
    job: &Job<'_>,
    follow: &FollowWords<'_>,
    files: &FilesWords<'_>,
) -> u8 {
    let Job::Check {
        file,
        units,
        keep_going,
        ..
    } = job
    else {
        return report(rt, Ending::Stop(Stop::NotUnderstood));
    };
    let mut checker = SystemChecker {
        rt,
        asked: Asked {
            units: *units,
            keep_going: *keep_going,
            follow,
        },
        progress: Progress::new(rt, files.progress),
    };
    let named = Several {
        first: *file,
        others: files.others.as_slice(),
        list: list_of(files),
    };
    let worst = check_several(&named, &mut checker);
    checker.progress.end(rt);
    worst
}
