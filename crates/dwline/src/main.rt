//! The program `dwline`: its words, its files and streams, and its status.
#![tactic(auto)]

mod archives;
mod ending;
mod findings;
mod indices;
mod members;
mod progress;
mod running;
mod sections;
mod several;

use crate::archives::{Standing, is_over_members, run_members, what_stands};
use crate::ending::{Ending, report};
use crate::running::run_job;
use crate::sections::tell_sections;
use crate::several::{are_several, check_files};
use dl_cmd::{FollowWords, Job, Words, read_words};
use dl_member::{WithMember, open_member};
use dl_program::{Stop, followed_path};
use dl_system::{Search, SystemFile, SystemFiles};
use std::alloc::AllocError;
use std::env;
use std::io::ErrorKind;
use std::process::ExitCode;

/// The program's arguments, its name first.
fn arguments(rt: &HostRuntime) -> Result<Vec<String>, Ending<'static>> {
    match env::args(rt) {
        Ok(args) => Ok(args.collect(rt.alloc())?),
        Err(error) if error.kind() == ErrorKind::OutOfMemory => Err(Ending::from(AllocError)),
        Err(_) => Err(Ending::NotText),
    }
}

/// The status of what was done, told where it ended before that.
fn status(rt: &HostRuntime, done: Result<u8, Ending<'_>>) -> u8 {
    match done {
        Ok(status) => status,
        Err(ending) => report(rt, ending),
    }
}

/// Does what a job says, of the file whose line table is read for that at this path.
fn run_followed(rt: &HostRuntime, job: Job<'_>, path: &str, words: &FollowWords<'_>) -> u8 {
    let search = match Search::of(rt, path, words) {
        Ok(search) => search,
        Err(error) => return report(rt, Ending::from(error)),
    };
    if words.verbose {
        tell_sections(rt, &job, search.path(path));
    }
    match run_job(rt, &SystemFiles { rt }, job.of_file(search.path(path))) {
        Ok(status) => status,
        Err(ending) => report(rt, ending.without_lines(search.lost())),
    }
}

/// Does what a job says, of the member of this name of an archive, under the path that names both.
#[inline(never)]
fn run_member(
    rt: &HostRuntime,
    job: Job<'_>,
    path: &str,
    archive: &SystemFile,
    parts: (&str, &str),
) -> u8 {
    let files = SystemFiles { rt };
    let file = match open_member(&files, parts.0, archive, parts.1) {
        Ok(file) => file,
        Err(fault) => return report(rt, Ending::Member { path, fault }),
    };
    let files = WithMember {
        path,
        file: &file,
        files: &files,
    };
    status(rt, run_job(rt, &files, job))
}

/// The path of FILE, which may be that of an archive or of a member of one.
fn file_of<'a>(job: &Job<'a>) -> Option<&'a str> {
    match job {
        Job::Copy { file, .. } => *file,
        Job::Dump(_)
        | Job::Check { .. }
        | Job::Find { .. }
        | Job::Addr(_)
        | Job::Index(_)
        | Job::Lines(_)
        | Job::Sources(_)
        | Job::Lint(_) => followed_path(job),
    }
}

/// Does what a job says, of what stands at this path.
fn run_file(rt: &HostRuntime, job: Job<'_>, path: &str, words: &FollowWords<'_>) -> u8 {
    match what_stands(rt, path) {
        Standing::Archive(archive) if is_over_members(&job) => {
            run_members(rt, &job, path, &archive, words.verbose)
        }
        Standing::Archive(_) => {
            match run_job(rt, &SystemFiles { rt }, job) {
                Ok(status) => status,
                Err(ending) => report(rt, ending.of_archive(path)),
            }
        }
        Standing::Member { archive, parts } => run_member(rt, job, path, &archive, parts),
        Standing::File if followed_path(&job).is_some() => run_followed(rt, job, path, words),
        Standing::File => status(rt, run_job(rt, &SystemFiles { rt }, job)),
    }
}

/// Does what the words say, and answers the program's status.
fn run_words(rt: &HostRuntime, words: Words<'_>) -> u8 {
    let Words { job, follow, files } = words;
    if are_several(&files) {
        return check_files(rt, &job, &follow, &files);
    }
    match file_of(&job) {
        Some(path) => run_file(rt, job, path, &follow),
        None => status(rt, run_job(rt, &SystemFiles { rt }, job)),
    }
}

/// Does what these arguments say, and answers the program's status.
fn run(rt: &HostRuntime, arguments: &Vec<String>) -> u8 {
    let texts: Vec<&str> = match arguments
        .iter()
        .map(|word| word.as_str())
        .collect(rt.alloc())
    {
        Ok(texts) => texts,
        Err(error) => return report(rt, Ending::from(error)),
    };
    match read_words(rt.alloc(), texts.as_slice()) {
        Ok(Some(words)) => run_words(rt, words),
        Ok(None) => report(rt, Ending::Stop(Stop::NotUnderstood)),
        Err(error) => report(rt, Ending::from(error)),
    }
}

fn main(rt: HostRuntime) -> ExitCode {
    match arguments(&rt) {
        Ok(arguments) => ExitCode::from(run(&rt, &arguments)),
        Err(ending) => ExitCode::from(report(&rt, ending)),
    }
}
