//! What the program does for a job, over the system's files and streams.

use crate::ending::Ending;
use crate::indices::{list_index, write_index};
use dl_addr::WhichFound;
use dl_cmd::{AddrWords, IndexWords, Job, LinesWords, LintWords, SourcesWords};
use dl_linting::{FindingCounts, LintedAround, RULES, tell_findings, write_counts};
use dl_locating::{find_lines, list_sources, locate};
use dl_memory::System;
use dl_open::{FileSource, FileUnits, units_not_read};
use dl_program::{Stop, StopLines, file_units, looked_into, work};
use dl_sections::RunFault;

/// Says of the file at this path which units aren't read, where there is one.
fn tell_not_read<F: FileSource>(rt: &HostRuntime, files: &F, path: Option<&str>, read: FileUnits) {
    let Some(path) = path else {
        return;
    };
    if let Some(units) = units_not_read(&System::new(rt.alloc()), files, path, read) {
        let _ = units.write_line(&mut rt.stderr());
    }
}

/// Does what a job says, of these files, and answers the program's status: 1 too where a unit is damaged after which a command goes on. Where
/// an address has no answer, it is said which units of the file aren't read.
pub fn run_job<'a, F: FileSource>(
    rt: &HostRuntime,
    files: &F,
    job: Job<'a>,
) -> Result<u8, Ending<'a>> {
    let path = looked_into(&job);
    let read = file_units(&job);
    match &job {
        Job::Addr(words) => run_addr(rt, files, words, path, read),
        Job::Index(words) => run_index(rt, files, words, path, read),
        Job::Lines(words) => run_lines(rt, files, words, path, read),
        Job::Sources(words) => Ok(run_sources(rt, files, words)?),
        Job::Lint(words) => run_lint(rt, files, words),
        Job::Dump(_) | Job::Check { .. } | Job::Find { .. } | Job::Copy { .. } => {
            run_work(rt, files, job, path, read)
        }
    }
}

/// Answers the addresses of `addr`.
fn run_addr<'a, F: FileSource>(
    rt: &HostRuntime,
    files: &F,
    words: &AddrWords<'a>,
    path: Option<&str>,
    read: FileUnits,
) -> Result<u8, Ending<'a>> {
    let located = locate(
        &System::new(rt.alloc()),
        words,
        files,
        &mut rt.stdin(),
        &mut rt.stdout(),
    )?;
    if located.found == WhichFound::NotAll {
        tell_not_read(rt, files, path, read);
    }
    match located.told()? {
        WhichFound::All => Ok(0),
        WhichFound::NotAll => Ok(1),
    }
}

/// Makes an index, or lists one.
fn run_index<'a, F: FileSource>(
    rt: &HostRuntime,
    files: &F,
    words: &IndexWords<'a>,
    path: Option<&str>,
    read: FileUnits,
) -> Result<u8, Ending<'a>> {
    if words.list {
        return list_index(rt, files, words);
    }
    let survey = write_index(rt, files, words)?;
    if survey.summary.skipped > 0 {
        tell_not_read(rt, files, path, read);
    }
    match survey.damaged {
        Some(units) => Err(Ending::Stop(Stop::Damaged { units })),
        None => Ok(0),
    }
}

/// Answers the lines of `lines`.
fn run_lines<'a, F: FileSource>(
    rt: &HostRuntime,
    files: &F,
    words: &LinesWords<'a>,
    path: Option<&str>,
    read: FileUnits,
) -> Result<u8, Ending<'a>> {
    let located = find_lines(
        &System::new(rt.alloc()),
        words,
        files,
        &mut rt.stdin(),
        &mut rt.stdout(),
    )?;
    match located.found {
        WhichFound::All => Ok(0),
        WhichFound::NotAll => {
            tell_not_read(rt, files, path, read);
            Ok(1)
        }
    }
}

/// Lists the source files.
pub fn run_sources<'a, F: FileSource>(
    rt: &HostRuntime,
    files: &F,
    words: &SourcesWords<'a>,
) -> Result<u8, Stop<'a>> {
    let survey = list_sources(
        &System::new(rt.alloc()),
        words,
        files,
        &mut rt.stdin(),
        &mut rt.stdout(),
    )?;
    match survey.damaged {
        Some(units) => Err(Stop::Damaged { units }),
        None => Ok(0),
    }
}

/// Whether there is a finding of some rule.
fn has_any(counts: &FindingCounts) -> bool {
    for rule in &RULES {
        if counts.of(*rule) != 0 {
            return true;
        }
    }
    false
}

/// Tells what in a line table misleads a debugger.
pub fn lint<'a, F: FileSource>(
    rt: &HostRuntime,
    files: &F,
    words: &LintWords<'a>,
) -> Result<LintedAround, Stop<'a>> {
    let mut damages = StopLines::new(rt.stderr());
    tell_findings(
        &System::new(rt.alloc()),
        words,
        files,
        &mut rt.stdin(),
        &mut rt.stdout(),
        &mut damages,
    )
}

/// The status: 1 where there is a finding, and where a unit is damaged.
pub fn lint_status(linted: &LintedAround) -> u8 {
    if has_any(&linted.counts) || linted.survey.damaged.is_some() {
        1
    } else {
        0
    }
}

/// Tells what in a line table misleads a debugger, and how many findings there are.
fn run_lint<'a, F: FileSource>(
    rt: &HostRuntime,
    files: &F,
    words: &LintWords<'a>,
) -> Result<u8, Ending<'a>> {
    let linted = lint(rt, files, words)?;
    if has_any(&linted.counts) {
        let _ = write_counts(&mut rt.stderr(), &linted.counts);
    }
    Ok(lint_status(&linted))
}

/// Does the work of the other commands.
fn run_work<'a, F: FileSource>(
    rt: &HostRuntime,
    files: &F,
    job: Job<'a>,
    path: Option<&str>,
    read: FileUnits,
) -> Result<u8, Ending<'a>> {
    let mut damages = StopLines::new(rt.stderr());
    let done = work(
        &System::new(rt.alloc()),
        Some(job),
        files,
        &mut rt.stdin(),
        &mut rt.stdout(),
        &mut damages,
    );
    match done {
        Ok(survey) => Ok(if survey.damaged.is_some() { 1 } else { 0 }),
        Err(stop) => {
            if matches!(stop, Stop::Run(RunFault::NotFound)) {
                tell_not_read(rt, files, path, read);
            }
            Err(Ending::Stop(stop))
        }
    }
}
