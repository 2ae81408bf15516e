//! The words of the command line, and the job that they ask for.

ghost use Rattle.std.specs.Prelude.{◌≡◌, [], Option, IfOk, IfSome, OnErr, is_some, map, option_map, true};
ghost use Rattle.std.specs.Option.{option_map_or};
ghost use Rattle.clap.specs.Words.{FailsBy, found_of, kind_of, rows_of, subcommand_of};
ghost use Rattle.dl_options.specs.CommandLine.{command_line};
ghost use Rattle.dl_options.specs.Memory.{WantsRefused, LibraryRefused};
ghost use Rattle.dl_cmd.specs.Job.{files_words_made, follow_words_made, request_made, words_made};
ghost use Rattle.dl_cmd.specs.Refusals.{refusal_of, word_faults};
ghost use Rattle.dl_cmd.specs.Words.{dirs_or_default, files_words_of, follow_by, follow_words_of, request_of, requested};
ghost use Rattle.dl_cmd.specs.Words.{said_of, word_status_of};

use crate::job::{FollowWords, Job, Words};
use crate::matched::{files_words, follow_said, job_of};
use crate::refusal::{Refusal, why_refused};
use clap::error::ErrorKind;
use clap::{ArgMatches, Command, Error};
use dl_options::{make_command_line, refused};
use std::alloc::{AllocError, Global};

/// The folder for separate debug files where none is said.
const DEBUG_DIR: &str = "/usr/lib/debug";

/// The folders that are said, or the one that stands for them.
fn dirs_or_default<'a>(dirs: Vec<&'a str>) -> Result<Vec<&'a str>, AllocError>
    ensures dirs { IfOk result (λ v. map (λ s. s.now) v.items ≡ dirs_or_default (map (λ s. s.now) dirs.entry.items)) }
    ensures refused { OnErr result LibraryRefused }
{
    let mut dirs = dirs;
    if !dirs.is_empty() {
        return Ok(dirs);
    }
    match dirs.push(DEBUG_DIR) {
        Ok(()) => Ok(dirs),
        Err(error) => Err(refused(error.into())),
    }
}

/// What the subcommand of this name does by what is said.
fn follow_by<'a>(
    alloc: Global,
    name: &str,
    said: FollowWords<'a>,
) -> Result<FollowWords<'a>, AllocError>
    ensures words { IfOk result (λ w. follow_words_made w ≡ follow_by name.now (follow_words_made said.entry)) }
    ensures refused { OnErr result LibraryRefused }
{
    if name == "copy" {
        return Ok(FollowWords {
            debug_dirs: Vec::new(alloc),
            no_follow: true,
            verbose: false,
        });
    }
    let FollowWords {
        debug_dirs,
        no_follow,
        verbose,
    } = said;
    Ok(FollowWords {
        debug_dirs: dirs_or_default(debug_dirs)?,
        no_follow,
        verbose,
    })
}

/// All that the words say of the subcommand of this name, as it stands.
fn said<'a>(
    alloc: Global,
    name: &str,
    matches: &ArgMatches<'a>,
) -> Result<Option<Words<'a>>, AllocError>
    ensures words { IfOk result (λ w. option_map words_made w ≡ said_of name.now (rows_of (found_of matches.now))) }
    ensures refused { OnErr result LibraryRefused }
{
    let Some(job) = job_of(alloc, name, matches)? else {
        return Ok(None);
    };
    let follow = follow_said(alloc, matches)?;
    let files = files_words(alloc, name, matches)?;
    Ok(Some(Words { job, follow, files }))
}

/// The subcommand that a job is asked for with, by itself.
fn command_of<'a>(alloc: Global, job: &Job<'_>) -> Result<Command<'a>, AllocError>
    ensures refused { OnErr result LibraryRefused }
{
    match job {
        Job::Addr(_) => dl_options::addr(alloc),
        Job::Index(_) => dl_options::index(alloc),
        Job::Dump(_) => dl_options::dump(alloc),
        Job::Check { .. } => dl_options::check(alloc),
        Job::Find { .. } => dl_options::find(alloc),
        Job::Copy { .. } => dl_options::copy(alloc),
        Job::Sources(_) => dl_options::sources(alloc),
        Job::Lines(_) => dl_options::lines(alloc),
        Job::Lint(_) => dl_options::lint(alloc),
    }
}

/// The error of a job that isn't done, with the usage of its subcommand.
fn error_of(alloc: Global, job: &Job<'_>, refusal: Refusal) -> Result<Error, AllocError>
    ensures kind { IfOk result (λ e. kind_of e ≡ refusal.kind) }
    ensures refused { OnErr result LibraryRefused }
{
    let command = command_of(alloc, job)?;
    let name = match format!(in alloc; "dwline {}", command.get_name()) {
        Ok(name) => name,
        Err(error) => return Err(refused(error)),
    };
    let mut command = match command.bin_name(name.as_str()) {
        Ok(command) => command,
        Err(error) => return Err(refused(error)),
    };
    match command.error(refusal.kind, refusal.message) {
        Ok(error) => Ok(error),
        Err(error) => Err(refused(error)),
    }
}

/// The words, where they may stand together.
fn allowed<'a>(alloc: Global, words: Words<'a>) -> Result<Words<'a>, Error>
    ensures kinds { FailsBy (refusal_of (words_made words.entry)) result }
    ensures refused { WantsRefused result }
    ensures same { IfOk result (λ r. r ≡ words.entry) }
{
    match why_refused(&words) {
        Some(refusal) => Err(error_of(alloc, &words.job, refusal)?),
        None => Ok(words),
    }
}

/// The same words, with what the subcommand of this name does by what is said of other files.
fn with_follow<'a>(alloc: Global, name: &str, words: Words<'a>) -> Result<Words<'a>, AllocError>
    ensures words { IfOk result (λ w. words_made w ≡ record (words_made words.entry) {
      follow = follow_by name.now (words_made words.entry).follow;
    }) }
    ensures refused { OnErr result LibraryRefused }
{
    let Words { job, follow, files } = words;
    let follow = follow_by(alloc, name, follow)?;
    Ok(Words { job, follow, files })
}

/// What the subcommand of this name is asked for, where its words may stand together.
fn asked_words<'a>(
    alloc: Global,
    name: &str,
    matches: &ArgMatches<'a>,
) -> Result<Option<Words<'a>>, Error>
    ensures kinds { FailsBy (option_map_or refusal_of (said_of name.now (rows_of (found_of matches.now))) []) result }
    ensures refused { WantsRefused result }
    ensures job { IfOk result (λ words. option_map (λ w. request_made w.job) words
        ≡ request_of name.now (rows_of (found_of matches.now))) }
    ensures follow { IfOk result (λ words. IfSome words (λ w. follow_words_made w.follow
        ≡ follow_words_of name.now (rows_of (found_of matches.now)))) }
    ensures files { IfOk result (λ words. IfSome words (λ w. files_words_made w.files
        ≡ files_words_of name.now (rows_of (found_of matches.now)))) }
{
    let Some(words) = said(alloc, name, matches)? else {
        return Ok(None);
    };
    let words = allowed(alloc, words)?;
    Ok(Some(with_follow(alloc, name, words)?))
}

/// What the words say, the program's name first. There is something wherever there is no error.
///
/// The error's text says what isn't understood, or is the help that was asked for. It is want of memory only where the
/// standard library or clap was refused some.
pub fn read_words<'a>(alloc: Global, words: &'a [&'a str]) -> Result<Option<Words<'a>>, Error>
    ensures job { IfOk result (λ said. option_map (λ w. request_made w.job) said
        ≡ requested (subcommand_of command_line (map (λ w. w.now) words.entry.now))) }
    ensures follow { IfOk result (λ said. option_map (λ w. follow_words_made w.follow) said
        ≡ option_map (λ p. follow_words_of p.0 p.1) (subcommand_of command_line (map (λ w. w.now) words.entry.now))) }
    ensures files { IfOk result (λ said. option_map (λ w. files_words_made w.files) said
        ≡ option_map (λ p. files_words_of p.0 p.1) (subcommand_of command_line (map (λ w. w.now) words.entry.now))) }
    ensures some { IfOk result (λ said. is_some said ≡ true) }
    ensures kinds { FailsBy (word_faults (map (λ w. w.now) words.entry.now)) result }
    ensures refused { WantsRefused result }
{
    let matches = make_command_line(alloc)?.try_get_matches_from(words)?;
    match matches.subcommand() {
        Some((name, inner)) => asked_words(alloc, name, inner),
        None => Ok(None),
    }
}

/// The program's status where the words gave no job: 0 for help and for the version, 3 for want of memory, else 2.
pub fn word_status(error: &Error) -> u8
    ensures { result ≡ word_status_of (kind_of error.now) }
{
    match error.kind() {
        ErrorKind::DisplayHelp | ErrorKind::DisplayVersion => 0,
        ErrorKind::OutOfMemory => 3,
        _ => 2,
    }
}
