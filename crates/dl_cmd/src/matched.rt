//! What the matches of a subcommand ask for.
ghost use Rattle.std.specs.Prelude.{◌≡◌, IfOk, OnErr, codes, drop, map, option_map};
ghost use Rattle.clap.specs.Words.{found_of, rows_of};
ghost use Rattle.dl_options.specs.Memory.{LibraryRefused};
ghost use Rattle.dl_cmd.specs.Job.{addr_words_made, dump_words_made, files_words_made, follow_words_made, index_words_made, lines_words_made};
ghost use Rattle.dl_cmd.specs.Job.{lint_words_made, request_made, sources_words_made};
ghost use Rattle.dl_cmd.specs.Words.{addr_words_of, dump_words_of, file_and_addresses, files_words_of, follow_said_of};
ghost use Rattle.dl_cmd.specs.Words.{index_words_of, lines_words_of, lint_words_of, request_of, sources_words_of, texts_of};

use crate::job::{
    AddrWords, DumpWords, FilesWords, FollowWords, IndexWords, Job, LinesWords, LintWords,
    SourcesWords,
};
use crate::values::{byte, copied, flag, text, texts, unit_words};
use clap::ArgMatches;
use dl_options::refused;
use std::alloc::{AllocError, Global};

/// The file and the addresses of `addr`, by the value of `-e`, the first word and the others.
fn file_and_addresses<'a>(
    exe: Option<&'a str>,
    first: Option<&'a str>,
    others: Vec<&'a str>,
) -> Result<(Option<&'a str>, Vec<&'a str>), AllocError>
    ensures words { IfOk result (λ r. (option_map (λ s. s.now) r.0, map (λ s. s.now) r.1.items)
        ≡ file_and_addresses (option_map (λ s. s.now) exe.entry) (option_map (λ s. s.now) first.entry)
        (map (λ s. s.now) others.entry.items)) }
    ensures refused { OnErr result LibraryRefused }
{
    let (Some(exe), Some(first)) = (exe, first) else {
        return Ok((exe.or(first), others));
    };
    let mut addresses = others;
    match addresses.insert(0, first) {
        Ok(()) => Ok((Some(exe), addresses)),
        Err(error) => Err(refused(error.into())),
    }
}

fn addr_words<'a>(alloc: Global, matches: &ArgMatches<'a>) -> Result<AddrWords<'a>, AllocError>
    ensures words { IfOk result (λ w. addr_words_made w ≡ addr_words_of (rows_of (found_of matches.now))) }
    ensures refused { OnErr result LibraryRefused }
{
    let others = texts(alloc, matches, "address")?;
    let (file, addresses) = file_and_addresses(
        text(matches, "exe"),
        text(matches, "file"),
        others,
    )?;
    Ok(AddrWords {
        file,
        addresses,
        hex: !flag(matches, "decimal"),
        base: text(matches, "base"),
        with_addresses: flag(matches, "addresses"),
        basenames: flag(matches, "basenames"),
        json: flag(matches, "json"),
        all: flag(matches, "all"),
        stop: flag(matches, "stop"),
        section: text(matches, "section"),
        big: flag(matches, "big"),
        units: unit_words(matches),
        comp_dir: text(matches, "comp-dir"),
        made_of: text(matches, "for"),
        line_str: text(matches, "line-str"),
        strings: text(matches, "str"),
    })
}

fn index_words<'a>(matches: &ArgMatches<'a>) -> IndexWords<'a>
    ensures { index_words_made result ≡ index_words_of (rows_of (found_of matches.now)) }
{
    IndexWords {
        file: text(matches, "file"),
        output: text(matches, "output"),
        list: flag(matches, "list"),
        all: flag(matches, "all"),
        keep_going: flag(matches, "keep-going"),
        section: text(matches, "section"),
        units: unit_words(matches),
        comp_dir: text(matches, "comp-dir"),
    }
}

fn sources_words<'a>(matches: &ArgMatches<'a>) -> SourcesWords<'a>
    ensures { sources_words_made result ≡ sources_words_of (rows_of (found_of matches.now)) }
{
    let unit = text(matches, "unit");
    SourcesWords {
        file: text(matches, "file"),
        rows: flag(matches, "rows"),
        md5: flag(matches, "md5"),
        json: flag(matches, "json"),
        unit,
        all: flag(matches, "all"),
        keep_going: flag(matches, "keep-going"),
        big: flag(matches, "big"),
        units: unit_words(matches),
        comp_dir: text(matches, "comp-dir"),
        line_str: text(matches, "line-str"),
        strings: text(matches, "str"),
    }
}

fn lines_words<'a>(alloc: Global, matches: &ArgMatches<'a>) -> Result<LinesWords<'a>, AllocError>
    ensures words { IfOk result (λ w. lines_words_made w ≡ lines_words_of (rows_of (found_of matches.now))) }
    ensures refused { OnErr result LibraryRefused }
{
    Ok(LinesWords {
        file: text(matches, "file"),
        wanted: texts(alloc, matches, "line")?,
        exact: flag(matches, "exact"),
        all: flag(matches, "all"),
        stop: flag(matches, "stop"),
        section: text(matches, "section"),
        big: flag(matches, "big"),
        units: unit_words(matches),
        comp_dir: text(matches, "comp-dir"),
        line_str: text(matches, "line-str"),
        strings: text(matches, "str"),
    })
}

fn dump_words<'a>(matches: &ArgMatches<'a>) -> DumpWords<'a>
    ensures { dump_words_made result ≡ dump_words_of (rows_of (found_of matches.now)) }
{
    DumpWords {
        file: text(matches, "file"),
        big: flag(matches, "big"),
        units: unit_words(matches),
        line_str: text(matches, "line-str"),
        strings: text(matches, "str"),
        keep_going: flag(matches, "keep-going"),
        header: flag(matches, "header"),
        operations: flag(matches, "operations"),
        paths: flag(matches, "paths"),
        comp_dir: text(matches, "comp-dir"),
        json: flag(matches, "json"),
        unit: text(matches, "unit"),
        range: text(matches, "range"),
    }
}

fn lint_words<'a>(alloc: Global, matches: &ArgMatches<'a>) -> Result<LintWords<'a>, AllocError>
    ensures words { IfOk result (λ w. lint_words_made w ≡ lint_words_of (rows_of (found_of matches.now))) }
    ensures refused { OnErr result LibraryRefused }
{
    Ok(LintWords {
        file: text(matches, "file"),
        rules: texts(alloc, matches, "rule")?,
        no_rules: texts(alloc, matches, "no-rule")?,
        json: flag(matches, "json"),
        keep_going: flag(matches, "keep-going"),
        big: flag(matches, "big"),
        units: unit_words(matches),
        line_str: text(matches, "line-str"),
        strings: text(matches, "str"),
    })
}

pub fn job_of<'a>(
    alloc: Global,
    name: &str,
    matches: &ArgMatches<'a>,
) -> Result<Option<Job<'a>>, AllocError>
    ensures request { IfOk result (λ job. option_map request_made job
        ≡ request_of name.now (rows_of (found_of matches.now))) }
    ensures refused { OnErr result LibraryRefused }
{
    let job = match name {
        "addr" => Job::Addr(addr_words(alloc, matches)?),
        "index" => Job::Index(index_words(matches)),
        "dump" => Job::Dump(dump_words(matches)),
        "check" => Job::Check {
            file: text(matches, "file"),
            big: flag(matches, "big"),
            units: unit_words(matches),
            keep_going: flag(matches, "keep-going"),
        },
        "find" => Job::Find {
            file: text(matches, "file"),
            big: flag(matches, "big"),
            units: unit_words(matches),
            address: text(matches, "address"),
            op: byte(matches, "op"),
            section: text(matches, "section"),
            line_str: text(matches, "line-str"),
            strings: text(matches, "str"),
        },
        "copy" => Job::Copy {
            file: text(matches, "file"),
            big: flag(matches, "big"),
            units: unit_words(matches),
            to_5: flag(matches, "to-5"),
            comp_dir: text(matches, "comp-dir"),
        },
        "sources" => Job::Sources(sources_words(matches)),
        "lines" => Job::Lines(lines_words(alloc, matches)?),
        "lint" => Job::Lint(lint_words(alloc, matches)?),
        _ => return Ok(None),
    };
    Ok(Some(job))
}

/// What is said of files that are read in place of FILE, as it stands.
pub fn follow_said<'a>(
    alloc: Global,
    matches: &ArgMatches<'a>,
) -> Result<FollowWords<'a>, AllocError>
    ensures words { IfOk result (λ w. follow_words_made w ≡ follow_said_of (rows_of (found_of matches.now))) }
    ensures refused { OnErr result LibraryRefused }
{
    Ok(FollowWords {
        debug_dirs: texts(alloc, matches, "debug-dir")?,
        no_follow: flag(matches, "no-follow"),
        verbose: flag(matches, "verbose"),
    })
}

fn after_first<'a, 'b>(texts: &'b [&'a str]) -> &'b [&'a str]
    ensures { result.now ≡ drop 1 texts.now }
{
    match texts {
        [_, others @ ..] => others,
        [] => texts,
    }
}

/// FILEs after the first one.
fn other_files<'a>(alloc: Global, matches: &ArgMatches<'a>) -> Result<Vec<&'a str>, AllocError>
    ensures texts { IfOk result (λ v. map (λ s. s.now) v.items
        ≡ drop 1 (texts_of (codes "file") (rows_of (found_of matches.now)))) }
    ensures refused { OnErr result LibraryRefused }
{
    match matches.get_strs("file") {
        Some(found) => copied(alloc, after_first(found)),
        None => Ok(Vec::new(alloc)),
    }
}

pub fn files_words<'a>(
    alloc: Global,
    name: &str,
    matches: &ArgMatches<'a>,
) -> Result<FilesWords<'a>, AllocError>
    ensures words { IfOk result (λ w. files_words_made w ≡ files_words_of name.now (rows_of (found_of matches.now))) }
    ensures refused { OnErr result LibraryRefused }
{
    if name != "check" {
        return Ok(FilesWords {
            others: Vec::new(alloc),
            files_from: None,
            null: false,
            progress: false,
        });
    }
    Ok(FilesWords {
        others: other_files(alloc, matches)?,
        files_from: text(matches, "files-from"),
        null: flag(matches, "null"),
        progress: flag(matches, "progress"),
    })
}
