//! Which words of a job may not stand together, and which have to be there beside others.
ghost use Rattle.std.specs.Prelude.{◌≡◌, ◌&&◌, ◌||◌, ◌∷◌, [], is_some, not, option_map};
ghost use Rattle.std.specs.Option.{option_map_or};
ghost use Rattle.dl_cmd.specs.Job.{dump_words_made, files_words_made, follow_words_made, index_words_made, lines_words_made, request_made};
ghost use Rattle.dl_cmd.specs.Job.{sources_words_made, unit_words_made, words_made};
ghost use Rattle.dl_cmd.specs.Refusals.{dump_conflicts, has_conflict, has_files, is_there, job_conflicts, job_lacks, lacks_word, refusal_of};
ghost use Rattle.dl_cmd.specs.Refusals.{says_both_follow, says_file_and_input, says_follow, says_of_file, says_of_input, says_of_made};
ghost use Rattle.dl_cmd.specs.Refusals.{says_strings, says_two_forms, says_two_parts, says_two_versions, sources_conflicts};

use crate::job::{
    DumpWords, FilesWords, FollowWords, IndexWords, Job, LinesWords, SourcesWords, UnitWords, Words,
};
use clap::error::ErrorKind;

/// Why a job isn't done for its words.
#[derive(Clone, Copy)]
pub struct Refusal {
    pub kind: ErrorKind,
    /// What the user is told.
    pub message: &'static str,
}

const NO_FILE: &str = "the following required arguments were not provided:\n  <FILE>";

const NO_LINE: &str = "the following required arguments were not provided:\n  <PATH:LINE>...";

const NO_LIST: &str = "the following required arguments were not provided:\n  --files-from <PATH>";

const NO_PATHS: &str = "the following required arguments were not provided:\n  --paths";

const NO_TO_5: &str = "the following required arguments were not provided:\n  --to-5";

const NO_OUTPUT: &str = "the following required arguments were not provided:\n  --output <PATH>";

fn two_versions(units: &UnitWords<'_>) -> Option<&'static str>
    ensures { is_some result ≡ says_two_versions (unit_words_made units.now) }
{
    if units.version_5 && units.address_size.is_some() {
        Some("the argument '--version-5' cannot be used with '--address-size <SIZE>'")
    } else {
        None
    }
}

/// What is said of a section on standard input alone, and so may not stand beside FILE.
fn of_input(big: bool, units: &UnitWords<'_>) -> Option<&'static str>
    ensures { is_some result ≡ says_of_input big (unit_words_made units.now) }
{
    if big {
        Some("the argument '--big' cannot be used with '[FILE]'")
    } else if units.older.is_some() {
        Some("the argument '--older <SIZE>' cannot be used with '[FILE]'")
    } else {
        None
    }
}

/// The same, which may not stand beside a list of files either.
fn of_input_listed(big: bool, units: &UnitWords<'_>) -> Option<&'static str>
    ensures { is_some result ≡ says_of_input big (unit_words_made units.now) }
{
    let message = if big {
        "the argument '--big' cannot be used with '--files-from <PATH>'"
    } else {
        "the argument '--older <SIZE>' cannot be used with '--files-from <PATH>'"
    };
    of_input(big, units).and(Some(message))
}

/// What is said of a section on standard input alone, where `check` reads files.
fn beside_files(
    file: Option<&str>,
    files: &FilesWords<'_>,
    big: bool,
    units: &UnitWords<'_>,
) -> Option<&'static str>
    ensures { is_some result ≡ (has_files (option_map (λ s. s.now) file.entry) (files_words_made files.now)
        && says_of_input big (unit_words_made units.now)) }
{
    if file.is_some() {
        of_input(big, units)
    } else if files.files_from.is_some() {
        of_input_listed(big, units)
    } else {
        None
    }
}

/// The string sections, which a file has too, so that these may not stand beside FILE either.
fn of_strings(line_str: Option<&str>, strings: Option<&str>) -> Option<&'static str>
    ensures { is_some result ≡ says_strings (option_map (λ s. s.now) line_str.entry) (option_map (λ s. s.now) strings.entry) }
{
    if line_str.is_some() {
        Some("the argument '--line-str <PATH>' cannot be used with '[FILE]'")
    } else if strings.is_some() {
        Some("the argument '--str <PATH>' cannot be used with '[FILE]'")
    } else {
        None
    }
}

/// What is said of a section on standard input, or of its string sections, where FILE is read.
fn beside_file(
    file: Option<&str>,
    big: bool,
    units: &UnitWords<'_>,
    line_str: Option<&str>,
    strings: Option<&str>,
) -> Option<&'static str>
    ensures { is_some result ≡ says_file_and_input (option_map (λ s. s.now) file.entry) big (unit_words_made units.now)
        (option_map (λ s. s.now) line_str.entry) (option_map (λ s. s.now) strings.entry) }
{
    file.and(of_input(big, units).or(of_strings(line_str, strings)))
}

/// Whether a folder is named.
fn names_dir(follow: &FollowWords<'_>) -> bool
    ensures { result ≡ is_there (follow_words_made follow.now).debug_dirs }
{
    match follow.debug_dirs.as_slice() {
        [] => false,
        [_, ..] => true,
    }
}

fn says_to_follow(follow: &FollowWords<'_>) -> bool
    ensures { result ≡ says_follow (follow_words_made follow.now) }
{
    names_dir(follow) || follow.no_follow
}

fn both_follow(follow: &FollowWords<'_>) -> Option<&'static str>
    ensures { is_some result ≡ says_both_follow (follow_words_made follow.now) }
{
    if names_dir(follow) && follow.no_follow {
        Some("the argument '--no-follow' cannot be used with '--debug-dir <DIR>'")
    } else {
        None
    }
}

/// What is said of files that are read in place of FILE, and so may not stand beside `--list`.
fn of_followed(follow: &FollowWords<'_>) -> Option<&'static str>
    ensures { is_some result ≡ says_follow (follow_words_made follow.now) }
{
    if names_dir(follow) {
        Some("the argument '--list' cannot be used with '--debug-dir <DIR>'")
    } else if follow.no_follow {
        Some("the argument '--list' cannot be used with '--no-follow'")
    } else {
        None
    }
}

/// What is said of an index that is made, and so may not stand beside `--list`.
fn of_made(words: &IndexWords<'_>, follow: &FollowWords<'_>) -> Option<&'static str>
    ensures { is_some result ≡ says_of_made (index_words_made words.now) (follow_words_made follow.now) }
{
    if words.output.is_some() {
        Some("the argument '--list' cannot be used with '--output <PATH>'")
    } else if words.all {
        Some("the argument '--list' cannot be used with '--all'")
    } else if words.keep_going {
        Some("the argument '--list' cannot be used with '--keep-going'")
    } else if words.section.is_some() {
        Some("the argument '--list' cannot be used with '--section <NAME>'")
    } else if words.units.version_5 {
        Some("the argument '--list' cannot be used with '--version-5'")
    } else if words.units.address_size.is_some() {
        Some("the argument '--list' cannot be used with '--address-size <SIZE>'")
    } else if words.comp_dir.is_some() {
        Some("the argument '--list' cannot be used with '--comp-dir <DIR>'")
    } else {
        of_followed(follow)
    }
}

/// What objects tell without it, and words of a part, which may not stand beside `--json`.
fn two_forms(words: &DumpWords<'_>) -> Option<&'static str>
    ensures { is_some result ≡ says_two_forms (dump_words_made words.now) }
{
    if !words.json {
        None
    } else if words.header {
        Some("the argument '--json' cannot be used with '--header'")
    } else if words.operations {
        Some("the argument '--json' cannot be used with '--operations'")
    } else if words.paths {
        Some("the argument '--json' cannot be used with '--paths'")
    } else if words.unit.is_some() {
        Some("the argument '--json' cannot be used with '--unit <OFFSET>'")
    } else if words.range.is_some() {
        Some("the argument '--json' cannot be used with '--range <LOW-HIGH>'")
    } else {
        None
    }
}

/// What may not stand beside `--unit`.
fn two_parts(words: &DumpWords<'_>) -> Option<&'static str>
    ensures { is_some result ≡ says_two_parts (dump_words_made words.now) }
{
    if words.unit.is_none() {
        None
    } else if words.range.is_some() {
        Some("the argument '--unit <OFFSET>' cannot be used with '--range <LOW-HIGH>'")
    } else if words.keep_going {
        Some("the argument '--unit <OFFSET>' cannot be used with '--keep-going'")
    } else {
        None
    }
}

/// Two words of `dump` that may not stand together, as the user is told.
fn dump_conflict(words: &DumpWords<'_>) -> Option<&'static str>
    ensures { is_some result ≡ dump_conflicts (dump_words_made words.now) }
{
    let units = &words.units;
    two_versions(units)
        .or(beside_file(words.file, words.big, units, words.line_str, words.strings))
        .or(two_forms(words).or(two_parts(words)))
}

/// Two words of `sources` that may not stand together, as the user is told.
fn sources_conflict(words: &SourcesWords<'_>) -> Option<&'static str>
    ensures { is_some result ≡ sources_conflicts (sources_words_made words.now) }
{
    let units = &words.units;
    let goes_past_unit = words.unit.is_some() && words.keep_going;
    let beside_unit = goes_past_unit.then_some(
        "the argument '--unit <OFFSET>' cannot be used with '--keep-going'",
    );
    let of_both = beside_file(words.file, words.big, units, words.line_str, words.strings);
    two_versions(units).or(of_both.or(beside_unit))
}

/// Two words of a job that may not stand together, as the user is told.
fn job_conflict(
    job: &Job<'_>,
    follow: &FollowWords<'_>,
    files: &FilesWords<'_>,
) -> Option<&'static str>
    ensures { is_some result ≡ job_conflicts (request_made job.now) (follow_words_made follow.now)
        (files_words_made files.now) }
{
    match job {
        Job::Dump(words) => dump_conflict(words),
        Job::Find {
            file,
            big,
            units,
            line_str,
            strings,
            ..
        } => two_versions(units).or(beside_file(*file, *big, units, *line_str, *strings)),
        Job::Check {
            file,
            big,
            units,
            ..
        } => two_versions(units).or(beside_files(*file, files, *big, units)),
        Job::Copy {
            file,
            big,
            units,
            ..
        } => file.and(of_input(*big, units)),
        Job::Addr(words) => {
            let json = words.json && words.with_addresses;
            let beside_json = json.then_some(
                "the argument '--json' cannot be used with '--addresses'",
            );
            two_versions(&words.units).or(beside_json)
        }
        Job::Index(words) => {
            let listed = words.list.then_some(());
            two_versions(&words.units).or(listed.and(of_made(words, follow)))
        }
        Job::Sources(words) => sources_conflict(words),
        Job::Lines(words) => two_versions(&words.units),
        Job::Lint(words) => two_versions(&words.units).or(beside_file(
            words.file,
            words.big,
            &words.units,
            words.line_str,
            words.strings,
        )),
    }
}

/// Two words that may not stand together, as the user is told.
fn conflict(words: &Words<'_>) -> Option<&'static str>
    ensures { is_some result ≡ has_conflict (words_made words.now) }
{
    both_follow(&words.follow).or(job_conflict(&words.job, &words.follow, &words.files))
}

fn is_of_file(units: &UnitWords<'_>) -> bool
    ensures { result ≡ says_of_file (unit_words_made units.now) }
{
    units.version_5 || units.address_size.is_some()
}

/// FILE or a line of `lines`, where there is none.
fn lines_lack(words: &LinesWords<'_>) -> Option<&'static str>
    ensures { is_some result ≡ (not (is_some (lines_words_made words.now).file)
        || not (is_there (lines_words_made words.now).wanted)) }
{
    if words.file.is_none() {
        return Some(NO_FILE);
    }
    match words.wanted.as_slice() {
        [] => Some(NO_LINE),
        [_, ..] => None,
    }
}

/// A word of a job that has to be there beside others and isn't, as the user is told.
fn job_lack(job: &Job<'_>, follow: &FollowWords<'_>, files: &FilesWords<'_>) -> Option<&'static str>
    ensures { is_some result ≡ job_lacks (request_made job.now) (follow_words_made follow.now) (files_words_made files.now) }
{
    let follows = says_to_follow(follow);
    match job {
        Job::Dump(words) => {
            let no_file = words.file.is_none() && (is_of_file(&words.units) || follows);
            let no_paths = !words.paths && words.comp_dir.is_some();
            no_file.then_some(NO_FILE).or(no_paths.then_some(NO_PATHS))
        }
        Job::Check { file, units, .. } => {
            let no_list = files.files_from.is_none();
            let no_file = file.is_none() && no_list && (is_of_file(units) || follows);
            no_file
                .then_some(NO_FILE)
                .or((files.null && no_list).then_some(NO_LIST))
        }
        Job::Find {
            file,
            units,
            section,
            ..
        } => {
            let is_said = is_of_file(units) || follows || section.is_some();
            (file.is_none() && is_said).then_some(NO_FILE)
        }
        Job::Copy {
            file,
            units,
            to_5,
            comp_dir,
            ..
        } => {
            let no_file = file.is_none() && units.address_size.is_some();
            let no_to_5 = !*to_5
                && (units.older.is_some() || units.address_size.is_some() || comp_dir.is_some());
            no_file.then_some(NO_FILE).or(no_to_5.then_some(NO_TO_5))
        }
        Job::Addr(words) => words.file.is_none().then_some(NO_FILE),
        Job::Index(words) => (!words.list && words.output.is_none()).then_some(NO_OUTPUT),
        Job::Sources(words) => {
            let is_said = is_of_file(&words.units) || follows || words.all;
            (words.file.is_none() && is_said).then_some(NO_FILE)
        }
        Job::Lines(words) => lines_lack(words),
        Job::Lint(words) => {
            let is_said = is_of_file(&words.units) || follows;
            (words.file.is_none() && is_said).then_some(NO_FILE)
        }
    }
}

/// A word that has to be there beside others and isn't, as the user is told.
fn lack(words: &Words<'_>) -> Option<&'static str>
    ensures { is_some result ≡ lacks_word (words_made words.now) }
{
    job_lack(&words.job, &words.follow, &words.files)
}

/// Why a job isn't done for its words; None where it is.
pub fn why_refused(words: &Words<'_>) -> Option<Refusal>
    ensures { refusal_of (words_made words.now) ≡ option_map_or (λ r. r.kind ∷ []) result [] }
{
    if let Some(message) = conflict(words) {
        return Some(Refusal {
            kind: ErrorKind::ArgumentConflict,
            message,
        });
    }
    let message = lack(words)?;
    Some(Refusal {
        kind: ErrorKind::MissingRequiredArgument,
        message,
    })
}
