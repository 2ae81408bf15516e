//! The values of arguments in the matches of a subcommand.
ghost use Rattle.std.specs.Prelude.{◌≡◌, IfOk, OnErr, map, option_map};
ghost use Rattle.clap.specs.Words.{found_of, rows_of};
ghost use Rattle.dl_options.specs.Memory.{LibraryRefused};
ghost use Rattle.dl_cmd.specs.Job.{unit_words_made};
ghost use Rattle.dl_cmd.specs.Words.{byte_of, flag_of, text_of, texts_of, unit_words_of};

use crate::job::UnitWords;
use clap::ArgMatches;
use dl_options::refused;
use std::alloc::{AllocError, Global};

pub fn text<'a>(matches: &ArgMatches<'a>, id: &str) -> Option<&'a str>
    ensures { option_map (λ s. s.now) result ≡ text_of id.now (rows_of (found_of matches.now)) }
{
    matches.get_str(id)
}

pub fn byte(matches: &ArgMatches<'_>, id: &str) -> u8
    ensures { result ≡ byte_of id.now (rows_of (found_of matches.now)) }
{
    matches.get_one::<u8>(id).unwrap_or(0)
}

pub fn flag(matches: &ArgMatches<'_>, id: &str) -> bool
    ensures { result ≡ flag_of id.now (rows_of (found_of matches.now)) }
{
    match matches.get_str(id) {
        Some(text) => text == "true",
        None => false,
    }
}

pub fn copied<'a>(alloc: Global, texts: &[&'a str]) -> Result<Vec<&'a str>, AllocError>
    ensures texts { IfOk result (λ v. v.items ≡ texts.now) }
    ensures refused { OnErr result LibraryRefused }
{
    match texts.to_vec(alloc) {
        Ok(copied) => Ok(copied),
        Err(error) => Err(refused(error)),
    }
}

pub fn texts<'a>(
    alloc: Global,
    matches: &ArgMatches<'a>,
    id: &str,
) -> Result<Vec<&'a str>, AllocError>
    ensures texts { IfOk result (λ v. map (λ s. s.now) v.items ≡ texts_of id.now (rows_of (found_of matches.now))) }
    ensures refused { OnErr result LibraryRefused }
{
    match matches.get_strs(id) {
        Some(found) => copied(alloc, found),
        None => Ok(Vec::new(alloc)),
    }
}

pub fn unit_words<'a>(matches: &ArgMatches<'a>) -> UnitWords<'a>
    ensures { unit_words_made result ≡ unit_words_of (rows_of (found_of matches.now)) }
{
    UnitWords {
        older: text(matches, "older"),
        address_size: text(matches, "address-size"),
        version_5: flag(matches, "version-5"),
    }
}
