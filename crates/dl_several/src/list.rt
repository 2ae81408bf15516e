//! The paths of a list.
ghost use Rattle.std.specs.Prelude.{◌≡◌, ◌==◌};
ghost use Rattle.std.specs.List.{after_first, before_first};
ghost use Rattle.dl_several.specs.Lists.{AtPath, ListChecked, paths_in};
ghost use Rattle.dl_several.specs.Checks.{IsWorst};

use crate::checker::CheckFiles;
use crate::files::PathList;
use memchr::memchr;
use std::str;

/// What stands before the first byte `end`, and what behind it: nothing where there is none.
fn cut(list: &[u8], end: u8) -> (&[u8], &[u8])
    ensures before { result.0.now ≡ before_first (λ byte. byte == end) list.now }
    ensures behind { result.1.now ≡ after_first (λ byte. byte == end) list.now }
{
    match memchr(end, list) {
        Some(at) => (&list[..at], &list[at + 1..]),
        None => (list, &[]),
    }
}

/// Checks the file at a path, or tells that the path isn't UTF-8.
fn check_bytes<C: CheckFiles>(path: &[u8], checker: &mut C) -> u8
    ensures { AtPath C.checks C.refuses checker.old path.now result checker.new }
{
    match str::from_utf8(path) {
        Ok(path) => checker.check(path),
        Err(_) => checker.refuse(path),
    }
}

/// Checks the files at the paths in these bytes, behind each of which the byte `end` stands. Answers the worst status.
fn check_all<C: CheckFiles>(list: &[u8], end: u8, checker: &mut C) -> u8
    ensures { IsWorst (AtPath C.checks C.refuses) (paths_in end list.now) result checker.old checker.new }
{
    let mut worst: u8 = 0;
    let mut left = list;
    while !left.is_empty() {
        let (path, behind) = cut(left, end);
        if !path.is_empty() {
            worst = worst.max(check_bytes(path, checker));
        }
        left = behind;
    }
    worst
}

/// Reads a list, and checks the files at its paths. Answers the worst status.
pub(crate) fn check_list<C: CheckFiles>(list: &PathList<'_>, checker: &mut C) -> u8
    ensures { ListChecked C.checks C.refuses C.reads C.misses list.now result checker.old checker.new }
{
    match checker.read_list(list.path) {
        Ok(bytes) => check_all(bytes.as_slice(), list.end, checker),
        Err(status) => status,
    }
}
