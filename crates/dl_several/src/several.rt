//! All files that are checked.
ghost use Rattle.std.specs.Prelude.{map};
ghost use Rattle.dl_several.specs.Checks.{IsWorst};
ghost use Rattle.dl_several.specs.Several.{AreChecked, named};

use crate::checker::CheckFiles;
use crate::files::Several;
use crate::list::check_list;

/// Checks the files at these paths. Answers the worst status.
fn check_paths<C: CheckFiles>(paths: &[&str], checker: &mut C) -> u8
    ensures { IsWorst C.checks (map (λ path. path.now) paths.now) result checker.old checker.new }
{
    let mut worst: u8 = 0;
    for path in paths {
        worst = worst.max(checker.check(path));
    }
    worst
}

/// Checks the files that are named one by one. Answers the worst status.
fn check_named<C: CheckFiles>(files: &Several<'_>, checker: &mut C) -> u8
    ensures { IsWorst C.checks (named files.now) result checker.old checker.new }
{
    match files.first {
        Some(path) => {
            let first = checker.check(path);
            first.max(check_paths(files.others, checker))
        }
        None => check_paths(files.others, checker),
    }
}

/// Checks each file once: the first one, the others in their order, and then those of the list in its order, which is
/// read behind the others. An empty path in it stands for no file, and of one that isn't UTF-8 that is told.
///
/// Answers the worst status, with that of a list that can't be read; 0 where there are no files.
pub fn check_several<C: CheckFiles>(files: &Several<'_>, checker: &mut C) -> u8
    ensures { AreChecked C.checks C.refuses C.reads C.misses files.now result checker.old checker.new }
{
    let worst = check_named(files, checker);
    match &files.list {
        Some(list) => worst.max(check_list(list, checker)),
        None => worst,
    }
}
