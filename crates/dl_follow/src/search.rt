//! The file with the debug information of another one.
ghost use Rattle.std.specs.Prelude.{◌≡◌, option_map, IfSome, MatchOption};
ghost use Rattle.dl_follow.specs.Candidates.{IsFirst, IsTaken, PassedOver, candidates};
ghost use Rattle.dl_follow.specs.Left.{candidate_seen};
ghost use Rattle.dl_follow.specs.Seen.{IsOpen, folders_seen, path_taken, sought_seen};

use crate::candidates::{Candidate, Candidates, Folders, Sought};
use crate::fit::fits;
use crate::place::{PATH_LIMIT, path_of};
use arrayvec::ArrayString;
use dl_open::FileSource;
use std::str;

/// A file that was found, open to be read.
#[derive(Drop)]
pub struct Taken<T> {
    pub path: ArrayString<PATH_LIMIT>,
    pub file: T,
}

/// The file at a place, where it can be opened and fits. That at the path `own` isn't taken.
fn file_at<F: FileSource>(files: &F, own: &str, candidate: &Candidate<'_>) -> Option<Taken<F::File>>
    ensures taken { MatchOption result (PassedOver (F.held files.now) (F.fails_with files.now) own.now
        (candidate_seen candidate.now))
        (λ taken. IsTaken (F.held files.now) own.now (candidate_seen candidate.now) taken.path.bytes) }
    ensures open { IfSome result (IsOpen F.File.all_bytes F.File.fails_with (F.held files.now) (F.fails_with files.now)) }
{
    let Ok(bytes) = path_of(&candidate.place) else {
        return None;
    };
    let Ok(text) = str::from_utf8(bytes.as_slice()) else {
        return None;
    };
    let Ok(path) = ArrayString::from(text) else {
        return None;
    };
    if text == own {
        return None;
    }
    let Ok(file) = files.open(text) else {
        return None;
    };
    if fits(&file, candidate.fit) {
        Some(Taken { path, file })
    } else {
        None
    }
}

/// The file with the debug information of another one: the first that can be opened and fits, of those by the build ID below
/// folders for debug information, those by the debug link, and that in a cache of debuginfod.
///
/// A file by the build ID fits where its own is the same; one by the debug link where CRC-32 of its bytes is the link's. The
/// file itself isn't taken.
pub fn follow<F: FileSource>(
    files: &F,
    sought: &Sought<'_>,
    folders: &Folders<'_>,
) -> Option<Taken<F::File>>
    ensures first { IsFirst (F.held files.now) (F.fails_with files.now) sought.now.path.now
        (candidates (folders_seen folders.now) (sought_seen sought.now)) (option_map path_taken result) }
    ensures open { IfSome result (IsOpen F.File.all_bytes F.File.fails_with (F.held files.now) (F.fails_with files.now)) }
{
    let mut candidates = Candidates::new(sought, folders);
    while let Some(candidate) = candidates.next() {
        if let Some(taken) = file_at(files, sought.path, &candidate) {
            return Some(taken);
        }
    }
    None
}
