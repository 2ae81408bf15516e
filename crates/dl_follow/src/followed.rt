//! The file whose line table is read for another one.
ghost use Rattle.std.specs.Prelude.{◌≡◌};
ghost use Rattle.dl_elf.specs.Source.{ForBytes};
ghost use Rattle.dl_follow.specs.Clues.{clues_seen};
ghost use Rattle.dl_follow.specs.Followed.{FollowedOpen, FollowsClues, IsFollowed, followed_seen};
ghost use Rattle.dl_follow.specs.Seen.{folders_seen};

use crate::candidates::Folders;
use crate::clues::{Clues, read_clues};
use crate::search::{Taken, follow};
use dl_open::FileSource;

/// The file whose line table is read for the file at a path.
#[derive(Drop)]
pub enum Followed<T> {
    /// That file itself: it has a line section, or it can't be told whether it has one.
    Own,
    /// This one, open to be read: the first has no line section, and says this.
    Other { taken: Taken<T>, clues: Clues },
    /// The first has no line section, and none was found with its debug information, of which it says this.
    Lost(Clues),
}

/// The file whose line table is read for the file at a path: that itself, but where it has no line section the one that
/// [`follow`] finds by what it says. A line section of that one isn't looked for: one step is followed.
pub fn table_file<F: FileSource>(files: &F, path: &str, folders: &Folders<'_>) -> Followed<F::File>
    ensures followed { ForBytes (F.held files.now path.now) (λ f.
        IsFollowed (F.held files.now) (F.fails_with files.now) path.now (folders_seen folders.now) f (followed_seen result)) }
    ensures open { FollowedOpen F.File.all_bytes F.File.fails_with (F.held files.now) (F.fails_with files.now) result }
{
    let Ok(file) = files.open(path) else {
        return Followed::Own;
    };
    match read_clues(&file) {
        Ok(Some(clues)) => by_clues(files, path, folders, clues),
        Ok(None) => Followed::Own,
        Err(_) => Followed::Own,
    }
}

/// The same for a file without a line section that says this.
fn by_clues<F: FileSource>(
    files: &F,
    path: &str,
    folders: &Folders<'_>,
    clues: Clues,
) -> Followed<F::File>
    ensures found { FollowsClues (F.held files.now) (F.fails_with files.now) path.now (folders_seen folders.now)
        (clues_seen clues) (followed_seen result) }
    ensures open { FollowedOpen F.File.all_bytes F.File.fails_with (F.held files.now) (F.fails_with files.now) result }
{
    match follow(files, &clues.sought(path), folders) {
        Some(taken) => Followed::Other { taken, clues },
        None => Followed::Lost(clues),
    }
}
