//! The places where the debug information of a file is looked for, one after the other.
ghost use Rattle.std.specs.Prelude.{◌≡◌, ◌∷◌, [], MatchOption};
ghost use Rattle.dl_follow.specs.Candidates.{candidates};
ghost use Rattle.dl_follow.specs.Left.{builds_left, cached_left, candidate_seen, left, linked_left};
ghost use Rattle.dl_follow.specs.Seen.{folders_seen, sought_seen};

use crate::fit::Fit;
use crate::place::{Place, folder_of};
use dl_elf::BuildId;
use dl_link::DebugLink;

/// Where the debug information of files is looked for.
#[derive(Clone, Copy)]
pub struct Folders<'a> {
    /// Folders for debug information.
    pub dirs: &'a [&'a str],
    /// The folder of the file as an absolute path, with a slash at both ends; None where it isn't known.
    pub absolute: Option<&'a [u8]>,
    /// A cache of debuginfod.
    pub cache: Option<&'a str>,
}

/// What is known of a file whose debug information is looked for.
#[derive(Clone, Copy)]
pub struct Sought<'a> {
    /// Its path.
    pub path: &'a str,
    pub id: Option<&'a BuildId>,
    pub link: Option<&'a DebugLink>,
}

/// A place where the debug information of a file may stand, and by what the file there is known.
#[derive(Clone, Copy)]
pub struct Candidate<'a> {
    pub place: Place<'a>,
    pub fit: Fit<'a>,
}

/// Which place by the debug link comes next.
#[derive(Clone, Copy)]
enum Link {
    /// In the folder of the file.
    Beside,
    /// In `.debug` of it.
    Hidden,
    /// Below folders for debug information.
    Below,
}

/// The places where the debug information of a file is looked for, in order: by the build ID below folders for debug
/// information, by the debug link, and in a cache of debuginfod.
#[derive(Clone, Copy)]
pub struct Candidates<'a> {
    sought: Sought<'a>,
    folders: Folders<'a>,
    /// In how many of the folders it was looked for by the build ID.
    builds: usize,
    linked: Link,
    /// In how many of them it was by the debug link.
    below: usize,
    /// The cache wasn't looked into yet.
    has_cache: bool,
}

impl<'a> Candidates<'a> {
    /// All of them.
    pub fn new(sought: &Sought<'a>, folders: &Folders<'a>) -> Candidates<'a>
        ensures { left result ≡ candidates (folders_seen folders.now) (sought_seen sought.now) }
    {
        Candidates {
            sought: *sought,
            folders: *folders,
            builds: 0,
            linked: Link::Beside,
            below: 0,
            has_cache: true,
        }
    }

    /// The next one; None behind the last.
    pub fn next(&mut self) -> Option<Candidate<'a>>
        ensures { MatchOption result (left self.old ≡ []) (λ c. left self.old ≡ candidate_seen c ∷ left self.new) }
    {
        match self.next_build() {
            Some(candidate) => Some(candidate),
            None => match self.next_linked() {
                Some(candidate) => Some(candidate),
                None => self.next_cached(),
            },
        }
    }

    /// The next one by the build ID, below folders for debug information.
    fn next_build(&mut self) -> Option<Candidate<'a>>
        ensures { MatchOption result ((builds_left self.old ≡ []) × (self.new ≡ self.old))
            (λ c. (builds_left self.old ≡ candidate_seen c ∷ builds_left self.new)
            × (linked_left self.new ≡ linked_left self.old) × (cached_left self.new ≡ cached_left self.old)) }
    {
        let id = self.sought.id?.as_bytes();
        let dir = self.folders.dirs.get(self.builds)?;
        self.builds += 1;
        Some(Candidate {
            place: Place::Build {
                dir: dir.as_bytes(),
                id,
            },
            fit: Fit::Build(id),
        })
    }

    /// The next one by the debug link.
    fn next_linked(&mut self) -> Option<Candidate<'a>>
        ensures { MatchOption result ((linked_left self.old ≡ []) × (self.new ≡ self.old))
            (λ c. (linked_left self.old ≡ candidate_seen c ∷ linked_left self.new)
            × (builds_left self.new ≡ builds_left self.old) × (cached_left self.new ≡ cached_left self.old)) }
    {
        let link = self.sought.link?;
        let folder = folder_of(self.sought.path.as_bytes());
        let name = link.name.as_slice();
        let place = match self.linked {
            Link::Beside => {
                self.linked = Link::Hidden;
                Place::Beside { folder, name }
            }
            Link::Hidden => {
                self.linked = Link::Below;
                Place::Hidden { folder, name }
            }
            Link::Below => {
                let folder = self.folders.absolute?;
                let dir = self.folders.dirs.get(self.below)?;
                self.below += 1;
                Place::Below {
                    dir: dir.as_bytes(),
                    folder,
                    name,
                }
            }
        };
        Some(Candidate {
            place,
            fit: Fit::Checked(link.crc),
        })
    }

    /// The one in a cache of debuginfod.
    fn next_cached(&mut self) -> Option<Candidate<'a>>
        ensures { MatchOption result (cached_left self.old ≡ []) (λ c. (cached_left self.old ≡ candidate_seen c ∷ [])
            × (cached_left self.new ≡ []) × (builds_left self.new ≡ builds_left self.old)
            × (linked_left self.new ≡ linked_left self.old)) }
    {
        let id = self.sought.id?.as_bytes();
        let cache = self.folders.cache?.as_bytes();
        if !self.has_cache {
            return None;
        }
        self.has_cache = false;
        Some(Candidate {
            place: Place::Cached { cache, id },
            fit: Fit::Build(id),
        })
    }
}
