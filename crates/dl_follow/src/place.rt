//! A place where the debug information of a file may stand, and its path.
ghost use Rattle.std.specs.Prelude.{◌≡◌, ◌<◌, ◌≤◌, ◌+◌, ◌*◌, ◌++◌, drop, length, take, MatchResult};
ghost use Rattle.hex.specs.Hex.{encode_lower};
ghost use Rattle.dl_follow.specs.Places.{build_path, cached_path, digits_between, folder_of, parts_path, place_path, upto_slash};

use arrayvec::ArrayVec;

/// How many bytes a path has at most.
pub const PATH_LIMIT: usize = 4096;

/// The bytes of a path.
pub type PathBytes = ArrayVec<u8, PATH_LIMIT>;

/// A path would have more than 4,096 bytes.
#[derive(Debug, Clone, Copy, PartialEq, Eq)]
pub struct TooLong;

/// A place where the debug information of a file may stand.
#[derive(Clone, Copy)]
pub enum Place<'a> {
    /// Below a folder for debug information, under a name made of a build ID: two digits of its first byte, a slash, and the
    /// digits of the others.
    Build {
        dir: &'a [u8],
        id: &'a [u8],
    },
    /// In a cache of debuginfod, under the digits of a build ID.
    Cached {
        cache: &'a [u8],
        id: &'a [u8],
    },
    /// Beside the file whose debug link has this name. `folder` is empty, or ends with a slash.
    Beside {
        folder: &'a [u8],
        name: &'a [u8],
    },
    /// In the folder `.debug` beside it.
    Hidden {
        folder: &'a [u8],
        name: &'a [u8],
    },
    /// Below a folder for debug information, in a folder of the same path, which begins and ends with a slash.
    Below {
        dir: &'a [u8],
        folder: &'a [u8],
        name: &'a [u8],
    },
}

/// How many bytes of a path there are up to its last slash; none where there is none.
fn upto_slash(path: &[u8]) -> usize
    ensures value { result ≡ upto_slash (length path.now) path.now }
    ensures within { result ≤ length path.now }
{
    let mut len = path.len();
    while 0 < len && path[len - 1] != b'/' {
        len -= 1;
    }
    len
}

/// The folder that a path names: it up to the last slash, and empty where there is none.
pub fn folder_of(path: &[u8]) -> &[u8]
    ensures { result.now ≡ folder_of path.entry.now }
{
    &path[..upto_slash(path)]
}

/// The path of a place.
pub fn path_of(place: &Place<'_>) -> Result<PathBytes, TooLong>
    ensures { MatchResult result (λ path. path.items ≡ place_path place.now) (λ _. 4096 < length (place_path place.now)) }
{
    let mut path = ArrayVec::new();
    match place {
        Place::Build { dir, id } => put_build(&mut path, dir, id)?,
        Place::Cached { cache, id } => put_cached(&mut path, cache, id)?,
        Place::Beside { folder, name } => put_three(&mut path, folder, b"", name)?,
        Place::Hidden { folder, name } => put_three(&mut path, folder, b".debug/", name)?,
        Place::Below { dir, folder, name } => put_three(&mut path, dir, folder, name)?,
    }
    Ok(path)
}

/// Puts bytes behind a path.
fn put(path: &mut PathBytes, bytes: &[u8]) -> Result<(), TooLong>
    ensures { MatchResult result (λ _. path.new.items ≡ path.old.items ++ bytes.now)
        (λ _. 4096 < length path.old.items + length bytes.now) }
{
    match path.try_extend_from_slice(bytes) {
        Ok(()) => Ok(()),
        Err(_) => Err(TooLong),
    }
}

/// Puts three texts behind a path, one after the other.
fn put_three(path: &mut PathBytes, first: &[u8], second: &[u8], third: &[u8]) -> Result<(), TooLong>
    ensures { MatchResult result (λ _. path.new.items ≡ path.old.items ++ (first.now ++ (second.now ++ third.now)))
        (λ _. 4096 < length path.old.items + length (first.now ++ (second.now ++ third.now))) }
{
    put(path, first)?;
    put(path, second)?;
    put(path, third)
}

/// Puts two digits of each byte behind a path, in lower case.
fn put_digits(path: &mut PathBytes, bytes: &[u8]) -> Result<(), TooLong>
    ensures { MatchResult result (λ _. path.new.items ≡ path.old.items ++ encode_lower bytes.now)
        (λ _. 4096 < length path.old.items + length (encode_lower bytes.now)) }
{
    if PATH_LIMIT / 2 < bytes.len() {
        return Err(TooLong);
    }
    let mut digits = [0; PATH_LIMIT];
    let len = 2 * bytes.len();
    // The digits fit, so there is no error.
    let _ = hex::encode_to_slice(bytes, &mut digits[..len]);
    put(path, &digits[..len])
}

/// Puts the digits of bytes behind a path, between two texts.
fn put_between(
    path: &mut PathBytes,
    before: &[u8],
    bytes: &[u8],
    behind: &[u8],
) -> Result<(), TooLong>
    ensures { MatchResult result (λ _. path.new.items ≡ path.old.items ++ digits_between before.now bytes.now behind.now)
        (λ _. 4096 < length path.old.items + length (digits_between before.now bytes.now behind.now)) }
{
    put(path, before)?;
    put_digits(path, bytes)?;
    put(path, behind)
}

/// Puts the path below a folder for debug information that a build ID makes.
fn put_build(path: &mut PathBytes, dir: &[u8], id: &[u8]) -> Result<(), TooLong>
    ensures { MatchResult result (λ _. path.new.items ≡ path.old.items ++ build_path dir.now id.now)
        (λ _. 4096 < length path.old.items + length (build_path dir.now id.now)) }
{
    let (first, others) = halves(id);
    put_parts(path, dir, first, others)
}

/// The same of the first byte of the build ID, and of the others.
fn put_parts(path: &mut PathBytes, dir: &[u8], first: &[u8], others: &[u8]) -> Result<(), TooLong>
    ensures { MatchResult result (λ _. path.new.items ≡ path.old.items ++ parts_path dir.now first.now others.now)
        (λ _. 4096 < length path.old.items + length (parts_path dir.now first.now others.now)) }
{
    put(path, dir)?;
    put_between(path, b"/.build-id/", first, b"/")?;
    put_between(path, b"", others, b".debug")
}

/// The first byte, if there is one, and the others.
fn halves(id: &[u8]) -> (&[u8], &[u8])
    ensures first { result.0.now ≡ take 1 id.entry.now }
    ensures others { result.1.now ≡ drop 1 id.entry.now }
{
    if id.is_empty() {
        (id, id)
    } else {
        id.split_at(1)
    }
}

/// Puts the path in a cache of debuginfod that a build ID makes.
fn put_cached(path: &mut PathBytes, cache: &[u8], id: &[u8]) -> Result<(), TooLong>
    ensures { MatchResult result (λ _. path.new.items ≡ path.old.items ++ cached_path cache.now id.now)
        (λ _. 4096 < length path.old.items + length (cached_path cache.now id.now)) }
{
    put(path, cache)?;
    put_between(path, b"/", id, b"/debuginfo")
}
