//! The file whose line table is read for FILE, and what is told of it.

use crate::files::{SystemFile, SystemFiles};
use dl_cmd::FollowWords;
use dl_follow::{Clues, Folders, Followed, NotFound, folder_of, table_file, write_passed};
use dl_open::Shown;
use std::alloc::{AllocError, Global};
use std::env::VarError;
use std::io::{ErrorKind, Write};
use std::path::PathBuf;
use std::{env, fs};

/// What the system says of the places of debug information.
#[derive(Drop)]
struct Places {
    /// The path of FILE from the root, without symbolic links.
    real: Option<PathBuf>,
    /// A cache of debuginfod.
    cache: Option<String>,
}

impl Places {
    /// That of the file at this path.
    fn of(rt: &HostRuntime, path: &str) -> Result<Places, AllocError> {
        Ok(Places {
            real: real_path(rt, path)?,
            cache: cache(rt)?,
        })
    }

    /// Where debug information is looked for, with these folders for it.
    fn folders<'a>(&'a self, dirs: &'a [&'a str]) -> Folders<'a> {
        Folders {
            dirs,
            absolute: self
                .real
                .as_ref()
                .map(|path| folder_of(path.as_str().as_bytes())),
            cache: self.cache.as_ref().map(|path| path.as_str()),
        }
    }
}

/// The path of a file from the root, without symbolic links; None where it isn't told.
fn real_path(rt: &HostRuntime, path: &str) -> Result<Option<PathBuf>, AllocError> {
    match fs::canonicalize(rt, path) {
        Ok(path) => Ok(Some(path)),
        Err(error) if error.kind() == ErrorKind::OutOfMemory => Err(AllocError),
        Err(_) => Ok(None),
    }
}

/// A variable of the environment; None where it isn't set, is empty, or isn't UTF-8.
fn variable(rt: &HostRuntime, name: &str) -> Result<Option<String>, AllocError> {
    match env::var(rt, name) {
        Ok(text) if text.is_empty() => Ok(None),
        Ok(text) => Ok(Some(text)),
        Err(VarError::OutOfMemory) => Err(AllocError),
        Err(_) => Ok(None),
    }
}

/// The folder of a variable, with a path below it.
fn below(rt: &HostRuntime, name: &str, path: &str) -> Result<Option<String>, AllocError> {
    let Some(mut folder) = variable(rt, name)? else {
        return Ok(None);
    };
    folder.push_str(path)?;
    Ok(Some(folder))
}

/// The cache of debuginfod, as its client finds it.
fn cache(rt: &HostRuntime) -> Result<Option<String>, AllocError> {
    if let Some(path) = variable(rt, "DEBUGINFOD_CACHE_PATH")? {
        return Ok(Some(path));
    }
    if let Some(path) = below(rt, "XDG_CACHE_HOME", "/debuginfod_client")? {
        return Ok(Some(path));
    }
    below(rt, "HOME", "/.cache/debuginfod_client")
}

/// Whose line table is read for FILE.
#[derive(Drop)]
pub enum Search {
    /// Its own.
    Own,
    /// That of the file at this path.
    Other(String),
    /// It has none, and none was found for it, as this text tells.
    Lost(String),
}

/// A text for as long as its place is lent.
fn lent<'a>(text: &'a &str) -> &'a str {
    text
}

impl Search {
    /// Looks for the file whose line table is read for the one at this path, and says what is read and what is passed over where
    /// that is asked for.
    // Apart from what is done then, so that the paths that are tried take none of its stack.
    #[inline(never)]
    pub fn of(rt: &HostRuntime, path: &str, words: &FollowWords<'_>) -> Result<Search, AllocError> {
        if words.no_follow {
            return Ok(Search::Own);
        }
        let places = Places::of(rt, path)?;
        let dirs: Vec<&str> = words
            .debug_dirs
            .iter()
            .map(|dir| lent(dir))
            .collect(rt.alloc())?;
        let folders = places.folders(dirs.as_slice());
        let found = table_file(&SystemFiles { rt }, path, &folders);
        if words.verbose {
            tell(rt, path, &found, &folders);
        }
        found_by(rt.alloc(), &found, path, &folders)
    }

    /// The path of the file whose line table is read for the one at this path.
    pub fn path<'a>(&'a self, path: &'a str) -> &'a str {
        match self {
            Search::Other(other) => other.as_str(),
            Search::Own | Search::Lost(_) => path,
        }
    }

    /// What is told of the file, where it has no line table and none was found for it.
    pub fn lost(&self) -> Option<&str> {
        match self {
            Search::Lost(text) => Some(text.as_str()),
            Search::Own | Search::Other(_) => None,
        }
    }
}

/// Whose line table is read for the file at this path, by what was found.
fn found_by(
    alloc: Global,
    found: &Followed<SystemFile>,
    path: &str,
    folders: &Folders<'_>,
) -> Result<Search, AllocError> {
    Ok(match found {
        Followed::Own => Search::Own,
        Followed::Other { taken, .. } => {
            Search::Other(String::from_str(alloc, taken.path.as_str())?)
        }
        Followed::Lost(clues) => Search::Lost(told_lost(alloc, clues, path, folders)?),
    })
}

/// What is told of the file at this path, which has no line table, and for which none was found.
fn told_lost(
    alloc: Global,
    clues: &Clues,
    path: &str,
    folders: &Folders<'_>,
) -> Result<String, AllocError> {
    let lost = NotFound {
        sought: clues.sought(path),
        folders: *folders,
    };
    format!(in alloc; "{lost}")
}

/// Says which files were passed over for the one at this path, and which one is read.
fn tell(rt: &HostRuntime, path: &str, found: &Followed<SystemFile>, folders: &Folders<'_>) {
    match found {
        Followed::Own => tell_reading(rt, path),
        Followed::Other { taken, clues } => {
            tell_passed(rt, path, clues, folders, Some(taken.path.as_str()));
            tell_reading(rt, taken.path.as_str());
        }
        Followed::Lost(clues) => tell_passed(rt, path, clues, folders, None),
    }
}

/// Says of each file before the one at the path `taken` why it was passed over.
fn tell_passed(
    rt: &HostRuntime,
    path: &str,
    clues: &Clues,
    folders: &Folders<'_>,
    taken: Option<&str>,
) {
    let _ = write_passed(
        &SystemFiles { rt },
        &clues.sought(path),
        folders,
        taken,
        &mut rt.stderr(),
    );
}

/// Says which file is read.
fn tell_reading(rt: &HostRuntime, path: &str) {
    let _ = writeln!(rt.stderr(), "reading {}", Shown(path));
}
