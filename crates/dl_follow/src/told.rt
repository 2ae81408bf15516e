//! What is told of files that were looked for.
ghost use Rattle.std.specs.Prelude.{◌≡◌, ◌∷◌, [], MatchOption};
ghost use Rattle.dl_follow.specs.Left.{left};
ghost use Rattle.dl_follow.specs.NotFoundText.{tried};

use crate::candidates::{Candidate, Candidates, Folders, Sought};
use crate::fit::Fit;
use crate::place::{PathBytes, path_of};
use dl_open::{FileSource, Shown, ShownBytes};
use std::io::Write;
use std::{fmt, io, str};

/// How many paths are told.
const TOLD: usize = 3;

/// A file without a line section of which the debug information wasn't found. Its Display is one line without a newline: with the
/// name that its build ID makes, and the first three paths that were tried.
#[derive(Clone, Copy)]
pub struct NotFound<'a> {
    pub sought: Sought<'a>,
    pub folders: Folders<'a>,
}

impl fmt::Display for NotFound<'_> {
    ghost use Rattle.std.specs.Prelude.{Some};
    ghost use Rattle.dl_follow.specs.NotFoundText.{not_found_text};

    ghost output = { λ lost. Some (not_found_text lost) };

    fn fmt<W: fmt::Write>(&self, f: &mut fmt::Formatter<W>) -> fmt::Result {
        write!(f, "{}: no section .debug_line", Shown(self.sought.path))?;
        let tried = Tried(Candidates::new(&self.sought, &self.folders));
        match self.sought.id {
            Some(id) => write!(f, " (its debug information may be in {id}; tried {tried})"),
            None if self.sought.link.is_some() => write!(f, " (tried {tried})"),
            None => Ok(()),
        }
    }
}

/// The next path that is tried; None behind the last.
fn next_path(candidates: &mut Candidates<'_>) -> Option<PathBytes>
    ensures { MatchOption result (tried (left candidates.old) ≡ [])
        (λ path. tried (left candidates.old) ≡ path.items ∷ tried (left candidates.new)) }
{
    while let Some(candidate) = candidates.next() {
        if let Ok(path) = path_of(&candidate.place) {
            return Some(path);
        }
    }
    None
}

/// The first paths that are tried.
#[derive(Clone, Copy)]
struct Tried<'a>(Candidates<'a>);

impl fmt::Display for Tried<'_> {
    ghost use Rattle.std.specs.Prelude.{Some};
    ghost use Rattle.dl_follow.specs.Left.{left};
    ghost use Rattle.dl_follow.specs.NotFoundText.{listed_first, tried};

    ghost output = { λ shown. Some (listed_first (tried (left shown.0))) };

    fn fmt<W: fmt::Write>(&self, f: &mut fmt::Formatter<W>) -> fmt::Result {
        let mut candidates = self.0;
        let mut told = 0;
        while let Some(path) = next_path(&mut candidates) {
            if told == TOLD {
                return write!(f, ", ..");
            }
            let before = if told == 0 { "" } else { ", " };
            write!(f, "{before}{}", ShownBytes(path.as_slice()))?;
            told += 1;
        }
        if told == 0 { write!(f, "none") } else { Ok(()) }
    }
}

/// Why a file isn't the one that is looked for.
#[derive(Clone, Copy)]
struct Misfit<'a>(Fit<'a>);

impl fmt::Display for Misfit<'_> {
    fn fmt<W: fmt::Write>(&self, f: &mut fmt::Formatter<W>) -> fmt::Result {
        match self.0 {
            Fit::Build(_) => write!(f, "its build ID is another one"),
            Fit::Checked(_) => write!(f, "its CRC-32 is another one"),
        }
    }
}

/// The path of a candidate, where it can be opened and isn't this one.
fn path_there<F: FileSource>(files: &F, own: &str, candidate: &Candidate<'_>) -> Option<PathBytes> {
    let path = path_of(&candidate.place).ok()?;
    let text = str::from_utf8(path.as_slice()).ok()?;
    if text != own && files.open(text).is_ok() {
        Some(path)
    } else {
        None
    }
}

/// Writes a line for each file that is there and was passed over, before the one at this path.
pub fn write_passed<F: FileSource, W: Write>(
    files: &F,
    sought: &Sought<'_>,
    folders: &Folders<'_>,
    taken: Option<&str>,
    errors: &mut W,
) -> io::Result<()> {
    let mut candidates = Candidates::new(sought, folders);
    while let Some(candidate) = candidates.next() {
        if let Some(path) = path_there(files, sought.path, &candidate) {
            if taken.map(|taken| taken.as_bytes()) == Some(path.as_slice()) {
                return Ok(());
            }
            writeln!(
                errors,
                "not reading {}: {}",
                ShownBytes(path.as_slice()),
                Misfit(candidate.fit)
            )?;
        }
    }
    Ok(())
}
