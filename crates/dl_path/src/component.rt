//! The last component of a path.

ghost use Rattle.std.specs.Prelude.{◌≡◌, ◌≤◌, ◌||◌, ℕ, drop, length};
ghost use Rattle.std.specs.Option.{option_copied};
ghost use Rattle.dl_path.specs.Parts.{path_seen};
ghost use Rattle.dl_path.specs.PathParts.{HeaderBytesWithin, parts_seen};
ghost use Rattle.dl_path.specs.Paths.{compiled_in, is_of_windows, is_whole, under};
ghost use Rattle.dl_path.specs.Shown.{after_the_last, basename, separates};
ghost use Rattle.dl_path.specs.Windows.{begins_in_windows, is_bare_drive};

use crate::compiled::is_whole_path;
use crate::parts::{Parts, alone, path, text_from};
use crate::path::{Path, is_letter, is_of_windows, is_slash};

/// The path's last component: what stands after the last slash, or all of it; in a whole path of Windows, after the
/// last backslash too.
pub fn basename(path: &[u8]) -> &[u8]
    ensures { result.now ≡ basename path.now }
{
    let start = component_start(is_of_windows(path), path);
    &path[start..]
}

/// The last component of a path under its compilation directory, where that is known. It lies in the file's own path.
pub fn basename_under<'s, 'h>(root: Option<&[u8]>, parts: Parts<'s, 'h>) -> Parts<'s, 'h>
    ensures seen { parts_seen result ≡ basename (compiled_in (option_copied root.entry) (parts_seen parts.entry)) }
    ensures base { result.base ≡ None }
    ensures directory { result.directory ≡ None }
    ensures within { (most : ℕ) → HeaderBytesWithin most parts.entry → HeaderBytesWithin most result }
{
    let whole = path(parts);
    let start = component_start(compiled_in_windows(root, whole), whole.name);
    alone(text_from(parts.name, start))
}

/// Whether a path under its compilation directory is a whole path of Windows.
fn compiled_in_windows(root: Option<&[u8]>, path: Path<'_>) -> bool
    ensures { result ≡ is_of_windows (compiled_in (option_copied root.entry) (path_seen path.entry)) }
{
    if is_whole_path(path) {
        return lies_in_windows(path);
    }
    match root {
        Some(root) => lies_in_windows_under(root, path),
        None => lies_in_windows(path),
    }
}

/// Whether a path in this directory is a whole path of Windows.
fn lies_in_windows_under(directory: &[u8], path: Path<'_>) -> bool
    ensures { result ≡ is_of_windows (under directory.now (path_seen path.entry)) }
{
    if directory.is_empty() {
        lies_in_windows(path)
    } else {
        begins_in_windows(directory)
    }
}

/// Whether the parts of a path make up a whole path of Windows.
pub fn lies_in_windows(path: Path<'_>) -> bool
    ensures { result ≡ is_of_windows (path_seen path.entry) }
{
    if !path.base.is_empty() {
        begins_in_windows(path.base)
    } else if !path.directory.is_empty() {
        begins_in_windows(path.directory)
    } else {
        is_of_windows(path.name)
    }
}

/// Whether a path in this directory begins as whole paths of Windows do.
fn begins_in_windows(directory: &[u8]) -> bool
    ensures { result ≡ begins_in_windows directory.now }
{
    is_of_windows(directory) || is_bare_drive(directory)
}

/// Whether a directory is a letter and a colon.
fn is_bare_drive(directory: &[u8]) -> bool
    ensures { result ≡ is_bare_drive directory.now }
{
    directory.len() == 2 && is_letter(directory[0]) && directory[1] == b':'
}

/// Where the last component begins.
fn component_start(of_windows: bool, path: &[u8]) -> usize
    ensures within { result ≤ length path.now }
    ensures seen { drop result path.now ≡ after_the_last (separates of_windows) path.now }
{
    let mut start = path.len();
    while start > 0 {
        if separates(of_windows, path[start - 1]) {
            return start;
        }
        start -= 1;
    }
    0
}

/// Whether a byte stands between components, in a whole path of Windows or in another.
fn separates(of_windows: bool, byte: u8) -> bool
    ensures { result ≡ separates of_windows byte }
{
    byte == b'/' || of_windows && is_slash(byte)
}
