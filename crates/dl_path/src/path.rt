//! The path of a file under the header of its unit. Section 6.2.4.

ghost use Rattle.std.specs.Prelude.{◌≡◌, [], ◌∷◌, if◌then◌else◌};
ghost use Rattle.std.specs.Option.{option_copied, option_map};
ghost use Rattle.dl_print.specs.ValueText.{strings_of};
ghost use Rattle.dl_path.specs.Parts.{path_apart, path_seen};
ghost use Rattle.dl_path.specs.Paths.{has_drive, has_machine, is_letter, is_of_windows, is_slash, is_whole, path_of};
ghost use Rattle.dl_path.specs.Paths.{slash_after};
ghost use Rattle.dl_path.specs.PathTexts.{file_parts};

use crate::parts::{parts_of, path};
use dl_head::Header;
use dl_print::StringSections;

/// A path, in the texts that stand one after the other: each directory that isn't empty ends with a slash, or a slash
/// comes after it.
#[derive(Clone, Copy)]
pub struct Path<'a> {
    /// Directory 0, where the directory isn't whole; else empty.
    pub base: &'a [u8],
    /// The directory, where the file's own path isn't whole; else empty.
    pub directory: &'a [u8],
    /// The file's own path.
    pub name: &'a [u8],
}

/// The path of the file of this number, under the header of its unit. None where there is no such file, or its own
/// path isn't there.
pub fn path_of<'a>(
    strings: &'a StringSections<'_>,
    header: Option<&'a Header>,
    file: u64,
) -> Option<Path<'a>>
    ensures seen { option_map path_seen result ≡ path_of (strings_of strings.now) (option_copied header.entry) file }
    ensures apart { option_map path_apart result ≡ file_parts (strings_of strings.now) (option_copied header.entry) file }
{
    Some(path(parts_of(strings, header, file)?))
}

/// What stands between a directory and a path in it.
pub fn slash_after(directory: &[u8]) -> &'static [u8]
    ensures { result.now ≡ slash_after directory.now }
{
    if wants_slash(directory) { b"/" } else { b"" }
}

/// Whether a slash stands between a directory and a path in it.
pub fn wants_slash(directory: &[u8]) -> bool
    ensures { slash_after directory.now ≡ (if result then 0x2f ∷ [] else []) }
{
    if directory.is_empty() {
        return false;
    }
    let last = directory[directory.len() - 1];
    last != b'/'
}

/// Whether a path stands for itself, under no directory.
pub fn is_whole(path: &[u8]) -> bool
    ensures { result ≡ is_whole path.now }
{
    path.first() == Some(&b'/') || is_of_windows(path)
}

/// Whether a path begins as whole ones of Windows do: with a drive, or with a machine.
pub fn is_of_windows(path: &[u8]) -> bool
    ensures { result ≡ is_of_windows path.now }
{
    has_drive(path) || has_machine(path)
}

/// Whether a path begins with a letter, a colon, and a slash or a backslash.
fn has_drive(path: &[u8]) -> bool
    ensures { result ≡ has_drive path.now }
{
    if path.len() < 3 {
        return false;
    }
    is_letter(path[0]) && path[1] == b':' && is_slash(path[2])
}

/// Whether a path begins with two backslashes.
fn has_machine(path: &[u8]) -> bool
    ensures { result ≡ has_machine path.now }
{
    if path.len() < 2 {
        return false;
    }
    path[0] == b'\\' && path[1] == b'\\'
}

pub fn is_letter(byte: u8) -> bool
    ensures { result ≡ is_letter byte }
{
    (b'A' <= byte && byte <= b'Z') || (b'a' <= byte && byte <= b'z')
}

/// Whether a byte is a slash or a backslash.
pub fn is_slash(byte: u8) -> bool
    ensures { result ≡ is_slash byte }
{
    byte == b'/' || byte == b'\\'
}
