//! Paths of members.
ghost use Rattle.std.specs.Prelude.{◌≡◌, ◌≢◌, ◌<◌, ◌+◌, slice_index, ◌++◌, ◌∷◌, [], ℕ, List, length, map, MatchOption, MatchResult};
ghost use Rattle.dl_member.specs.Paths.{IsMemberPath, beside_path, folder, member_path, readable, readable_byte};
ghost use Rattle.dl_member.specs.Parts.{IsAroundLast};

use arrayvec::ArrayString;
use std::str;

/// How many bytes a path has at most that is made here: those of two paths as long as the system takes them, and two parentheses.
pub const PATH_LIMIT: usize = 8194;

/// A path that is made here.
pub type PathText = ArrayString<PATH_LIMIT>;

/// A path would have more than 8,194 bytes.
#[derive(Debug, Clone, Copy, PartialEq, Eq)]
pub struct TooLong;

/// A text before the last parenthesis that opens in it, and behind that; None where none opens.
fn around_last(text: &str) -> Option<(&str, &str)>
    ensures { MatchOption result ((i : ℕ) → i < length text.entry.now → slice_index text.entry.now i ≢ 40)
        (λ parts. IsAroundLast text.entry.now parts.0.now parts.1.now) }
{
    let Some(at) = text.rfind('(') else {
        return None;
    };
    let (front, rest) = text.split_at(at);
    match rest.strip_prefix('(') {
        Some(back) => Some((front, back)),
        None => None,
    }
}

/// The path of an archive and the name of a member, of a path that is both: the name stands in parentheses at the end, and neither
/// is empty. The name begins behind the last parenthesis that opens.
pub fn split_member(path: &str) -> Option<(&str, &str)>
    ensures { MatchOption result ((archive name : List ℕ) → ¬ IsMemberPath path.entry.now archive name)
        (λ parts. IsMemberPath path.entry.now parts.0.now parts.1.now) }
{
    let Some(text) = path.strip_suffix(')') else {
        return None;
    };
    let Some((archive, name)) = around_last(text) else {
        return None;
    };
    if 0 < archive.len() && 0 < name.len() {
        Some((archive, name))
    } else {
        None
    }
}

/// Puts a text behind a path.
fn put(path: &mut PathText, text: &str) -> Result<(), TooLong>
    ensures { MatchResult result (λ _. path.new.bytes ≡ path.old.bytes ++ text.now)
        (λ _. 8194 < length path.old.bytes + length text.now) }
{
    match path.try_push_str(text) {
        Ok(()) => Ok(()),
        Err(_) => Err(TooLong),
    }
}

/// Puts the folder of a file behind a path: the front of the file's path up to its last slash.
fn put_folder(path: &mut PathText, file: &str) -> Result<(), TooLong>
    ensures { MatchResult result (λ _. path.new.bytes ≡ path.old.bytes ++ folder file.now)
        (λ _. 8194 < length path.old.bytes + length (folder file.now)) }
{
    let Some(at) = file.rfind('/') else {
        return Ok(());
    };
    let (folder, _) = file.split_at(at);
    match put(path, folder) {
        Ok(()) => put(path, "/"),
        Err(TooLong) => Err(TooLong),
    }
}

/// The path of a member's file, of a thin archive: its name, beside the archive unless it begins with a slash.
pub(crate) fn beside_path(archive: &str, name: &str) -> Result<PathText, TooLong>
    ensures { MatchResult result (λ path. path.bytes ≡ beside_path archive.now name.now)
        (λ _. 8194 < length (beside_path archive.now name.now)) }
{
    let mut path = ArrayString::new();
    if !name.starts_with('/') {
        put_folder(&mut path, archive)?;
    }
    put(&mut path, name)?;
    Ok(path)
}

/// A byte of a name that isn't UTF-8, as it is shown.
fn readable_byte(byte: u8) -> char
    ensures shown { result ≡ readable_byte byte }
    ensures ascii { result < 128 }
{
    if byte < 0x80 { char::from(byte) } else { '?' }
}

/// Puts bytes that aren't UTF-8 behind a path.
fn put_bytes(path: &mut PathText, bytes: &[u8]) -> Result<(), TooLong>
    ensures { MatchResult result (λ _. path.new.bytes ≡ path.old.bytes ++ map readable_byte bytes.now)
        (λ _. 8194 < length path.old.bytes + length (map readable_byte bytes.now)) }
{
    if path.remaining_capacity() < bytes.len() {
        return Err(TooLong);
    }
    for byte in bytes {
        path.push(readable_byte(*byte));
    }
    Ok(())
}

/// Puts a name behind a path, as text.
fn put_name(path: &mut PathText, name: &[u8]) -> Result<(), TooLong>
    ensures { MatchResult result (λ _. path.new.bytes ≡ path.old.bytes ++ readable name.now)
        (λ _. 8194 < length path.old.bytes + length (readable name.now)) }
{
    match str::from_utf8(name) {
        Ok(text) => put(path, text),
        Err(_) => put_bytes(path, name),
    }
}

/// Puts a name in parentheses behind a path.
fn put_in_parentheses(path: &mut PathText, name: &[u8]) -> Result<(), TooLong>
    ensures { MatchResult result (λ _. path.new.bytes ≡ path.old.bytes ++ 40 ∷ (readable name.now ++ 41 ∷ []))
        (λ _. 8194 < length path.old.bytes + length (40 ∷ (readable name.now ++ 41 ∷ []))) }
{
    put(path, "(")?;
    put_name(path, name)?;
    put(path, ")")
}

/// The path of a member, of which the name is shown as text.
pub fn path_of_member(archive: &str, name: &[u8]) -> Result<PathText, TooLong>
    ensures { MatchResult result (λ path. path.bytes ≡ member_path archive.now (readable name.now))
        (λ _. 8194 < length (member_path archive.now (readable name.now))) }
{
    let mut path = ArrayString::new();
    put(&mut path, archive)?;
    put_in_parentheses(&mut path, name)?;
    Ok(path)
}
