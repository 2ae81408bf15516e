//! What the rules find in the numbers of directories and the content codes of a header. Sections 6.2.4 and 6.2.4.1.

ghost use Rattle.std.specs.Prelude.{◌≡◌, ◌==◌, ◌<◌, ◌+◌, ◌++◌, List, Some, length, option_to_list, slice_get, take};
ghost use Rattle.std.specs.List.{list_any};
ghost use Rattle.dl_table.specs.EntryHeld.{entry_items};
ghost use Rattle.dl_table_rules.specs.HeaderFindings.{directory_found, directory_in, directory_named, directory_of_file, has_directory};
ghost use Rattle.dl_table_rules.specs.HeaderFindings.{content_at, content_codes, contents, is_named_content, is_unknown_content};

use dl_findings::{Finding, Found};
use dl_head::{Entry, Header, Pair, ValueRef};

/// The content code of the number of a directory. Section 6.2.4.1.
const DIRECTORY_INDEX: u64 = 2;

/// `directory-index`, of the file of this number in the header of the unit at this offset
pub fn directory_index(unit: u64, header: &Header, file: u64) -> Option<Finding>
    ensures { option_to_list result ≡ directory_of_file unit header.now file }
{
    match directory_named(header, file) {
        Some(directory) => directory_found(unit, header, file, directory),
        None => None,
    }
}

/// What is found of a file that names this directory.
fn directory_found(unit: u64, header: &Header, file: u64, directory: u64) -> Option<Finding>
    ensures { option_to_list result ≡ directory_found unit header.now file directory }
{
    if has_directory(header, directory) {
        return None;
    }
    Some(Finding {
        offset: unit,
        row: None,
        found: Found::DirectoryIndex {
            file,
            directory,
            directories: header.directories().len() as u64,
            first: header.first_number(),
        },
    })
}

/// The directory that the file of this number names.
fn directory_named(header: &Header, file: u64) -> Option<u64>
    ensures { result ≡ directory_named header.now file }
{
    directory_in(header.file(file)?)
}

/// The directory that an entry names.
fn directory_in(entry: Entry<'_>) -> Option<u64>
    ensures { result ≡ directory_in (entry_items entry.entry) }
{
    match entry.get(DIRECTORY_INDEX)? {
        ValueRef::Number(number) => Some(number),
        _ => None,
    }
}

/// Whether there is a directory of this number.
fn has_directory(header: &Header, directory: u64) -> bool
    ensures { result ≡ has_directory header.now directory }
{
    header.params().version < 5 && directory == 0 || header.directory(directory).is_some()
}

/// `unknown-opcode`, of the content code at this place among those of both tables, in the header of the unit at this offset
pub fn unknown_content(unit: u64, header: &Header, place: usize) -> Option<Finding>
    requires { place < length (content_codes header.now) }
    ensures { option_to_list result ≡ content_at unit (content_codes header.now) place }
{
    let directories = header.directories().pairs();
    let files = header.files().pairs();
    let code = content(directories, files, place);
    if !is_unknown_content(directories, files, place, code) {
        return None;
    }
    Some(Finding {
        offset: unit,
        row: None,
        found: Found::UnknownContent { content_code: code },
    })
}

/// Whether the standard doesn't name a content code, and it doesn't stand before this place.
fn is_unknown_content(directories: &[Pair], files: &[Pair], place: usize, code: u64) -> bool
    requires { place < length directories.now + length files.now }
    ensures { result ≡ is_unknown_content (take place (contents (directories.now ++ files.now))) code }
{
    !is_named_content(code) && !has_content_before(directories, files, place, code)
}

/// How many content codes the formats of both tables have.
pub fn content_count(header: &Header) -> usize
    ensures { result ≡ length (content_codes header.now) }
{
    header.directories().pairs().len() + header.files().pairs().len()
}

/// The content code at this place among those of both tables.
fn content(directories: &[Pair], files: &[Pair], place: usize) -> u64
    requires { place < length directories.now + length files.now }
    ensures { slice_get (contents (directories.now ++ files.now)) place ≡ Some result }
{
    if place < directories.len() {
        directories[place].content
    } else {
        files[place - directories.len()].content
    }
}

/// Whether the standard names a content code.
fn is_named_content(code: u64) -> bool
    ensures { result ≡ is_named_content code }
{
    1 <= code && code <= 5
}

/// Whether a content code stands before this place among those of both tables.
fn has_content_before(directories: &[Pair], files: &[Pair], place: usize, code: u64) -> bool
    requires { place < length directories.now + length files.now }
    ensures { result ≡ list_any (λ other. other == code) (take place (contents (directories.now ++ files.now))) }
{
    if place <= directories.len() {
        return has_content(&directories[..place], code);
    }
    has_content(directories, code) || has_content(&files[..place - directories.len()], code)
}

/// Whether one of the pairs has a content code.
fn has_content(pairs: &[Pair], code: u64) -> bool
    ensures { result ≡ list_any (λ p. p.content == code) pairs.now }
{
    pairs.iter().any(|pair| pair.content == code)
}
