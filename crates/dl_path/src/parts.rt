//! The texts that the path of a file is made of, each with where it stands. Section 6.2.4.

ghost use Rattle.std.specs.Prelude.{◌≡◌, ◌≤◌, ℕ, Some, IfSome, drop, length};
ghost use Rattle.std.specs.Option.{option_copied, option_map, option_map_or};
ghost use Rattle.dl_field.specs.HeaderData.{header_cells};
ghost use Rattle.dl_table.specs.EntryData.{value_of};
ghost use Rattle.dl_table.specs.EntryHeld.{entry_items};
ghost use Rattle.dl_table.specs.Held.{value_lent};
ghost use Rattle.dl_table.specs.TableCells.{value_cells};
ghost use Rattle.dl_table.specs.Value.{Value};
ghost use Rattle.dl_print.specs.ValueText.{strings_of};
ghost use Rattle.dl_path.specs.Parts.{path_seen};
ghost use Rattle.dl_path.specs.PathParts.{FromDirectories, HeaderBytesWithin, IsDirectory, directory_seen, header_bytes};
ghost use Rattle.dl_path.specs.PathParts.{parts_apart, parts_seen, text_of_directory, text_seen};
ghost use Rattle.dl_path.specs.Paths.{text_of, own_path, directory_of, directory_text, number_or_zero, path_of};
ghost use Rattle.dl_path.specs.PathTexts.{base_of, by_itself, file_parts, parts_in};

use crate::path::{Path, is_whole};
use dl_head::{Entry, Header, ValueRef};
use dl_print::{StringSections, text_in_section};

/// The content code of a path. Section 6.2.4.1.
const PATH: u64 = 1;

/// The content code of the number of a directory. Section 6.2.4.1.
const DIRECTORY_INDEX: u64 = 2;

/// A text that a unit names.
#[derive(Clone, Copy)]
pub enum Text<'s, 'h> {
    /// It stands in a string section.
    Section(&'s [u8]),
    /// It stands in the unit's header.
    Header(&'h [u8]),
}

/// A directory of a unit, by its number.
#[derive(Clone, Copy)]
pub struct Directory<'s, 'h> {
    pub number: u64,
    pub text: Text<'s, 'h>,
}

/// The parts of a path, as in `Path`.
#[derive(Clone, Copy)]
pub struct Parts<'s, 'h> {
    pub base: Option<Directory<'s, 'h>>,
    pub directory: Option<Directory<'s, 'h>>,
    pub name: Text<'s, 'h>,
}

/// The parts of the path of the file of this number, under the header of its unit. None where there is no such file,
/// or its own path isn't there.
pub fn parts_of<'s, 'h>(
    strings: &'s StringSections<'_>,
    header: Option<&'h Header>,
    file: u64,
) -> Option<Parts<'s, 'h>>
    ensures seen { option_map parts_seen result ≡ path_of (strings_of strings.now) (option_copied header.entry) file }
    ensures apart { option_map parts_apart result ≡ file_parts (strings_of strings.now) (option_copied header.entry) file }
    ensures numbered { IfSome result (FromDirectories (text_of_directory (strings_of strings.now)
        (option_copied header.entry))) }
    ensures within { IfSome result (HeaderBytesWithin (option_map_or header_cells (option_copied header.entry) 0)) }
{
    parts_under(strings, header?, file)
}

fn parts_under<'s, 'h>(
    strings: &'s StringSections<'_>,
    header: &'h Header,
    file: u64,
) -> Option<Parts<'s, 'h>>
    ensures apart { option_map parts_apart result ≡ file_parts (strings_of strings.now) (Some header.now) file }
    ensures numbered { IfSome result (FromDirectories (directory_text (strings_of strings.now) header.now)) }
    ensures within { IfSome result (HeaderBytesWithin (header_cells header.now)) }
{
    let entry = header.file(file)?;
    let name = own_path(strings, entry)?;
    if is_whole(bytes(name)) {
        return Some(alone(name));
    }
    Some(parts_within(strings, header, directory_of(entry), name))
}

/// A file's own path in the directory of this number.
fn parts_within<'s, 'h>(
    strings: &'s StringSections<'_>,
    header: &'h Header,
    number: u64,
    name: Text<'s, 'h>,
) -> Parts<'s, 'h>
    ensures apart { parts_apart result ≡ parts_in (strings_of strings.now) header.now number (text_seen name.entry) }
    ensures numbered { FromDirectories (directory_text (strings_of strings.now) header.now) result }
    ensures within { header_bytes name.entry ≤ header_cells header.now → HeaderBytesWithin (header_cells header.now) result }
{
    let Some(text) = directory_text(strings, header, number) else {
        return alone(name);
    };
    Parts {
        base: base_of(strings, header, number, bytes(text)),
        directory: Some(Directory { number, text }),
        name,
    }
}

/// What comes before a directory of this number and this path.
fn base_of<'s, 'h>(
    strings: &'s StringSections<'_>,
    header: &'h Header,
    number: u64,
    directory: &[u8],
) -> Option<Directory<'s, 'h>>
    ensures seen { directory_seen result ≡ base_of (strings_of strings.now) header.now number directory.now }
    ensures numbered { IsDirectory (directory_text (strings_of strings.now) header.now) result }
    ensures within { IfSome result (λ d. header_bytes d.text ≤ header_cells header.now) }
{
    if is_whole(directory) || number == 0 {
        return None;
    }
    let text = directory_text(strings, header, 0)?;
    Some(Directory { number: 0, text })
}

/// A path with no directory before it.
pub fn alone<'s, 'h>(name: Text<'s, 'h>) -> Parts<'s, 'h>
    ensures apart { parts_apart result ≡ by_itself (text_seen name.entry) }
    ensures base { result.base ≡ None }
    ensures directory { result.directory ≡ None }
    ensures name { result.name ≡ name.entry }
{
    Parts {
        base: None,
        directory: None,
        name,
    }
}

/// A path in slices.
pub fn path<'a>(parts: Parts<'a, 'a>) -> Path<'a>
    ensures seen { path_seen result ≡ parts_seen parts.entry }
    ensures base { result.base.now ≡ directory_seen parts.entry.base }
    ensures directory { result.directory.now ≡ directory_seen parts.entry.directory }
    ensures name { result.name.now ≡ text_seen parts.entry.name }
{
    Path {
        base: directory_bytes(parts.base),
        directory: directory_bytes(parts.directory),
        name: bytes(parts.name),
    }
}

fn directory_bytes<'a>(directory: Option<Directory<'a, 'a>>) -> &'a [u8]
    ensures { result.now ≡ directory_seen directory.entry }
{
    match directory {
        Some(directory) => bytes(directory.text),
        None => b"",
    }
}

/// The bytes of a text.
pub fn bytes<'a>(text: Text<'a, 'a>) -> &'a [u8]
    ensures { result.now ≡ text_seen text.entry }
{
    match text {
        Text::Section(bytes) => bytes,
        Text::Header(bytes) => bytes,
    }
}

/// What stands in a text from a place on.
pub fn text_from<'s, 'h>(text: Text<'s, 'h>, start: usize) -> Text<'s, 'h>
    requires { start ≤ length (text_seen text) }
    ensures seen { text_seen result ≡ drop start (text_seen text.entry) }
    ensures within { header_bytes result ≤ header_bytes text.entry }
{
    match text {
        Text::Section(bytes) => Text::Section(&bytes[start..]),
        Text::Header(bytes) => Text::Header(&bytes[start..]),
    }
}

/// The path of the directory of this number, as its entry has it.
fn directory_text<'s, 'h>(
    strings: &'s StringSections<'_>,
    header: &'h Header,
    number: u64,
) -> Option<Text<'s, 'h>>
    ensures seen { option_map text_seen result ≡ directory_text (strings_of strings.now) header.now number }
    ensures within { IfSome result (λ t. header_bytes t ≤ header_cells header.now) }
{
    own_path(strings, header.directory(number)?)
}

/// The path of an entry, in its table or in a string section.
fn own_path<'s, 'h>(strings: &'s StringSections<'_>, entry: Entry<'h>) -> Option<Text<'s, 'h>>
    ensures seen { option_map text_seen result ≡ own_path (strings_of strings.now) (entry_items entry.entry) }
    ensures within { (most : ℕ) → ((v : Value) → value_of (entry_items entry.entry) 1 ≡ Some v → value_cells v ≤ most)
        → IfSome result (λ t. header_bytes t ≤ most) }
{
    text_of(strings, entry.get(PATH)?)
}

fn text_of<'s, 'h>(strings: &'s StringSections<'_>, value: ValueRef<'h>) -> Option<Text<'s, 'h>>
    ensures seen { option_map text_seen result ≡ text_of (strings_of strings.now) (value_lent value.entry) }
    ensures within { IfSome result (λ t. header_bytes t ≤ value_cells (value_lent value.entry)) }
{
    match value {
        ValueRef::Text(text) => Some(Text::Header(text)),
        ValueRef::LineStr(at) => {
            let text = text_in_section(strings.debug_line_str.as_ref(), at)?;
            Some(Text::Section(text))
        }
        ValueRef::Str(at) => {
            let text = text_in_section(strings.debug_str.as_ref(), at)?;
            Some(Text::Section(text))
        }
        ValueRef::StrSup(_) | ValueRef::Number(_) | ValueRef::Block(_) | ValueRef::Data16(_) =>
            None,
    }
}

/// The number of an entry's directory; 0 where it tells none.
fn directory_of(entry: Entry<'_>) -> u64
    ensures { result ≡ directory_of (entry_items entry.entry) }
{
    number_or_zero(entry.get(DIRECTORY_INDEX))
}

fn number_or_zero(value: Option<ValueRef<'_>>) -> u64
    ensures { result ≡ number_or_zero (option_map value_lent value.entry) }
{
    match value {
        Some(ValueRef::Number(number)) => number,
        _ => 0,
    }
}
