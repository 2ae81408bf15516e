//! The files of units, of which each is kept once with the texts of its path. Sections 3.1.1 and 6.2.4.

ghost use Rattle.std.specs.Prelude.{◌≡◌, ◌<◌, ◌≤◌, ℕ, ◌+◌, ◌^◌, ◌++◌, [], Some, IfOk, IfSome, OnErr, OnOk, length, slice_get};
ghost use Rattle.std.specs.Option.{option_copied, option_map, option_map_or};
ghost use Rattle.dl_path.specs.Parts.{path_apart, path_seen};
ghost use Rattle.dl_path.specs.PathTexts.{folder, root_of, text_if_any, texts_under};
ghost use Rattle.dl_path.specs.TextRoom.{PartsWithin};
ghost use Rattle.dl_pack.specs.Named.{Grows, Once, parts_of, text_of};
ghost use Rattle.dl_pack.specs.Shown.{named_files, texts_of};
ghost use Rattle.dl_making.specs.UnitFile.{file_in};
ghost use Rattle.dl_making.specs.Few.{AddsFew, names_room, path_text, unit_text};
ghost use Rattle.dl_memory.specs.Refusals.{IsRefused};

use dl_head::Header;
use dl_memory::{Memory, NoMemory};
use dl_pack::{Names, SetMemory};
use dl_path::{Path, is_whole_path, path_of, slash_after};
use dl_print::StringSections;

/// What a unit says of its files.
#[derive(Clone, Copy)]
pub(crate) struct UnitFiles<'a, 'o> {
    pub(crate) strings: &'a StringSections<'o>,
    /// None where the unit has no header, and so no file.
    pub(crate) header: Option<&'a Header>,
    /// The compilation directory that counts for the unit, if it is known.
    pub(crate) directory: Option<&'a [u8]>,
    /// The offset of the unit in the line section.
    pub(crate) offset: u64,
}

/// The number of a file of a unit in an index. Where the index has no file of that unit with the same texts, it is
/// added; one that has no path has no text. `NoMemory` where a growth is refused.
pub(crate) fn file_number<M: SetMemory>(
    memory: &M,
    names: &mut Names,
    unit: &UnitFiles<'_, '_>,
    file: u64,
) -> Result<u64, NoMemory>
    ensures refused { OnErr result (IsRefused (M.refuses memory.now) (names_room (unit_text unit.now) names.old 1)) }
    ensures few { OnOk result (AddsFew 3 1 (unit_text unit.now) names.old names.new) }
    ensures number { IfOk result (λ n. slice_get (named_files names.new) n ≡ Some (file_in unit.now file)) }
    ensures small { IfOk result (λ n. n < 2 ^ 63) }
    ensures grows { Grows (named_files names.old) (named_files names.new) }
    ensures once { Once (named_files names.new) }
{
    let path = path_of(unit.strings, unit.header, file);
    let texts = text_numbers(memory, names, unit.directory, path)?;
    names.add_file(memory, unit.offset, texts)
}

/// The numbers of the texts of a path, if there is one, under a compilation directory.
fn text_numbers<M: SetMemory>(
    memory: &M,
    names: &mut Names,
    directory: Option<&[u8]>,
    path: Option<Path<'_>>,
) -> Result<[u64; 3], NoMemory>
    ensures refused { OnErr result ((most : ℕ) → IfSome path.entry (λ p. PartsWithin most (path_apart p))
        → IsRefused (M.refuses memory.now) (names_room (path_text (option_copied directory.entry) most) names.old 1)) }
    ensures few { OnOk result ((most : ℕ) → IfSome path.entry (λ p. PartsWithin most (path_apart p))
        → AddsFew 3 0 (path_text (option_copied directory.entry) most) names.old names.new) }
    ensures texts { IfOk result (λ numbers. parts_of (texts_of names.new) numbers
        ≡ option_map_or (texts_under (option_copied directory.entry)) (option_map path_apart path.entry) []) }
    ensures files { named_files names.new ≡ named_files names.old }
{
    match path {
        Some(path) => path_numbers(memory, names, directory, path),
        None => Ok([0; 3]),
    }
}

/// The numbers of the texts of a path that is known, which are added where they aren't there; 0 for one that is left out.
fn path_numbers<M: SetMemory>(
    memory: &M,
    names: &mut Names,
    directory: Option<&[u8]>,
    path: Path<'_>,
) -> Result<[u64; 3], NoMemory>
    ensures refused { OnErr result ((most : ℕ) → PartsWithin most (path_apart path.entry)
        → IsRefused (M.refuses memory.now) (names_room (path_text (option_copied directory.entry) most) names.old 1)) }
    ensures few { OnOk result ((most : ℕ) → PartsWithin most (path_apart path.entry)
        → AddsFew 3 0 (path_text (option_copied directory.entry) most) names.old names.new) }
    ensures texts { IfOk result (λ numbers. parts_of (texts_of names.new) numbers
        ≡ texts_under (option_copied directory.entry) (path_apart path.entry)) }
    ensures files { named_files names.new ≡ named_files names.old }
{
    let root = root_of(directory, path);
    let before = folders_number(memory, names, root, path.base)?;
    let directory = folders_number(memory, names, b"", path.directory)?;
    let name = names.add_text(memory, path.name)?;
    Ok([before, directory, name])
}

/// The compilation directory, where it comes before a path; else nothing.
pub fn root_of<'a>(directory: Option<&'a [u8]>, path: Path<'_>) -> &'a [u8]
    ensures { result.now ≡ root_of (option_copied directory.entry) (path_seen path.entry) }
{
    if is_whole_path(path) {
        return b"";
    }
    match directory {
        Some(directory) => directory,
        None => b"",
    }
}

/// The number of the text of two directories, each with what stands between it and a path in it; 0 where that is empty.
fn folders_number<M: SetMemory>(
    memory: &M,
    names: &mut Names,
    first: &[u8],
    second: &[u8],
) -> Result<u64, NoMemory>
    ensures refused { OnErr result (IsRefused (M.refuses memory.now)
        (length first.now + length second.now + length (texts_of names.old) + 3)) }
    ensures few { OnOk result (AddsFew 1 0 (length first.now + length second.now + 2) names.old names.new) }
    ensures text { IfOk result (λ n. text_of (texts_of names.new) n
        ≡ text_if_any (folder first.now ++ folder second.now)) }
    ensures within { IfOk result (λ n. n ≤ length (texts_of names.new)) }
    ensures grows { Grows (texts_of names.old) (texts_of names.new) }
    ensures files { named_files names.new ≡ named_files names.old }
{
    let text = folders(memory, first, second)?;
    text_number(memory, names, text.as_slice())
}

/// The number of a text, which is added where it isn't there; 0 of an empty one.
fn text_number<M: SetMemory>(memory: &M, names: &mut Names, text: &[u8]) -> Result<u64, NoMemory>
    ensures refused { OnErr result (IsRefused (M.refuses memory.now) (length text.now + length (texts_of names.old) + 1)) }
    ensures few { OnOk result (AddsFew 1 0 (length text.now) names.old names.new) }
    ensures text { IfOk result (λ n. text_of (texts_of names.new) n ≡ text_if_any text.now) }
    ensures within { IfOk result (λ n. n ≤ length (texts_of names.new)) }
    ensures grows { Grows (texts_of names.old) (texts_of names.new) }
    ensures files { named_files names.new ≡ named_files names.old }
{
    if text.is_empty() {
        return Ok(0);
    }
    names.add_text(memory, text)
}

/// Two directories, each with what stands between it and a path in it.
fn folders<M: Memory>(memory: &M, first: &[u8], second: &[u8]) -> Result<Vec<u8>, NoMemory>
    ensures refused { OnErr result (IsRefused (M.refuses memory.now) (length first.now + length second.now + 2)) }
    ensures text { IfOk result (λ text. text.items ≡ folder first.now ++ folder second.now) }
{
    let mut text = Vec::new(memory.alloc());
    put_folder(memory, &mut text, first)?;
    put_folder(memory, &mut text, second)?;
    Ok(text)
}

/// Puts a directory after a text, and what stands between it and a path in it.
pub fn put_folder<M: Memory>(
    memory: &M,
    text: &mut Vec<u8>,
    directory: &[u8],
) -> Result<(), NoMemory>
    ensures refused { OnErr result (IsRefused (M.refuses memory.now) (length text.old.items + length directory.now + 1)) }
    ensures put { IfOk result (λ _. text.new.items ≡ text.old.items ++ folder directory.now) }
{
    memory.extend_from_slice(text, directory)?;
    memory.extend_from_slice(text, slash_after(directory))?;
    Ok(())
}
