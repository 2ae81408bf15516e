//! Whole paths of files, in one text each.

ghost use Rattle.std.specs.Prelude.{◌≡◌, ◌+◌, ◌≤◌, ◌++◌, ℕ, length, option_map, unwrap_or, IfOk, IfSome, OnErr, OnOk, [], Some};
ghost use Rattle.std.specs.Option.{option_copied};
ghost use Rattle.dl_memory.specs.Refusals.{IsRefused};
ghost use Rattle.dl_path.specs.PathTexts.{folder, root_of};
ghost use Rattle.dl_path.specs.Parts.{path_seen};
ghost use Rattle.dl_path.specs.Paths.{compiled_in, path_of, slash_after};
ghost use Rattle.dl_print.specs.ValueText.{strings_of};
ghost use Rattle.dl_lines.specs.Answers.{matches};
ghost use Rattle.dl_lines.specs.Searching.{option_len, path_found};
ghost use Rattle.dl_lines.specs.Room.{path_room};

use dl_head::Header;
use dl_memory::{Memory, NoMemory};
use dl_path::{Path, is_whole_path, path_of, slash_after, wants_slash};
use dl_print::StringSections;

/// Whether a path is the wanted one, or ends in it after a slash.
pub fn matches(wanted: &[u8], path: &[u8]) -> bool
    ensures { result ≡ matches wanted.now path.now }
{
    if !path.ends_with(wanted) {
        return false;
    }
    !wants_slash(&path[..path.len() - wanted.len()])
}

/// The path of the file of this number, under the compilation directory that counts. None where there is no such file, or its
/// own path isn't there.
pub fn path_bytes<M: Memory>(
    memory: &M,
    strings: &StringSections<'_>,
    header: &Header,
    directory: Option<&[u8]>,
    file: u64,
) -> Result<Option<Vec<u8>>, NoMemory>
    ensures path { IfOk result (λ p. option_map path_found p
        ≡ option_map (compiled_in (option_copied directory.entry)) (path_of (strings_of strings.now) (Some header.now) file)) }
    ensures within { IfOk result (λ p. option_len (option_map path_found p)
        ≤ path_room (strings_of strings.now) (option_copied directory.entry) header.now) }
    ensures refused { OnErr result (IsRefused (M.refuses memory.now)
        (path_room (strings_of strings.now) (option_copied directory.entry) header.now)) }
{
    let Some(path) = path_of(strings, Some(header), file) else {
        return Ok(None);
    };
    let bytes = text_of(memory, root_of(directory, path), path)?;
    Ok(Some(bytes))
}

/// What comes before a path: nothing where it is whole, else the compilation directory, if that is known.
fn root_of<'a>(directory: Option<&'a [u8]>, path: Path<'_>) -> &'a [u8]
    ensures { result.now ≡ root_of (option_copied directory.entry) (path_seen path.entry) }
{
    if is_whole_path(path) {
        return b"";
    }
    match directory {
        Some(directory) => directory,
        None => b"",
    }
}

/// A path in a directory.
fn text_of<M: Memory>(memory: &M, root: &[u8], path: Path<'_>) -> Result<Vec<u8>, NoMemory>
    ensures text { IfOk result (λ v. v.items ≡ folder root.now ++ path_seen path.entry) }
    ensures refused { OnErr result (IsRefused (M.refuses memory.now)
        (length root.now + length path.entry.base.now + length path.entry.directory.now + length path.entry.name.now + 3)) }
{
    let mut bytes = Vec::new(memory.alloc());
    put_folder(memory, &mut bytes, root)?;
    put_folder(memory, &mut bytes, path.base)?;
    put_folder(memory, &mut bytes, path.directory)?;
    memory.extend_from_slice(&mut bytes, path.name)?;
    Ok(bytes)
}

/// Puts a directory behind other bytes, with what stands between it and a path in it.
fn put_folder<M: Memory>(memory: &M, bytes: &mut Vec<u8>, directory: &[u8]) -> Result<(), NoMemory>
    ensures text { OnOk result (bytes.new.items ≡ bytes.old.items ++ folder directory.now) }
    ensures refused { OnErr result (IsRefused (M.refuses memory.now) (length bytes.old.items + length directory.now + 1)) }
{
    memory.extend_from_slice(bytes, directory)?;
    memory.extend_from_slice(bytes, slash_after(directory))
}
