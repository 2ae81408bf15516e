//! The directory of the compilation, under which a path stands that isn't whole. DWARF 5, sections 3.1.1 and 6.2.4.

ghost use Rattle.std.specs.Prelude.{◌≡◌, option_map};
ghost use Rattle.std.specs.Option.{option_copied};
ghost use Rattle.dl_path.specs.Parts.{path_seen};
ghost use Rattle.dl_path.specs.Paths.{begins_with, beside_table, has_directory_0, is_whole};

use crate::component::lies_in_windows;
use crate::path::{Path, is_whole};
use dl_head::Header;

/// Whether directory 0 of the unit's table is the compilation directory, as from version 5 on.
pub fn has_directory_0(header: Option<&Header>) -> bool
    ensures { result ≡ has_directory_0 (option_copied header.entry) }
{
    match header {
        Some(header) => header.params().version == 5,
        None => false,
    }
}

/// The compilation directory that counts for a unit, of which `.debug_info` or the user says this one: where the unit's
/// table has one too, one that isn't whole adds nothing.
pub fn beside_table(has_directory_0: bool, directory: Option<&[u8]>) -> Option<&[u8]>
    ensures { option_copied result ≡ beside_table has_directory_0 (option_copied directory.entry) }
{
    let directory = directory?;
    if has_directory_0 && !is_whole(directory) {
        return None;
    }
    Some(directory)
}

/// Whether a path stands for itself, under no directory.
pub fn is_whole_path(path: Path<'_>) -> bool
    ensures { result ≡ is_whole (path_seen path.entry) }
{
    first_part(path).first() == Some(&b'/') || lies_in_windows(path)
}

/// The first part of a path that has a byte.
fn first_part(path: Path<'_>) -> &[u8]
    ensures { begins_with 0x2f result.now ≡ begins_with 0x2f (path_seen path.entry) }
{
    if !path.base.is_empty() {
        path.base
    } else if !path.directory.is_empty() {
        path.directory
    } else {
        path.name
    }
}
