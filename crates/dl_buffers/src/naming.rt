//! The call that tells the path of a file.

ghost use Rattle.std.specs.Prelude.{◌≡◌, ◌++◌, ℕ, List, drop, option_map};
ghost use Rattle.dl_path.specs.Parts.{path_seen};
ghost use Rattle.dl_path.specs.Paths.{path_of};
ghost use Rattle.dl_print.specs.ValueText.{strings_of};
ghost use Rattle.dl_buffers.specs.Calls.{dialect_of};
ghost use Rattle.dl_buffers.specs.PathCalls.{Names, TellsPath, both_strings, path_or_missing};
ghost use Rattle.dl_buffers.specs.UnitCalls.{length_told, written_over};

use crate::checking::dialect_of;
use crate::record::FaultRecord;
use crate::room::add;
use crate::status::Status;
use crate::stop::tell_stop;
use crate::unit::{rest_from, unit_at_front};
use dl_path::{Path, path_of, slash_after};
use dl_print::StringSections;
use dl_sections::WholeUnit;
use std::alloc::Global;

/// Tells the path of the file of this number in the unit that begins at an offset of a section, as `dl_path::path_of`
/// joins it, as far as there is room. The string sections are `.debug_line_str` and `.debug_str`.
///
/// Done: the path is told, and how many bytes it has; `??` where the unit has no file of this number, or the file's
/// own path isn't there. NoAnswer: the section has no byte there. OtherVersion: the unit isn't of version 5. Fault:
/// the fault is told. What isn't told stays as it was. What comes before the offset, and after the unit, isn't
/// looked at.
pub fn path_at(
    alloc: Global,
    section: &[u8],
    how: u8,
    offset: u64,
    file: u64,
    line_str: &[u8],
    str: &[u8],
    path: &mut [u8],
    len: &mut usize,
    fault: &mut FaultRecord,
) -> Status
    ensures { TellsPath (dialect_of how) (drop offset section.now) offset (both_strings line_str.now str.now) file
        path.old path.new len.old len.new fault.old fault.new result }
{
    let strings = StringSections::new(Some(line_str), Some(str));
    match unit_at_front(alloc, dialect_of(how), rest_from(section, offset)) {
        Ok(Some(front)) => name(&strings, &front.unit, file, path, len),
        Ok(None) => Status::NoAnswer,
        Err(stop) => tell_stop(stop, offset, fault),
    }
}

/// Tells the path of a file of a unit that was read whole.
fn name(
    strings: &StringSections<'_>,
    unit: &WholeUnit,
    file: u64,
    path: &mut [u8],
    len: &mut usize,
) -> Status
    ensures { Names unit.now.version (path_or_missing (path_of (strings_of strings.now) unit.now.header file))
        path.old path.new len.old len.new result }
{
    if unit.version.is_some() {
        return Status::OtherVersion;
    }
    *len = join(path_of(strings, unit.header.as_ref(), file), path);
    Status::Done
}

/// Writes a path into a room, or `??` where it isn't known, as far as it fits, and answers how many bytes it has.
fn join(path: Option<Path<'_>>, room: &mut [u8]) -> usize
    ensures written { room.new ≡ written_over room.old (path_or_missing (option_map path_seen path.entry)) }
    ensures len { result ≡ length_told (path_or_missing (option_map path_seen path.entry)) }
{
    join_after(path, room, 0)
}

/// Writes a path into a room after the bytes that were written, of which there are `at`, or `??` where it isn't known,
/// as far as it fits. Answers how many bytes there are then.
pub(crate) fn join_after(path: Option<Path<'_>>, room: &mut [u8], at: usize) -> usize
    ensures written { (first text : List ℕ) → room.old ≡ written_over first text → at ≡ length_told text
        → room.new ≡ written_over first (text ++ path_or_missing (option_map path_seen path.entry)) }
    ensures len { (text : List ℕ) → at ≡ length_told text
        → result ≡ length_told (text ++ path_or_missing (option_map path_seen path.entry)) }
{
    match path {
        Some(path) => known_after(path, room, at),
        None => add(room, at, b"??"),
    }
}

/// The same of a path that is known.
fn known_after(path: Path<'_>, room: &mut [u8], at: usize) -> usize
    ensures written { (first text : List ℕ) → room.old ≡ written_over first text → at ≡ length_told text
        → room.new ≡ written_over first (text ++ path_seen path.entry) }
    ensures len { (text : List ℕ) → at ≡ length_told text → result ≡ length_told (text ++ path_seen path.entry) }
{
    let at = add(room, at, path.base);
    let at = add(room, at, slash_after(path.base));
    let at = add(room, at, path.directory);
    let at = add(room, at, slash_after(path.directory));
    add(room, at, path.name)
}
