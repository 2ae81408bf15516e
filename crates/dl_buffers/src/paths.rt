//! The call that tells the paths of many files.

ghost use Rattle.std.specs.Prelude.{◌≡◌, drop};
ghost use Rattle.std.specs.List.{concat};
ghost use Rattle.std.specs.Option.{option_copied};
ghost use Rattle.dl_print.specs.ValueText.{strings_of};
ghost use Rattle.dl_buffers.specs.Calls.{dialect_of};
ghost use Rattle.dl_buffers.specs.PathCalls.{both_strings};
ghost use Rattle.dl_buffers.specs.PathsCalls.{NamesAll, TellsPaths, ends_from, paths_of};
ghost use Rattle.dl_buffers.specs.UnitCalls.{length_told, written_over};

use crate::checking::dialect_of;
use crate::naming::join_after;
use crate::record::FaultRecord;
use crate::room::put;
use crate::status::Status;
use crate::stop::tell_stop;
use crate::unit::{rest_from, unit_at_front};
use dl_head::Header;
use dl_path::path_of;
use dl_print::StringSections;
use dl_sections::WholeUnit;
use std::alloc::Global;

/// Tells the paths of files of the unit that begins at an offset of a section, one after the other, each as `path_at`
/// tells it, and where each ends, in one pass over the unit.
///
/// Done: the paths are told, and their ends. NoRoom: there isn't room for all of the paths; what fits is told, and all
/// of their ends. In both cases ends are told as far as there is room for them. NoAnswer, OtherVersion, Fault: as of
/// `path_at`. What isn't told stays as it was. What comes before the offset, and after the unit, isn't looked at.
pub fn paths_at(
    alloc: Global,
    section: &[u8],
    how: u8,
    offset: u64,
    files: &[u64],
    line_str: &[u8],
    str: &[u8],
    paths: &mut [u8],
    ends: &mut [usize],
    fault: &mut FaultRecord,
) -> Status
    ensures { TellsPaths (dialect_of how) (drop offset section.now) offset (both_strings line_str.now str.now) files.now
        paths.old paths.new ends.old ends.new fault.old fault.new result }
{
    let strings = StringSections::new(Some(line_str), Some(str));
    match unit_at_front(alloc, dialect_of(how), rest_from(section, offset)) {
        Ok(Some(front)) => name_all(&strings, &front.unit, files, paths, ends),
        Ok(None) => Status::NoAnswer,
        Err(stop) => tell_stop(stop, offset, fault),
    }
}

/// Tells the paths of files of a unit that was read whole.
fn name_all(
    strings: &StringSections<'_>,
    unit: &WholeUnit,
    files: &[u64],
    paths: &mut [u8],
    ends: &mut [usize],
) -> Status
    ensures { NamesAll unit.now.version (paths_of (strings_of strings.now) unit.now.header files.now) paths.old
        paths.new ends.old ends.new result }
{
    if unit.version.is_some() {
        return Status::OtherVersion;
    }
    let len = join_all(strings, unit.header.as_ref(), files, paths, ends);
    if paths.len() < len {
        return Status::NoRoom;
    }
    Status::Done
}

/// Writes the paths of files into a room, and into another one where each ends, both as far as they fit. Answers how
/// many bytes the paths have.
fn join_all<'a>(
    strings: &'a StringSections<'_>,
    header: Option<&'a Header>,
    files: &[u64],
    room: &mut [u8],
    ends: &mut [usize],
) -> usize
    ensures written { room.new
        ≡ written_over room.old (concat (paths_of (strings_of strings.now) (option_copied header.entry) files.now)) }
    ensures ends { ends.new ≡ written_over ends.old
        (ends_from 0 (paths_of (strings_of strings.now) (option_copied header.entry) files.now)) }
    ensures len { result
        ≡ length_told (concat (paths_of (strings_of strings.now) (option_copied header.entry) files.now)) }
{
    let mut len = 0;
    for i in 0..files.len() {
        len = join_after(path_of(strings, header, files[i]), room, len);
        put(ends, i, len);
    }
    len
}
