//! The call that joins a path.

ghost use Rattle.std.specs.Prelude.{◌≡◌, ◌++◌, ℕ, List, take, drop};
ghost use Rattle.dl_buffers.specs.UnitCalls.{length_told, written_over};
ghost use Rattle.dl_index_buffers.specs.IndexPathCalls.{path_told};
ghost use Rattle.dl_index_buffers.specs.IndexRecords.{texts_in};

use crate::record::LocationRecord;
use dl_buffers::room::{add, fill};

/// Writes the path of a location, which `find` told of these bytes, as far as there is room, and answers how many bytes it
/// has (2^64 - 1 where there are more). It is `??` where it isn't known. What it leaves of the room stays as it was.
pub fn path(bytes: &[u8], location: &LocationRecord, room: &mut [u8]) -> usize
    ensures written { room.new ≡ written_over room.old (path_told bytes.now location.now) }
    ensures len { result ≡ length_told (path_told bytes.now location.now) }
{
    if location.has_path == 0 {
        fill(room, b"??");
        return 2;
    }
    join(bytes, location, room)
}

/// Writes the texts of a location.
fn join(bytes: &[u8], location: &LocationRecord, room: &mut [u8]) -> usize
    ensures written { room.new ≡ written_over room.old (texts_in bytes.now location.now) }
    ensures len { result ≡ length_told (texts_in bytes.now location.now) }
{
    let at = add(room, 0, text_at(bytes, location.first, location.first_len));
    let at = add(
        room,
        at,
        text_at(bytes, location.second, location.second_len),
    );
    add(room, at, text_at(bytes, location.third, location.third_len))
}

/// So many bytes from a place on, as far as there are any.
fn text_at(bytes: &[u8], place: usize, len: usize) -> &[u8]
    ensures { result.now ≡ take len (drop place bytes.entry.now) }
{
    if place >= bytes.len() {
        return &[];
    }
    let rest = &bytes[place..];
    &rest[..len.min(rest.len())]
}
