//! The calls that look addresses up.

ghost use Rattle.std.specs.Prelude.{◌≡◌, ℕ, ◌<◌, length, slice_index, slice_index_or};
ghost use Rattle.dl_index.specs.Shown.{bytes_of};
ghost use Rattle.dl_index_buffers.specs.IndexFindCalls.{FindsMany, FindsOne, Located};
ghost use Rattle.dl_index_buffers.specs.declared.record.LocationRecord.{LocationRecord};

use crate::record::LocationRecord;
use dl_buffers::Status;
use dl_index::{Four, IndexRef, Layout, reopen};

/// What an index tells of an address.
///
/// Done: it is told. NoAnswer: nothing is told, in a gap and before the first stretch. Fault: the bytes aren't those of an
/// index with this layout, which is so of none that was opened with it. What isn't told stays as it was. Where the bytes were not checked, nothing is told
/// either where the number of a file or text, or the place of a text, lies outside.
pub fn find(bytes: &[u8], layout: &Layout, address: u64, location: &mut LocationRecord) -> Status
    ensures { FindsOne layout.now bytes.now address location.old location.new result }
{
    let Some(index) = reopen(bytes, layout) else {
        return Status::Fault;
    };
    match index.find(address) {
        Some(found) => {
            *location = LocationRecord::found(&found);
            Status::Done
        }
        None => Status::NoAnswer,
    }
}

/// What an index tells of each address, as by `find`, four of them side by side, each at its place in `locations`.
///
/// Done: each is told, or that nothing is told of it. NoRoom: there aren't as many locations as addresses. Fault: as of
/// `find`. What isn't told stays as it was.
pub fn find_many(
    bytes: &[u8],
    layout: &Layout,
    addresses: &[u64],
    locations: &mut [LocationRecord],
) -> Status
    ensures { FindsMany layout.now bytes.now addresses.now locations.old locations.new result }
{
    if addresses.len() != locations.len() {
        return Status::NoRoom;
    }
    let Some(index) = reopen(bytes, layout) else {
        return Status::Fault;
    };
    locate_all(&index, addresses, locations);
    Status::Done
}

/// Tells what an index tells of each address. Where there is no stretch, the addresses are looked up one by one.
fn locate_all(index: &IndexRef<'_>, addresses: &[u64], locations: &mut [LocationRecord])
    requires { length addresses.now ≡ length locations.old }
    ensures len { length locations.new ≡ length addresses.now }
    ensures located { (i : ℕ) → i < length addresses.now → (d : LocationRecord)
        → Located (bytes_of index.now) (slice_index addresses.now i) (slice_index_or locations.new i d) }
{
    let mut i = 0;
    while addresses.len() - i >= 4 {
        let four = Four {
            first: addresses[i],
            second: addresses[i + 1],
            third: addresses[i + 2],
            fourth: addresses[i + 3],
        };
        let Some(last) = index.last_upto_four(four) else {
            break;
        };
        locations[i] = LocationRecord::of(index.found_from(four.first, last.first));
        locations[i + 1] = LocationRecord::of(index.found_from(four.second, last.second));
        locations[i + 2] = LocationRecord::of(index.found_from(four.third, last.third));
        locations[i + 3] = LocationRecord::of(index.found_from(four.fourth, last.fourth));
        i += 4;
    }
    for k in i..addresses.len() {
        locations[k] = LocationRecord::of(index.find(addresses[k]));
    }
}
