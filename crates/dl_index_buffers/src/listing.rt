//! The call that tells a stretch.

ghost use Rattle.std.specs.Prelude.{◌≡◌, ◌-◌, ◌^◌};
ghost use Rattle.std.specs.Option.{option_map_or};
ghost use Rattle.dl_index_buffers.specs.StretchCalls.{ListsStretch};

use crate::record::LocationRecord;
use dl_buffers::Status;
use dl_index::{Layout, reopen};

/// Tells stretch `k` of an index, counted from 0: its first address, its last one, and what is told of them.
///
/// Done: it is told; the location says whether something is told of its addresses. NoAnswer: there is no such stretch, or
/// its first address isn't below 2^64, which is so of no index that was checked. Fault: as of `find`. What isn't told
/// stays as it was.
pub fn stretch(
    bytes: &[u8],
    layout: &Layout,
    k: usize,
    start: &mut u64,
    last: &mut u64,
    location: &mut LocationRecord,
) -> Status
    ensures { ListsStretch layout.now bytes.now k start.old start.new last.old last.new location.old location.new result }
{
    let Some(index) = reopen(bytes, layout) else {
        return Status::Fault;
    };
    let Some(listed) = index.stretch(k) else {
        return Status::NoAnswer;
    };
    *start = listed.start;
    *last = last_before(listed.end);
    *location = LocationRecord::of(listed.found);
    Status::Done
}

/// The last address before the next stretch; of all where there is none.
fn last_before(next: Option<u64>) -> u64
    ensures { result ≡ option_map_or (λ n. n - 1) next (2 ^ 64 - 1) }
{
    match next {
        Some(next) => next.saturating_sub(1),
        None => u64::MAX,
    }
}
