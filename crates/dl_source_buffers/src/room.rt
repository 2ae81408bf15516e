//! Rooms that C hands in, which may be too small.

ghost use Rattle.std.specs.Prelude.{◌≡◌, ◌++◌, List, [], ◌∷◌, length};
ghost use Rattle.dl_buffers.specs.UnitCalls.{written_over};
ghost use Rattle.dl_source_buffers.specs.SourceCalls.{count_told};

/// Writes an item into a room after those that were written, of which there are `at`, where there is room for it.
pub fn put<T: Copy>(room: &mut [T], at: usize, item: T)
    ensures { (first items : List T) → room.old ≡ written_over first items → at ≡ length items
        → room.new ≡ written_over first (items ++ item ∷ []) }
{
    if at < room.len() {
        room[at] = item;
    }
}

/// Writes items into a room after those that were written, of which there are `at`, as far as they fit. Answers how many there
/// are then; 2^64 - 1 stands for every number above it too.
pub fn add<T: Copy>(room: &mut [T], at: usize, items: &[T]) -> usize
    ensures written { (first before : List T) → room.old ≡ written_over first before → at ≡ count_told before
        → room.new ≡ written_over first (before ++ items.now) }
    ensures count { (before : List T) → at ≡ count_told before → result ≡ count_told (before ++ items.now) }
{
    let after = at.saturating_add(items.len());
    let end = room.len().min(after);
    if at < end {
        room[at..end].copy_from_slice(&items[..end - at]);
    }
    after
}
