//! Rooms that C hands in, which may be too small.

ghost use Rattle.std.specs.Prelude.{◌≡◌, ◌++◌, ℕ, List, [], ◌∷◌, length};
ghost use Rattle.dl_buffers.specs.UnitCalls.{length_told, written_over};

/// Writes bytes into a room, as far as they fit.
pub fn fill(room: &mut [u8], bytes: &[u8])
    ensures { room.new ≡ written_over room.old bytes.now }
{
    let len = room.len().min(bytes.len());
    room[..len].copy_from_slice(&bytes[..len]);
}

/// Writes bytes into a room after those that were written, of which there are `at`, as far as they fit. Answers how
/// many there are then.
pub fn add(room: &mut [u8], at: usize, bytes: &[u8]) -> usize
    ensures written { (first text : List ℕ) → room.old ≡ written_over first text
        → at ≡ length_told text → room.new ≡ written_over first (text ++ bytes.now) }
    ensures len { (text : List ℕ) → at ≡ length_told text → result ≡ length_told (text ++ bytes.now) }
{
    let after = at.saturating_add(bytes.len());
    let end = room.len().min(after);
    if at < end {
        room[at..end].copy_from_slice(&bytes[..end - at]);
    }
    after
}

/// Writes a number into a room after those that were written, of which there are `at`, where there is room for it.
pub fn put(room: &mut [usize], at: usize, number: usize)
    ensures { (first numbers : List ℕ) → room.old ≡ written_over first numbers → at ≡ length numbers
        → room.new ≡ written_over first (numbers ++ number ∷ []) }
{
    if at < room.len() {
        room[at] = number;
    }
}
