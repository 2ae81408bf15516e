//! Fields of a header, which are filled up with spaces.
ghost use Rattle.std.specs.Prelude.{◌≡◌, ◌≤◌, ◌<◌, ◌==◌, length, position, IfSome};
ghost use Rattle.dl_archive.specs.Archive.{end_before, number_of, place_of, without_end};

use dl_num::first_of;

/// How many bytes there are without those of this value at the end.
fn end_before(bytes: &[u8], value: u8) -> usize
    ensures end { result ≡ end_before value bytes.now (length bytes.now) }
    ensures within { result ≤ length bytes.now }
{
    let mut len = bytes.len();
    while 0 < len && bytes[len - 1] == value {
        len -= 1;
    }
    len
}

/// The bytes without those of this value at the end.
pub(crate) fn without_end(bytes: &[u8], value: u8) -> &[u8]
    ensures { result.now ≡ without_end value bytes.entry.now }
{
    &bytes[..end_before(bytes, value)]
}

/// The number below 2^64 that decimal digits are; None where there is none, or another byte among them.
pub(crate) fn number_of(digits: &[u8]) -> Option<u64>
    ensures { result ≡ number_of digits.now }
{
    if digits.is_empty() {
        return None;
    }
    let mut number = 0u64;
    for byte in digits {
        if !byte.is_ascii_digit() {
            return None;
        }
        let digit = (*byte - b'0') as u64;
        number = number.checked_mul(10)?.checked_add(digit)?;
    }
    Some(number)
}

/// Where the first byte of this value stands; where there is none, how many bytes there are.
pub(crate) fn place_of(bytes: &[u8], value: u8) -> usize
    ensures place { result ≡ place_of value bytes.now }
    ensures within { result ≤ length bytes.now }
{
    match first_of(bytes, value) {
        Some(place) => place,
        None => bytes.len(),
    }
}
