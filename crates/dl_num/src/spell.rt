//! The shortest spellings of numbers in LEB128. Section 7.6.

ghost use Rattle.std.specs.Prelude.{◌≡◌, ◌<◌, ◌≤◌, ◌^◌};
ghost use Rattle.dl_num.specs.Leb.{IsShortestUleb, IsShortestSleb};
ghost use Rattle.dl_num.specs.Shortest.{shortest_uleb, shortest_sleb};
ghost use Rattle.dl_num.specs.Magnitude.{signed_value, byte_of};

use arrayvec::ArrayVec;

/// The shortest spelling of an unsigned number.
pub fn uleb_bytes(number: u64) -> ArrayVec<u8, 10>
    ensures shortest { IsShortestUleb result.items number }
    ensures value { result.items ≡ shortest_uleb number }
{
    let mut bytes = ArrayVec::new();
    let mut rest = number;
    while rest >= 128 {
        bytes.push((rest % 128) as u8 + 128);
        rest /= 128;
    }
    bytes.push(rest as u8);
    bytes
}

/// The shortest spelling of a signed number.
pub fn sleb_bytes(number: i64) -> ArrayVec<u8, 10>
    ensures shortest { IsShortestSleb result.items number }
    ensures value { result.items ≡ shortest_sleb number }
{
    if number < 0 {
        signed_bytes((-1 - number) as u64, true)
    } else {
        signed_bytes(number as u64, false)
    }
}

/// The spelling whose groups, or the groups of whose complement, are those of the magnitude.
fn signed_bytes(magnitude: u64, negative: bool) -> ArrayVec<u8, 10>
    requires { magnitude < 2 ^ 63 }
    ensures shortest { IsShortestSleb result.items (signed_value negative magnitude) }
    ensures value { result.items ≡ shortest_sleb (signed_value negative magnitude) }
{
    let mut bytes = ArrayVec::new();
    let mut rest = magnitude;
    while rest >= 64 {
        bytes.push(128 + signed_group(negative, (rest % 128) as u8));
        rest /= 128;
    }
    bytes.push(signed_group(negative, rest as u8));
    bytes
}

fn signed_group(negative: bool, group: u8) -> u8
    requires { group < 128 }
    ensures value { result ≡ byte_of negative group }
    ensures small { result < 128 }
{
    if negative { 127 - group } else { group }
}
