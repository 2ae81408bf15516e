//! Where the first byte of a value stands.
ghost use Rattle.std.specs.Prelude.{◌≡◌, ◌<◌, ◌==◌, length, position, IfSome};

use memchr::memchr;

/// Where the first byte of this value stands; None where there is none.
#[tactic(auto, using(crate::proofs::FirstByte::first_byte))]
pub fn first_of(bytes: &[u8], value: u8) -> Option<usize>
    ensures place { result ≡ position (λ x. x == value) bytes.now }
    ensures within { IfSome result (λ place. place < length bytes.now) }
{
    memchr(value, bytes)
}
