//! The check value of bytes, and of bytes that come in pieces.

ghost use Rattle.std.specs.Prelude.{◌≡◌, ◌%◌, bit_xor};
ghost use Rattle.std.specs.List.{concat};
ghost use Rattle.dl_crc.specs.Crc32.{crc_32, with_byte, with_bytes};

use crate::table::row_of;

/// CRC-32 of bytes. RFC 1952, section 8.
pub fn crc_32(bytes: &[u8]) -> u32
    ensures { result ≡ crc_32 bytes.now }
{
    let mut crc = Crc32::new();
    crc.update(bytes);
    crc.finish()
}

/// The register with the next bytes, eight at a time.
fn with_eights(register: u32, eights: &[[u8; 8]]) -> u32
    ensures { result ≡ with_bytes register (concat eights.now) }
{
    let mut register = register;
    for eight in eights {
        register = with_eight(register, eight);
    }
    register
}

/// The register with the next bytes.
fn with_bytes(register: u32, bytes: &[u8]) -> u32
    ensures { result ≡ with_bytes register bytes.now }
{
    let mut register = register;
    for byte in bytes {
        register = with_byte(register, *byte);
    }
    register
}

/// The register with the next byte.
#[inline(always)]
fn with_byte(register: u32, byte: u8) -> u32
    ensures { result ≡ with_byte register byte }
{
    row_of(0, sum_of(register, byte)) ^ (register >> 8)
}

/// The register with the next eight bytes, of which the first four are added to its own.
#[inline(always)]
fn with_eight(register: u32, bytes: &[u8; 8]) -> u32
    ensures { result ≡ with_bytes register bytes.now }
{
    let first = row_of(7, sum_of(register, bytes[0]))
        ^ row_of(6, sum_of(register >> 8, bytes[1]))
        ^ row_of(5, sum_of(register >> 16, bytes[2]))
        ^ row_of(4, sum_of(register >> 24, bytes[3]));
    let last = row_of(3, bytes[4])
        ^ row_of(2, bytes[5])
        ^ row_of(1, bytes[6])
        ^ row_of(0, bytes[7]);
    first ^ last
}

/// The eight least bits of the register, with a byte added.
#[inline(always)]
fn sum_of(register: u32, byte: u8) -> u8
    ensures { result ≡ bit_xor register byte % 256 }
{
    (register % 256) as u8 ^ byte
}

/// CRC-32 of the bytes so far.
#[derive(Debug, Clone, Copy)]
pub struct Crc32 {
    register: u32,
}

impl Crc32 {
    ghost use Rattle.std.specs.Prelude.{◌≡◌, ℕ, List, [], ◌++◌};
    ghost use Rattle.dl_crc.specs.Crc32.{crc_32};
    ghost use Rattle.dl_crc.specs.Stands.{StandsFor};

    /// No byte yet.
    pub fn new() -> Self
        ensures { StandsFor result [] }
    {
        Crc32 { register: !0 }
    }

    /// The next bytes.
    pub fn update(&mut self, bytes: &[u8])
        ensures { (before : List ℕ) → StandsFor self.old before → StandsFor self.new (before ++ bytes.now) }
    {
        let (eights, last) = bytes.as_chunks::<8>();
        self.register = with_bytes(with_eights(self.register, eights), last);
    }

    /// CRC-32 of all bytes so far.
    pub fn finish(&self) -> u32
        ensures { (bytes : List ℕ) → StandsFor self.now bytes → result ≡ crc_32 bytes }
    {
        !self.register
    }
}
