//! The parts of a value's text that have a fixed size.
ghost use Rattle.std.specs.Prelude.{◌≡◌, ◌+◌, ◌*◌, ◌≤◌, [], ◌∷◌, ◌++◌, length, take, codes, decimal};
ghost use Rattle.dl_print.specs.Digits.{hexadecimal};
ghost use Rattle.dl_print.specs.ValueText.{is_escaped, quoted_byte, quoted_bytes, offset_text, content_name};

use crate::text::digits::{write_byte, write_byte_digits, write_bytes, write_hexadecimal};

fn is_escaped(byte: u8) -> bool
    ensures { result ≡ is_escaped byte }
{
    byte < 0x20 || byte == 0x7f || byte == 0x22 || byte == 0x5c
}

fn write_quoted_byte(buffer: &mut [u8], at: usize, byte: u8) -> usize
    requires { at + 4 ≤ length buffer.old }
    ensures written { take result buffer.new ≡ take at buffer.old ++ quoted_byte byte }
    ensures room { result ≤ at + 4 }
{
    if is_escaped(byte) {
        let at = write_bytes(buffer, at, b"\\x");
        write_byte_digits(buffer, at, byte)
    } else {
        write_byte(buffer, at, byte)
    }
}

/// Writes the bytes as they stand between quotes, and answers where they end.
pub fn write_quoted_bytes(buffer: &mut [u8], at: usize, bytes: &[u8]) -> usize
    requires { at + 4 * length bytes.now ≤ length buffer.old }
    ensures written { take result buffer.new ≡ take at buffer.old ++ quoted_bytes bytes.now }
    ensures room { result ≤ at + 4 * length bytes.now }
{
    let mut at = at;
    for byte in bytes {
        at = write_quoted_byte(buffer, at, *byte);
    }
    at
}

/// Writes an offset after the name of its form, and answers where it ends.
#[tactic(auto, using(crate::proofs::HexadecimalLemmas::hexadecimal_room))]
pub fn write_offset(buffer: &mut [u8], at: usize, name: &[u8], offset: u64) -> usize
    requires { at + length name.now + 19 ≤ length buffer.old }
    ensures written { take result buffer.new
        ≡ take at buffer.old ++ offset_text name.now offset }
    ensures room { result ≤ at + length name.now + 19 }
{
    let at = write_bytes(buffer, at, name);
    let at = write_bytes(buffer, at, b"+0x");
    write_hexadecimal(buffer, at, offset)
}

#[tactic(auto, using(crate::proofs::HexadecimalLemmas::hexadecimal_room))]
fn write_code(buffer: &mut [u8], at: usize, content: u64) -> usize
    requires { at + 18 ≤ length buffer.old }
    ensures written { take result buffer.new
        ≡ take at buffer.old ++ (codes "0x" ++ hexadecimal content) }
    ensures room { result ≤ at + 18 }
{
    let at = write_bytes(buffer, at, b"0x");
    write_hexadecimal(buffer, at, content)
}

/// Writes the name of a content code, and answers where it ends.
#[tactic(auto, unfolding(crate::specs::ValueText::content_name))]
fn write_content_name(buffer: &mut [u8], at: usize, content: u64) -> usize
    requires { at + 18 ≤ length buffer.old }
    ensures written { take result buffer.new ≡ take at buffer.old ++ content_name content }
    ensures room { result ≤ at + 18 }
{
    match content {
        1 => write_bytes(buffer, at, b"path"),
        2 => write_bytes(buffer, at, b"dir"),
        3 => write_bytes(buffer, at, b"time"),
        4 => write_bytes(buffer, at, b"size"),
        5 => write_bytes(buffer, at, b"md5"),
        _ => write_code(buffer, at, content),
    }
}

/// Writes what stands before a value, and answers where it ends.
pub fn write_value_start(buffer: &mut [u8], at: usize, content: u64) -> usize
    requires { at + 20 ≤ length buffer.old }
    ensures written { take result buffer.new
        ≡ take at buffer.old ++ codes " " ++ content_name content ++ codes "=" }
    ensures room { result ≤ at + 20 }
{
    let at = write_byte(buffer, at, b' ');
    let at = write_content_name(buffer, at, content);
    write_byte(buffer, at, b'=')
}
