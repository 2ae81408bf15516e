//! Numbers in digits, written into a buffer from a place on.
ghost use Rattle.std.specs.Prelude.{◌≡◌, ◌+◌, ◌*◌, ◌<◌, ◌≤◌, [], ◌∷◌, ◌++◌, length, take, codes, decimal};
ghost use Rattle.dl_print.specs.Digits.{hexadecimal, hexadecimal_of, hexadecimal_bytes, last_digit, digit_if};
ghost use Rattle.dl_print.specs.Digits.{four_digits};

/// The two hexadecimal digits of each byte.
static BYTE_DIGITS: [u8; 512] = *b"\
    000102030405060708090a0b0c0d0e0f\
    101112131415161718191a1b1c1d1e1f\
    202122232425262728292a2b2c2d2e2f\
    303132333435363738393a3b3c3d3e3f\
    404142434445464748494a4b4c4d4e4f\
    505152535455565758595a5b5c5d5e5f\
    606162636465666768696a6b6c6d6e6f\
    707172737475767778797a7b7c7d7e7f\
    808182838485868788898a8b8c8d8e8f\
    909192939495969798999a9b9c9d9e9f\
    a0a1a2a3a4a5a6a7a8a9aaabacadaeaf\
    b0b1b2b3b4b5b6b7b8b9babbbcbdbebf\
    c0c1c2c3c4c5c6c7c8c9cacbcccdcecf\
    d0d1d2d3d4d5d6d7d8d9dadbdcdddedf\
    e0e1e2e3e4e5e6e7e8e9eaebecedeeef\
    f0f1f2f3f4f5f6f7f8f9fafbfcfdfeff";

/// Writes the byte, and answers where it ends.
#[inline]
pub fn write_byte(buffer: &mut [u8], at: usize, byte: u8) -> usize
    requires { at < length buffer.old }
    ensures written { take result buffer.new ≡ take at buffer.old ++ byte ∷ [] }
    ensures end { result ≡ at + 1 }
{
    buffer[at] = byte;
    at + 1
}

/// Writes the bytes, and answers where they end.
#[inline]
pub fn write_bytes(buffer: &mut [u8], at: usize, bytes: &[u8]) -> usize
    requires { at + length bytes.now ≤ length buffer.old }
    ensures written { take result buffer.new ≡ take at buffer.old ++ bytes.now }
    ensures end { result ≡ at + length bytes.now }
{
    let end = at + bytes.len();
    buffer[at..end].copy_from_slice(bytes);
    end
}

/// Writes a digit where it is wanted, and answers where it ends.
#[inline]
fn write_digit_if(buffer: &mut [u8], at: usize, is_wanted: bool, digit: u16) -> usize
    requires room { at < length buffer.old }
    requires digit { digit < 10 }
    ensures written { take result buffer.new ≡ take at buffer.old ++ digit_if is_wanted digit }
    ensures end { result ≡ at + length (digit_if is_wanted digit) }
    ensures most { result ≤ at + 1 }
{
    buffer[at] = b'0' + digit as u8;
    at + is_wanted as usize
}

/// Writes a number of at most four digits, and answers where it ends.
#[inline]
#[tactic(auto, using(crate::proofs::DecimalLemmas::decimal_lengths))]
fn write_short(buffer: &mut [u8], at: usize, number: u16) -> usize
    requires room { at + length (decimal number) ≤ length buffer.old }
    requires short { number < 10000 }
    ensures written { take result buffer.new ≡ take at buffer.old ++ decimal number }
    ensures end { result ≡ at + length (decimal number) }
{
    let at = write_digit_if(buffer, at, number >= 1000, number / 1000);
    let at = write_digit_if(buffer, at, number >= 100, number / 100 % 10);
    let at = write_digit_if(buffer, at, number >= 10, number / 10 % 10);
    write_digit_if(buffer, at, true, number % 10)
}

/// Writes a number in four digits, and answers where they end.
#[inline]
fn write_four_digits(buffer: &mut [u8], at: usize, number: u16) -> usize
    requires room { at + 4 ≤ length buffer.old }
    requires short { number < 10000 }
    ensures written { take result buffer.new ≡ take at buffer.old ++ four_digits number }
    ensures end { result ≡ at + 4 }
{
    let at = write_digit_if(buffer, at, true, number / 1000);
    let at = write_digit_if(buffer, at, true, number / 100 % 10);
    let at = write_digit_if(buffer, at, true, number / 10 % 10);
    write_digit_if(buffer, at, true, number % 10)
}

/// Writes a number in decimal, and answers where it ends.
#[inline]
#[tactic(auto, using(crate::proofs::DecimalLemmas::decimal_lengths))]
pub fn write_decimal(buffer: &mut [u8], at: usize, number: u64) -> usize
    requires { at + length (decimal number) ≤ length buffer.old }
    ensures written { take result buffer.new ≡ take at buffer.old ++ decimal number }
    ensures end { result ≡ at + length (decimal number) }
{
    if number < 10 {
        return write_byte(buffer, at, b'0' + number as u8);
    }
    if number < 10000 {
        return write_short(buffer, at, number as u16);
    }
    let at = write_decimal(buffer, at, number / 10000);
    write_four_digits(buffer, at, (number % 10000) as u16)
}

/// Writes a name and a number in decimal, and answers where they end.
#[inline]
#[tactic(auto, using(crate::proofs::DecimalLemmas::decimal_room))]
pub fn write_number(buffer: &mut [u8], at: usize, name: &[u8], number: u64) -> usize
    requires { at + length name.now + 20 ≤ length buffer.old }
    ensures written { take result buffer.new ≡ take at buffer.old ++ name.now ++ decimal number }
    ensures room { result ≤ at + length name.now + 20 }
{
    let at = write_bytes(buffer, at, name);
    write_decimal(buffer, at, number)
}

/// The last hexadecimal digit of a number.
fn last_digit(number: u64) -> u8
    ensures { result ≡ last_digit number }
{
    BYTE_DIGITS[2 * (number % 16) as usize + 1]
}

/// Writes a number in hexadecimal without leading zeros, and answers where it ends.
#[tactic(auto, using(crate::proofs::HexadecimalLemmas::hexadecimal_lengths))]
pub fn write_hexadecimal(buffer: &mut [u8], at: usize, number: u64) -> usize
    requires { at + length (hexadecimal number) ≤ length buffer.old }
    ensures written { take result buffer.new ≡ take at buffer.old ++ hexadecimal number }
    ensures end { result ≡ at + length (hexadecimal number) }
{
    if number < 16 {
        return write_byte(buffer, at, last_digit(number));
    }
    let at = write_hexadecimal(buffer, at, number / 16);
    write_byte(buffer, at, last_digit(number))
}

/// Writes a name and a number in hexadecimal without leading zeros, and answers where they end.
#[tactic(auto, using(crate::proofs::HexadecimalLemmas::hexadecimal_room))]
pub fn write_hexadecimal_number(buffer: &mut [u8], at: usize, name: &[u8], number: u64) -> usize
    requires { at + length name.now + 16 ≤ length buffer.old }
    ensures written { take result buffer.new ≡ take at buffer.old ++ name.now ++ hexadecimal number }
    ensures room { result ≤ at + length name.now + 16 }
{
    let at = write_bytes(buffer, at, name);
    write_hexadecimal(buffer, at, number)
}

/// Writes two hexadecimal digits for each byte, and answers where they end.
#[inline]
pub fn write_hexadecimal_bytes(buffer: &mut [u8], at: usize, bytes: &[u8]) -> usize
    requires { at + 2 * length bytes.now ≤ length buffer.old }
    ensures written { take result buffer.new
        ≡ take at buffer.old ++ hexadecimal_bytes bytes.now }
    ensures end { result ≡ at + 2 * length bytes.now }
{
    let end = at + 2 * bytes.len();
    // The digits fit, so there is no error.
    let _ = hex::encode_to_slice(bytes, &mut buffer[at..end]);
    end
}

/// Writes the two hexadecimal digits of a byte, and answers where they end.
#[inline]
pub fn write_byte_digits(buffer: &mut [u8], at: usize, byte: u8) -> usize
    requires { at + 2 ≤ length buffer.old }
    ensures written { take result buffer.new ≡ take at buffer.old ++ hexadecimal_of 2 byte }
    ensures end { result ≡ at + 2 }
{
    let from = 2 * byte as usize;
    let at = write_byte(buffer, at, BYTE_DIGITS[from]);
    write_byte(buffer, at, BYTE_DIGITS[from + 1])
}

/// Writes a number in sixteen hexadecimal digits, and answers where they end.
#[inline]
pub fn write_sixteen_digits(buffer: &mut [u8], at: usize, number: u64) -> usize
    requires { at + 16 ≤ length buffer.old }
    ensures written { take result buffer.new
        ≡ take at buffer.old ++ hexadecimal_of 16 number }
    ensures end { result ≡ at + 16 }
{
    let bytes = number.to_be_bytes();
    let mut at = at;
    for byte in &bytes {
        at = write_byte_digits(buffer, at, *byte);
    }
    at
}

/// Writes `0x` and a number in sixteen hexadecimal digits, and answers where they end.
pub fn write_address(buffer: &mut [u8], at: usize, address: u64) -> usize
    requires { at + 18 ≤ length buffer.old }
    ensures written { take result buffer.new
        ≡ take at buffer.old ++ codes "0x" ++ hexadecimal_of 16 address }
    ensures end { result ≡ at + 18 }
{
    let at = write_bytes(buffer, at, b"0x");
    write_sixteen_digits(buffer, at, address)
}
