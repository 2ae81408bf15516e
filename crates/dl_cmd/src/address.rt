//! Reading an address.
ghost use Rattle.std.specs.Prelude.{◌≡◌};
ghost use Rattle.dl_cmd.specs.Address.{address_by, base_of, digit_of};
ghost use Rattle.dl_cmd.specs.AddressText.{after_digit, one_digit_more};

/// What was read of a text that says an address: `0x` and hexadecimal digits of either case, or digits without `0x`.
#[derive(Clone, Copy, Debug)]
pub enum AddressText {
    /// Nothing.
    Empty,
    /// `0`, after which an `x` may come.
    Zero,
    /// `0x`, after which a digit has to come.
    Prefix,
    /// Digits, hexadecimal ones with `hex`, and the number that they are.
    Digits { hex: bool, number: u64 },
    /// What is no address, whatever follows.
    Other,
}

/// The value of a digit: `0` to `9`, and in base 16 `a` to `f` and `A` to `F`.
fn digit_of(hex: bool, byte: u8) -> Option<u64>
    ensures { result ≡ digit_of (base_of hex) byte }
{
    match byte {
        b'0'..=b'9' => Some((byte - b'0') as u64),
        b'a'..=b'f' if hex => Some((byte - b'a' + 10) as u64),
        b'A'..=b'F' if hex => Some((byte - b'A' + 10) as u64),
        _ => None,
    }
}

/// The number that a digit more makes, where it is below 2^64.
fn one_digit_more(hex: bool, number: u64, byte: u8) -> Option<u64>
    ensures { result ≡ one_digit_more hex number byte }
{
    let digit = digit_of(hex, byte)?;
    let base = if hex { 16 } else { 10 };
    number.checked_mul(base)?.checked_add(digit)
}

/// The text that it makes.
fn after_digit(hex: bool, number: u64, byte: u8) -> AddressText
    ensures { result ≡ after_digit hex number byte }
{
    match one_digit_more(hex, number, byte) {
        Some(number) => AddressText::Digits { hex, number },
        None => AddressText::Other,
    }
}

impl AddressText {
    ghost use Rattle.std.specs.Prelude.{◌≡◌};
    ghost use Rattle.dl_cmd.specs.AddressText.{address_of, text_after};

    /// The text with a byte more. With `hex` digits without `0x` are hexadecimal too.
    pub fn after(self, hex: bool, byte: u8) -> AddressText
        ensures { result ≡ text_after hex self byte }
    {
        match self {
            AddressText::Empty if byte == b'0' => AddressText::Zero,
            AddressText::Zero if byte == b'x' => AddressText::Prefix,
            AddressText::Empty | AddressText::Zero => after_digit(hex, 0, byte),
            AddressText::Prefix => after_digit(true, 0, byte),
            AddressText::Digits { hex, number } => after_digit(hex, number, byte),
            AddressText::Other => AddressText::Other,
        }
    }

    /// The address that the text says.
    pub fn address(self) -> Option<u64>
        ensures { result ≡ address_of self }
    {
        match self {
            AddressText::Zero => Some(0),
            AddressText::Digits { number, .. } => Some(number),
            AddressText::Empty | AddressText::Prefix | AddressText::Other => None,
        }
    }
}

/// The address that a text says: `0x` and hexadecimal digits of either case, or decimal digits; with `hex` digits without
/// `0x` are hexadecimal too.
///
/// None where the text is anything else, or the number isn't below 2^64.
pub fn read_address(hex: bool, text: &str) -> Option<u64>
    ensures { result ≡ address_by hex text.now }
{
    let mut read = AddressText::Empty;
    for byte in text.as_bytes() {
        read = read.after(hex, *byte);
    }
    read.address()
}
