//! Numbers in LEB128, byte by byte. Section 7.6.

ghost use Rattle.std.specs.Prelude.{◌≡◌, ◌<◌, ◌≤◌, ◌+◌, ◌*◌, ◌↔◌, ℕ, List, [], ◌∷◌, ◌++◌, length, IsTrue, IsNone};
ghost use Rattle.std.specs.Prelude.{IfSome, IfOk, MatchOption, ◌^◌};
ghost use Rattle.dl_num.specs.Leb.{IsSigned64};
ghost use Rattle.dl_num.specs.LebReader.{fitting, UlebTook, UlebIs, UlebAnswer, SlebTook, SlebIs, SlebAnswer};
ghost use Rattle.dl_num.specs.LebReader.{signed_of};

/// The number doesn't fit 64 bits.
#[derive(Debug, Clone, Copy, PartialEq, Eq)]
pub struct LebRange;

/// An unsigned number in LEB128, as its bytes come, with any padding.
#[derive(Clone, Copy)]
pub struct Uleb {
    number: Option<u64>,
    weight: Option<u64>,
}

impl Uleb {
    /// No byte yet.
    pub fn new() -> Self
        ensures { UlebTook result [] }
    {
        Uleb {
            number: Some(0),
            weight: Some(1),
        }
    }

    /// Whether no byte has come.
    pub fn is_new(&self) -> bool
        ensures { (w : List ℕ) → UlebTook self.now w → IsTrue result ↔ (w ≡ []) }
    {
        self.weight == Some(1)
    }

    /// Takes the next byte. At the number's last byte it answers the number, where it is below
    /// 2^64, and is as new; before it answers None.
    pub fn push(&mut self, byte: u8) -> Option<Result<u64, LebRange>>
        ensures more { IsNone result ↔ (128 ≤ byte) }
        ensures fits { IfSome result (λ answer. IfOk answer (λ n. n < 2 ^ 64)) }
        ensures answer { (w : List ℕ) → UlebTook self.old w → UlebAnswer (w ++ byte ∷ []) result self.new }
    {
        let number = add_digit(self.number, byte % 128, self.weight);
        if byte >= 128 {
            self.number = number;
            self.weight = next_weight(self.weight);
            return None;
        }
        *self = Uleb::new();
        match number {
            Some(n) => Some(Ok(n)),
            None => Some(Err(LebRange)),
        }
    }

    /// Takes bytes up to the number's last one: the number, as `push` answers it, and the bytes
    /// after it. None where all bytes are taken, and more are needed.
    pub fn take_from<'a>(&mut self, bytes: &'a [u8]) -> Option<(Result<u64, LebRange>, &'a [u8])>
        ensures used { IfSome result (λ found. length found.1.now < length bytes.entry.now) }
        ensures fits { IfSome result (λ found. IfOk found.0 (λ n. n < 2 ^ 64)) }
        ensures answer { (w : List ℕ) → UlebTook self.old w
            → MatchOption result (UlebTook self.new (w ++ bytes.entry.now))
            (λ found. (front : List ℕ) × (bytes.entry.now ≡ front ++ found.1.now) × UlebIs (w ++ front) found.0
            × UlebTook self.new []) }
    {
        for (i, byte) in bytes.iter().enumerate() {
            if let Some(answer) = self.push(*byte) {
                return Some((answer, &bytes[i + 1..]));
            }
        }
        None
    }
}

/// A signed number in LEB128, as its bytes come, with any padding. It keeps the number's groups and
/// those of its complement, since padding may make either one large.
#[derive(Clone, Copy)]
pub struct Sleb {
    number: Option<u64>,
    turned: Option<u64>,
    weight: Option<u64>,
}

impl Sleb {
    /// No byte yet.
    pub fn new() -> Self
        ensures { SlebTook result [] }
    {
        let Uleb { number, weight } = Uleb::new();
        Sleb {
            number,
            turned: Some(0),
            weight,
        }
    }

    /// Takes the next byte. At the number's last byte it answers the number, where it is from -2^63
    /// to 2^63 - 1, and is as new; before it answers None.
    pub fn push(&mut self, byte: u8) -> Option<Result<i64, LebRange>>
        ensures more { IsNone result ↔ (128 ≤ byte) }
        ensures fits { IfSome result (λ answer. IfOk answer IsSigned64) }
        ensures answer { (w : List ℕ) → SlebTook self.old w → SlebAnswer (w ++ byte ∷ []) result self.new }
    {
        let number = add_digit(self.number, byte % 128, self.weight);
        let turned = add_digit(self.turned, 127 - byte % 128, self.weight);
        if byte >= 128 {
            self.number = number;
            self.turned = turned;
            self.weight = next_weight(self.weight);
            return None;
        }
        *self = Sleb::new();
        Some(signed(byte >= 64, number, turned))
    }

    /// Takes bytes up to the number's last one: the number, as `push` answers it, and the bytes
    /// after it. None where all bytes are taken, and more are needed.
    pub fn take_from<'a>(&mut self, bytes: &'a [u8]) -> Option<(Result<i64, LebRange>, &'a [u8])>
        ensures used { IfSome result (λ found. length found.1.now < length bytes.entry.now) }
        ensures fits { IfSome result (λ found. IfOk found.0 IsSigned64) }
        ensures answer { (w : List ℕ) → SlebTook self.old w
            → MatchOption result (SlebTook self.new (w ++ bytes.entry.now))
            (λ found. (front : List ℕ) × (bytes.entry.now ≡ front ++ found.1.now) × SlebIs (w ++ front) found.0
            × SlebTook self.new []) }
    {
        for (i, byte) in bytes.iter().enumerate() {
            if let Some(number) = self.push(*byte) {
                return Some((number, &bytes[i + 1..]));
            }
        }
        None
    }
}

/// The sum of the number and the digit times its weight. None stands for 2^64 or more.
fn add_digit(number: Option<u64>, digit: u8, weight: Option<u64>) -> Option<u64>
    ensures { (n k : ℕ) → number ≡ fitting n → weight ≡ fitting k → result ≡ fitting (n + digit * k) }
{
    if digit == 0 {
        return number;
    }
    u64::from(digit).checked_mul(weight?)?.checked_add(number?)
}

fn next_weight(weight: Option<u64>) -> Option<u64>
    ensures { (k : ℕ) → weight ≡ fitting k → result ≡ fitting (128 * k) }
{
    weight?.checked_mul(128)
}

/// The number of these groups, or -1 less the complement's groups.
fn signed(negative: bool, number: Option<u64>, turned: Option<u64>) -> Result<i64, LebRange>
    ensures { (n t : ℕ) → number ≡ fitting n → turned ≡ fitting t → result ≡ signed_of negative n t }
{
    let magnitude = if negative { turned } else { number };
    match magnitude {
        Some(n) if n < 1 << 63 => {
            if negative {
                Ok(-1 - n as i64)
            } else {
                Ok(n as i64)
            }
        }
        _ => Err(LebRange),
    }
}

/// A number in LEB128 of any size that nobody reads, as its bytes come.
#[derive(Clone, Copy)]
pub struct Skip;

impl Skip {
    /// No byte yet.
    pub fn new() -> Self {
        Skip
    }

    /// Takes the next byte; true where it is the number's last one.
    pub fn push(&mut self, byte: u8) -> bool
        ensures { IsTrue result ↔ (byte < 128) }
    {
        byte < 128
    }
}
