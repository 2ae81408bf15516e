//! Words that ask for a line of a file.

ghost use Rattle.std.specs.Prelude.{◌≡◌, ◌≢◌, ◌⊎◌, ◌<◌, ◌≤◌, ◌+◌, ◌-◌, ◌*◌, ◌^◌, [], ℕ, List, false, true, length, get_or, IfNone, IfSome};
ghost use Rattle.std.specs.List.{list_all};
ghost use Rattle.dl_lines.specs.Words.{AsksFor, is_digit, number_after};

use crate::question::Wanted;

/// The line that a word `PATH:LINE` asks for: LINE is decimal, and the last colon stands between them. None of a word without
/// a path, or whose line is no number below 2^64.
pub fn wanted_in(word: &[u8]) -> Option<Wanted<'_>>
    ensures some { IfSome result (λ w. AsksFor word.now w.path.now w.line) }
    ensures none { IfNone result ((path : List ℕ) (line : ℕ) → line < 2 ^ 64 → AsksFor word.now path line → ⊥) }
{
    let colon = last_colon(word)?;
    if colon == 0 {
        return None;
    }
    let line = number_in(&word[colon + 1..])?;
    Some(Wanted {
        path: &word[..colon],
        line,
    })
}

/// Where the last colon stands.
fn last_colon(word: &[u8]) -> Option<usize>
    ensures within { IfSome result (λ i. i < length word.now) }
    ensures colon { IfSome result (λ i. get_or word.now i 0 ≡ 0x3a) }
    ensures last { IfSome result (λ i. (k : ℕ) → i < k → k < length word.now → get_or word.now k 0 ≢ 0x3a) }
    ensures none { IfNone result ((k : ℕ) → k < length word.now → get_or word.now k 0 ≢ 0x3a) }
{
    let mut at = word.len();
    while 0 < at {
        at -= 1;
        if word[at] == b':' {
            return Some(at);
        }
    }
    None
}

/// The number that decimal digits say.
fn number_in(digits: &[u8]) -> Option<u64>
    ensures some { IfSome result (λ n. digits.now ≢ []) }
    ensures digits { IfSome result (λ n. list_all is_digit digits.now ≡ true) }
    ensures number { IfSome result (λ n. n ≡ number_after 0 digits.now) }
    ensures none { IfNone result ((digits.now ≡ []) ⊎ ((list_all is_digit digits.now ≡ false)
        ⊎ (2 ^ 64 ≤ number_after 0 digits.now))) }
{
    if digits.is_empty() {
        return None;
    }
    let mut number: u64 = 0;
    let mut at = 0;
    while at < digits.len() {
        number = with_digit(number, digits[at])?;
        at += 1;
    }
    Some(number)
}

/// A number with one decimal digit more behind its own.
fn with_digit(number: u64, digit: u8) -> Option<u64>
    ensures some { IfSome result (λ n. (is_digit digit ≡ true) × (n ≡ 10 * number + (digit - 0x30))) }
    ensures none { IfNone result ((is_digit digit ≡ false) ⊎ (2 ^ 64 ≤ 10 * number + (digit - 0x30))) }
{
    if digit < b'0' || b'9' < digit {
        return None;
    }
    number.checked_mul(10)?.checked_add(u64::from(digit - b'0'))
}
