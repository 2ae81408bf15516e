//! Texts in a string section. Section 7.5.5, class string.

ghost use Rattle.std.specs.Prelude.{◌≡◌, ◌<◌, ◌==◌, length, position, IfSome};
ghost use Rattle.std.specs.Option.{option_copied};
ghost use Rattle.dl_table.specs.Text.{text_at};

use dl_num::first_of;

/// Where the first zero byte stands; None where there is none.
pub fn first_zero(bytes: &[u8]) -> Option<usize>
    ensures value { result ≡ position (λ b. b == 0) bytes.now }
    ensures within { IfSome result (λ n. n < length bytes.now) }
{
    first_of(bytes, 0)
}

/// The bytes from `offset` up to the next zero byte. None at or past the section's end, or where no
/// zero byte follows.
pub fn text_at(section: &[u8], offset: u64) -> Option<&[u8]>
    ensures { option_copied result ≡ text_at section.now offset }
{
    if offset >= section.len() as u64 {
        return None;
    }
    let rest = &section[offset as usize..];
    match first_zero(rest) {
        Some(len) => Some(&rest[..len]),
        None => None,
    }
}
