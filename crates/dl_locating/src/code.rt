//! In which code sequences count.
ghost use Rattle.std.specs.Prelude.{◌≡◌, ◌||◌, ℕ, None};
ghost use Rattle.std.specs.Option.{option_copied};
ghost use Rattle.dl_addr.specs.Code.{is_code};

use dl_look::CodeRanges;

/// No ranges, so that there is code everywhere.
pub fn everywhere<'a>() -> Option<&'a CodeRanges>
    ensures { result ≡ None }
{
    None
}

/// The ranges that count: none where all sequences are asked for.
pub fn live_in(all: bool, code: Option<&CodeRanges>) -> Option<&CodeRanges>
    ensures { (a : ℕ) → is_code (option_copied result) a ≡ (all || is_code (option_copied code.entry) a) }
{
    if all { None } else { code }
}
