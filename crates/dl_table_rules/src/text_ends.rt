//! Where the texts of string sections end. Section 7.5.5.

ghost use Rattle.std.specs.Prelude.{◌≡◌, ℕ, nat_le, is_none};
ghost use Rattle.std.specs.Option.{option_copied};
ghost use Rattle.dl_table.specs.Text.{text_at};
ghost use Rattle.dl_table_rules.specs.Keeping.{is_past};
ghost use Rattle.dl_table_rules.specs.Texts.{lacks};

/// The end of the last text of each string section that was handed in.
#[derive(Clone, Copy)]
pub struct TextEnds {
    /// That of `.debug_line_str`.
    line_strings: Option<u64>,
    /// That of `.debug_str`.
    strings: Option<u64>,
}

/// Of no section.
pub const NO_SECTIONS: TextEnds = TextEnds {
    line_strings: None,
    strings: None,
};

impl TextEnds {
    ghost use Rattle.std.specs.Prelude.{◌≡◌};
    ghost use Rattle.std.specs.Option.{option_copied};
    ghost use Rattle.dl_table_rules.specs.Keeping.{AreEnds, is_past};

    /// Of the sections that are handed in.
    pub fn of(debug_line_str: Option<&[u8]>, debug_str: Option<&[u8]>) -> TextEnds
        ensures { AreEnds result (option_copied debug_line_str.entry) (option_copied debug_str.entry) }
    {
        TextEnds {
            line_strings: end_of(debug_line_str),
            strings: end_of(debug_str),
        }
    }

    /// Whether `.debug_line_str` was handed in, and has no text at an offset.
    pub fn lacks_line_string(&self, offset: u64) -> bool
        ensures { result ≡ is_past self.now.line_strings offset }
    {
        is_past(self.line_strings, offset)
    }

    /// Whether `.debug_str` was handed in, and has no text at an offset.
    pub fn lacks_string(&self, offset: u64) -> bool
        ensures { result ≡ is_past self.now.strings offset }
    {
        is_past(self.strings, offset)
    }
}

/// Whether an offset isn't before an end.
fn is_past(end: Option<u64>, offset: u64) -> bool
    ensures { result ≡ is_past end offset }
{
    match end {
        Some(end) => end <= offset,
        None => false,
    }
}

/// The end of the last text of a section, where it is handed in.
fn end_of(section: Option<&[u8]>) -> Option<u64>
    ensures { (n : ℕ) → lacks (option_copied section.entry) n ≡ is_past result n }
{
    match section {
        Some(section) => Some(texts_end(section)),
        None => None,
    }
}

/// The end of the last text of a section: that of its last zero byte.
fn texts_end(section: &[u8]) -> u64
    ensures { (n : ℕ) → is_none (text_at section.now n) ≡ nat_le result n }
{
    let mut end = section.len();
    while end > 0 && section[end - 1] != 0 {
        end -= 1;
    }
    end as u64
}
