//! The string sections in which a printer looks texts up. Section 7.5.5, class string.
ghost use Rattle.std.specs.Prelude.{◌≡◌, ◌≤◌, ℕ, length, take};
ghost use Rattle.std.specs.Option.{option_copied};
ghost use Rattle.dl_table.specs.Text.{text_at};
ghost use Rattle.dl_print.specs.ValueText.{strings_of, text_in_section};

use dl_head::text_at;
use std::marker::Model;

/// A string section.
///
/// After its last zero byte no text begins, so these bytes aren't looked at more than once.
#[derive(Drop)]
pub struct StringSection<'a> {
    bytes: &'a [u8],
    /// How many bytes there are up to the last zero byte, with it.
    texts: usize,
}

// A string section is seen as its bytes.
impl<'a> Model for StringSection<'a> {
    ghost use Rattle.std.specs.Prelude.{◌≡◌, ◌≤◌, ℕ, List, length, take};
    ghost use Rattle.dl_table.specs.Text.{text_at};

    ghost Value = { List ℕ };

    ghost view = { λ s. s.bytes.now };

    ghost invariant = { λ s. (s.texts ≤ length s.bytes.now)
        × ((n : ℕ) → text_at (take s.texts s.bytes.now) n ≡ text_at s.bytes.now n) };
}

impl<'a> StringSection<'a> {
    fn new(bytes: &'a [u8]) -> StringSection<'a>
        ensures { result ≡ bytes.now }
    {
        StringSection {
            bytes,
            texts: texts_len(bytes),
        }
    }

    /// The text at an offset, which ends before the next zero byte.
    fn text_at(&self, offset: u64) -> Option<&[u8]>
        ensures { option_copied result ≡ text_at self.now offset }
    {
        text_at(&self.bytes[..self.texts], offset)
    }
}

/// How many bytes there are up to the last zero byte, with it.
fn texts_len(bytes: &[u8]) -> usize
    ensures within { result ≤ length bytes.now }
    ensures texts { (n : ℕ) → text_at (take result bytes.now) n ≡ text_at bytes.now n }
{
    let mut len = bytes.len();
    while len > 0 && bytes[len - 1] != 0 {
        len -= 1;
    }
    len
}

/// The string sections that were handed in.
#[derive(Drop)]
pub struct StringSections<'a> {
    pub debug_line_str: Option<StringSection<'a>>,
    pub debug_str: Option<StringSection<'a>>,
}

impl<'a> StringSections<'a> {
    /// The sections `.debug_line_str` and `.debug_str`, of which either may lack.
    pub fn new(debug_line_str: Option<&'a [u8]>, debug_str: Option<&'a [u8]>) -> StringSections<'a>
        ensures { strings_of result ≡ record {
          line_strings = option_copied debug_line_str.entry;
          strings = option_copied debug_str.entry;
        } }
    {
        StringSections {
            debug_line_str: debug_line_str.map(StringSection::new),
            debug_str: debug_str.map(StringSection::new),
        }
    }
}

/// The text at an offset of a section, where the section was handed in.
pub fn text_in_section<'a>(section: Option<&'a StringSection<'_>>, offset: u64) -> Option<&'a [u8]>
    ensures { option_copied result ≡ text_in_section (option_copied section.entry) offset }
{
    section.and_then(|section| section.text_at(offset))
}
