//! Words in a line on standard error: whatever stands in them, it stays one line.
ghost use Rattle.std.specs.Prelude.{◌≡◌};
ghost use Rattle.dl_path.specs.Shown.{is_control};

use std::{fmt, str};

/// A word, of which a backslash is written as two, and control characters by their numbers.
#[derive(Clone, Copy)]
pub struct Shown<'a>(pub &'a str);

impl fmt::Display for Shown<'_> {
    ghost use Rattle.std.specs.Prelude.{Some};
    ghost use Rattle.dl_open.specs.Shown.{shown_word};

    ghost output = { λ word. Some (shown_word word.0.now) };

    fn fmt<W: fmt::Write>(&self, f: &mut fmt::Formatter<W>) -> fmt::Result {
        for character in self.0.chars() {
            Character(character).fmt(f)?;
        }
        Ok(())
    }
}

/// A character of a word.
#[derive(Clone, Copy)]
struct Character(char);

impl fmt::Display for Character {
    ghost use Rattle.std.specs.Prelude.{Some};
    ghost use Rattle.dl_open.specs.Shown.{shown_character};

    ghost output = { λ character. Some (shown_character character.0) };

    fn fmt<W: fmt::Write>(&self, f: &mut fmt::Formatter<W>) -> fmt::Result {
        let number = self.0 as u32;
        if self.0 == '\\' {
            write!(f, "\\\\")
        } else if is_control(number) {
            write!(f, "\\x{:x}{:x}", number / 16, number % 16)
        } else {
            write!(f, "{}", self.0)
        }
    }
}

/// Bytes of a word that may not be UTF-8: then those that are no ASCII are written by their numbers too.
#[derive(Clone, Copy)]
pub struct ShownBytes<'a>(pub &'a [u8]);

impl fmt::Display for ShownBytes<'_> {
    ghost use Rattle.std.specs.Prelude.{Some};
    ghost use Rattle.dl_open.specs.Shown.{shown_bytes};

    ghost output = { λ bytes. Some (shown_bytes bytes.0.now) };

    fn fmt<W: fmt::Write>(&self, f: &mut fmt::Formatter<W>) -> fmt::Result {
        match str::from_utf8(self.0) {
            Ok(word) => Shown(word).fmt(f),
            Err(_) => NotText(self.0).fmt(f),
        }
    }
}

/// Bytes that aren't UTF-8.
#[derive(Clone, Copy)]
struct NotText<'a>(&'a [u8]);

impl fmt::Display for NotText<'_> {
    ghost use Rattle.std.specs.Prelude.{Some, flat_map};
    ghost use Rattle.dl_open.specs.Shown.{shown_byte};

    ghost output = { λ bytes. Some (flat_map shown_byte bytes.0.now) };

    fn fmt<W: fmt::Write>(&self, f: &mut fmt::Formatter<W>) -> fmt::Result {
        for byte in self.0 {
            Byte(*byte).fmt(f)?;
        }
        Ok(())
    }
}

/// A byte of bytes that aren't UTF-8.
#[derive(Clone, Copy)]
struct Byte(u8);

impl fmt::Display for Byte {
    ghost use Rattle.std.specs.Prelude.{Some};
    ghost use Rattle.dl_open.specs.Shown.{shown_byte};

    ghost output = { λ byte. Some (shown_byte byte.0) };

    fn fmt<W: fmt::Write>(&self, f: &mut fmt::Formatter<W>) -> fmt::Result {
        if self.0 < 0x80 {
            Character(char::from(self.0)).fmt(f)
        } else {
            write!(f, "\\x{:x}{:x}", self.0 / 16, self.0 % 16)
        }
    }
}

/// Whether a character is below U+0020, or is U+007F.
fn is_control(number: u32) -> bool
    ensures { result ≡ is_control number }
{
    number < 0x20 || number == 0x7f
}
