//! The addresses that are asked for on an input, one a line, byte by byte.

use crate::line::Line;
use crate::line_word::LineWord;
use dl_look::Asked;

/// A line that is no address.
#[derive(Debug, Drop)]
pub struct OtherLine {
    /// Lines are counted from 1 on, empty ones too.
    pub number: u64,
    /// What it says, as far as it is told.
    pub word: LineWord,
}

/// What comes with the end of an input.
#[derive(Debug, Drop)]
pub struct LastLine {
    /// What the last line asks for, which lacks its 0x0a; None of an empty one.
    pub asked: Option<Asked>,
    /// The first line of all that is no address.
    pub no_address: Option<OtherLine>,
}

/// The line that is being read of an input. A line ends with 0x0a, before which one 0x0d is dropped; the last one may lack
/// its 0x0a. Spaces and tabs around an address are dropped, and so are empty lines.
#[derive(Debug, Drop)]
pub struct CurrentLine {
    /// Whether digits without `0x` are hexadecimal too.
    hex: bool,
    /// What was read of it.
    line: Line,
    /// Its number.
    number: u64,
    /// What it says first.
    word: LineWord,
    /// The first line before it that is no address.
    no_address: Option<OtherLine>,
}

impl CurrentLine {
    ghost use Rattle.std.specs.Prelude.{◌≡◌, ◌<◌, ◌^◌, ◌++◌, ◌∷◌, [], ℕ, Bool, List, length, option_map};
    ghost use Rattle.dl_look.specs.declared.asked.Asked.{Asked};
    ghost use Rattle.dl_asked.specs.AskedLines.{and_asked, asked_in, no_address_in, other_line_seen};
    ghost use Rattle.dl_asked.specs.Reading.{HasRead};
    ghost use Rattle.dl_asked.specs.LinesRead.{Notes};

    /// The first line of an input, of which nothing was read yet. With `hex` digits without `0x` are hexadecimal too.
    pub fn new(hex: bool) -> CurrentLine
        ensures { HasRead hex [] [] result }
    {
        CurrentLine {
            hex,
            line: Line::new(),
            number: 1,
            word: LineWord::new(),
            no_address: None,
        }
    }

    /// Takes the next byte of the input. Where it ends a line that isn't empty, the answer is what that asks for.
    pub fn take(&mut self, byte: u8) -> Option<Asked>
        ensures { (hex : Bool) (done : List ℕ) (asked : List Asked) → HasRead hex done asked self.old
            → HasRead hex (done ++ byte ∷ []) (asked ++ and_asked result []) self.new }
    {
        if byte != b'\n' {
            self.word.take(self.line, byte);
            self.line = self.line.after(self.hex, byte);
            return None;
        }
        let asked = self.line.text.asked();
        self.note(asked);
        self.line = Line::new();
        self.number = self.number.wrapping_add(1);
        self.word.clear();
        asked
    }

    /// Takes the end of the input. Lines of 2^63 bytes and more may be counted wrong.
    pub fn end(self) -> LastLine
        ensures asked { (hex : Bool) (done : List ℕ) (asked : List Asked) → HasRead hex done asked self
            → asked ++ and_asked result.asked [] ≡ asked_in hex done }
        ensures no_address { (hex : Bool) (done : List ℕ) (asked : List Asked) → HasRead hex done asked self
            → length done < 2 ^ 63 → option_map other_line_seen result.no_address ≡ no_address_in hex done }
    {
        let mut lines = self;
        let asked = lines.line.asked_at_end(lines.hex);
        lines.word.go_on(lines.line);
        lines.note(asked);
        let CurrentLine {
            hex: _,
            line: _,
            number: _,
            word: _,
            no_address,
        } = lines;
        LastLine { asked, no_address }
    }

    /// Keeps the line where it is the first that is no address.
    fn note(&mut self, asked: Option<Asked>)
        ensures { Notes asked self.old self.new }
    {
        let Some(asked) = asked else {
            return;
        };
        if asked.address.is_none() && self.no_address.is_none() {
            self.no_address = Some(OtherLine {
                number: self.number,
                word: self.word.trimmed(),
            });
        }
    }
}
