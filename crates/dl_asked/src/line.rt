//! A line that says an address, byte by byte.
ghost use Rattle.std.specs.Prelude.{◌≡◌};
ghost use Rattle.dl_asked.specs.AskedLines.{is_blank};

use dl_cmd::AddressText;
use dl_look::Asked;

/// Whether a byte is a space or a tab.
pub(crate) fn is_blank(byte: u8) -> bool
    ensures { result ≡ is_blank byte }
{
    byte == b' ' || byte == b'\t'
}

/// What was read of a line, without a 0x0d at its end.
#[derive(Clone, Copy, Debug)]
pub enum Text {
    /// Nothing, or spaces and tabs.
    Blank,
    /// A word, before which they may stand.
    Word(AddressText),
    /// What asks for this address, or for none, with spaces or tabs after it.
    Ended { address: Option<u64> },
}

impl Text {
    ghost use Rattle.std.specs.Prelude.{◌≡◌};
    ghost use Rattle.dl_asked.specs.Line.{text_after, asked_of};

    /// The text with a byte more. With `hex` digits without `0x` are hexadecimal too.
    fn after(self, hex: bool, byte: u8) -> Text
        ensures { result ≡ text_after hex self byte }
    {
        match self {
            Text::Blank if is_blank(byte) => Text::Blank,
            Text::Blank => Text::Word(AddressText::Empty.after(hex, byte)),
            Text::Word(word) if is_blank(byte) => Text::Ended {
                address: word.address(),
            },
            Text::Word(word) => Text::Word(word.after(hex, byte)),
            Text::Ended { address } if is_blank(byte) => Text::Ended { address },
            Text::Ended { .. } => Text::Ended { address: None },
        }
    }

    /// What a line of this text asks for; None of an empty one.
    pub fn asked(self) -> Option<Asked>
        ensures { result ≡ asked_of self }
    {
        match self {
            Text::Blank => None,
            Text::Word(word) => Some(Asked {
                address: word.address(),
            }),
            Text::Ended { address } => Some(Asked { address }),
        }
    }
}

/// What was read of a line.
#[derive(Clone, Copy, Debug)]
pub struct Line {
    pub text: Text,
    /// Whether a 0x0d came last, which doesn't belong to the text where the line ends after it.
    pub returned: bool,
}

impl Line {
    ghost use Rattle.std.specs.Prelude.{◌≡◌};
    ghost use Rattle.dl_asked.specs.Line.{new_line, text_so_far, after_byte, asked_at_end};

    /// A line of which nothing was read.
    pub fn new() -> Line
        ensures { result ≡ new_line }
    {
        Line {
            text: Text::Blank,
            returned: false,
        }
    }

    /// The text, where the line goes on or the input ends.
    fn text_so_far(self, hex: bool) -> Text
        ensures { result ≡ text_so_far hex self }
    {
        if self.returned {
            self.text.after(hex, b'\r')
        } else {
            self.text
        }
    }

    /// The line with a byte more, which isn't 0x0a. With `hex` digits without `0x` are hexadecimal too.
    pub fn after(self, hex: bool, byte: u8) -> Line
        ensures { result ≡ after_byte hex self byte }
    {
        let text = self.text_so_far(hex);
        if byte == b'\r' {
            Line {
                text,
                returned: true,
            }
        } else {
            Line {
                text: text.after(hex, byte),
                returned: false,
            }
        }
    }

    /// What it asks for where the input ends after it.
    pub fn asked_at_end(self, hex: bool) -> Option<Asked>
        ensures { result ≡ asked_at_end hex self }
    {
        self.text_so_far(hex).asked()
    }
}
