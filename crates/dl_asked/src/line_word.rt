//! What a line says first, as it is told of one that is no address.
ghost use Rattle.std.specs.Prelude.{◌≡◌};

use crate::line::{Line, is_blank};
use std::marker::Model;

/// How many bytes of a line are told. An address has at most 20.
const WORD_LEN: usize = 64;

/// What a line says first, without the blanks around it: at most 64 bytes.
#[derive(Debug, Drop)]
pub struct LineWord {
    bytes: [u8; WORD_LEN],
    len: usize,
}

impl Model for LineWord {
    ghost use Rattle.std.specs.Prelude.{◌≤◌, ℕ, List, take};
    ghost use Rattle.dl_asked.specs.declared.line_word.TheConstants.{WORD_LEN};

    ghost Value = { List ℕ };

    ghost view = { λ word. take word.len word.bytes };

    ghost invariant = { λ word. word.len ≤ WORD_LEN };
}

impl LineWord {
    ghost use Rattle.std.specs.Prelude.{◌≡◌, []};
    ghost use Rattle.dl_asked.specs.AskedLines.{trim_end};
    ghost use Rattle.dl_asked.specs.LineWord.{with_byte, word_after, word_so_far};

    /// Nothing was said.
    pub(crate) fn new() -> LineWord
        ensures { result ≡ [] }
    {
        LineWord {
            bytes: [0; WORD_LEN],
            len: 0,
        }
    }

    /// The bytes.
    pub fn as_bytes(&self) -> &[u8]
        ensures { result.now ≡ self.now }
    {
        &self.bytes[..self.len]
    }

    /// Takes a byte, which isn't 0x0a, of a line of which this was read.
    pub(crate) fn take(&mut self, line: Line, byte: u8)
        ensures { self.new ≡ word_after line self.old byte }
    {
        self.go_on(line);
        if byte != b'\r' {
            self.push(byte);
        }
    }

    /// A 0x0d that came last belongs to the line, where that goes on or the input ends.
    pub(crate) fn go_on(&mut self, line: Line)
        ensures { self.new ≡ word_so_far line self.old }
    {
        if line.returned {
            self.push(b'\r');
        }
    }

    /// Takes a byte of the line, of which blanks at its start and what comes after the first 64 bytes aren't kept.
    fn push(&mut self, byte: u8)
        ensures { self.new ≡ with_byte self.old byte }
    {
        if self.len < WORD_LEN && (self.len != 0 || !is_blank(byte)) {
            self.bytes[self.len] = byte;
            self.len += 1;
        }
    }

    /// Nothing is said again.
    pub(crate) fn clear(&mut self)
        ensures { self.new ≡ [] }
    {
        self.len = 0;
    }

    /// The same without blanks at its end.
    pub(crate) fn trimmed(&self) -> LineWord
        ensures { result ≡ trim_end self.now }
    {
        let mut len = self.len;
        while len > 0 && is_blank(self.bytes[len - 1]) {
            len -= 1;
        }
        LineWord {
            bytes: self.bytes,
            len,
        }
    }
}
