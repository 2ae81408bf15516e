//! Where the reader of a table is among its values.

ghost use Rattle.std.specs.Prelude.{◌≡◌, ◌<◌, ◌≤◌, ℕ, IsTrue, List, [], length, IfSome};

use crate::sixteen::Sixteen;
use dl_num::{PartialNumber, Uleb};
use dl_table::{Form, Format};

/// The place of a value in the entries.
#[derive(Clone, Copy)]
pub(crate) struct Cursor {
    /// The number of its pair.
    pub column: usize,
    /// How many entries are left with its own.
    pub left: u64,
    ghost some: { 1 ≤ left },
}

impl Cursor {
    ghost use Rattle.dl_field.specs.TableMoves.{Moves};

    /// The place after this one, where an entry has `width` values; None after the last one.
    #[inline(always)]
    pub fn next(self, width: usize) -> Option<Cursor>
        requires { self.column < width }
        ensures within { IfSome result (λ at. at.column < width) }
        ensures moves { Moves self width result }
    {
        if self.column + 1 < width {
            Some(Cursor {
                column: self.column + 1,
                left: self.left,
            })
        } else if self.left > 1 {
            Some(Cursor {
                column: 0,
                left: self.left - 1,
            })
        } else {
            None
        }
    }
}

/// The bytes of a value that have come.
#[derive(Clone, Copy)]
pub(crate) enum ValuePhase {
    /// A number or an offset of this form.
    Number(Form, PartialNumber),
    Leb(Uleb),
    /// A text, from this place of the pool on.
    Text(usize),
    Data16(Sixteen),
    /// The length of a block.
    BlockLength(PartialNumber),
    LebBlockLength(Uleb),
    /// The bytes of a block, and how many of them are left.
    Block(u64),
}

impl ValuePhase {
    ghost use Rattle.dl_field.specs.TablePlace.{ValueAt};
    ghost use Rattle.dl_field.specs.TableRuns.{IsNewValue};
    ghost use Rattle.dl_field.specs.TableStep.{value_start, value_due, value_filled};

    /// No byte yet of a value of the form, where the next byte of the pool has this place.
    #[inline(always)]
    pub fn new(form: Form, format: Format, pool_len: usize) -> ValuePhase
        ensures begun { value_start result ≤ pool_len }
        ensures filled { value_filled result pool_len ≡ pool_len }
        ensures none_due { value_due result ≡ 0 }
        ensures at { (pool : List ℕ) → length pool ≡ pool_len → ValueAt format form result pool [] }
    {
        match form {
            Form::Data1 => ValuePhase::Number(form, PartialNumber::new(1)),
            Form::Data2 => ValuePhase::Number(form, PartialNumber::new(2)),
            Form::Data4 => ValuePhase::Number(form, PartialNumber::new(4)),
            Form::Data8 => ValuePhase::Number(form, PartialNumber::new(8)),
            Form::Strp | Form::StrpSup | Form::LineStrp => {
                ValuePhase::Number(form, PartialNumber::new(format.offset_size()))
            }
            Form::Udata => ValuePhase::Leb(Uleb::new()),
            Form::String => ValuePhase::Text(pool_len),
            Form::Data16 => ValuePhase::Data16(Sixteen::new()),
            Form::Block1 => ValuePhase::BlockLength(PartialNumber::new(1)),
            Form::Block2 => ValuePhase::BlockLength(PartialNumber::new(2)),
            Form::Block4 => ValuePhase::BlockLength(PartialNumber::new(4)),
            Form::Block => ValuePhase::LebBlockLength(Uleb::new()),
        }
    }

    /// Whether it is of a common kind, no block, and no byte of it has come, where the next byte of the pool has this
    /// place.
    #[inline(always)]
    pub fn is_new(self, pool_len: usize) -> bool
        ensures { IsTrue result → IsNewValue self pool_len }
    {
        match self {
            ValuePhase::Number(_, number) => number.is_new(),
            ValuePhase::Leb(number) => number.is_new(),
            ValuePhase::Text(start) => start == pool_len,
            ValuePhase::Data16(sixteen) => sixteen.is_new(),
            _ => false,
        }
    }
}
