//! The widths of columns.

ghost use Rattle.std.specs.Prelude.{◌≡◌, true, false, MatchOption};
ghost use Rattle.dl_num.specs.Fixed.{is_number_size};
ghost use Rattle.dl_index.specs.Columns.{size_of};

/// How many bytes each number of a column has.
#[derive(Debug, Clone, Copy, PartialEq, Eq)]
pub enum Width {
    One,
    Two,
    Four,
    Eight,
}

impl Width {
    ghost use Rattle.std.specs.Prelude.{◌≡◌};
    ghost use Rattle.dl_index.specs.Columns.{size_of};

    /// How many bytes these are: 1, 2, 4 or 8.
    #[inline(always)]
    pub fn size(self) -> usize
        ensures { result ≡ size_of self }
    {
        match self {
            Width::One => 1,
            Width::Two => 2,
            Width::Four => 4,
            Width::Eight => 8,
        }
    }

    /// The same as a byte.
    pub(crate) fn bytes(self) -> u8
        ensures { result ≡ size_of self }
    {
        match self {
            Width::One => 1,
            Width::Two => 2,
            Width::Four => 4,
            Width::Eight => 8,
        }
    }
}

/// The width of this many bytes; None where they aren't 1, 2, 4 or 8.
pub fn width_of(size: u8) -> Option<Width>
    ensures { MatchOption result (is_number_size size ≡ false) (λ width. size_of width ≡ size) }
{
    match size {
        1 => Some(Width::One),
        2 => Some(Width::Two),
        4 => Some(Width::Four),
        8 => Some(Width::Eight),
        _ => None,
    }
}

/// The width of 1, 2, 4 or 8 bytes.
#[inline(always)]
pub(crate) fn width_by(size: u8) -> Width
    requires { is_number_size size ≡ true }
    ensures { size_of result ≡ size }
{
    match size {
        1 => Width::One,
        2 => Width::Two,
        4 => Width::Four,
        _ => Width::Eight,
    }
}
