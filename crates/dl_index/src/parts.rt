//! The parts of an index, which stand one after the other, each from a multiple of 8 on.

ghost use Rattle.std.specs.Prelude.{◌≡◌, ◌+◌, ◌*◌, ◌/◌, ◌<◌, ◌≤◌, ◌^◌, length, take, drop, map, sum, true};
ghost use Rattle.dl_num.specs.Fixed.{is_number_size};
ghost use Rattle.dl_index.specs.Columns.{size_of};
ghost use Rattle.dl_index.specs.Layout.{rounded};
ghost use Rattle.dl_index.specs.LayoutOf.{IsLayoutOf};
ghost use Rattle.dl_index.specs.Parts.{header_sizes};
ghost use Rattle.dl_index.specs.PartsOf.{ArePartsOf};

use crate::header::{HEADER_LEN, Header};
use crate::layout::Layout;
use crate::numbers::Numbers;
use crate::width::{Width, width_by};

/// The parts of an index, but for the columns of which a look-up reads a single number.
#[derive(Clone, Copy)]
pub struct Parts<'a> {
    pub starts: Numbers<'a>,
    pub files: Numbers<'a>,
    pub statements: &'a [u8],
    pub file_table: &'a [u8],
    pub text_table: &'a [u8],
    pub texts: &'a [u8],
    /// Where the bytes of texts begin.
    pub texts_at: usize,
}

/// The next multiple of 8.
fn rounded_up(len: u128) -> u128
    requires { len < 2 ^ 80 }
    ensures { result ≡ rounded len }
{
    (len + 7) / 8 * 8
}

/// How many bytes a column has.
fn column_len(count: u64, width: Width) -> u128
    ensures len { result ≡ count * size_of width }
    ensures below { result < 2 ^ 68 }
{
    let count = u128::from(count);
    match width {
        Width::One => count,
        Width::Two => count * 2,
        Width::Four => count * 4,
        Width::Eight => count * 8,
    }
}

/// How many bytes the columns have, each with those up to the next multiple of 8.
fn columns_len(header: &Header) -> u128
    ensures len { let h = header.now in result ≡ rounded (h.count * size_of h.widths.starts)
        + rounded (h.count * size_of h.widths.files) + rounded (h.count * size_of h.widths.lines)
        + rounded (h.count * size_of h.widths.columns) + rounded (h.count * size_of h.widths.discriminators) }
    ensures below { result < 2 ^ 80 }
{
    let count = header.count;
    let widths = &header.widths;
    rounded_up(column_len(count, widths.starts))
        + rounded_up(column_len(count, widths.files))
        + rounded_up(column_len(count, widths.lines))
        + rounded_up(column_len(count, widths.columns))
        + rounded_up(column_len(count, widths.discriminators))
}

/// How many bytes an index with this header has.
pub fn whole_len(header: &Header) -> u128
    ensures { result ≡ 128 + sum (map rounded (header_sizes header.now)) }
{
    let statements = (u128::from(header.count) + 7) / 8;
    128 + columns_len(header)
        + rounded_up(statements)
        + rounded_up(u128::from(header.files) * 24)
        + rounded_up(u128::from(header.texts) * 16)
        + rounded_up(u128::from(header.text_bytes))
}

/// So many bytes from a place on.
#[inline(always)]
fn part_at(bytes: &[u8], at: usize, len: usize) -> &[u8]
    requires { at + len ≤ length bytes.now }
    ensures part { result.now ≡ take len (drop at bytes.entry.now) }
    ensures len { length result.now ≡ len }
{
    let rest = &bytes[at..];
    &rest[..len]
}

/// The column of `len` numbers at a place, each of so many bytes.
#[inline(always)]
fn column_at(bytes: &[u8], at: usize, size: u8, len: usize) -> Numbers<'_>
    requires size { is_number_size size ≡ true }
    requires within { at + len * size ≤ length bytes.now }
    ensures len { result.len ≡ len }
    ensures width { size_of result.width ≡ size }
    ensures column { result.bytes.now ≡ take (len * size) (drop at bytes.entry.now) }
{
    let width = width_by(size);
    Numbers {
        bytes: part_at(bytes, at, len * width.size()),
        width,
        len,
    }
}

/// The parts of bytes that are laid out so.
#[inline(always)]
pub fn parts_at<'a>(bytes: &'a [u8], layout: &Layout) -> Parts<'a>
    requires { length bytes.now ≡ layout.now.len }
    ensures { IsLayoutOf layout.now bytes.entry.now → ArePartsOf result bytes.entry.now }
{
    let count = layout.count;
    Parts {
        starts: column_at(bytes, HEADER_LEN, layout.starts_width, count),
        files: column_at(bytes, layout.files_at, layout.files_width, count),
        statements: part_at(bytes, layout.statements_at, count.div_ceil(8)),
        file_table: part_at(bytes, layout.file_table_at, layout.files * 24),
        text_table: part_at(bytes, layout.text_table_at, layout.texts * 16),
        texts: part_at(bytes, layout.texts_at, layout.text_bytes),
        texts_at: layout.texts_at,
    }
}
