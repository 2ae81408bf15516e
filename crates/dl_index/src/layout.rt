//! The layout of an index: the numbers of its header, and where the parts after it stand.

ghost use Rattle.std.specs.Prelude.{◌≡◌, ◌+◌, ◌*◌, ◌/◌, ◌<◌, ◌≤◌, ◌^◌, length, true, MatchBool};
ghost use Rattle.dl_num.specs.Fixed.{is_number_size};
ghost use Rattle.dl_index.specs.Layout.{rounded, build_id_len_in};
ghost use Rattle.dl_index.specs.IsIndex.{IsWhole};

use crate::header::{HEADER_LEN, Header, long_at, number_at};
use crate::opening::has_magic;
use crate::width::Width;

/// The numbers of the header of an index, and where the parts after it stand, by which a look-up finds them.
#[repr(C)]
#[derive(Clone, Copy)]
pub struct Layout {
    /// The base, to which the starts of stretches are added.
    pub base: u64,
    /// How many bytes the index has.
    pub len: usize,
    /// How many stretches there are, how many files, how many texts, and how many bytes of texts.
    pub count: usize,
    pub files: usize,
    pub texts: usize,
    pub text_bytes: usize,
    /// Where the parts begin, after the starts, which the header is followed by: four columns, the bits of is_stmt, the
    /// files, the texts, and their bytes.
    pub files_at: usize,
    pub lines_at: usize,
    pub columns_at: usize,
    pub discriminators_at: usize,
    pub statements_at: usize,
    pub file_table_at: usize,
    pub text_table_at: usize,
    pub texts_at: usize,
    /// How many bytes each number of a column has: 1, 2, 4 or 8.
    pub starts_width: u8,
    pub files_width: u8,
    pub lines_width: u8,
    pub columns_width: u8,
    pub discriminators_width: u8,
    ghost starts_size: { is_number_size starts_width ≡ true },
    ghost files_size: { is_number_size files_width ≡ true },
    ghost lines_size: { is_number_size lines_width ≡ true },
    ghost columns_size: { is_number_size columns_width ≡ true },
    ghost discriminators_size: { is_number_size discriminators_width ≡ true },
    ghost after_starts: { files_at ≡ 128 + rounded (count * starts_width) },
    ghost after_files: { lines_at ≡ files_at + rounded (count * files_width) },
    ghost after_lines: { columns_at ≡ lines_at + rounded (count * lines_width) },
    ghost after_columns: { discriminators_at ≡ columns_at + rounded (count * columns_width) },
    ghost after_discriminators: { statements_at ≡ discriminators_at + rounded (count * discriminators_width) },
    ghost after_statements: { file_table_at ≡ statements_at + rounded ((count + 7) / 8) },
    ghost after_file_table: { text_table_at ≡ file_table_at + rounded (files * 24) },
    ghost after_text_table: { texts_at ≡ text_table_at + rounded (texts * 16) },
    ghost after_texts: { len ≡ texts_at + rounded text_bytes },
}

impl Layout {
    ghost use Rattle.std.specs.Prelude.{◌≡◌, ◌+◌, ◌*◌, ◌/◌, ◌<◌, ◌≤◌, ◌^◌, length, MatchBool, IfSome};
    ghost use Rattle.dl_index.specs.Layout.{rounded};
    ghost use Rattle.dl_index.specs.Columns.{size_of};
    ghost use Rattle.dl_index.specs.LayoutOf.{IsLayoutOf, IsByHeader, HasSizes, HasLayoutWidths, header_len};

    /// The layout by a header whose parts fill so many bytes.
    pub(crate) fn of(header: &Header, len: usize) -> Layout
        requires fits { header_len header.now ≡ len }
        requires small { len < 2 ^ 63 }
        ensures { IsByHeader result header.now }
    {
        let widths = header.widths;
        let count = header.count as usize;
        let files = header.files as usize;
        let texts = header.texts as usize;
        let files_at = HEADER_LEN + rounded_up(count * widths.starts.size());
        let lines_at = files_at + rounded_up(count * widths.files.size());
        let columns_at = lines_at + rounded_up(count * widths.lines.size());
        let discriminators_at = columns_at + rounded_up(count * widths.columns.size());
        let statements_at = discriminators_at + rounded_up(count * widths.discriminators.size());
        let file_table_at = statements_at + rounded_up(count.div_ceil(8));
        let text_table_at = file_table_at + rounded_up(files * 24);
        Layout {
            base: header.base,
            len,
            count,
            files,
            texts,
            text_bytes: header.text_bytes as usize,
            files_at,
            lines_at,
            columns_at,
            discriminators_at,
            statements_at,
            file_table_at,
            text_table_at,
            texts_at: text_table_at + rounded_up(texts * 16),
            starts_width: widths.starts.bytes(),
            files_width: widths.files.bytes(),
            lines_width: widths.lines.bytes(),
            columns_width: widths.columns.bytes(),
            discriminators_width: widths.discriminators.bytes(),
        }
    }

    /// Whether bytes are laid out so: they are an index but for its sums and what stands after its header, and these are
    /// the numbers of the header.
    #[inline(always)]
    pub(crate) fn is_of(&self, bytes: &[u8]) -> bool
        ensures { MatchBool result (IsLayoutOf self.now bytes.now) (¬ (IsLayoutOf self.now bytes.now)) }
    {
        if bytes.len() != self.len {
            return false;
        }
        is_whole(bytes) && self.has_sizes(bytes) && self.has_widths(bytes)
    }

    /// Whether the header of bytes has this base and these numbers of stretches, files, texts and bytes of texts.
    #[inline(always)]
    fn has_sizes(&self, bytes: &[u8]) -> bool
        requires { 128 ≤ length bytes.now }
        ensures { MatchBool result (HasSizes self.now bytes.now) (¬ (HasSizes self.now bytes.now)) }
    {
        long_at(bytes, 24) == self.base
            && long_at(bytes, 32) == self.count as u64
            && long_at(bytes, 40) == self.files as u64
            && long_at(bytes, 48) == self.texts as u64
            && long_at(bytes, 56) == self.text_bytes as u64
    }

    /// Whether the header of bytes has these widths.
    #[inline(always)]
    fn has_widths(&self, bytes: &[u8]) -> bool
        requires { 128 ≤ length bytes.now }
        ensures { MatchBool result (HasLayoutWidths self.now bytes.now) (¬ (HasLayoutWidths self.now bytes.now)) }
    {
        bytes[64] == self.starts_width
            && bytes[65] == self.files_width
            && bytes[66] == self.lines_width
            && bytes[67] == self.columns_width
            && bytes[68] == self.discriminators_width
    }
}

/// Whether bytes have the header of an index that says how many they are, with a build ID of at most 32 bytes.
#[inline(always)]
fn is_whole(bytes: &[u8]) -> bool
    requires { 128 ≤ length bytes.now }
    ensures { MatchBool result (IsWhole bytes.now × (build_id_len_in bytes.now ≤ 32))
        (¬ (IsWhole bytes.now × (build_id_len_in bytes.now ≤ 32))) }
{
    has_magic(bytes)
        && number_at(bytes, 8) == 1
        && long_at(bytes, 16) == bytes.len() as u64
        && bytes[80] <= 32
}

/// The next multiple of 8.
fn rounded_up(len: usize) -> usize
    requires { len < 2 ^ 63 }
    ensures { result ≡ rounded len }
{
    (len + 7) / 8 * 8
}
