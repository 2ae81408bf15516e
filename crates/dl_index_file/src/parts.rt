//! Where the parts of an index stand in its file.

ghost use Rattle.std.specs.Prelude.{◌≡◌, ◌+◌, ◌*◌, ◌<◌, ◌^◌, map, sum};
ghost use Rattle.dl_index.specs.Columns.{size_of};
ghost use Rattle.dl_index.specs.Layout.{rounded};
ghost use Rattle.dl_index.specs.Parts.{header_sizes};
ghost use Rattle.dl_index_file.specs.Places.{IsRange, ArePlaces};

use dl_elf::Range;
use dl_index::{HEADER_LEN, Header, Width};

/// Where each part stands.
#[derive(Clone, Copy)]
pub struct Places {
    pub starts: Range,
    pub files: Range,
    pub lines: Range,
    pub columns: Range,
    pub discriminators: Range,
    pub statements: Range,
    pub file_table: Range,
    pub text_table: Range,
    pub texts: Range,
}

/// The range of this many bytes from a place on, which moves behind it, to the next multiple of 8.
fn next_range(place: &mut u64, size: u64) -> Range
    requires { place.old + rounded size < 2 ^ 64 }
    ensures range { IsRange result place.old size }
    ensures place { place.new ≡ place.old + rounded size }
{
    let offset = *place;
    *place += size.div_ceil(8) * 8;
    Range { offset, size }
}

/// How many bytes a column has.
fn column_len(count: u64, width: Width) -> u64
    requires { count * size_of width < 2 ^ 64 }
    ensures { result ≡ count * size_of width }
{
    count * width.size() as u64
}

/// Where the parts of an index with this header stand, which has less than 2^64 bytes.
pub fn places_of(header: &Header) -> Places
    requires { 128 + sum (map rounded (header_sizes header.now)) < 2 ^ 64 }
    ensures { ArePlaces result header.now }
{
    let count = header.count;
    let widths = header.widths;
    let mut place = HEADER_LEN as u64;
    let starts = next_range(&mut place, column_len(count, widths.starts));
    let files = next_range(&mut place, column_len(count, widths.files));
    let lines = next_range(&mut place, column_len(count, widths.lines));
    let columns = next_range(&mut place, column_len(count, widths.columns));
    let discriminators = next_range(&mut place, column_len(count, widths.discriminators));
    let statements = next_range(&mut place, count.div_ceil(8));
    let file_table = next_range(&mut place, header.files * 24);
    let text_table = next_range(&mut place, header.texts * 16);
    let texts = next_range(&mut place, header.text_bytes);
    Places {
        starts,
        files,
        lines,
        columns,
        discriminators,
        statements,
        file_table,
        text_table,
        texts,
    }
}
