//! How many bytes the first fields of a unit have. Sections 6.2.4 and 7.4.

ghost use Rattle.std.specs.Prelude.{◌≡◌};
ghost use Rattle.dl_head.specs.HeaderLayout.{initial_size as initial_size_of, fixed_part as fixed_part_of};

use dl_table::Format;

/// The greatest unit_length that is read or written.
pub const UNIT_LENGTH_LIMIT: u64 = 1 << 40;

/// The size in bytes of the initial length. Section 7.4.
pub fn initial_size(format: Format) -> u64
    ensures { result ≡ initial_size_of format }
{
    match format {
        Format::Dwarf32 => 4,
        Format::Dwarf64 => 12,
    }
}

/// The size in bytes of the fields from version to header_length.
pub fn fixed_part(format: Format, version: u16) -> u64
    ensures { result ≡ fixed_part_of format version }
{
    let sizes = if version == 5 { 2 } else { 0 };
    2 + sizes + format.offset_size() as u64
}
