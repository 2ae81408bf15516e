//! The sections in which texts stand. DWARF 5, sections 7.5.5 and 7.26.
ghost use Rattle.std.specs.Prelude.{◌≡◌, option_map};
ghost use Rattle.std.specs.Option.{option_copied};
ghost use Rattle.dl_dirs.specs.Texts.{first_base, index_text, section_text, texts_of};

use dl_info::{string_offset, string_place};
use dl_num::Order;
use dl_table::Format;
use dl_table::text::text_at;

/// The bytes of the sections in which texts stand; None where a file has none, or none is wanted of it.
#[derive(Drop)]
pub struct Texts {
    pub str_offsets: Option<Vec<u8>>,
    pub debug_str: Option<Vec<u8>>,
    pub debug_line_str: Option<Vec<u8>>,
}

impl Texts {
    ghost use Rattle.std.specs.Prelude.{◌≡◌, None};
    ghost use Rattle.dl_dirs.specs.Texts.{texts_of};

    /// No section.
    pub fn none() -> Texts
        ensures { texts_of result ≡ record { str_offsets = None; debug_str = None; debug_line_str = None } }
    {
        Texts {
            str_offsets: None,
            debug_str: None,
            debug_line_str: None,
        }
    }
}

/// The text at an offset of a section.
pub(crate) fn section_text(section: &Option<Vec<u8>>, offset: u64) -> Option<&[u8]>
    ensures { option_copied result ≡ section_text (option_map (λ bytes. bytes.items) section.entry.now) offset }
{
    text_at(section.as_ref()?, offset)
}

/// Where the first part of `.debug_str_offsets` begins, after its header: a length, a version and two bytes of padding.
fn first_base(format: Format) -> u64
    ensures { result ≡ first_base format }
{
    match format {
        Format::Dwarf32 => 8,
        Format::Dwarf64 => 16,
    }
}

/// The text with an index, of a unit of this format that says this DW_AT_str_offsets_base.
pub(crate) fn index_text(
    order: Order,
    texts: &Texts,
    format: Format,
    base: Option<u64>,
    index: u64,
) -> Option<&[u8]>
    ensures { option_copied result ≡ index_text order (texts_of texts.entry.now) format base index }
{
    let place = string_place(format, base.unwrap_or(first_base(format)), index)?;
    let offset = string_offset(order, format, place, texts.str_offsets.as_ref()?)?;
    section_text(&texts.debug_str, offset)
}
