//! The first entry of a unit, as far as its line table and its compilation directory. DWARF 2, 3, 4 and 5, sections 3.1.1
//! and 7.5.
ghost use Rattle.std.specs.Prelude.{◌≡◌, option_map};
ghost use Rattle.dl_info.specs.Front.{seen};
ghost use Rattle.dl_info.specs.Forms.{told};
ghost use Rattle.dl_info.specs.Abbreviations.{attributes_in, HasEnd};
ghost use Rattle.dl_info.specs.Entries.{entry, entry_at, number_in, offset_in, text, text_in, values_at, without_values};
ghost use Rattle.dl_info.specs.Kept.{Ends, list_of};
ghost use Rattle.dl_info.specs.Section.{section_of};

use crate::abbreviation::{Attribute, attribute_at};
use crate::abbreviations::{Abbreviations, Attributes};
use crate::form::{Encoding, Value};
use crate::front::{FieldFault, number_of, uleb_at};
use crate::head::head_at;
use dl_num::Order;
use dl_table::Format;

/// DW_AT_stmt_list
const STMT_LIST: u64 = 0x10;

/// DW_AT_comp_dir
const COMP_DIR: u64 = 0x1b;

/// DW_AT_str_offsets_base
const STR_OFFSETS_BASE: u64 = 0x72;

/// Where a text stands.
#[derive(Clone, Copy)]
pub enum Text<'a> {
    /// In the entry: its bytes, without the zero byte.
    Here(&'a [u8]),
    /// At this offset of `.debug_str`.
    Str(u64),
    /// At this offset of `.debug_line_str`.
    LineStr(u64),
    /// At the offset of `.debug_str` that `.debug_str_offsets` has for this index.
    Index(u64),
}

/// What the first entry of a unit says.
#[derive(Clone, Copy)]
pub struct FirstEntry<'a> {
    /// The format of the unit, by which `.debug_str_offsets` is read.
    pub format: Format,
    /// Where the unit's line table begins in `.debug_line` (DW_AT_stmt_list).
    pub stmt_list: Option<u64>,
    /// The compilation directory (DW_AT_comp_dir).
    pub comp_dir: Option<Text<'a>>,
    /// Where the unit's part of `.debug_str_offsets` begins, after its header (DW_AT_str_offsets_base).
    pub str_offsets_base: Option<u64>,
}

/// The number that bytes spell, of which there are one to eight.
fn number_in(order: Order, bytes: &[u8]) -> Option<u64>
    ensures { result ≡ number_in order bytes.now }
{
    if bytes.is_empty() || 8 < bytes.len() {
        return None;
    }
    Some(number_of(order, bytes))
}

/// An offset into another section, where the value is one: of form data4, data8 or sec_offset.
fn offset_in(order: Order, value: Value<'_>) -> Option<u64>
    ensures { result ≡ offset_in order (told value.entry) }
{
    match value.form {
        0x06 | 0x07 | 0x17 => number_in(order, value.bytes),
        _ => None,
    }
}

/// A text, where the value is one: of form string, strp, line_strp, strx, or strx1 to strx4.
fn text_in(order: Order, value: Value<'_>) -> Option<Text<'_>>
    ensures { option_map text result ≡ text_in order (told value.entry) }
{
    match value.form {
        0x08 => Some(Text::Here(value.bytes)),
        0x0e => Some(Text::Str(number_in(order, value.bytes)?)),
        0x1f => Some(Text::LineStr(number_in(order, value.bytes)?)),
        0x1a => Some(Text::Index(uleb_at(value.bytes).ok()?.0)),
        0x25 | 0x26 | 0x27 | 0x28 => Some(Text::Index(number_in(order, value.bytes)?)),
        _ => None,
    }
}

impl<'a> FirstEntry<'a> {
    ghost use Rattle.dl_info.specs.Entries.{entry, with_value, without_values};

    /// No attribute yet.
    fn new(format: Format) -> FirstEntry<'a>
        ensures { entry result ≡ without_values format }
    {
        FirstEntry {
            format,
            stmt_list: None,
            comp_dir: None,
            str_offsets_base: None,
        }
    }

    /// The same with one attribute more; of several of a name the first one counts.
    fn with_value(self, order: Order, name: u64, value: Value<'a>) -> FirstEntry<'a>
        ensures { entry result ≡ with_value order name (told value.entry) (entry self.entry) }
    {
        match name {
            STMT_LIST => FirstEntry {
                stmt_list: self.stmt_list.or(offset_in(order, value)),
                ..self
            },
            COMP_DIR => FirstEntry {
                comp_dir: self.comp_dir.or(text_in(order, value)),
                ..self
            },
            STR_OFFSETS_BASE => FirstEntry {
                str_offsets_base: self.str_offsets_base.or(offset_in(order, value)),
                ..self
            },
            _ => self,
        }
    }
}

/// The entry whose values are these bytes, with the attributes that these bytes have.
fn declared_values_at<'a>(
    encoding: Encoding,
    attributes: &[u8],
    bytes: &'a [u8],
) -> Result<(FirstEntry<'a>, &'a [u8]), FieldFault>
    requires { HasEnd attributes.now }
    ensures { seen (λ x. (entry x.0, x.1.now)) result ≡ values_at encoding (attributes_in attributes.now)
        (without_values encoding.format) bytes.entry.now }
{
    let mut entry = FirstEntry::new(encoding.format);
    let mut left = attributes;
    let mut rest = bytes;
    // Each attribute has a byte at least.
    for _ in 0..attributes.len() {
        let (attribute, others) = attribute_at(left)?;
        if attribute.is_end() {
            return Ok((entry, rest));
        }
        let (value, after) = encoding.value_at(attribute.form, rest)?;
        entry = entry.with_value(encoding.order, attribute.name, value);
        left = others;
        rest = after;
    }
    Err(FieldFault::Damaged)
}

/// The entry whose values are these bytes, with these attributes.
fn kept_values_at<'a>(
    encoding: Encoding,
    attributes: &[Attribute],
    bytes: &'a [u8],
) -> Result<(FirstEntry<'a>, &'a [u8]), FieldFault>
    ensures { seen (λ x. (entry x.0, x.1.now)) result ≡ values_at encoding attributes.now
        (without_values encoding.format) bytes.entry.now }
{
    let mut entry = FirstEntry::new(encoding.format);
    let mut rest = bytes;
    for i in 0..attributes.len() {
        let attribute = attributes[i];
        let (value, after) = encoding.value_at(attribute.form, rest)?;
        entry = entry.with_value(encoding.order, attribute.name, value);
        rest = after;
    }
    Ok((entry, rest))
}

/// The entry whose values are these bytes, with the attributes of an abbreviation.
fn values_at<'a>(
    encoding: Encoding,
    attributes: Attributes<'_>,
    bytes: &'a [u8],
) -> Result<(FirstEntry<'a>, &'a [u8]), FieldFault>
    requires { Ends attributes }
    ensures { seen (λ x. (entry x.0, x.1.now)) result ≡ values_at encoding (list_of attributes.entry)
        (without_values encoding.format) bytes.entry.now }
{
    match attributes {
        Attributes::Declared(declared) => declared_values_at(encoding, declared, bytes),
        Attributes::Kept(kept) => kept_values_at(encoding, kept, bytes),
    }
}

/// The first entry of a unit, with its abbreviations.
pub(crate) fn entry_at<'a>(
    order: Order,
    unit: &'a [u8],
    abbreviations: &mut Abbreviations<'_>,
) -> Result<(FirstEntry<'a>, &'a [u8]), FieldFault>
    ensures entry { seen (λ x. (entry x.0, x.1.now)) result
        ≡ entry_at order (section_of abbreviations.old) unit.entry.now }
    ensures section { section_of abbreviations.new ≡ section_of abbreviations.old }
{
    let (head, rest) = head_at(order, unit)?;
    let (code, rest) = uleb_at(rest)?;
    abbreviations.turn_to(head.abbreviations);
    let attributes = abbreviations.find(head.abbreviations, code)?;
    values_at(head.encoding, attributes, rest)
}
