//! The forms of attributes, and how the bytes of a value are told by its form. DWARF 2, 3 and 4, section 7.5.4; DWARF 5,
//! section 7.5.6.
ghost use Rattle.std.specs.Prelude.{◌≡◌, ◌≤◌};
ghost use Rattle.dl_table.specs.Value.{offset_size};
ghost use Rattle.dl_info.specs.Front.{seen};
ghost use Rattle.dl_info.specs.Forms.{direct_at, fixed_size, indirect_at, is_leb, is_offset, leb_sized_at};
ghost use Rattle.dl_info.specs.Forms.{reference_size, shape_of, shaped_at, sized_at, told, value_at};

use crate::front::{FieldFault, bytes_at, fixed_at, leb_at, text_at, uleb_at};
use dl_num::Order;
use dl_table::Format;

/// DW_FORM_indirect: the value begins with the number of its form.
const INDIRECT: u64 = 0x16;

/// DW_FORM_implicit_const: the value stands with the abbreviation.
pub(crate) const IMPLICIT_CONST: u64 = 0x21;

/// What the head of a unit says of the sizes of values in it.
#[derive(Clone, Copy)]
pub(crate) struct Encoding {
    /// The order of the bytes of numbers.
    pub order: Order,
    /// The 32-bit or the 64-bit format.
    pub format: Format,
    /// The version: 2 to 5.
    pub version: u64,
    /// How many bytes an address has.
    pub address_size: u64,
}

/// How the bytes of a value are told.
#[derive(Clone, Copy)]
pub(crate) enum Shape {
    /// So many bytes.
    Bytes(u64),
    /// A number in LEB128.
    Leb,
    /// A text up to its zero byte.
    Text,
    /// A number of one byte, and then as many bytes as it says.
    Block1,
    /// The same with a number of two bytes.
    Block2,
    /// With one of four bytes.
    Block4,
    /// With one in LEB128.
    Block,
}

/// A value of an attribute.
#[derive(Clone, Copy)]
pub(crate) struct Value<'a> {
    /// The number of its form.
    pub form: u64,
    /// Its bytes, without a length or a zero byte.
    pub bytes: &'a [u8],
}

/// Whether values of a form are numbers in LEB128.
fn is_leb(form: u64) -> bool
    ensures { result ≡ is_leb form }
{
    matches!(
        form,
        0x0d | 0x0f | 0x15 | 0x1a | 0x1b | 0x22 | 0x23 | 0x1f01 | 0x1f02
    )
}

/// Whether values of a form are offsets into a section.
fn is_offset(form: u64) -> bool
    ensures { result ≡ is_offset form }
{
    matches!(form, 0x0e | 0x17 | 0x1d | 0x1f | 0x1f20 | 0x1f21)
}

/// As many bytes as a number in LEB128 says that comes first, and what follows them.
#[tactic(auto, unfolding(crate::specs::Forms::leb_sized_at))]
fn leb_sized_at(bytes: &[u8]) -> Result<(&[u8], &[u8]), FieldFault>
    ensures { seen (λ x. (x.0.now, x.1.now)) result ≡ leb_sized_at bytes.entry.now }
{
    let (length, rest) = uleb_at(bytes)?;
    bytes_at(length, rest)
}

impl Encoding {
    /// How many bytes an offset has.
    fn offset_size(self) -> u64
        ensures { result ≡ offset_size self.format }
    {
        self.format.offset_size() as u64
    }

    /// How many bytes a reference to an entry of any unit has (DW_FORM_ref_addr).
    fn reference_size(self) -> u64
        ensures { result ≡ reference_size self }
    {
        if self.version == 2 {
            self.address_size
        } else {
            self.offset_size()
        }
    }

    /// How many bytes the values of a form have, where all have as many.
    fn fixed_size(self, form: u64) -> Option<u64>
        ensures { result ≡ fixed_size self form }
    {
        match form {
            0x19 | IMPLICIT_CONST => Some(0),
            0x0b | 0x0c | 0x11 | 0x25 | 0x29 => Some(1),
            0x05 | 0x12 | 0x26 | 0x2a => Some(2),
            0x27 | 0x2b => Some(3),
            0x06 | 0x13 | 0x1c | 0x28 | 0x2c => Some(4),
            0x07 | 0x14 | 0x20 | 0x24 => Some(8),
            0x1e => Some(16),
            0x01 => Some(self.address_size),
            0x10 => Some(self.reference_size()),
            _ if is_offset(form) => Some(self.offset_size()),
            _ => None,
        }
    }

    /// How the values of a form are told; None where no such form is known, and for DW_FORM_indirect.
    fn shape_of(self, form: u64) -> Option<Shape>
        ensures value { result ≡ shape_of self form }
    {
        match form {
            0x08 => Some(Shape::Text),
            0x0a => Some(Shape::Block1),
            0x03 => Some(Shape::Block2),
            0x04 => Some(Shape::Block4),
            0x09 | 0x18 => Some(Shape::Block),
            _ if is_leb(form) => Some(Shape::Leb),
            _ => Some(Shape::Bytes(self.fixed_size(form)?)),
        }
    }

    /// As many bytes as a number of this size says that comes first, and what follows them.
    #[tactic(auto, unfolding(crate::specs::Forms::sized_at))]
    fn sized_at(self, size: u64, bytes: &[u8]) -> Result<(&[u8], &[u8]), FieldFault>
        requires some { 1 ≤ size }
        requires most { size ≤ 8 }
        ensures { seen (λ x. (x.0.now, x.1.now)) result ≡ sized_at self.order size bytes.entry.now }
    {
        let (length, rest) = fixed_at(self.order, size, bytes)?;
        bytes_at(length, rest)
    }

    /// The bytes of a value, without its length or zero byte, and what follows it.
    fn shaped_at(self, shape: Shape, bytes: &[u8]) -> Result<(&[u8], &[u8]), FieldFault>
        ensures { seen (λ x. (x.0.now, x.1.now)) result ≡ shaped_at self.order shape bytes.entry.now }
    {
        match shape {
            Shape::Bytes(size) => bytes_at(size, bytes),
            Shape::Leb => leb_at(bytes),
            Shape::Text => text_at(bytes),
            Shape::Block1 => self.sized_at(1, bytes),
            Shape::Block2 => self.sized_at(2, bytes),
            Shape::Block4 => self.sized_at(4, bytes),
            Shape::Block => leb_sized_at(bytes),
        }
    }

    /// A value of a form that isn't DW_FORM_indirect, and what follows it.
    #[tactic(auto, unfolding(crate::specs::Forms::direct_at))]
    fn direct_at(self, form: u64, bytes: &[u8]) -> Result<(Value<'_>, &[u8]), FieldFault>
        ensures { seen (λ x. (told x.0, x.1.now)) result ≡ direct_at self form bytes.entry.now }
    {
        let shape = self.shape_of(form).ok_or(FieldFault::Damaged)?;
        let (bytes, rest) = self.shaped_at(shape, bytes)?;
        Ok((Value { form, bytes }, rest))
    }

    /// A value that the number of its form comes first of, and what follows it.
    #[tactic(auto, unfolding(crate::specs::Forms::indirect_at))]
    fn indirect_at(self, bytes: &[u8]) -> Result<(Value<'_>, &[u8]), FieldFault>
        ensures { seen (λ x. (told x.0, x.1.now)) result ≡ indirect_at self bytes.entry.now }
    {
        let (form, rest) = uleb_at(bytes)?;
        if form == IMPLICIT_CONST {
            return Err(FieldFault::Damaged);
        }
        self.direct_at(form, rest)
    }

    /// A value of a form, and what follows it.
    pub(crate) fn value_at(self, form: u64, bytes: &[u8]) -> Result<(Value<'_>, &[u8]), FieldFault>
        ensures { seen (λ x. (told x.0, x.1.now)) result ≡ value_at self form bytes.entry.now }
    {
        if form == INDIRECT {
            self.indirect_at(bytes)
        } else {
            self.direct_at(form, bytes)
        }
    }
}
