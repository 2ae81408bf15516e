//! The head of a unit. DWARF 2 and 3, section 7.5.1; DWARF 4, section 7.5.1.1; DWARF 5, sections 7.4 and 7.5.1.
ghost use Rattle.std.specs.Prelude.{◌≡◌};
ghost use Rattle.dl_info.specs.Front.{seen};
ghost use Rattle.dl_info.specs.Heads.{head_at, kind_size, length_at, long_length_at, newer_head_at, older_head_at};

use crate::form::Encoding;
use crate::front::{FieldFault, bytes_at, fixed_at};
use dl_num::Order;
use dl_table::Format;

/// From here on the first four bytes are no length.
const RESERVED: u64 = 0xffff_fff0;

/// The first four bytes of the 64-bit format.
const ESCAPE: u64 = 0xffff_ffff;

/// What a unit begins with.
#[derive(Clone, Copy)]
pub struct UnitLength {
    /// The 32-bit or the 64-bit format.
    pub format: Format,
    /// How many bytes the unit has, with those of its length.
    pub size: u64,
}

/// What the head of a unit says.
#[derive(Clone, Copy)]
pub(crate) struct Head {
    /// The sizes of values.
    pub encoding: Encoding,
    /// Where the unit's abbreviations begin in `.debug_abbrev`.
    pub abbreviations: u64,
}

/// The length of the 64-bit format, after its first four bytes, and what follows it.
#[tactic(auto, unfolding(crate::specs::Heads::long_length_at))]
fn long_length_at(order: Order, bytes: &[u8]) -> Result<(UnitLength, &[u8]), FieldFault>
    ensures { seen (λ x. (x.0, x.1.now)) result ≡ long_length_at order bytes.entry.now }
{
    let (length, rest) = fixed_at(order, 8, bytes)?;
    let format = Format::Dwarf64;
    match length.checked_add(12) {
        Some(size) => Ok((UnitLength { format, size }, rest)),
        None => Err(FieldFault::Damaged),
    }
}

/// The length that a unit begins with, and what follows it.
#[tactic(auto, unfolding(crate::specs::Heads::length_at))]
pub(crate) fn length_at(order: Order, bytes: &[u8]) -> Result<(UnitLength, &[u8]), FieldFault>
    ensures { seen (λ x. (x.0, x.1.now)) result ≡ length_at order bytes.entry.now }
{
    let (length, rest) = fixed_at(order, 4, bytes)?;
    if length < RESERVED {
        let format = Format::Dwarf32;
        let size = length + 4;
        return Ok((UnitLength { format, size }, rest));
    }
    if length == ESCAPE {
        return long_length_at(order, rest);
    }
    Err(FieldFault::Damaged)
}

/// How many bytes the head of a unit of this type has after the offset of its abbreviations; None where no such type
/// is known.
fn kind_size(format: Format, kind: u64) -> Option<u64>
    ensures { result ≡ kind_size format kind }
{
    match kind {
        0x01 | 0x03 => Some(0),
        0x04 | 0x05 => Some(8),
        0x02 | 0x06 => Some(8 + format.offset_size() as u64),
        _ => None,
    }
}

/// The head of a unit of version 2, 3 or 4 after its version, and what follows it.
#[tactic(auto, unfolding(crate::specs::Heads::older_head_at))]
fn older_head_at(
    order: Order,
    format: Format,
    version: u64,
    bytes: &[u8],
) -> Result<(Head, &[u8]), FieldFault>
    ensures { seen (λ x. (x.0, x.1.now)) result ≡ older_head_at order format version bytes.entry.now }
{
    let (abbreviations, rest) = fixed_at(order, format.offset_size() as u64, bytes)?;
    let (address_size, rest) = fixed_at(order, 1, rest)?;
    let encoding = Encoding {
        order,
        format,
        version,
        address_size,
    };
    Ok((
        Head {
            encoding,
            abbreviations,
        },
        rest,
    ))
}

/// The head of a unit of version 5 after its version, and what follows it.
#[tactic(auto, unfolding(crate::specs::Heads::newer_head_at))]
fn newer_head_at(order: Order, format: Format, bytes: &[u8]) -> Result<(Head, &[u8]), FieldFault>
    ensures { seen (λ x. (x.0, x.1.now)) result ≡ newer_head_at order format bytes.entry.now }
{
    let (kind, rest) = fixed_at(order, 1, bytes)?;
    let more = kind_size(format, kind).ok_or(FieldFault::Damaged)?;
    let (address_size, rest) = fixed_at(order, 1, rest)?;
    let (abbreviations, rest) = fixed_at(order, format.offset_size() as u64, rest)?;
    let (_, rest) = bytes_at(more, rest)?;
    let encoding = Encoding {
        order,
        format,
        version: 5,
        address_size,
    };
    Ok((
        Head {
            encoding,
            abbreviations,
        },
        rest,
    ))
}

/// The head of a unit, and what follows it.
#[tactic(auto, unfolding(crate::specs::Heads::head_at))]
pub(crate) fn head_at(order: Order, unit: &[u8]) -> Result<(Head, &[u8]), FieldFault>
    ensures { seen (λ x. (x.0, x.1.now)) result ≡ head_at order unit.entry.now }
{
    let (length, rest) = length_at(order, unit)?;
    let (version, rest) = fixed_at(order, 2, rest)?;
    match version {
        2 | 3 | 4 => older_head_at(order, length.format, version, rest),
        5 => newer_head_at(order, length.format, rest),
        _ => Err(FieldFault::Damaged),
    }
}
