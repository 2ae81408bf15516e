//! Fields at the front of bytes. DWARF 5, sections 7.4 to 7.6.
ghost use Rattle.std.specs.Prelude.{◌≡◌, ◌≤◌, length, drop};
ghost use Rattle.dl_num.specs.Fixed.{fixed};
ghost use Rattle.dl_info.specs.Front.{seen, bytes_at, fixed_at, leb_at, uleb_at, text_at};

use byteorder::{BigEndian, ByteOrder, LittleEndian};
use dl_num::{LebRange, Order, uleb_at_front};
use dl_table::text::first_zero;

/// Why a field can't be read.
#[derive(Clone, Copy)]
pub(crate) enum FieldFault {
    /// The bytes end before the field does: it has at least so many bytes more.
    Short(u64),
    /// No bytes after these make it a field.
    Damaged,
}

/// The number that one to eight bytes spell.
pub(crate) fn number_of(order: Order, bytes: &[u8]) -> u64
    requires some { 1 ≤ length bytes.now }
    requires most { length bytes.now ≤ 8 }
    ensures { result ≡ fixed order bytes.now }
{
    match order {
        Order::Little => LittleEndian::read_uint(bytes, bytes.len()),
        Order::Big => BigEndian::read_uint(bytes, bytes.len()),
    }
}

/// The bytes of a section from an offset on; none past its end.
pub(crate) fn bytes_from(offset: u64, section: &[u8]) -> &[u8]
    ensures { result.now ≡ drop offset section.entry.now }
{
    let start = offset.min(section.len() as u64);
    &section[start as usize..]
}

/// So many bytes, and what follows them.
pub(crate) fn bytes_at(size: u64, bytes: &[u8]) -> Result<(&[u8], &[u8]), FieldFault>
    ensures { seen (λ x. (x.0.now, x.1.now)) result ≡ bytes_at size bytes.entry.now }
{
    let len = bytes.len() as u64;
    if len < size {
        return Err(FieldFault::Short(size - len));
    }
    Ok(bytes.split_at(size as usize))
}

/// A number of so many bytes, and what follows it.
#[tactic(auto, unfolding(crate::specs::Front::fixed_at))]
pub(crate) fn fixed_at(order: Order, size: u64, bytes: &[u8]) -> Result<(u64, &[u8]), FieldFault>
    requires some { 1 ≤ size }
    requires most { size ≤ 8 }
    ensures { seen (λ x. (x.0, x.1.now)) result ≡ fixed_at order size bytes.entry.now }
{
    let (front, rest) = bytes_at(size, bytes)?;
    Ok((number_of(order, front), rest))
}

/// The bytes of a number in LEB128, and what follows it.
pub(crate) fn leb_at(bytes: &[u8]) -> Result<(&[u8], &[u8]), FieldFault>
    ensures { seen (λ x. (x.0.now, x.1.now)) result ≡ leb_at bytes.entry.now }
{
    let Some((_, rest)) = uleb_at_front(bytes) else {
        return Err(FieldFault::Short(1));
    };
    Ok((&bytes[..bytes.len() - rest.len()], rest))
}

/// An unsigned number in LEB128, and what follows it.
pub(crate) fn uleb_at(bytes: &[u8]) -> Result<(u64, &[u8]), FieldFault>
    ensures { seen (λ x. (x.0, x.1.now)) result ≡ uleb_at bytes.entry.now }
{
    let Some((number, rest)) = uleb_at_front(bytes) else {
        return Err(FieldFault::Short(1));
    };
    match number {
        Ok(number) => Ok((number, rest)),
        Err(LebRange) => Err(FieldFault::Damaged),
    }
}

/// A text without its zero byte, and what follows that.
pub(crate) fn text_at(bytes: &[u8]) -> Result<(&[u8], &[u8]), FieldFault>
    ensures { seen (λ x. (x.0.now, x.1.now)) result ≡ text_at bytes.entry.now }
{
    let Some(len) = first_zero(bytes) else {
        return Err(FieldFault::Short(1));
    };
    Ok((&bytes[..len], &bytes[len + 1..]))
}
