//! Numbers in the bytes of a file.
ghost use Rattle.std.specs.Prelude.{◌≡◌, ◌≤◌, length};
ghost use Rattle.dl_num.specs.Fixed.{fixed, fixed_bytes, little_bytes};

use byteorder::{BigEndian, ByteOrder, LittleEndian};
use dl_num::Order;

/// The number that one to eight bytes spell in an order. Of the common sizes it is one load.
#[inline(always)]
fn number_in<T: ByteOrder>(bytes: &[u8]) -> u64
    requires some { 1 ≤ length bytes.now }
    requires most { length bytes.now ≤ 8 }
    ensures { result ≡ T.number_of (length bytes.now) bytes.now }
{
    match bytes.len() {
        2 => u64::from(T::read_u16(bytes)),
        4 => u64::from(T::read_u32(bytes)),
        8 => T::read_u64(bytes),
        len => T::read_uint(bytes, len),
    }
}

/// The number that one to eight bytes spell.
#[inline(always)]
pub fn number_of(order: Order, bytes: &[u8]) -> u64
    requires some { 1 ≤ length bytes.now }
    requires most { length bytes.now ≤ 8 }
    ensures { result ≡ fixed order bytes.now }
{
    match order {
        Order::Little => number_in::<LittleEndian>(bytes),
        Order::Big => number_in::<BigEndian>(bytes),
    }
}

/// Puts the lowest bytes of a number there, the lowest first. Of the common sizes it is one store.
#[inline(always)]
fn put_low_bytes(number: u64, place: &mut [u8])
    requires { length place.old ≤ 8 }
    ensures { place.new ≡ little_bytes (length place.old) number }
{
    let bytes = number.to_le_bytes();
    match place.len() {
        2 => place.copy_from_slice(&bytes[..2]),
        4 => place.copy_from_slice(&bytes[..4]),
        8 => place.copy_from_slice(&bytes),
        len => place.copy_from_slice(&bytes[..len]),
    }
}

/// Puts the lowest bytes of a number there, as many as there is room for.
#[inline(always)]
pub fn put_number(order: Order, number: u64, place: &mut [u8])
    requires { length place.old ≤ 8 }
    ensures { place.new ≡ fixed_bytes order (length place.old) number }
{
    put_low_bytes(number, place);
    if order == Order::Big {
        place.reverse();
    }
}
