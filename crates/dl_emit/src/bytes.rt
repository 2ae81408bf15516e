//! Operations, written as bytes into a buffer from a place on. Sections 6.2.5.1 to 6.2.5.3.

ghost use Rattle.std.specs.Prelude.{◌≡◌, ◌+◌, ◌≤◌, ◌<◌, [], ◌∷◌, ◌++◌, length, take, IfSome};
ghost use Rattle.dl_num.specs.Shortest.{shortest_uleb, shortest_sleb};
ghost use Rattle.dl_num.specs.Magnitude.{byte_of, signed_value};
ghost use Rattle.dl_emit.specs.OperationBytes.{extended, operation_bytes};
ghost use Rattle.dl_emit.specs.Room.{room};

use dl_num::{Order, fixed_bytes, sleb_bytes, uleb_bytes};
use dl_rows::Operation;

/// How many bytes of a program are gathered at most.
pub const BUFFER_LEN: usize = 4096;

/// Puts an operation, whose address has `address_size` bytes, and answers where it ends.
#[inline(always)]
pub fn put_operation(
    buffer: &mut [u8],
    at: usize,
    order: Order,
    address_size: u8,
    operation: Operation,
) -> usize
    requires size { address_size ≤ 8 }
    requires room { at + room operation ≤ length buffer.old }
    ensures put { take result buffer.new ≡ take at buffer.old ++ operation_bytes order address_size operation }
    ensures end { result ≤ at + room operation }
{
    match operation {
        Operation::Special(opcode) => put_byte(buffer, at, opcode),
        Operation::Copy => put_byte(buffer, at, 1),
        Operation::AdvancePc(by) => put_unsigned(buffer, at, 2, by),
        Operation::AdvanceLine(by) => put_signed(buffer, at, 3, by),
        Operation::SetFile(file) => put_unsigned(buffer, at, 4, file),
        Operation::SetColumn(column) => put_unsigned(buffer, at, 5, column),
        Operation::NegateStatement => put_byte(buffer, at, 6),
        Operation::SetBasicBlock => put_byte(buffer, at, 7),
        Operation::SetPrologueEnd => put_byte(buffer, at, 10),
        Operation::SetEpilogueBegin => put_byte(buffer, at, 11),
        Operation::SetIsa(isa) => put_unsigned(buffer, at, 12, isa),
        Operation::EndSequence => put_extended(buffer, at, 1, &[]),
        Operation::SetAddress(address) => put_address(buffer, at, order, address_size, address),
        Operation::SetDiscriminator(discriminator) => put_discriminator(buffer, at, discriminator),
        Operation::ConstAddPc | Operation::FixedAdvancePc(_) | Operation::Skipped => at,
    }
}

/// Puts a byte, and answers where it ends.
#[inline(always)]
fn put_byte(buffer: &mut [u8], at: usize, byte: u8) -> usize
    requires { at < length buffer.old }
    ensures put { take result buffer.new ≡ take at buffer.old ++ byte ∷ [] }
    ensures end { result ≡ at + 1 }
{
    buffer[at] = byte;
    at + 1
}

/// Puts a slice, and answers where it ends.
fn put_slice(buffer: &mut [u8], at: usize, slice: &[u8]) -> usize
    requires { at + length slice.now ≤ length buffer.old }
    ensures put { take result buffer.new ≡ take at buffer.old ++ slice.now }
    ensures end { result ≡ at + length slice.now }
{
    let end = at + slice.len();
    buffer[at..end].copy_from_slice(slice);
    end
}

/// Puts a standard opcode with an unsigned operand. Section 6.2.5.2.
#[inline(always)]
fn put_unsigned(buffer: &mut [u8], at: usize, opcode: u8, operand: u64) -> usize
    requires { at + 11 ≤ length buffer.old }
    ensures put { take result buffer.new ≡ take at buffer.old ++ opcode ∷ shortest_uleb operand }
    ensures end { result ≤ at + 11 }
{
    let at = put_byte(buffer, at, opcode);
    if operand < 128 {
        put_byte(buffer, at, operand as u8)
    } else {
        put_uleb(buffer, at, operand)
    }
}

/// Puts an unsigned number. Section 7.6.
#[inline(never)]
fn put_uleb(buffer: &mut [u8], at: usize, number: u64) -> usize
    requires { at + 10 ≤ length buffer.old }
    ensures put { take result buffer.new ≡ take at buffer.old ++ shortest_uleb number }
    ensures end { result ≤ at + 10 }
{
    put_slice(buffer, at, uleb_bytes(number).as_slice())
}

/// Puts a standard opcode with a signed operand. Section 6.2.5.2.
#[inline(always)]
fn put_signed(buffer: &mut [u8], at: usize, opcode: u8, operand: i64) -> usize
    requires { at + 11 ≤ length buffer.old }
    ensures put { take result buffer.new ≡ take at buffer.old ++ opcode ∷ shortest_sleb operand }
    ensures end { result ≤ at + 11 }
{
    let at = put_byte(buffer, at, opcode);
    if let Some(byte) = signed_byte(operand) {
        return put_byte(buffer, at, byte);
    }
    match signed_pair(operand) {
        Some((first, last)) => {
            let at = put_byte(buffer, at, first);
            put_byte(buffer, at, last)
        }
        None => put_sleb(buffer, at, operand),
    }
}

/// The byte that spells a signed number, where one does. Section 7.6.
#[inline(always)]
fn signed_byte(number: i64) -> Option<u8>
    ensures { IfSome result (λ byte. shortest_sleb number ≡ byte ∷ []) }
{
    if number < 0 {
        group_byte((-1 - number) as u64, true)
    } else {
        group_byte(number as u64, false)
    }
}

/// The two bytes that spell a signed number, where two do.
#[inline(always)]
fn signed_pair(number: i64) -> Option<(u8, u8)>
    ensures { IfSome result (λ pair. shortest_sleb number ≡ pair.0 ∷ pair.1 ∷ []) }
{
    if number < 0 {
        group_pair((-1 - number) as u64, true)
    } else {
        group_pair(number as u64, false)
    }
}

/// The byte of a number's only group, where it has one.
#[inline(always)]
fn group_byte(magnitude: u64, negative: bool) -> Option<u8>
    ensures { IfSome result (λ byte. shortest_sleb (signed_value negative magnitude) ≡ byte ∷ []) }
{
    if magnitude >= 64 {
        return None;
    }
    Some(turned(magnitude as u8, negative))
}

/// The bytes of a number's two groups, where it has two.
#[inline(always)]
fn group_pair(magnitude: u64, negative: bool) -> Option<(u8, u8)>
    ensures { IfSome result (λ pair. shortest_sleb (signed_value negative magnitude) ≡ pair.0 ∷ pair.1 ∷ []) }
{
    if magnitude < 64 || magnitude >= 64 * 128 {
        return None;
    }
    let first = 128 + turned((magnitude % 128) as u8, negative);
    let last = turned((magnitude / 128) as u8, negative);
    Some((first, last))
}

/// A group, or its complement.
#[inline(always)]
fn turned(group: u8, negative: bool) -> u8
    requires { group < 128 }
    ensures value { result ≡ byte_of negative group }
    ensures small { result < 128 }
{
    if negative { 127 - group } else { group }
}

/// Puts a signed number. Section 7.6.
#[inline(never)]
fn put_sleb(buffer: &mut [u8], at: usize, number: i64) -> usize
    requires { at + 10 ≤ length buffer.old }
    ensures put { take result buffer.new ≡ take at buffer.old ++ shortest_sleb number }
    ensures end { result ≤ at + 10 }
{
    put_slice(buffer, at, sleb_bytes(number).as_slice())
}

/// Puts DW_LNE_set_address. Section 6.2.5.3.
#[inline(never)]
fn put_address(buffer: &mut [u8], at: usize, order: Order, address_size: u8, address: u64) -> usize
    requires size { address_size ≤ 8 }
    requires room { at + 11 ≤ length buffer.old }
    ensures put { take result buffer.new
        ≡ take at buffer.old ++ operation_bytes order address_size (Operation.SetAddress address) }
    ensures end { result ≤ at + 11 }
{
    let operand = fixed_bytes(order, usize::from(address_size), address);
    put_extended(buffer, at, 2, operand.as_slice())
}

/// Puts DW_LNE_set_discriminator. Section 6.2.5.3.
#[inline(never)]
fn put_discriminator(buffer: &mut [u8], at: usize, discriminator: u64) -> usize
    requires room { at + 13 ≤ length buffer.old }
    ensures put { take result buffer.new
        ≡ take at buffer.old ++ extended (4 ∷ shortest_uleb discriminator) }
    ensures end { result ≤ at + 13 }
{
    put_extended(buffer, at, 4, uleb_bytes(discriminator).as_slice())
}

/// Puts an extended opcode with its operand. Section 6.2.5.3.
fn put_extended(buffer: &mut [u8], at: usize, opcode: u8, operand: &[u8]) -> usize
    requires short { length operand.now < 127 }
    requires room { at + length operand.now + 3 ≤ length buffer.old }
    ensures put { take result buffer.new ≡ take at buffer.old ++ extended (opcode ∷ operand.now) }
    ensures end { result ≡ at + length operand.now + 3 }
{
    let at = put_byte(buffer, at, 0);
    let at = put_byte(buffer, at, 1 + operand.len() as u8);
    let at = put_byte(buffer, at, opcode);
    put_slice(buffer, at, operand)
}
