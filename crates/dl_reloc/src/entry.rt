//! Entries of relocations. System V ABI, chapter 4, "Relocation".
ghost use Rattle.std.specs.Prelude.{◌≡◌, ◌≤◌, length};
ghost use Rattle.dl_reloc.specs.Entries.{addend_in, entry_in, entry_size, extended, offset_in, symbol_in, type_in};

use crate::machine::EM_MIPS;
use crate::table::number_at;
use crate::target::{AddendPlace, Class, Target};
use dl_num::Order;

/// An entry of a relocation section. The names that the ABI gives the fields stand in parentheses.
#[derive(Clone, Copy)]
pub struct Relocation {
    /// The place that it changes, in bytes from the section's first (r_offset).
    pub offset: u64,
    /// The number of its symbol (r_info).
    pub symbol: u64,
    /// The number of its type, which says what it does (r_info); of 64-bit MIPS that of its three types.
    pub number: u64,
    /// What is added to the symbol's value, modulo 2^64 (r_addend); None where that stands at the place.
    pub addend: Option<u64>,
}

/// How many bytes an entry has.
pub fn entry_size(class: Class, form: AddendPlace) -> usize
    ensures size { result ≡ entry_size class form }
    ensures some { 1 ≤ result }
{
    match (class, form) {
        (Class::Bits32, AddendPlace::Rel) => 8,
        (Class::Bits32, AddendPlace::Rela) => 12,
        (Class::Bits64, AddendPlace::Rel) => 16,
        (Class::Bits64, AddendPlace::Rela) => 24,
    }
}

/// A signed number of 32 bits, modulo 2^64.
pub fn extended(number: u64) -> u64
    ensures { result ≡ extended number }
{
    if number < 0x8000_0000 {
        number
    } else {
        number.wrapping_add(0xffff_ffff_0000_0000)
    }
}

/// The addend of an entry.
fn addend_in(class: Class, form: AddendPlace, order: Order, bytes: &[u8]) -> Option<u64>
    requires { entry_size class form ≤ length bytes.now }
    ensures { result ≡ addend_in class form order bytes.now }
{
    match (class, form) {
        (_, AddendPlace::Rel) => None,
        (Class::Bits32, AddendPlace::Rela) => Some(extended(number_at(order, 8, 4, bytes))),
        (Class::Bits64, AddendPlace::Rela) => Some(number_at(order, 16, 8, bytes)),
    }
}

/// The place that an entry changes (r_offset).
#[inline(always)]
fn offset_in(class: Class, order: Order, bytes: &[u8]) -> u64
    requires { 8 ≤ length bytes.now }
    ensures { result ≡ offset_in class order bytes.now }
{
    match class {
        Class::Bits32 => number_at(order, 0, 4, bytes),
        Class::Bits64 => number_at(order, 0, 8, bytes),
    }
}

/// The number of its symbol and that of its type (r_info).
#[inline(always)]
fn info_in(target: &Target, bytes: &[u8]) -> (u64, u64)
    requires { entry_size target.now.class AddendPlace.Rel ≤ length bytes.now }
    ensures symbol { result.0 ≡ symbol_in target.now.class target.now.machine target.now.order bytes.now }
    ensures type_number { result.1 ≡ type_in target.now.class target.now.machine target.now.order bytes.now }
{
    let order = target.order;
    match target.class {
        Class::Bits32 => {
            let info = number_at(order, 4, 4, bytes);
            (info / (1 << 8), info % (1 << 8))
        }
        Class::Bits64 => {
            if target.machine == EM_MIPS {
                let types = number_at(Order::Big, 12, 4, bytes) % (1 << 24);
                return (number_at(order, 8, 4, bytes), types);
            }
            let info = number_at(order, 8, 8, bytes);
            (info / (1 << 32), info % (1 << 32))
        }
    }
}

impl Relocation {
    /// The entry in these bytes.
    pub fn read(target: &Target, form: AddendPlace, bytes: &[u8]) -> Relocation
        requires { entry_size target.now.class form ≤ length bytes.now }
        ensures { result ≡ entry_in target.now form bytes.now }
    {
        let (symbol, number) = info_in(target, bytes);
        Relocation {
            offset: offset_in(target.class, target.order, bytes),
            symbol,
            number,
            addend: addend_in(target.class, form, target.order, bytes),
        }
    }
}
