//! Relocations applied in order.
ghost use Rattle.std.specs.Prelude.{◌≡◌, ◌≢◌, ◌+◌, ◌≤◌, ◌<◌, ◌++◌, ℕ, List, length, MatchOption, MatchResult, Ok, Err, Some};
ghost use Rattle.dl_reloc.specs.Changes.{change_size};
ghost use Rattle.dl_reloc.specs.LowTypes.{AreLow, IsLong};
ghost use Rattle.dl_reloc.specs.Relocated.{applied, by_change, place_changed, relocated, AreWhole};
ghost use Rattle.dl_reloc.specs.Compact.{relocated_compact};

use crate::change::{Change, Width};
use crate::compact::CompactHeader;
use crate::entry::{Relocation, entry_size};
use crate::machine::{LOW, change_in, low_types};
use crate::number::{number_of, put_number};
use crate::symbol::symbol_value;
use crate::table::{count, item};
use crate::target::{AddendPlace, Class, Target};
use dl_num::Order;

/// Why relocations can't be applied.
#[derive(Clone, Copy, Debug, PartialEq, Eq)]
pub enum RelocationFault {
    /// A type of this number isn't known of the machine, or the machine isn't known.
    UnknownType(u64),
    /// The bytes that one changes don't lie in the section.
    PlaceOutside,
    /// The symbol table doesn't have a symbol that one names.
    SymbolOutside,
    /// The bytes of compact relocations end inside the header or an entry, or have a number there that doesn't fit its
    /// 64 bits.
    Damaged,
}

/// Changes the bytes at a place by a symbol of this value. Where there is no addend, it is what stands there.
#[inline(always)]
fn change_place(order: Order, change: Change, value: u64, addend: Option<u64>, place: &mut [u8])
    requires some { 1 ≤ change_size change }
    requires size { length place.old ≡ change_size change }
    ensures { place.new ≡ place_changed order change value addend place.old }
{
    let old = number_of(order, place);
    let sum = value.wrapping_add(addend.unwrap_or(old));
    put_number(order, change.result(old, sum), place);
}

/// Where the place begins that has this many bytes; None where it doesn't lie in the section.
fn place_within(offset: u64, size: usize, len: usize) -> Option<usize>
    requires { size ≤ 8 }
    ensures { MatchOption result (len < offset + size) (λ at. (at ≡ offset) × (offset + size ≤ len)) }
{
    let len = len as u64;
    if len < offset || len - offset < size as u64 {
        return None;
    }
    Some(offset as usize)
}

/// Applies an entry whose type does this.
#[inline(always)]
fn apply_change(
    target: &Target,
    change: Change,
    symbols: &[u64],
    entry: &Relocation,
    bytes: &mut [u8],
) -> Result<(), RelocationFault>
    ensures { MatchResult result
        (λ _. by_change target.now symbols.now entry.now bytes.old (Some change) ≡ Ok bytes.new)
        (λ fault. by_change target.now symbols.now entry.now bytes.old (Some change) ≡ Err fault) }
{
    let size = change.size();
    if size == 0 {
        return Ok(());
    }
    let Some(at) = place_within(entry.offset, size, bytes.len()) else {
        return Err(RelocationFault::PlaceOutside);
    };
    let Some(value) = symbol_value(symbols, entry.symbol) else {
        return Err(RelocationFault::SymbolOutside);
    };
    change_place(
        target.order,
        change,
        value,
        entry.addend,
        &mut bytes[at..at + size],
    );
    Ok(())
}

/// Applies one entry. What most entries do is a constant in its call, so how many bytes it changes is compiled in.
/// `long` is a type that sets 64 bits, where one came: as most entries have it, it is looked for first.
#[inline(always)]
fn apply(
    target: &Target,
    low: &[Option<Change>; LOW],
    long: &mut Option<u64>,
    symbols: &[u64],
    entry: &Relocation,
    bytes: &mut [u8],
) -> Result<(), RelocationFault>
    requires low { AreLow target.now low.now }
    requires long { IsLong target.now long.old }
    ensures made { MatchResult result
        (λ _. applied target.now symbols.now entry.now bytes.old ≡ Ok bytes.new)
        (λ fault. applied target.now symbols.now entry.now bytes.old ≡ Err fault) }
    ensures long { IsLong target.now long.new }
{
    if *long == Some(entry.number) {
        return apply_change(target, Change::Set(Width::Bits64), symbols, entry, bytes);
    }
    let Some(change) = change_in(low, target, entry.number) else {
        return Err(RelocationFault::UnknownType(entry.number));
    };
    match change {
        Change::Set(Width::Bits64) => {
            *long = Some(entry.number);
            apply_change(target, Change::Set(Width::Bits64), symbols, entry, bytes)
        }
        Change::Set(Width::Bits32) => {
            apply_change(target, Change::Set(Width::Bits32), symbols, entry, bytes)
        }
        Change::Add(Width::Bits16) => {
            apply_change(target, Change::Add(Width::Bits16), symbols, entry, bytes)
        }
        Change::Subtract(Width::Bits16) => {
            apply_change(
                target,
                Change::Subtract(Width::Bits16),
                symbols,
                entry,
                bytes,
            )
        }
        _ => apply_change(target, change, symbols, entry, bytes),
    }
}

/// The same as [`relocate`]. It is compiled into its caller for each call, so where a call has a constant class, order
/// and form, they aren't looked at for each entry.
#[inline(always)]
fn relocate_entries(
    target: &Target,
    form: AddendPlace,
    entries: &[u8],
    symbols: &[u64],
    bytes: &mut [u8],
) -> Result<(), RelocationFault>
    ensures made { MatchResult result
        (λ _. relocated target.now form entries.now symbols.now bytes.old ≡ Ok bytes.new)
        (λ fault. relocated target.now form entries.now symbols.now bytes.old ≡ Err fault) }
    ensures follows { (before first : List ℕ) → AreWhole target.now form before
        → relocated target.now form before symbols.now first ≡ Ok bytes.old → MatchResult result
        (λ _. relocated target.now form (before ++ entries.now) symbols.now first ≡ Ok bytes.new)
        (λ fault. (rest : List ℕ)
        → relocated target.now form ((before ++ entries.now) ++ rest) symbols.now first ≡ Err fault) }
{
    let low = low_types(target);
    let mut long = None;
    let size = entry_size(target.class, form);
    for index in 0..count(entries, size) {
        let entry = item(entries, size, index);
        let entry = Relocation::read(target, form, entry);
        apply(target, &low, &mut long, symbols, &entry, bytes)?;
    }
    Ok(())
}

/// Applies the entries of a relocation section to the bytes of the section that they are for, in order.
///
/// `symbols` are the values of the symbol table that belongs to the entries ([`push_symbol_values`]). What is left of
/// `entries` after the last whole one belongs to none. Sums are taken modulo the width of the place. The
/// first entry that has a fault decides; of one entry the type comes first, then the place, then the symbol.
/// After a fault what stands in `bytes` isn't said. The work for an entry doesn't depend on the sizes.
///
/// Entries may be applied in parts, one call for each in order, where the parts before the last are whole
/// entries: then the bytes, or the first fault, are those of all entries in one call.
// Apart from its callers, so that the loop has the registers to itself.
#[inline(never)]
pub fn relocate(
    target: &Target,
    form: AddendPlace,
    entries: &[u8],
    symbols: &[u64],
    bytes: &mut [u8],
) -> Result<(), RelocationFault>
    ensures made { MatchResult result
        (λ _. relocated target.now form entries.now symbols.now bytes.old ≡ Ok bytes.new)
        (λ fault. relocated target.now form entries.now symbols.now bytes.old ≡ Err fault) }
    ensures follows { (before first : List ℕ) → AreWhole target.now form before
        → relocated target.now form before symbols.now first ≡ Ok bytes.old → MatchResult result
        (λ _. relocated target.now form (before ++ entries.now) symbols.now first ≡ Ok bytes.new)
        (λ fault. (rest : List ℕ)
        → relocated target.now form ((before ++ entries.now) ++ rest) symbols.now first ≡ Err fault) }
{
    match (target.class, target.order, form) {
        (Class::Bits64, Order::Little, AddendPlace::Rela) => {
            let target = Target {
                machine: target.machine,
                class: Class::Bits64,
                order: Order::Little,
            };
            relocate_entries(&target, AddendPlace::Rela, entries, symbols, bytes)
        }
        _ => relocate_entries(target, form, entries, symbols, bytes),
    }
}

/// Applies the entries of a section of compact relocations (SHT_CREL) to the bytes of the section that they are for, in
/// order.
///
/// Symbols, sums and faults are as of [`relocate`]. Where the section ends inside its header or an entry, or has a
/// number there that doesn't fit its 64 bits, the fault is `Damaged`, after the entries before it. What follows the last
/// entry belongs to none.
pub fn relocate_compact(
    target: &Target,
    section: &[u8],
    symbols: &[u64],
    bytes: &mut [u8],
) -> Result<(), RelocationFault>
    ensures { MatchResult result
        (λ _. relocated_compact target.now section.now symbols.now bytes.old ≡ Ok bytes.new)
        (λ fault. relocated_compact target.now section.now symbols.now bytes.old ≡ Err fault) }
{
    let Some((header, mut rest)) = CompactHeader::read(section) else {
        return Err(RelocationFault::Damaged);
    };
    let low = low_types(target);
    let mut long = None;
    let mut entry = header.before_all();
    for _ in 0..header.count {
        let Some((next, after)) = header.next_entry(target.class, &entry, rest) else {
            return Err(RelocationFault::Damaged);
        };
        apply(target, &low, &mut long, symbols, &next, bytes)?;
        entry = next;
        rest = after;
    }
    Ok(())
}
