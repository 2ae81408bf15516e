//! Entries of compact relocations, which are written as differences (SHT_CREL).
ghost use Rattle.std.specs.Prelude.{◌≡◌, ◌≤◌, ◌/◌, ◌%◌, ◌^◌, ◌⊎◌, ℕ, Some, None, Option, option_map, MatchOption};
ghost use Rattle.std.specs.Prelude.{if◌then◌else◌};
ghost use Rattle.dl_num.specs.LebFront.{after_leb};
ghost use Rattle.dl_reloc.specs.Compact.{addend_of, after_difference, before_all, first_number, flag_values, header_of};
ghost use Rattle.dl_reloc.specs.Compact.{next_entry, offset_after, unsigned_front};

use crate::entry::{Relocation, extended};
use crate::target::Class;
use dl_num::{LebRange, Sleb, Uleb};

/// What a section of compact relocations says before its first entry.
#[derive(Clone, Copy)]
pub struct CompactHeader {
    /// How many entries follow.
    pub count: u64,
    /// Whether these have addends; else what is added stands at the places.
    pub has_addends: bool,
    /// By how many bits offsets are shifted.
    pub shift: u64,
}

/// The unsigned number that bytes begin with, and the bytes after it.
fn unsigned_front(bytes: &[u8]) -> Option<(u64, &[u8])>
    ensures { MatchOption result (◌≡◌ {A = Option ℕ} (unsigned_front (2 ^ 64) bytes.entry.now) None)
        (λ found. (unsigned_front (2 ^ 64) bytes.entry.now ≡ Some found.0)
        × (found.1.now ≡ after_leb bytes.entry.now)) }
{
    match Uleb::new().take_from(bytes)? {
        (Ok(number), rest) => Some((number, rest)),
        (Err(LebRange), _) => None,
    }
}

/// The sum of the number of the entry before and the difference that bytes begin with where the flag is set, and the
/// bytes after it.
fn after_difference(flag: bool, before: u64, bytes: &[u8]) -> Option<(u64, &[u8])>
    ensures { option_map (λ found. record { number = found.0; rest = found.1.now }) result
        ≡ after_difference flag before bytes.entry.now }
{
    if !flag {
        return Some((before, bytes));
    }
    match Sleb::new().take_from(bytes)? {
        (Ok(difference), rest) => Some((before.wrapping_add_signed(difference), rest)),
        (Err(LebRange), _) => None,
    }
}

/// The flags that an entry begins with, which have this many values, and the difference of its offset, not shifted and
/// modulo 2^64; then the bytes after them. Both are in one number, which may be larger than 2^64.
fn first_number(values: u64, bytes: &[u8]) -> Option<(u64, u64, &[u8])>
    requires { (values ≡ 4) ⊎ (values ≡ 8) }
    ensures { MatchOption result (◌≡◌ {A = Option ℕ} (first_number bytes.entry.now) None)
        (λ found. (n : ℕ) × (first_number bytes.entry.now ≡ Some n) × (found.0 ≡ n % values)
        × (found.1 ≡ n / values % 2 ^ 64) × (found.2.now ≡ after_leb bytes.entry.now)) }
{
    let [first, rest @ ..] = bytes else {
        return None;
    };
    let flags = u64::from(*first) % values;
    let low = u64::from(*first % 128) / values;
    if *first < 128 {
        return Some((flags, low, rest));
    }
    let (high, rest) = unsigned_front(rest)?;
    let difference = low.wrapping_add(high.wrapping_mul(128 / values));
    Some((flags, difference, rest))
}

impl CompactHeader {
    /// The header that a section begins with, and the bytes after it; None where they end inside it, or it doesn't fit
    /// 64 bits.
    pub fn read(section: &[u8]) -> Option<(CompactHeader, &[u8])>
        ensures { MatchOption result (◌≡◌ {A = Option ℕ} (unsigned_front (2 ^ 64) section.entry.now) None)
            (λ found. (n : ℕ) × (unsigned_front (2 ^ 64) section.entry.now ≡ Some n) × (found.0 ≡ header_of n)
            × (found.1.now ≡ after_leb section.entry.now)) }
    {
        let (number, rest) = unsigned_front(section)?;
        let header = CompactHeader {
            count: number / 8,
            has_addends: number / 4 % 2 == 1,
            shift: number % 4,
        };
        Some((header, rest))
    }

    /// What stands before the first entry.
    pub fn before_all(&self) -> Relocation
        ensures { result ≡ before_all self.now }
    {
        Relocation {
            offset: 0,
            symbol: 0,
            number: 0,
            addend: if self.has_addends { Some(0) } else { None },
        }
    }

    /// How many values the flags of an entry have.
    fn flag_values(&self) -> u64
        ensures values { result ≡ flag_values self.now }
        ensures cases { (result ≡ 4) ⊎ (result ≡ 8) }
    {
        if self.has_addends { 8 } else { 4 }
    }

    /// The place of an entry, from the one before it and the difference.
    fn offset_after(&self, class: Class, before: &Relocation, difference: u64) -> u64
        requires { self.now.shift ≤ 3 }
        ensures { (n : ℕ) → difference ≡ n % 2 ^ 64
            → result ≡ offset_after class self.now before.now n }
    {
        let offset = before
            .offset
            .wrapping_add(difference.wrapping_mul(1 << self.shift));
        match class {
            Class::Bits32 => offset % (1 << 32),
            Class::Bits64 => offset,
        }
    }

    /// The entry that bytes begin with, after this one, and the bytes after it; None where they end before it does, or
    /// a number of it doesn't fit.
    pub fn next_entry<'a>(
        &self,
        class: Class,
        before: &Relocation,
        bytes: &'a [u8],
    ) -> Option<(Relocation, &'a [u8])>
        requires { self.now.shift ≤ 3 }
        ensures { option_map (λ found. record { entry = found.0; rest = found.1.now }) result
            ≡ next_entry class self.now before.now bytes.entry.now }
    {
        let (flags, difference, rest) = first_number(self.flag_values(), bytes)?;
        let (symbol, rest) = after_difference(flags % 2 == 1, before.symbol, rest)?;
        let (number, rest) = after_difference(flags / 2 % 2 == 1, before.number, rest)?;
        let last = before.addend.unwrap_or(0);
        let (addend, rest) = after_difference(flags / 4 == 1, last, rest)?;
        let entry = Relocation {
            offset: self.offset_after(class, before, difference),
            symbol: symbol % (1 << 32),
            number: number % (1 << 32),
            addend: self.addend_of(class, addend),
        };
        Some((entry, rest))
    }

    /// The addend of an entry, from the number that its differences come to.
    fn addend_of(&self, class: Class, number: u64) -> Option<u64>
        ensures { result ≡ (if self.now.has_addends then Some (addend_of class number) else None) }
    {
        let addend = match class {
            Class::Bits32 => extended(number % (1 << 32)),
            Class::Bits64 => number,
        };
        self.has_addends.then_some(addend)
    }
}
