//! Ranges of addresses of code, and whether an address lies in one of them.
ghost use Rattle.std.specs.Prelude.{◌≡◌, Bool, ℕ, ◌<◌, ◌≤◌, IfOk, OnErr, length};
ghost use Rattle.dl_memory.specs.Refusals.{IsRefused};
ghost use Rattle.std.specs.List.{list_any};
ghost use Rattle.dl_look.specs.declared.code_ranges.AddressRange as range;
ghost use Rattle.dl_look.specs.Ranges.{AreReaches, AreRising, StartsRise, reach_start};

use dl_memory::{Memory, NoMemory};

/// Addresses that stand in a row: `size` of them, from `start` on.
///
/// The sum of both may pass 2^64; it doesn't wrap around.
#[derive(Debug, Clone, Copy, PartialEq, Eq, PartialOrd, Ord)]
pub struct AddressRange {
    pub start: u64,
    pub size: u64,
}

/// A range, in the order of their starts, with how far it and the ranges before it reach.
#[derive(Clone, Copy)]
struct Reach {
    start: u64,
    /// After the last address. At most 2^65.
    end: u128,
}

/// Ranges of addresses of code.
#[derive(Drop)]
pub struct CodeRanges {
    reaches: Vec<Reach>,
    ghost rising: { AreRising reaches.items },
}

impl CodeRanges {
    ghost use Rattle.std.specs.Prelude.{◌≡◌, ℕ, IfOk, OnErr, length};
    ghost use Rattle.dl_memory.specs.Refusals.{IsRefused};
    ghost use Rattle.std.specs.List.{list_any};
    ghost use Rattle.dl_look.specs.CodeRanges.{has_code};
    ghost use Rattle.dl_look.specs.Ranges.{is_in};

    /// The ranges, in any order; they may overlap. It takes 48 bytes for each.
    pub fn build<M: Memory>(memory: &M, ranges: &[AddressRange]) -> Result<CodeRanges, NoMemory>
        ensures built { IfOk result (λ code. (a : ℕ) → has_code code a ≡ list_any (is_in a) ranges.now) }
        ensures refused { OnErr result (IsRefused (M.refuses memory.now) (length ranges.now)) }
    {
        let sorted = sorted(memory, ranges)?;
        let reaches = reaches_of(memory, sorted.as_slice())?;
        Ok(CodeRanges { reaches })
    }

    /// Whether one of the ranges has the address. It takes time in proportion to the logarithm of their number.
    pub fn has(&self, address: u64) -> bool
        ensures { result ≡ has_code self.now address }
    {
        let count = starts_upto(self.reaches.as_slice(), address);
        count > 0 && u128::from(address) < self.reaches[count - 1].end
    }
}

/// The ranges in the order of their starts.
fn sorted<M: Memory>(memory: &M, ranges: &[AddressRange]) -> Result<Vec<AddressRange>, NoMemory>
    ensures rise { IfOk result (λ sorted. StartsRise sorted.items) }
    ensures same { IfOk result (λ sorted. (p : range.AddressRange → Bool)
        → list_any p sorted.items ≡ list_any p ranges.now) }
    ensures len { IfOk result (λ sorted. length sorted.items ≡ length ranges.now) }
    ensures refused { OnErr result (IsRefused (M.refuses memory.now) (length ranges.now)) }
{
    let mut sorted = memory.with_capacity(ranges.len())?;
    memory.extend_from_slice(&mut sorted, ranges)?;
    sorted.sort_unstable();
    Ok(sorted)
}

/// How far ranges reach that stand in the order of their starts.
fn reaches_of<M: Memory>(memory: &M, ranges: &[AddressRange]) -> Result<Vec<Reach>, NoMemory>
    requires { StartsRise ranges.now }
    ensures reaches { IfOk result (λ reaches. AreReaches ranges.now reaches.items) }
    ensures refused { OnErr result (IsRefused (M.refuses memory.now) (length ranges.now)) }
{
    let mut reaches = memory.with_capacity(ranges.len())?;
    let mut end = 0;
    for range in ranges {
        end = (u128::from(range.start) + u128::from(range.size)).max(end);
        reaches.push_reserved(Reach {
            start: range.start,
            end,
        });
    }
    Ok(reaches)
}

/// How many begin at the address or before it.
fn starts_upto(reaches: &[Reach], address: u64) -> usize
    requires { AreRising reaches.now }
    ensures within { result ≤ length reaches.now }
    ensures upto { (k : ℕ) → k < result → reach_start reaches.now k ≤ address }
    ensures above { (k : ℕ) → result ≤ k → k < length reaches.now → address < reach_start reaches.now k }
{
    reaches.partition_point(|reach| reach.start <= address)
}
