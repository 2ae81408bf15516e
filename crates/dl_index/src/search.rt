//! The search for the last start that isn't above a number.

/// Starts that are seen by counted calls alone.
pub trait Starts {
    ghost use Rattle.std.specs.Prelude.{◌≡◌, ℕ, ◌+◌, ◌<◌, ◌^◌};

    ghost start: { Self → ℕ → ℕ };

    ghost count: { Self → ℕ };

    ghost probes: { Self → ℕ };

    /// How many there are.
    fn len(&self) -> usize
        ensures { result ≡ count self.now };

    /// One probe: start `k`.
    fn at(&mut self, k: usize) -> u64
        requires in_range { k < count self.old }
        requires countable { probes self.old < 2 ^ 127 }
        ensures value { result ≡ start self.old k }
        ensures same { start self.new ≡ start self.old }
        ensures count { count self.new ≡ count self.old }
        ensures counted { probes self.new ≡ probes self.old + 1 };
}

ghost use Rattle.std.specs.Prelude.{◌≡◌, ℕ, ◌+◌, ◌*◌, ◌-◌, ◌<◌, ◌≤◌, ◌^◌, if◌then◌else◌, nat_le};
ghost use Rattle.dl_index.specs.LookUp.{Rise, IsLastUpto};
ghost use Rattle.dl_index.specs.FindFour.{FindFour};

use crate::four::Four;

/// The number where a start is above `x`, else 0. The borrow of their difference tells it: of a comparison the compiler
/// makes a branch, which the processor foretells wrongly every other time.
#[inline(always)]
fn where_above(start: u64, x: u64, number: usize) -> usize
    ensures { result ≡ (if nat_le start x then 0 else number) }
{
    number & borrow(start, x)
}

/// All 64 bits where a start is above `x`, else none.
#[inline(always)]
fn borrow(start: u64, x: u64) -> usize
    ensures { result ≡ (if nat_le start x then 0 else 2 ^ 64 - 1) }
{
    (u128::from(x).wrapping_sub(u128::from(start)) >> 64) as usize
}

/// The last start that isn't above `x`, by no more probes than there are binary digits of their number.
#[inline(always)]
pub fn last_upto<T: Starts>(starts: &mut T, x: u64) -> usize
    requires some { 0 < T.count starts.old }
    requires countable { T.probes starts.old ≡ 0 }
    ensures within { result < T.count starts.old }
    ensures last { Rise (T.start starts.old) (T.count starts.old) → T.start starts.old 0 ≤ x
        → IsLastUpto (T.start starts.old) (T.count starts.old) x result }
    ensures few { (digits : ℕ) → T.count starts.old ≤ 2 ^ digits → T.probes starts.new ≤ digits }
    ensures same { T.start starts.new ≡ T.start starts.old }
    ensures count { T.count starts.new ≡ T.count starts.old }
{
    let mut low = 0;
    let mut left = starts.len();
    while left > 1 {
        let half = left / 2;
        low += half;
        low -= where_above(starts.at(low), x, half);
        left -= half;
    }
    low
}

/// The same as [`last_upto`] for four numbers, side by side: none of them waits for what another one looks at.
#[inline(always)]
pub fn last_upto_four<T: Starts>(starts: &mut T, x: Four<u64>) -> Four<usize>
    requires some { 0 < T.count starts.old }
    requires countable { T.probes starts.old ≡ 0 }
    ensures last { FindFour (T.start starts.old) (T.count starts.old) x result }
    ensures few { (digits : ℕ) → T.count starts.old ≤ 2 ^ digits → T.probes starts.new ≤ 4 * digits }
    ensures same { T.start starts.new ≡ T.start starts.old }
    ensures count { T.count starts.new ≡ T.count starts.old }
{
    let mut first = 0;
    let mut second = 0;
    let mut third = 0;
    let mut fourth = 0;
    let mut left = starts.len();
    while left > 1 {
        let half = left / 2;
        first += half;
        first -= where_above(starts.at(first), x.first, half);
        second += half;
        second -= where_above(starts.at(second), x.second, half);
        third += half;
        third -= where_above(starts.at(third), x.third, half);
        fourth += half;
        fourth -= where_above(starts.at(fourth), x.fourth, half);
        left -= half;
    }
    Four {
        first,
        second,
        third,
        fourth,
    }
}
