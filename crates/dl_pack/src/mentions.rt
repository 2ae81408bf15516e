//! Numbers that are given in the order of first mention.

ghost use Rattle.std.specs.Prelude.{◌≡◌, ℕ, ◌+◌, ◌<◌, ◌≤◌, ◌^◌, length, slice_index, vec_capacity};
ghost use Rattle.std.specs.List.{All};
ghost use Rattle.dl_pack.specs.Numbering.{number_in};
ghost use Rattle.dl_pack.specs.Unnumbered.{unnumbered_count};

use crate::fault::TooMany;
use dl_memory::{Memory, NoMemory};

/// Items by their numbers, which are given from 1 in the order in which items are first mentioned.
#[derive(Drop)]
pub struct Mentions {
    numbers: Vec<u32>,
    order: Vec<usize>,
    ghost few: { length order.items < 2 ^ 32 },
    ghost within: { All (λ item. item < length numbers.items) order.items },
    ghost right: { (item : ℕ) → item < length numbers.items
        → slice_index numbers.items item ≡ number_in order.items item },
    ghost counted: { length order.items + unnumbered_count numbers.items ≡ length numbers.items },
    ghost room: { length numbers.items ≤ vec_capacity order },
}

impl Mentions {
    ghost use Rattle.std.specs.Prelude.{◌≡◌, ◌<◌, ◌≤◌, ◌^◌, [], length, IfOk, OnErr};
    ghost use Rattle.std.specs.List.{All};
    ghost use Rattle.dl_pack.specs.Faults.{AreTooMany};
    ghost use Rattle.dl_pack.specs.Numbering.{number_in, with_mention};
    ghost use Rattle.dl_pack.specs.Mentioned.{order_of, count_of};

    /// None of `count` items is mentioned. No mention takes memory later.
    pub fn new<M: Memory>(memory: &M, count: usize) -> Result<Mentions, NoMemory>
        ensures made { IfOk result (λ m. (order_of m ≡ []) × (count_of m ≡ count)) }
        ensures refused { OnErr result (M.refuses memory.now count) }
    {
        let mut numbers = memory.with_capacity(count)?;
        let order = memory.with_capacity(count)?;
        match numbers.resize(count, 0) {
            Ok(()) => Ok(Mentions { numbers, order }),
            Err(_) => unreachable!(),
        }
    }

    /// How many items there are, mentioned or not.
    pub fn count(&self) -> usize
        ensures { result ≡ count_of self.now }
    {
        self.numbers.len()
    }

    /// Mentions an item. It is refused where there would be 2^32 numbers.
    pub fn mention(&mut self, item: usize) -> Result<(), TooMany>
        requires { item < count_of self.old }
        ensures order { IfOk result (λ _. order_of self.new ≡ with_mention (order_of self.old) item) }
        ensures many { OnErr result (AreTooMany (with_mention (order_of self.old) item)) }
        ensures count { count_of self.new ≡ count_of self.old }
    {
        if self.numbers[item] != 0 {
            return Ok(());
        }
        let number = self.order.len() + 1;
        if number > 0xffff_ffff {
            return Err(TooMany);
        }
        self.order.push_reserved(item);
        self.numbers[item] = number as u32;
        Ok(())
    }

    /// The number of an item; 0 where it wasn't mentioned.
    pub fn number(&self, item: u64) -> u32
        ensures { result ≡ number_in (order_of self.now) item }
    {
        if item < self.numbers.len() as u64 {
            self.numbers[item as usize]
        } else {
            0
        }
    }

    /// The items that were mentioned, in the order of their numbers.
    pub fn order(&self) -> &[usize]
        ensures order { result.now ≡ order_of self.now }
        ensures few { length result.now < 2 ^ 32 }
        ensures within { All (λ item. item < count_of self.now) result.now }
    {
        self.order.as_slice()
    }
}
