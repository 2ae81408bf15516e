//! A writer that holds what is written, and tells at the end whether memory was refused for it.

ghost use Rattle.std.specs.Prelude.{ℕ};
ghost use Rattle.dl_held.specs.Holding.{AreHeld};

use crate::written::Written;
use dl_memory::{Memory, NoMemory};
use dl_output::Destination;
use std::io;
use std::io::Write;
use std::marker::{Brand, PhantomData};

/// Which memory a writer holds bytes in: of a `Held` that is lent to others a clause says only what was written, and its
/// type says what is refused. A call that makes one picks this, by passing `Brand`.
pub trait Refusing {
    ghost use Rattle.std.specs.Prelude.{ℕ};

    /// For how many items that memory refuses some.
    ghost refuses: { ℕ → Type 0 };
}

impl Refusing for Brand {
    ghost refuses = { λ n. ⊥ };
}

/// A writer that holds all that is written. No write fails: where memory is refused, what is held is given back, no more is
/// held from then on, and [`Held::whole`] tells it.
#[derive(Drop)]
pub struct Held<'m, M: Memory, K: Refusing> {
    memory: &'m M,
    bytes: Vec<u8>,
    /// Memory was refused.
    refused: bool,
    /// What was written, for clauses alone.
    pub written: Written,
    brand: PhantomData<K>,
    ghost tied: { ∥ ((n : ℕ) → M.refuses memory.now n → K.refuses n) ∥₁ },
    ghost sound: { ∥ AreHeld K.refuses bytes.items refused written.bytes ∥₁ },
}

impl<'m, M: Memory, K: Refusing> Held<'m, M, K> {
    ghost use Rattle.std.specs.Prelude.{◌≡◌, ℕ, ◌++◌, [], length, IfOk, OnErr};
    ghost use Rattle.dl_held.specs.Holding.{AreHeld, CannotHold};

    /// Nothing was written.
    pub fn new(memory: &'m M) -> Held<'m, M, K>
        requires { (n : ℕ) → M.refuses memory.now n → K.refuses n }
        ensures { result.written.bytes ≡ [] }
    {
        Held {
            memory,
            bytes: Vec::new(memory.alloc()),
            refused: false,
            written: Written::new(),
            brand: PhantomData,
        }
    }

    /// Takes all of the bytes.
    fn take(&mut self, bytes: &[u8]) -> usize
        ensures all { result ≡ length bytes.now }
        ensures written { self.new.written.bytes ≡ self.old.written.bytes ++ bytes.now }
    {
        self.written.note(bytes);
        if !self.refused {
            match self.memory.extend_from_slice(&mut self.bytes, bytes) {
                Ok(()) => {}
                Err(NoMemory) => {
                    self.refused = true;
                    self.bytes = Vec::new(self.memory.alloc());
                }
            }
        }
        bytes.len()
    }

    /// All that was written; NoMemory where memory was refused for a part of it, for no more than was written.
    pub fn whole(self) -> Result<Vec<u8>, NoMemory>
        ensures all { IfOk result (λ list. list.items ≡ self.entry.written.bytes) }
        ensures refused { OnErr result (CannotHold K.refuses self.entry.written.bytes) }
    {
        if self.refused {
            Err(NoMemory)
        } else {
            Ok(self.bytes)
        }
    }
}

impl<M: Memory, K: Refusing> Write for Held<'_, M, K> {
    ghost use Rattle.std.specs.Prelude.{Some};

    ghost contents = { λ held. Some held.written.bytes };

    fn write(&mut self, bytes: &[u8]) -> io::Result<usize> {
        Ok(self.take(bytes))
    }

    fn flush(&mut self) -> io::Result<()> {
        Ok(())
    }
}

impl<M: Memory, K: Refusing> Destination for Held<'_, M, K> {
    ghost failed = { λ held times. ⊥ };

    ghost fails = { ⊥ };

    fn write_next(&mut self, bytes: &[u8]) -> io::Result<usize> {
        Ok(self.take(bytes))
    }
}
