//! A set of bytes.

/// A set of bytes.
#[derive(Clone, Copy)]
pub struct ByteSet {
    /// Whether each byte is one of them.
    has: [bool; 256],
}

impl ByteSet {
    ghost use Rattle.std.specs.Prelude.{◌≡◌, ℕ, true, false, if◌then◌else◌, ◌==◌};
    ghost use Rattle.dl_operation_rules.specs.Keeping.{has_byte};

    /// No byte.
    pub fn none() -> ByteSet
        ensures { (b : ℕ) → has_byte result b ≡ false }
    {
        ByteSet { has: [false; 256] }
    }

    /// Whether this byte is one of them.
    pub fn contains(&self, byte: u8) -> bool
        ensures { result ≡ has_byte self.now byte }
    {
        self.has[usize::from(byte)]
    }

    /// This byte too.
    pub fn add(&mut self, byte: u8)
        ensures { (b : ℕ) → has_byte self.new b ≡ (if b == byte then true else has_byte self.old b) }
    {
        self.has[usize::from(byte)] = true;
    }
}
