//! What a relocation does to the number at its place.
ghost use Rattle.std.specs.Prelude.{◌≡◌, ◌≤◌, ◌<◌, ◌^◌};
ghost use Rattle.dl_reloc.specs.Changes.{change_size, changed, width_bytes};

/// How many bits a relocation writes.
#[derive(Clone, Copy)]
pub enum Width {
    Bits8,
    Bits16,
    Bits24,
    Bits32,
    Bits64,
}

/// What a relocation does with the sum of its symbol's value and its addend.
#[derive(Clone, Copy)]
pub enum Change {
    /// It changes nothing.
    Nothing,
    /// It puts the sum there.
    Set(Width),
    /// It adds the sum to what stands there.
    Add(Width),
    /// It subtracts the sum from what stands there.
    Subtract(Width),
    /// It puts the sum into the low six bits of the byte.
    SetSix,
    /// It subtracts the sum from the low six bits of the byte.
    SubtractSix,
}

impl Width {
    /// How many bytes they are.
    fn bytes(self) -> usize
        ensures { result ≡ width_bytes self }
    {
        match self {
            Width::Bits8 => 1,
            Width::Bits16 => 2,
            Width::Bits24 => 3,
            Width::Bits32 => 4,
            Width::Bits64 => 8,
        }
    }
}

impl Change {
    /// How many bytes it changes.
    pub fn size(self) -> usize
        ensures size { result ≡ change_size self }
        ensures most { result ≤ 8 }
    {
        match self {
            Change::Nothing => 0,
            Change::Set(width) | Change::Add(width) | Change::Subtract(width) => width.bytes(),
            Change::SetSix | Change::SubtractSix => 1,
        }
    }

    /// The number that it leaves, in its lowest bytes, where `old` stands at its place.
    pub fn result(self, old: u64, sum: u64) -> u64
        ensures { result ≡ changed self old sum }
    {
        match self {
            Change::Nothing => old,
            Change::Set(_) => sum,
            Change::Add(_) => old.wrapping_add(sum),
            Change::Subtract(_) => old.wrapping_sub(sum),
            Change::SetSix => old / 64 * 64 + sum % 64,
            Change::SubtractSix => old / 64 * 64 + old.wrapping_sub(sum) % 64,
        }
    }
}
