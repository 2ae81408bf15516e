//! The check value of a zlib stream. RFC 1950, section 8.2.

ghost use Rattle.std.specs.Prelude.{◌≡◌, ◌<◌, ◌≤◌, ◌+◌, ◌*◌, ◌%◌, length};
ghost use Rattle.dl_zlib.specs.Zlib.{sums};

/// How many bytes are added up before the sums are reduced.
const TURN: usize = 5552;

/// Both sums of Adler-32 over the bytes so far, modulo 65521.
#[derive(Clone, Copy)]
pub struct Adler {
    pub low: u32,
    pub high: u32,
    ghost low_reduced: { low < 65521 },
    ghost high_reduced: { high < 65521 },
}

impl Adler {
    /// No byte yet.
    pub fn new() -> Self
        ensures low { result.low ≡ 1 }
        ensures high { result.high ≡ 0 }
    {
        Adler { low: 1, high: 0 }
    }

    /// The sums with the next bytes.
    pub fn add(self, bytes: &[u8]) -> Self
        ensures { (result.low, result.high) ≡ sums self.low self.high bytes.now }
    {
        let mut adler = self;
        let mut rest = bytes;
        while !rest.is_empty() {
            let len = rest.len().min(TURN);
            adler = adler.add_turn(&rest[..len]);
            rest = &rest[len..];
        }
        adler
    }

    /// The sums with at most `TURN` bytes.
    fn add_turn(self, bytes: &[u8]) -> Self
        requires { length bytes.now ≤ 5552 }
        ensures { (result.low, result.high) ≡ sums self.low self.high bytes.now }
    {
        let mut low = u64::from(self.low);
        let mut high = u64::from(self.high);
        for byte in bytes {
            low += u64::from(*byte);
            high += low;
        }
        Adler {
            low: (low % 65521) as u32,
            high: (high % 65521) as u32,
        }
    }

    /// Adler-32.
    pub fn value(self) -> u32
        ensures { result ≡ self.high * 65536 + self.low }
    {
        self.high * 65536 + self.low
    }
}
