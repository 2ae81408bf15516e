//! The bytes of a header at once, where memory may be refused and asked for again.

ghost use Rattle.dl_memory.specs.Refusals.{SystemRefuses, WasRefused};
ghost use Rattle.std.specs.Prelude.{◌≡◌, ◌≢◌, ◌+◌, ◌^◌, ◌<◌, ◌≤◌, ℕ, List, length, take};

use crate::reader::{HeadReader, HeadStep};

impl HeadReader {
    ghost use Rattle.dl_head.specs.Reading.{Answers};
    ghost use Rattle.dl_head.specs.declared.reader.HeadStep.{HeadStep};
    ghost use Rattle.dl_head.specs.declared.reader.HeadStep.TheVariants as answer;
    ghost use Rattle.dl_head.specs.Standing.{StandsFor};
    ghost use Rattle.dl_head.specs.Runs.{Offered};
    ghost use Rattle.dl_head.specs.Whole.{IsInside, TakesAll};

    /// Takes bytes up to an answer that isn't More; how many were taken, and that answer. Once they have come to
    /// something, nothing is taken, and it is answered again.
    pub fn offer(&mut self, piece: &[u8]) -> (usize, HeadStep)
        ensures offered { (b : List ℕ) → StandsFor self.old b → Answers self.old.dialect b answer.More
            → Offered self.old.dialect b piece.now result.0 result.1 self.new }
        ensures ended { (b : List ℕ) (r : HeadStep) → StandsFor self.old b → Answers self.old.dialect b r
            → r ≢ answer.More → (result ≡ (0, r)) × (self.new ≡ self.old) }
        ensures within { result.0 ≤ length piece.now }
        ensures progress { (b : List ℕ) → StandsFor self.old b → Answers self.old.dialect b answer.More
            → result.1 ≢ answer.More → result.1 ≢ answer.NoMemory → 1 ≤ result.0 }
        ensures dialect { self.new.dialect ≡ self.old.dialect }
        ensures refused { result.1 ≡ answer.NoMemory → WasRefused SystemRefuses }
    {
        match self.ended() {
            Some(last) => (0, last),
            None => self.take(piece),
        }
    }

    /// Takes bytes up to an answer that isn't More, of a header that goes on.
    fn take(&mut self, piece: &[u8]) -> (usize, HeadStep)
        ensures offered { (b : List ℕ) → StandsFor self.old b → Answers self.old.dialect b answer.More
            → Offered self.old.dialect b piece.now result.0 result.1 self.new }
        ensures within { result.0 ≤ length piece.now }
        ensures progress { result.1 ≢ answer.More → result.1 ≢ answer.NoMemory → 1 ≤ result.0 }
        ensures dialect { self.new.dialect ≡ self.old.dialect }
        ensures refused { result.1 ≡ answer.NoMemory → WasRefused SystemRefuses }
    {
        let mut used = 0;
        while used < piece.len() {
            let whole = self.whole_values(&piece[used..]);
            if whole > 0 {
                used += whole;
                continue;
            }
            let (taken, answer) = self.advance(&piece[used..]);
            used += taken;
            match answer {
                HeadStep::More => {}
                last => return (used, last),
            }
        }
        (used, HeadStep::More)
    }

    /// Takes values of the current table that the piece begins with, as long as they are of common kinds, and the
    /// header and the table go on after them: how many bytes they have. 0 within a field, and where the piece is of one
    /// byte: `advance` takes it sooner.
    #[inline(always)]
    fn whole_values(&mut self, piece: &[u8]) -> usize
        ensures within { result ≤ length piece.now }
        ensures dialect { self.new.dialect ≡ self.old.dialect }
        ensures takes { (b : List ℕ) → StandsFor self.old b → Answers self.old.dialect b answer.More
            → TakesAll self.old.dialect b (take result piece.now) self.new }
    {
        if piece.len() < 2 || self.start != self.taken || !self.phase.is_table() {
            return 0;
        }
        let used = self.table_values(self.inside(piece));
        if used == 0 {
            return 0;
        }
        self.taken += used as u64;
        self.start = self.taken;
        used
    }

    /// The first bytes of the piece, up to the one before the last of the header.
    #[inline(always)]
    fn inside<'a>(&self, piece: &'a [u8]) -> &'a [u8]
        ensures inside { IsInside self.now piece.entry.now result.now }
        ensures fits { self.now.taken + length result.now < 2 ^ 64 }
    {
        let end = self.end.unwrap_or(0);
        let left = end.saturating_sub(self.taken).saturating_sub(1);
        if left < piece.len() as u64 {
            &piece[..left as usize]
        } else {
            piece
        }
    }
}
