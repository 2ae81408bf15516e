//! What checks files.

/// What checks files, by their paths, and reads lists of paths.
///
/// A status is 0 where a file is sound, and else tells what is wrong; of two the greater one is worse.
pub trait CheckFiles {
    ghost use Rattle.std.specs.Prelude.{ℕ, List, MatchResult};

    /// With which status it may check the file at a path, and what it may become.
    ghost checks: { Self → List ℕ → ℕ → Self → Type 0 };

    /// With which status it may tell that a path isn't UTF-8, and what it may become.
    ghost refuses: { Self → List ℕ → ℕ → Self → Type 0 };

    /// Which bytes it may read of the list at a path, and what it may become.
    ghost reads: { Self → List ℕ → List ℕ → Self → Type 0 };

    /// With which status it may tell that the list at a path can't be read, and what it may become.
    ghost misses: { Self → List ℕ → ℕ → Self → Type 0 };

    /// Checks the file at a path, and answers the status.
    fn check(&mut self, path: &str) -> u8
        ensures { checks self.old path.now result self.new };

    /// Tells that a path isn't UTF-8, and answers the status.
    fn refuse(&mut self, path: &[u8]) -> u8
        ensures { refuses self.old path.now result self.new };

    /// All bytes of the list at a path. Where it can't be read, that is told, and the error is the status.
    fn read_list(&mut self, path: &str) -> Result<Vec<u8>, u8>
        ensures { MatchResult result (λ list. reads self.old path.now list.items self.new)
            (λ status. misses self.old path.now status self.new) };
}
