ghost use Rattle.std.specs.Prelude.{◌≡◌, ℕ};
ghost use Rattle.patches.specs.Assignments.{Assignment, patches_below, Next};

/// A set of patches: a number of rows, at most 2147483648, and a value for some of them. It answers four questions, for
/// any row number; it refuses none and is changed by none. All four answers come from one assignment, its meaning.
pub trait PatchSet {
    type Value: Copy;

    ghost meaning: { Self → Assignment Self.Value };

    /// How many rows there are, patched or not.
    fn rows(&self) -> u64
        ensures { result ≡ (meaning self.now).rows };

    /// How many patched rows are less than `r`; all of them from the last row on.
    fn below(&self, r: u64) -> u64
        ensures { result ≡ patches_below (meaning self.now).patch r };

    /// The least patched row at or after `r`, or none.
    fn next(&self, r: u64) -> Option<u64>
        ensures { Next (meaning self.now).patch r result };

    /// The value at row `r`, or none; none at or past the last row.
    fn find(&self, r: u64) -> Option<Self::Value>
        ensures { result ≡ (meaning self.now).patch r };
}
