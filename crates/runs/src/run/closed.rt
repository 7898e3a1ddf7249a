ghost use Rattle.std.specs.Prelude.{◌≡◌};

use crate::run::ClosedRun;

impl ClosedRun {
    /// How many rows the run went through.
    pub fn rows(&self) -> u64
        ensures { result ≡ self.now.rows }
    {
        self.rows
    }

    /// How many cells the run replaced.
    pub fn count(&self) -> u64
        ensures { result ≡ self.now.count }
    {
        self.count
    }
}
