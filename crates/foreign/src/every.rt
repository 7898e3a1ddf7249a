ghost use Rattle.std.specs.Prelude.{◌≡◌, ◌%◌, ◌<◌, ◌≤◌, min, max};
ghost use Rattle.patches.specs.Chunks.{limit};
ghost use Rattle.foreign.specs.Everies.{every, count_to, gap_from};

use crate::mark::{Mark, mark_at};
use patches::chunks::LIMIT;
use patches::patch_set::PatchSet;

/// A patch set by a formula: of the rows below `rows`, those have a patch that leave `first` when divided by `step`.
#[derive(Drop)]
pub struct Every {
    rows: u64,
    step: u64,
    first: u64,
    ghost few: { rows ≤ limit },
    ghost short: { step ≤ limit },
    ghost among: { first < step },
}

impl Every {
    /// Every `step`th row of so many from the row `first` mod `step` on. Rows and step are lowered to 2147483648, and a
    /// step of 0 counts as 1.
    pub fn new(rows: u64, step: u64, first: u64) -> Self
        ensures rows { result.rows ≡ min rows limit }
        ensures step { result.step ≡ max 1 (min step limit) }
        ensures first { result.first ≡ first % result.step }
    {
        let step = step.min(LIMIT).max(1);
        Every {
            rows: rows.min(LIMIT),
            step,
            first: first % step,
        }
    }

    // How many rows below one leave `first`.
    fn count_to(&self, row: u64) -> u64
        requires { row ≤ limit }
        ensures { result ≡ count_to self.now.step self.now.first row }
    {
        row / self.step + u64::from(self.first < row % self.step)
    }

    // How many rows lie between a row and the next one that leaves `first`.
    fn gap(&self, row: u64) -> u64
        ensures { result ≡ gap_from self.now.step self.now.first (row % self.now.step) }
    {
        let at = row % self.step;
        if self.first < at {
            self.step - at + self.first
        } else {
            self.first - at
        }
    }
}

impl PatchSet for Every {
    type Value = Mark;

    ghost meaning = { λ s. every s.rows s.step s.first s.few };

    fn rows(&self) -> u64 {
        self.rows
    }

    fn below(&self, r: u64) -> u64 {
        self.count_to(r.min(self.rows))
    }

    fn next(&self, r: u64) -> Option<u64> {
        if r >= self.rows {
            return None;
        }
        let row = r + self.gap(r);
        (row < self.rows).then_some(row)
    }

    fn find(&self, r: u64) -> Option<Mark> {
        (r < self.rows && r % self.step == self.first).then(|| mark_at(r))
    }
}
