ghost use Rattle.std.specs.Prelude.{◌≡◌, ◌≤◌};
ghost use Rattle.patches.specs.Chunks.{limit};
ghost use Rattle.foreign.specs.Marks.{mark_of};

/// A value of several fields.
#[derive(Clone, Copy, PartialEq, Eq, Debug)]
pub struct Mark {
    pub amount: i64,
    pub day: u32,
    pub source: u16,
}

// The mark of a row, by a formula.
pub(crate) fn mark_at(row: u64) -> Mark
    requires { row ≤ limit }
    ensures { result ≡ mark_of row }
{
    Mark {
        amount: 1000 - 3 * row as i64,
        day: (row % 10000) as u32,
        source: (row % 7) as u16,
    }
}
