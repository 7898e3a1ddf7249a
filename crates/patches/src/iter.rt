ghost use Rattle.std.specs.Prelude.{◌≡◌};
ghost use Rattle.std.specs.Iterator.{YieldsFirst, item_count};
ghost use Rattle.patches.specs.Listed.{listed_from, to_come, rows_listed_from, rows_to_come};

use crate::patch_set::PatchSet;

/// The patches of a set from a row on, each as its row and its value, in rising order of rows.
#[derive(Drop)]
pub struct Patches<'s, S> {
    set: &'s S,
    from: u64,
}

/// The patches of a set from a row on; all of them from row 0 on, and none from the last row on.
pub fn patches_from<S: PatchSet>(set: &S, row: u64) -> Patches<'_, S>
    ensures { to_come S.PatchSet.meaning result ≡ listed_from (S.PatchSet.meaning set.now) row }
{
    Patches { set, from: row }
}

impl<'s, S: PatchSet> Iterator for Patches<'s, S> {
    type Item = (u64, S::Value);

    ghost next_gives = { YieldsFirst (to_come S.PatchSet.meaning) };

    ghost remaining = { item_count (to_come S.PatchSet.meaning) };

    fn next(&mut self) -> Option<(u64, S::Value)> {
        let row = self.set.next(self.from)?;
        let value = self.set.find(row)?;
        self.from = row + 1;
        Some((row, value))
    }
}

/// The patched rows of a set from a row on, in rising order. No value is asked for.
#[derive(Drop)]
pub struct PatchedRows<'s, S> {
    set: &'s S,
    from: u64,
}

/// The patched rows of a set from a row on; all of them from row 0 on, and none from the last row on.
pub fn patched_rows_from<S: PatchSet>(set: &S, row: u64) -> PatchedRows<'_, S>
    ensures { rows_to_come S.PatchSet.meaning result ≡ rows_listed_from (S.PatchSet.meaning set.now) row }
{
    PatchedRows { set, from: row }
}

impl<'s, S: PatchSet> Iterator for PatchedRows<'s, S> {
    type Item = u64;

    ghost next_gives = { YieldsFirst (rows_to_come S.PatchSet.meaning) };

    ghost remaining = { item_count (rows_to_come S.PatchSet.meaning) };

    fn next(&mut self) -> Option<u64> {
        let next = self.set.next(self.from)?;
        self.from = next + 1;
        Some(next)
    }
}
