ghost use Rattle.std.specs.Prelude.{◌≡◌};
ghost use Rattle.patches.specs.Columns.{column_meaning};

use crate::column::Column;
use crate::patch_set::PatchSet;

/// A column by its patches: each question is a search among the indices, within the row's chunk where there are chunk
/// data.
impl<'a, V: Copy> PatchSet for Column<'a, V> {
    type Value = V;

    ghost meaning = { column_meaning };

    fn rows(&self) -> u64 {
        self.rows
    }

    fn below(&self, r: u64) -> u64 {
        self.search_index(r).to_index() as u64
    }

    fn next(&self, r: u64) -> Option<u64> {
        let place = self.search_index(r).to_index();
        self.patched_row(place)
    }

    fn find(&self, r: u64) -> Option<V> {
        self.get_patched(r)
    }
}
