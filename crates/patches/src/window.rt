ghost use Rattle.std.specs.Prelude.{◌≡◌, ℕ, ◌+◌, ◌-◌, ◌<◌, ◌≤◌, [], ◌∷◌};
ghost use Rattle.patches.specs.declared.refusal.Part.TheVariants.{Selection};
ghost use Rattle.patches.specs.Assignments.{Assignment, SameAssignment};
ghost use Rattle.patches.specs.Narrows.{row_rules};
ghost use Rattle.patches.specs.Refusals.{Judged};
ghost use Rattle.patches.specs.Windows.{end_in, start_in, narrowed_first, narrowed_end, row_in, windowed};

use crate::patch_set::PatchSet;
use crate::refusal::{Part, Reason, Refusal};
use std::ops::Range;

/// The rows from `first` up to `end` of a patch set, as a patch set: row `k` is row `first + k` of the set.
#[derive_where(Clone, Copy)]
pub struct Window<'s, S> {
    set: &'s S,
    first: u64,
    end: u64,
}

impl<'s, S: PatchSet> Window<'s, S> {
    /// The rows from `a` up to `b` of a set. It never refuses: `b` is lowered to the rows, and then `a` to `b`.
    pub fn new(set: &'s S, a: u64, b: u64) -> Self
        ensures set { result.set.now ≡ set.now }
        ensures first { result.first ≡ start_in a b (S.PatchSet.meaning set.now).rows }
        ensures end { result.end ≡ end_in b (S.PatchSet.meaning set.now).rows }
        ensures shows { SameAssignment (windowed (S.PatchSet.meaning result.set.now) result.first result.end) (windowed (S.PatchSet.meaning set.now) a b) }
    {
        let end = b.min(set.rows());
        Window {
            set,
            first: a.min(end),
            end,
        }
    }

    /// Whether the rows from `a` up to `b` are there: refuses with 9 where `a` is above `b` or `b` above the rows.
    pub fn check(set: &S, a: u64, b: u64) -> Result<(), Refusal>
        ensures { Judged Selection (row_rules (S.PatchSet.meaning set.now).rows a b) result }
    {
        if a > b || b > set.rows() {
            return Err(Refusal::by(Part::Selection, Reason::RowRange, 0));
        }
        Ok(())
    }

    /// The rows from `a` up to `b` of the window, as one window over the same set with new ends. It never refuses: the
    /// ends are lowered as in `new`.
    pub fn narrow(&self, a: u64, b: u64) -> Window<'s, S>
        ensures set { result.set.now ≡ self.now.set.now }
        ensures shows { SameAssignment (windowed (S.PatchSet.meaning result.set.now) result.first result.end) (windowed (windowed (S.PatchSet.meaning self.now.set.now) self.now.first self.now.end) a b) }
        ensures first { result.first ≡ narrowed_first (S.PatchSet.meaning self.now.set.now).rows self.now.first self.now.end a b }
        ensures end { result.end ≡ narrowed_end (S.PatchSet.meaning self.now.set.now).rows self.now.first self.now.end b }
    {
        let rows = self.set_rows();
        let stop = b.min(rows.end - rows.start);
        Window {
            set: self.set,
            first: rows.start + a.min(stop),
            end: rows.start + stop,
        }
    }

    // The window's rows, as rows of the set: both ends are lowered to the rows that the set has.
    fn set_rows(&self) -> Range<u64>
        ensures start { result.start ≡ start_in self.now.first self.now.end (S.PatchSet.meaning self.now.set.now).rows }
        ensures end { result.end ≡ end_in self.now.end (S.PatchSet.meaning self.now.set.now).rows }
    {
        let end = self.end.min(self.set.rows());
        self.first.min(end)..end
    }

    // The row of the set that a row of the window is, or none past the window's last.
    fn set_row(&self, r: u64) -> Option<u64>
        ensures { result ≡ row_in self.now.first self.now.end (S.PatchSet.meaning self.now.set.now).rows r }
    {
        let rows = self.set_rows();
        (r < rows.end - rows.start).then(|| rows.start + r)
    }
}

impl<'s, S: PatchSet> PatchSet for Window<'s, S> {
    type Value = S::Value;

    ghost meaning = { λ w. windowed (S.PatchSet.meaning w.set.now) w.first w.end };

    fn rows(&self) -> u64 {
        let rows = self.set_rows();
        rows.end - rows.start
    }

    fn below(&self, r: u64) -> u64 {
        let rows = self.set_rows();
        let top = r.min(rows.end - rows.start);
        self.set.below(rows.start + top) - self.set.below(rows.start)
    }

    fn next(&self, r: u64) -> Option<u64> {
        let rows = self.set_rows();
        let q = self.set.next(self.set_row(r)?)?;
        (q < rows.end).then(|| q - rows.start)
    }

    fn find(&self, r: u64) -> Option<S::Value> {
        self.set.find(self.set_row(r)?)
    }
}
