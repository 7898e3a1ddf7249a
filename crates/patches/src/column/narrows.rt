ghost use Rattle.std.specs.Prelude.{◌≡◌, ℕ, ◌+◌, ◌-◌, ◌*◌, ◌/◌, ◌%◌, ◌<◌, ◌≤◌, [], ◌∷◌};
ghost use Rattle.patches.specs.declared.refusal.Part.TheVariants.{Selection};
ghost use Rattle.patches.specs.Refusals.{Judged};
ghost use Rattle.patches.specs.Columns.{patches_under};
ghost use Rattle.patches.specs.Lookups.{Places};
ghost use Rattle.patches.specs.Narrows.{row_rules, Narrowed, KeepsTable};

use crate::column::Column;
use crate::refusal::{Part, Reason, Refusal};
use crate::table::ChunkOffsets;
use std::ops::Range;

impl<'a, V> Column<'a, V> {
    /// Keeps the rows from `a` up to `b`, in place: row `k` is then what row `a + k` was. Answers how many patches remain,
    /// or none where none does; chunk data go with the last patch.
    ///
    /// Refuses with 9 where `a` is above `b` or `b` above the rows; the column is then as it was.
    pub fn narrow(&mut self, a: u64, b: u64) -> Result<Option<usize>, Refusal>
        ensures judged { Judged Selection (row_rules self.old.rows a b) result }
        ensures narrowed { Narrowed self.old self.new a b result }
    {
        if a > b || b > self.rows {
            return Err(Refusal::by(Part::Selection, Reason::RowRange, 0));
        }
        let Range { start, end } = self.places_of_rows(a, b);
        let chunks = if start < end {
            self.kept_chunks(a, b, start)
        } else {
            None
        };
        let indices = self.indices.part(start, end);
        *self = Column {
            rows: b - a,
            offset: self.offset + a,
            indices,
            values: &self.values[start..end],
            chunks,
        };
        Ok((start < end).then_some(end - start))
    }

    // The places of the patches of the rows from a up to b.
    fn places_of_rows(&self, a: u64, b: u64) -> Range<usize>
        requires order { a ≤ b }
        requires rows { b ≤ self.now.rows }
        ensures { Places self.now (self.now.offset + a) (self.now.offset + b) result.start result.end }
    {
        self.place_of_row(a)..self.place_of_row(b)
    }

    // How many patches lie before a row.
    fn place_of_row(&self, row: u64) -> usize
        requires { row ≤ self.now.rows }
        ensures { result ≡ patches_under self.now (self.now.offset + row) }
    {
        self.search_index(row).to_index()
    }

    // The chunk data of the rows from a up to b, where `dropped` patches lie before row a and some patch remains.
    fn kept_chunks(&self, a: u64, b: u64, dropped: usize) -> Option<ChunkOffsets<'a>>
        requires rows { b ≤ self.now.rows }
        requires some { a < b }
        requires place { dropped ≡ patches_under self.now (self.now.offset + a) }
        ensures { KeepsTable self.now.chunks result self.now.offset a b dropped }
    {
        let table = self.chunks?;
        let span = self.span();
        let first = span.chunk_of(a);
        let end = (span.phase() + b).div_ceil(1024);
        let base = table.base() + dropped as u64;
        let entries = table.entries.part(first as usize, end as usize);
        Some(ChunkOffsets {
            entries,
            within: base - entries.get(0).unwrap_or(0),
        })
    }
}
