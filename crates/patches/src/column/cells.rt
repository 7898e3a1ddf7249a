ghost use Rattle.std.specs.Prelude.{◌≡◌, ℕ, ◌+◌, ◌-◌, ◌*◌, ◌/◌, ◌%◌, ◌<◌, ◌≤◌, [], ◌∷◌, length, IfOk};
ghost use Rattle.search_sorted.specs.Numbers.{count, number};
ghost use Rattle.patches.specs.declared.refusal.Part.TheVariants.{Column as ColumnPart};
ghost use Rattle.patches.specs.Refusals.{Judged};
ghost use Rattle.patches.specs.Chunks.{count_of_chunks, first_row_of, end_row_of, chunk_rule};
ghost use Rattle.patches.specs.Cells.{within_of, entry_of, cell_rules, Patched, Written, Among};

use crate::column::Column;
use crate::refusal::{Part, Reason, Refusal};
use search_sorted::Rising;
use std::ops::Range;

impl<'a, V> Column<'a, V> {
    /// How many patches of the first chunk lie before the column's first, or none without chunk data.
    pub fn within(&self) -> Option<u64>
        ensures { result ≡ within_of self.now.chunks }
    {
        self.chunks.map(|table| table.within)
    }

    /// The entry of a chunk, or none past the last chunk or without chunk data.
    pub fn chunk_entry(&self, chunk: usize) -> Option<u64>
        ensures { result ≡ entry_of self.now.chunks chunk }
    {
        self.chunks?.entries.get(chunk)
    }
}

// Writes each value to the cell of the index beside it. The first cell has the index base.
fn write_cells<V: Copy>(indices: &Rising, values: &[V], base: u64, cells: &mut [V])
    requires paired { length values.now ≡ count indices.now.numbers }
    requires among { Among (number indices.now.numbers) base (length cells.old) 0 (count indices.now.numbers) }
    ensures { Written (number indices.now.numbers) base 0 (count indices.now.numbers) values.now cells.old cells.new }
{
    let numbers = indices.numbers();
    for (place, value) in values.iter().enumerate() {
        if let Some(index) = numbers.get(place) {
            cells[(index - base) as usize] = *value;
        }
    }
}

impl<'a, V: Copy> Column<'a, V> {
    // The rows of a chunk. Refuses with 16 where there is no such chunk (place: its number).
    fn rows_of_chunk(&self, chunk: u64) -> Result<Range<u64>, Refusal>
        ensures judged { Judged ColumnPart (chunk_rule chunk (count_of_chunks self.now.offset self.now.rows) ∷ []) result }
        ensures start { IfOk result (λ s. s.start ≡ first_row_of chunk self.now.offset self.now.rows) }
        ensures end { IfOk result (λ s. s.end ≡ end_row_of chunk self.now.offset self.now.rows) }
    {
        self.span().chunk_rows(chunk)
    }

    /// Writes the patches of one chunk into that chunk's decoded cells, and no other cell. A refusal writes nothing.
    ///
    /// Refuses with 15 where the column has no chunk data, with 16 where there is no such chunk (place: its number), and
    /// with 17 where the cells are not as many as the chunk has rows.
    pub fn patch_chunk(&self, chunk: u64, cells: &mut [V]) -> Result<(), Refusal>
        ensures judged { Judged ColumnPart (cell_rules self.now chunk (length cells.old)) result }
        ensures cells { Patched self.now chunk cells.old cells.new result }
    {
        let Some(table) = self.chunks else {
            return Err(Refusal::by(Part::Column, Reason::NoChunkData, 0));
        };
        let rows = self.rows_of_chunk(chunk)?;
        if cells.len() as u64 != rows.end - rows.start {
            return Err(Refusal::by(Part::Column, Reason::CellCount, 0));
        }
        let places = self.places_of_chunk(table, chunk);
        let indices = self.indices.part(places.start, places.end);
        let values = &self.values[places.start..places.end];
        write_cells(&indices, values, self.offset + rows.start, cells);
        Ok(())
    }
}
