ghost use Rattle.std.specs.Prelude.{◌≡◌, ℕ, ◌+◌, ◌-◌, ◌*◌, ◌/◌, ◌%◌, ◌^◌, ◌<◌, ◌≤◌, length, Some, None};
ghost use Rattle.search_sorted.specs.Search.{place_of};
ghost use Rattle.search_sorted.specs.Numbers.{got};
ghost use Rattle.patches.specs.Chunks.{count_of_chunks, chunk_start};
ghost use Rattle.patches.specs.Tables.{has_table};
ghost use Rattle.patches.specs.Columns.{patches, patches_under, patch_at, row_at};
ghost use Rattle.patches.specs.Lookups.{LooksUp, Places, shifted};

use crate::chunks::chunk_total;
use crate::column::Column;
use crate::span::Span;
use crate::table::ChunkOffsets;
use search_sorted::{SearchResult, SearchSortedSide};
use std::ops::Range;

impl<'a, V> Column<'a, V> {
    /// How many rows the column has, patched or not.
    pub fn rows(&self) -> u64
        ensures { result ≡ self.now.rows }
    {
        self.rows
    }

    /// What is in every stored index beyond its row.
    pub fn offset(&self) -> u64
        ensures { result ≡ self.now.offset }
    {
        self.offset
    }

    // The rows and the offset, which together come to no more than the limit.
    pub(crate) fn span(&self) -> Span
        ensures offset { result.offset ≡ self.now.offset }
        ensures rows { result.rows ≡ self.now.rows }
    {
        Span {
            offset: self.offset,
            rows: self.rows,
        }
    }

    /// How many rows are patched.
    pub fn num_patches(&self) -> usize
        ensures { result ≡ patches self.now }
    {
        self.values.len()
    }

    /// Whether the column has chunk data.
    pub fn has_chunk_data(&self) -> bool
        ensures { result ≡ has_table self.now.chunks }
    {
        self.chunks.is_some()
    }

    /// The row of the patch at a place, counted from 0 in rising row, or none past the last patch.
    pub fn patched_row(&self, place: usize) -> Option<u64>
        ensures { result ≡ got (row_at self.now) (patches self.now) place }
    {
        let index = self.indices.numbers().get(place)?;
        Some(index - self.offset)
    }

    /// How many chunks of 1024 the rows touch, counted from the chunk in which the offset lies.
    pub fn chunk_count(&self) -> u64
        ensures { result ≡ count_of_chunks self.now.offset self.now.rows }
    {
        chunk_total(self.offset, self.rows)
    }

    // The places of a chunk's patches.
    pub(crate) fn places_of_chunk(&self, table: ChunkOffsets<'a>, chunk: u64) -> Range<usize>
        requires own { self.now.chunks ≡ Some table }
        requires there { chunk < count_of_chunks self.now.offset self.now.rows }
        ensures { Places self.now (chunk_start self.now.offset chunk) (chunk_start self.now.offset (chunk + 1)) result.start result.end }
    {
        self.place_of_chunk(table, chunk)..self.place_of_chunk(table, chunk + 1)
    }

    // How many patches lie before a chunk, by its entry; after the last chunk, all of them.
    fn place_of_chunk(&self, table: ChunkOffsets<'a>, chunk: u64) -> usize
        requires own { self.now.chunks ≡ Some table }
        requires within { chunk ≤ count_of_chunks self.now.offset self.now.rows }
        ensures { result ≡ patches_under self.now (chunk_start self.now.offset chunk) }
    {
        if chunk == 0 {
            return 0;
        }
        let base = table.base();
        match table.entries.get(chunk as usize) {
            Some(entry) => (entry - base) as usize,
            None => self.values.len(),
        }
    }

    /// Where a row's patch stands among the patches, or would stand: the left search for offset + row. With chunk data
    /// it searches the row's chunk only. At or past the last row the answer is `NotFound` of the number of patches.
    pub fn search_index(&self, row: u64) -> SearchResult
        ensures { LooksUp self.now row result }
    {
        if row >= self.rows {
            return SearchResult::NotFound(self.values.len());
        }
        let index = self.offset + row;
        let Some(table) = self.chunks else {
            return self.indices.search_sorted(index, SearchSortedSide::Left);
        };
        let chunk = self.span().chunk_of(row);
        let places = self.places_of_chunk(table, chunk);
        let part = self.indices.part(places.start, places.end);
        let found = part.search_sorted(index, SearchSortedSide::Left);
        counted_from(places.start, found)
    }
}

// An answer counted from a later place.
fn counted_from(place: usize, found: SearchResult) -> SearchResult
    requires { place + place_of found < 2 ^ 64 }
    ensures { result ≡ shifted place found }
{
    match found {
        SearchResult::Found(i) => SearchResult::Found(place + i),
        SearchResult::NotFound(i) => SearchResult::NotFound(place + i),
    }
}

impl<'a, V: Copy> Column<'a, V> {
    /// The patch of a row, or none where it has none; none at or past the last row.
    pub fn get_patched(&self, row: u64) -> Option<V>
        ensures { result ≡ patch_at self.now row }
    {
        let place = self.search_index(row).to_found()?;
        let values = self.values;
        Some(values[place])
    }
}
