ghost use Rattle.std.specs.Prelude.{◌≡◌, ℕ, ◌+◌, ◌-◌, ◌*◌, ◌/◌, ◌%◌, ◌<◌, ◌≤◌, [], ◌∷◌, length, IfOk, Ok, Err, Decides, OnOk};
ghost use Rattle.search_sorted.specs.Packed.{size};
ghost use Rattle.search_sorted.specs.Numbers.{count, number};
ghost use Rattle.patches.specs.declared.refusal.Part.TheVariants.{Column as ColumnPart};
ghost use Rattle.patches.specs.Chunks.{limit};
ghost use Rattle.patches.specs.declared.refusal.Reason.TheVariants.{RowLimit};
ghost use Rattle.patches.specs.Refusals.{Judged, rule};
ghost use Rattle.patches.specs.Indices.{Inside, count_under};
ghost use Rattle.patches.specs.Columns.{Cleared};
ghost use Rattle.patches.specs.Tables.{Fits};
ghost use Rattle.patches.specs.Loads.{shape_rules, order_rule, range_rule, table_rule, index_rules, load_rules, Loaded, SameTable, Shaped, Sound, RightEntry, WrongFrom, WholeTable};

use crate::chunks::LIMIT;
use crate::column::Column;
use crate::corrections::{ChunkTable, Corrections};
use crate::refusal::{Part, Reason, Refusal};
use crate::span::Span;
use crate::table::ChunkOffsets;
use search_sorted::{Packed, Rising, Width};

// Judges widths, counts and rows, and answers the indices as numbers, and the rows with their offset.
fn judge_shape<'a, V>(file: &Corrections<'a, V>) -> Result<(Packed<'a>, Span), Refusal>
    ensures judged { Judged ColumnPart (shape_rules file.now.width file.now.indices.now (length file.now.values.now) file.now.rows file.now.offset) result }
    ensures shaped { IfOk result (λ s. Shaped file.now s.0 s.1) }
{
    let Ok(width) = Width::try_from(file.width) else {
        return Err(Refusal::by(Part::Column, Reason::IndexWidth, 0));
    };
    let numbers = Packed::new(width, file.indices);
    if file.indices.len() % width.bytes() != 0 {
        return Err(Refusal::by(Part::Column, Reason::IndexBytes, 0));
    }
    if file.indices.is_empty() {
        return Err(Refusal::by(Part::Column, Reason::NoIndex, 0));
    }
    if file.values.len() != numbers.len() {
        return Err(Refusal::by(Part::Column, Reason::ValueCount, 0));
    }
    let span = Span::judge(file.offset, file.rows)?;
    Ok((numbers, span))
}

// Judges the order of the indices, and answers them as rising.
fn judge_order<'a>(numbers: Packed<'a>) -> Result<Rising<'a>, Refusal>
    ensures judged { Judged ColumnPart (order_rule (number numbers.entry) (count numbers.entry) ∷ []) result }
    ensures holds { IfOk result (λ r. r.numbers ≡ numbers.entry) }
{
    Rising::try_from(numbers).map_err(|fall| Refusal::by(
        Part::Column,
        Reason::IndexOrder,
        fall.place as u64,
    ))
}

// Judges the first index, and then the last: as indices rise, the others lie between them.
fn judge_range(indices: &Rising, span: Span) -> Result<(), Refusal>
    requires some { 0 < count indices.now.numbers }
    ensures judged { Judged ColumnPart (range_rule (number indices.now.numbers) (count indices.now.numbers) span.offset span.rows ∷ []) result }
    ensures inside { OnOk result (Inside (number indices.now.numbers) (count indices.now.numbers) span.offset span.rows) }
{
    let numbers = indices.numbers();
    let last = numbers.len() - 1;
    if numbers.get(0) < Some(span.offset) {
        return Err(Refusal::by(Part::Column, Reason::IndexRange, 0));
    }
    if numbers.get(last) >= Some(span.end()) {
        return Err(Refusal::by(Part::Column, Reason::IndexRange, last as u64));
    }
    Ok(())
}

// Whether the number before a place, if there is one, is below a bound.
fn below_before(numbers: &Packed, place: usize, bound: u64) -> bool
    requires { place ≤ count numbers.now }
    ensures { Decides result ((k : ℕ) → k + 1 ≡ place → number numbers.now k < bound) }
{
    place == 0 || numbers.get(place - 1) < Some(bound)
}

// Whether the number at a place, if there is one, is not below a bound.
fn not_below_at(numbers: &Packed, place: usize, bound: u64) -> bool
    ensures { Decides result (place < count numbers.now → bound ≤ number numbers.now place) }
{
    numbers.get(place).is_none_or(|number| number >= bound)
}

// Whether so many of the indices are below a bound: as they rise, it is enough to look at two of them.
fn is_count_under(indices: &Rising, place: u64, bound: u64) -> bool
    ensures { Decides result (count_under (number indices.now.numbers) (count indices.now.numbers) bound ≡ place) }
{
    let numbers = indices.numbers();
    if place > numbers.len() as u64 {
        return false;
    }
    let place = place as usize;
    below_before(&numbers, place, bound) && not_below_at(&numbers, place, bound)
}

// Whether a chunk's entry, if there is one, is the base and the number of indices below the chunk's start.
fn is_right(indices: &Rising, table: &ChunkOffsets, span: Span, chunk: u64) -> bool
    requires some { 0 < count table.now.entries }
    requires base { number table.now.entries 0 + table.now.within ≤ 4294967296 }
    requires few { chunk ≤ 4294967296 }
    ensures { Decides result (chunk < count table.now.entries → RightEntry (number indices.now.numbers) (count indices.now.numbers) (number table.now.entries) (number table.now.entries 0 + table.now.within) span.offset chunk) }
{
    let base = table.base();
    let Some(entry) = table.entries.get(chunk as usize) else {
        return true;
    };
    entry >= base && is_count_under(indices, entry - base, span.chunk_start(chunk))
}

// The first chunk, from chunk 1 on, whose entry is not the base and the number of indices below the chunk's start.
fn first_wrong(indices: &Rising, table: &ChunkOffsets, span: Span) -> Option<u64>
    requires some { 0 < count table.now.entries }
    requires base { number table.now.entries 0 + table.now.within ≤ 4294967296 }
    requires few { count table.now.entries ≤ 4294967296 }
    ensures { WrongFrom (number indices.now.numbers) (count indices.now.numbers) (number table.now.entries) (number table.now.entries 0 + table.now.within) span.offset (count table.now.entries) result }
{
    (1..table.entries.len() as u64).find(|chunk| !is_right(indices, table, span, *chunk))
}

// A file's chunk data where width, byte count, within and entry 0 are right, and none of any other.
fn whole_table<'a>(table: &ChunkTable<'a>, span: Span) -> Option<ChunkOffsets<'a>>
    requires some { 0 < span.rows }
    ensures { WholeTable table.now span.offset span.rows result }
{
    let width = Width::try_from(table.width).ok()?;
    let entries = Packed::new(width, table.entries);
    let base = entries.get(0)?;
    let bytes = table.entries.len() as u64;
    if bytes != table.width * span.chunks() || table.within > span.phase() || base > LIMIT {
        return None;
    }
    Some(ChunkOffsets {
        entries,
        within: table.within,
    })
}

// Judges chunk data: the table as a whole, and then each entry.
fn judge_chunks<'a>(
    indices: &Rising,
    table: Option<ChunkTable<'a>>,
    span: Span,
) -> Result<Option<ChunkOffsets<'a>>, Refusal>
    requires some { 0 < span.rows }
    ensures judged { Judged ColumnPart (table_rule (number indices.now.numbers) (count indices.now.numbers) table.entry span.offset span.rows ∷ []) result }
    ensures holds { IfOk result (λ t. SameTable t table.entry) }
    ensures fits { IfOk result (λ t. Fits (number indices.now.numbers) (count indices.now.numbers) t span.offset span.rows) }
{
    let Some(table) = table else {
        return Ok(None);
    };
    let Some(offsets) = whole_table(&table, span) else {
        return Err(Refusal::by(Part::Column, Reason::ChunkData, 0));
    };
    if let Some(chunk) = first_wrong(indices, &offsets, span) {
        return Err(Refusal::by(Part::Column, Reason::ChunkData, chunk));
    }
    Ok(Some(offsets))
}

// Judges the order of the indices, their range, and the chunk data, and answers the indices as rising and the chunk data.
fn judge_indices<'a>(
    numbers: Packed<'a>,
    table: Option<ChunkTable<'a>>,
    span: Span,
) -> Result<(Rising<'a>, Option<ChunkOffsets<'a>>), Refusal>
    requires some { 0 < count numbers }
    ensures judged { Judged ColumnPart (index_rules (number numbers.entry) (count numbers.entry) table.entry span.offset span.rows) result }
    ensures holds { IfOk result (λ r. Sound r.0.numbers numbers.entry r.1 table.entry span.offset span.rows) }
{
    let indices = judge_order(numbers)?;
    judge_range(&indices, span)?;
    let chunks = judge_chunks(&indices, table, span)?;
    Ok((indices, chunks))
}

impl<'a, V> Column<'a, V> {
    /// A column with no rows, offset 0 and no patches.
    pub fn empty() -> Self
        ensures { Cleared result 0 }
    {
        Column::without_patches(0)
    }

    /// Fills the column with a file's corrections, after judging them all. A refusal leaves the column as it was.
    ///
    /// Refuses with 1 to 8, in this order: the index width, the index bytes, no index, the number of values, the limit
    /// of offset and rows, the order of the indices, their range, and the chunk data.
    pub fn load(&mut self, file: &Corrections<'a, V>) -> Result<(), Refusal>
        ensures judged { Judged ColumnPart (load_rules file.now) result }
        ensures holds { Loaded self.old self.new file.now result }
    {
        let (numbers, span) = judge_shape(file)?;
        let (indices, chunks) = judge_indices(numbers, file.chunks, span)?;
        *self = Column {
            rows: file.rows,
            offset: file.offset,
            indices,
            values: file.values,
            chunks,
        };
        Ok(())
    }

    /// Gives the column a number of rows, offset 0 and no patches. Refuses with 5; the column is then as it was.
    pub fn clear(&mut self, rows: u64) -> Result<(), Refusal>
        ensures judged { Judged ColumnPart (rule RowLimit (limit < rows) ∷ []) result }
        ensures holds { elim result [ Ok _ ↦ Cleared self.new rows | Err _ ↦ self.new ≡ self.old ] }
    {
        Span::judge(0, rows)?;
        *self = Column::without_patches(rows);
        Ok(())
    }

    // A column of so many rows, with offset 0 and no patches.
    fn without_patches(rows: u64) -> Self
        requires { rows ≤ limit }
        ensures { Cleared result rows }
    {
        Column {
            rows,
            offset: 0,
            indices: Rising::empty(),
            values: &[],
            chunks: None,
        }
    }
}
