ghost use Rattle.std.specs.Prelude.{◌≡◌, ℕ, ◌+◌, ◌-◌, ◌*◌, ◌/◌, ◌%◌, ◌^◌, ◌<◌, ◌≤◌, true, length};
ghost use Rattle.search_sorted.specs.Numbers.{count, number};
ghost use Rattle.patches.specs.Chunks.{limit, phase, count_of_chunks, chunk_start};
ghost use Rattle.patches.specs.Indices.{Inside, count_under};
ghost use Rattle.patches.specs.Tables.{has_table, count_of_entries, entry, within};

use crate::table::ChunkOffsets;
use search_sorted::Rising;

mod cells;
mod loads;
mod lookups;
mod narrows;
mod sets;

/// A column of corrections: rows, some of which have a patch. The patched row of a stored index is the index less the
/// offset. Indices rise, lie among the rows, and have a value each; chunk data, if there are any, fit them.
#[derive(Drop)]
pub struct Column<'a, V> {
    rows: u64,
    offset: u64,
    indices: Rising<'a>,
    values: &'a [V],
    chunks: Option<ChunkOffsets<'a>>,
    ghost short: { offset + rows ≤ limit },
    ghost paired: { length values.now ≡ count indices.numbers },
    ghost inside: { Inside (number indices.numbers) (count indices.numbers) offset rows },
    ghost some: { (has_table chunks ≡ true → 0 < count indices.numbers) },
    ghost tabled: { (has_table chunks ≡ true → count_of_entries chunks ≡ count_of_chunks offset rows) },
    ghost near: { within chunks ≤ phase offset },
    ghost low: { entry chunks 0 + within chunks + count indices.numbers ≤ 8589934592 },
    ghost counted: { ((c : ℕ) → 1 ≤ c → c < count_of_entries chunks → entry chunks c ≡ entry chunks 0 + within chunks + count_under (number indices.numbers) (count indices.numbers) (chunk_start offset c)) },
}
