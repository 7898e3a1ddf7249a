ghost use Rattle.std.specs.Prelude.{◌≡◌, length};

use patches::chunks::chunk_range;
use patches::column::Column;
use patches::refusal::Refusal;

/// The sum of the patches of the rows that have one, added to a sum.
pub fn add_lookups(column: &Column<i64>, rows: &[u64], sum: i64) -> i64 {
    rows.iter()
        .filter_map(|row| column.get_patched(*row))
        .fold(sum, |sum, value| sum.wrapping_add(value))
}

/// Corrects a history, chunk by chunk, for a column whose offset is 0.
pub(crate) fn patch_all(column: &Column<i64>, history: &mut [i64]) -> Result<(), Refusal>
    requires { length history.old ≡ column.now.rows }
{
    for chunk in 0..column.chunk_count() {
        let rows = chunk_range(chunk, 0, column.rows())?;
        column.patch_chunk(chunk, &mut history[rows.start as usize..rows.end as usize])?;
    }
    Ok(())
}

/// A sum of cells in which each place counts.
pub fn mixed(cells: &[i64]) -> i64 {
    cells.iter().fold(0, |sum: i64, cell| sum.wrapping_mul(31).wrapping_add(*cell))
}
