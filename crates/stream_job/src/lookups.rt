//! Look-ups of rows, and the amounts that they have before the correction.
ghost use Rattle.std.specs.Prelude.{◌≡◌, ℕ, ◌+◌, ◌<◌, ◌≤◌, length, take, IfOk, fold, slice_index_or};
ghost use Rattle.stream_job.specs.Lookups.{noted, InBlock, Asked, InOrder};
ghost use Rattle.stream_job.specs.declared.lookups.Wanted.{Wanted};

use std::alloc::{AllocError, Global};

/// A row to look up, and its place among the look-ups.
#[derive(Clone, Copy, PartialEq, Eq, PartialOrd, Ord, Debug)]
pub struct Wanted {
    pub row: u64,
    pub place: usize,
}

/// The look-ups' rows, each with its place, in some order.
fn wanted_rows(heap: Global, lookups: &[u64]) -> Result<Vec<Wanted>, AllocError>
    ensures { IfOk result (λ v. Asked lookups.now v.items) }
{
    lookups
        .iter()
        .enumerate()
        .map(|(place, row)| Wanted { row: *row, place })
        .collect(heap)
}

/// The look-ups' rows, each with its place among the look-ups, in rising row.
pub fn in_order(heap: Global, lookups: &[u64]) -> Result<Vec<Wanted>, AllocError>
    ensures { IfOk result (λ v. InOrder lookups.now v.items) }
{
    let mut wanted = wanted_rows(heap, lookups)?;
    wanted.sort()?;
    Ok(wanted)
}

/// Notes the amounts of wanted rows that lie in a block of cells, the first of which is the row `first`: each at its place.
/// It goes on from wanted row to wanted row while they lie in the block, and answers how many those are.
pub fn note(wanted: &[Wanted], first: u64, cells: &[i64], amounts: &mut [Option<i64>]) -> usize
    ensures within { result ≤ length wanted.now }
    ensures inside { (k : ℕ) (d : Wanted) → k < result → InBlock first (length cells.now) (slice_index_or wanted.now k d) }
    ensures stops { (d : Wanted) → result < length wanted.now → InBlock first (length cells.now) (slice_index_or wanted.now result d) → ⊥ }
    ensures amounts { amounts.new ≡ fold (noted first cells.now) amounts.old (take result wanted.now) }
{
    for (k, w) in wanted.iter().enumerate() {
        let Wanted { row, place } = *w;
        if row < first || row - first >= cells.len() as u64 {
            return k;
        }
        if place < amounts.len() {
            amounts[place] = Some(cells[(row - first) as usize]);
        }
    }
    wanted.len()
}
