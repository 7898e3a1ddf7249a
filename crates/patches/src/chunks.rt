ghost use Rattle.std.specs.Prelude.{◌≡◌, IfOk};
ghost use Rattle.patches.specs.declared.refusal.Part.TheVariants.{Column as ColumnPart};
ghost use Rattle.patches.specs.Refusals.{Judged};
ghost use Rattle.patches.specs.Chunks.{count_of_chunks, first_row_of, end_row_of, range_rules};

use crate::refusal::Refusal;
use crate::span::Span;
use std::ops::Range;

/// The most that an offset and rows may come to together, and the most rows that a patch set or a run may have.
pub const LIMIT: u64 = 2147483648;

/// How many chunks of 1024 the rows touch, counted from the chunk in which the offset lies; none where there are no rows.
pub fn chunk_total(offset: u64, rows: u64) -> u64
    ensures { result ≡ count_of_chunks offset rows }
{
    if rows == 0 {
        return 0;
    }
    rows / 1024 + (offset % 1024 + rows % 1024).div_ceil(1024)
}

/// The rows of a chunk, where rows are counted from an offset and each chunk has 1024 indices.
///
/// Refuses with 5 where offset + rows is above 2147483648, and with 16 where there is no such chunk (place: its number).
pub fn chunk_range(chunk: u64, offset: u64, rows: u64) -> Result<Range<u64>, Refusal>
    ensures judged { Judged ColumnPart (range_rules chunk offset rows) result }
    ensures start { IfOk result (λ s. s.start ≡ first_row_of chunk offset rows) }
    ensures end { IfOk result (λ s. s.end ≡ end_row_of chunk offset rows) }
{
    Span::judge(offset, rows)?.chunk_rows(chunk)
}
