ghost use Rattle.std.specs.Prelude.{◌≡◌, ℕ, ◌+◌, ◌-◌, ◌*◌, ◌/◌, ◌%◌, ◌<◌, ◌≤◌, [], ◌∷◌, IfOk};
ghost use Rattle.patches.specs.declared.refusal.Part.TheVariants.{Column as ColumnPart};
ghost use Rattle.patches.specs.declared.refusal.Reason.TheVariants.{RowLimit};
ghost use Rattle.patches.specs.Refusals.{Judged, rule};
ghost use Rattle.patches.specs.Chunks.{limit, phase, count_of_chunks, chunk_start, first_row_of, end_row_of, chunk_rule};

use crate::chunks::{LIMIT, chunk_total};
use crate::refusal::{Part, Reason, Refusal};
use std::ops::Range;

/// Rows and the offset that they are counted from, which together come to no more than the limit.
#[derive(Clone, Copy)]
pub(crate) struct Span {
    pub(crate) offset: u64,
    pub(crate) rows: u64,
    ghost short: { offset + rows ≤ limit },
}

impl Span {
    // These rows from this offset. Refuses with 5.
    pub(crate) fn judge(offset: u64, rows: u64) -> Result<Span, Refusal>
        ensures judged { Judged ColumnPart (rule RowLimit (limit < offset + rows) ∷ []) result }
        ensures offset { IfOk result (λ s. s.offset ≡ offset) }
        ensures rows { IfOk result (λ s. s.rows ≡ rows) }
    {
        if offset > LIMIT || rows > LIMIT - offset {
            return Err(Refusal::by(Part::Column, Reason::RowLimit, 0));
        }
        Ok(Span { offset, rows })
    }

    // The index after that of the last row.
    pub(crate) fn end(self) -> u64
        ensures { result ≡ self.offset + self.rows }
    {
        self.offset + self.rows
    }

    // How far the offset lies behind the start of its chunk.
    pub(crate) fn phase(self) -> u64
        ensures { result ≡ phase self.offset }
    {
        self.offset % 1024
    }

    // The chunk in which a row lies, counted from that of the offset.
    pub(crate) fn chunk_of(self, row: u64) -> u64
        requires { row ≤ self.rows }
        ensures { result ≡ (phase self.offset + row) / 1024 }
    {
        (self.phase() + row) / 1024
    }

    // How many chunks the rows touch.
    pub(crate) fn chunks(self) -> u64
        ensures { result ≡ count_of_chunks self.offset self.rows }
    {
        chunk_total(self.offset, self.rows)
    }

    // The index at which a chunk starts.
    pub(crate) fn chunk_start(self, chunk: u64) -> u64
        requires { chunk ≤ 4294967296 }
        ensures { result ≡ chunk_start self.offset chunk }
    {
        self.offset - self.phase() + 1024 * chunk
    }

    // The rows of a chunk. Refuses with 16 where there is no such chunk (place: its number).
    pub(crate) fn chunk_rows(self, chunk: u64) -> Result<Range<u64>, Refusal>
        ensures judged { Judged ColumnPart (chunk_rule chunk (count_of_chunks self.offset self.rows) ∷ []) result }
        ensures start { IfOk result (λ s. s.start ≡ first_row_of chunk self.offset self.rows) }
        ensures end { IfOk result (λ s. s.end ≡ end_row_of chunk self.offset self.rows) }
    {
        if chunk >= self.chunks() {
            return Err(Refusal::by(Part::Column, Reason::ChunkNumber, chunk));
        }
        let start = (1024 * chunk).saturating_sub(self.phase());
        let end = 1024 * (chunk + 1) - self.phase();
        Ok(start..end.min(self.rows))
    }
}
