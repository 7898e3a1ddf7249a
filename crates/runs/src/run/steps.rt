ghost use Rattle.std.specs.Prelude.{◌≡◌, ℕ, ◌+◌, ◌-◌, ◌*◌, ◌/◌, ◌%◌, ◌^◌, ◌<◌, ◌≤◌, [], ◌∷◌, length, IfOk};
ghost use Rattle.patches.specs.declared.refusal.Part.TheVariants.{Run as RunPart};
ghost use Rattle.patches.specs.Refusals.{Judged};
ghost use Rattle.patches.specs.Chunks.{count_of_chunks, first_row_of};
ghost use Rattle.patches.specs.Assignments.{patches_below};
ghost use Rattle.runs.specs.Steps.{open_rules, step_rules, Replaced, Begun, Stepped, Finished};

use crate::run::{ClosedRun, OpenRun};
use patches::chunks::{LIMIT, chunk_total};
use patches::iter::patched_rows_from;
use patches::patch_set::PatchSet;
use patches::refusal::{Part, Reason, Refusal};

/// A run that was closed too early: it comes back open, with the refusal.
pub struct Unfinished {
    pub run: OpenRun,
    pub refusal: Refusal,
}

// Sets the cells of the rows from `start` on to their patches, from patch to patch, and says how many there were.
fn replace<S: PatchSet>(set: &S, start: u64, cells: &mut [S::Value]) -> u64
    requires { start + length cells.old ≤ (S.PatchSet.meaning set.now).rows }
    ensures cells { Replaced (S.PatchSet.meaning set.now).patch start cells.old cells.new }
    ensures count { result + patches_below (S.PatchSet.meaning set.now).patch start ≡ patches_below (S.PatchSet.meaning set.now).patch (start + length cells.old) }
{
    let end = start + cells.len() as u64;
    let mut count = 0;
    for row in patched_rows_from(set, start) {
        if row >= end {
            break;
        }
        if let Some(value) = set.find(row) {
            cells[(row - start) as usize] = value;
            count += 1;
        }
    }
    count
}

impl OpenRun {
    // The first row of a chunk up to the one after the next, or the number of rows where that is less.
    fn first_row(&self, chunk: u64) -> u64
        requires { chunk ≤ self.now.chunk + 1 }
        ensures { result ≡ first_row_of chunk self.now.phase self.now.rows }
    {
        (1024 * chunk).saturating_sub(self.phase).min(self.rows)
    }

    /// Opens a run for so many rows in a phase, of which only phase mod 1024 counts: its chunks are those of
    /// `chunk_range` for that offset. Refuses with 5 for more than 2147483648 rows.
    pub fn open(rows: u64, phase: u64) -> Result<OpenRun, Refusal>
        ensures judged { Judged RunPart (open_rules rows) result }
        ensures begun { IfOk result (Begun rows phase) }
    {
        if rows > LIMIT {
            return Err(Refusal::by(Part::Run, Reason::RowLimit, 0));
        }
        Ok(OpenRun {
            rows,
            phase: phase % 1024,
            chunk: 0,
            count: 0,
        })
    }

    /// Takes the next chunk's cells: replaces those of patched rows by their values, adds their number to the count and
    /// goes on. Refuses with 16 where no chunk is left (place: the chunk's number), with 17 where the cells are not as
    /// many as the chunk has rows, and with 18 where the set has another number of rows than the run; the run and the
    /// cells are then as they were.
    #[tactic(auto, using(crate::proofs::Partly::count_gap))]
    pub fn step<S: PatchSet>(&mut self, set: &S, cells: &mut [S::Value]) -> Result<(), Refusal>
        ensures judged { Judged RunPart (step_rules self.old.rows self.old.phase self.old.chunk (length cells.old) (S.PatchSet.meaning set.now).rows) result }
        ensures stepped { Stepped (S.PatchSet.meaning set.now).patch self.old self.new cells.old cells.new result }
    {
        if self.chunk >= chunk_total(self.phase, self.rows) {
            return Err(Refusal::by(Part::Run, Reason::ChunkNumber, self.chunk));
        }
        let start = self.first_row(self.chunk);
        let end = self.first_row(self.chunk + 1);
        if cells.len() as u64 != end - start {
            return Err(Refusal::by(Part::Run, Reason::CellCount, 0));
        }
        if set.rows() != self.rows {
            return Err(Refusal::by(Part::Run, Reason::SetRows, 0));
        }
        self.count += replace(set, start, cells);
        self.chunk += 1;
        Ok(())
    }

    /// Ends the run: it then tells its rows and its count. Refuses with 19 while chunks are left, and hands the run back.
    pub fn close(self) -> Result<ClosedRun, Unfinished>
        ensures { Finished self result }
    {
        if self.chunk < chunk_total(self.phase, self.rows) {
            let refusal = Refusal::by(Part::Run, Reason::ChunksLeft, 0);
            return Err(Unfinished { run: self, refusal });
        }
        // every field is named: `..` would let go of a run that has to end
        let OpenRun {
            rows,
            phase: _,
            chunk: _,
            count,
        } = self;
        Ok(ClosedRun { rows, count })
    }

    /// Ends the run without an answer.
    pub fn abandon(self) {
        // every field is named, as in `close`
        let OpenRun {
            rows: _,
            phase: _,
            chunk: _,
            count: _,
        } = self;
    }
}
