//! The rows that a run goes through, block by block, and what came of its steps.
ghost use Rattle.std.specs.Prelude.{◌≡◌, ℕ, ◌+◌, ◌*◌, ◌/◌, ◌<◌, length, IfOk, IfErr, vec_len, MatchOption, MatchResult, slice_index_or};
ghost use Rattle.std.specs.Option.{unwrap_or};
ghost use Rattle.patches.specs.Chunks.{count_of_chunks, first_row_of};
ghost use Rattle.runs.specs.declared.attempts.Entry.{Entry};
ghost use Rattle.stream_job.specs.Works.{step_entry, block_chunks, room_of_offsets, AllAccepted, FirstRefused, Unplanned, CorrectionAt, NoCorrection};
ghost use Rattle.stream_job.specs.declared.work.PlanError.TheVariants.{Refused, Memory};

use month_job::correct::Correction;
use month_job::job::Job;
use patches::chunks::{LIMIT, chunk_range, chunk_total};
use patches::patch_set::PatchSet;
use patches::refusal::Refusal;
use runs::attempts::{Attempt, AttemptError, Entry};
use std::alloc::{AllocFailed, Global};
use std::error::Error;
use std::fmt;

/// How many chunks a block has; the last one may have fewer.
pub const BLOCK_CHUNKS: u64 = 64;

/// The rows to work on: those from `first` up to `end`.
#[derive(Clone, Copy, PartialEq, Eq, Debug)]
pub struct Work {
    pub first: u64,
    pub end: u64,
}

/// The rows that a job asks for: from the first row where it has no `from`, and up to the last where it has no `to`.
pub fn asked_rows(job: &Job) -> Work
    ensures first { result.first ≡ unwrap_or job.now.from 0 }
    ensures end { result.end ≡ unwrap_or job.now.to job.now.rows }
{
    Work {
        first: job.from.unwrap_or(0),
        end: job.to.unwrap_or(job.rows),
    }
}

/// Why a block is not planned.
#[derive(Clone, Copy, PartialEq, Eq, Debug)]
pub enum PlanError {
    /// A chunk is refused.
    Refused(Refusal),
    /// There is not enough memory.
    Memory,
}

impl fmt::Display for PlanError {
    fn fmt<W: fmt::Write>(&self, f: &mut fmt::Formatter<W>) -> fmt::Result {
        match self {
            PlanError::Refused(refusal) => write!(f, "{refusal}"),
            PlanError::Memory => write!(f, "there is not enough memory"),
        }
    }
}

impl Error for PlanError {}

impl From<Refusal> for PlanError {
    ghost from_gives = { λ refusal r. r ≡ Refused refusal };

    fn from(refusal: Refusal) -> PlanError {
        PlanError::Refused(refusal)
    }
}

impl<T: Drop> From<AllocFailed<T>> for PlanError {
    ghost from_gives = { λ _ r. r ≡ Memory };

    fn from(_e: AllocFailed<T>) -> PlanError {
        PlanError::Memory
    }
}

/// A block: the steps through its chunks, and how many cells they take together.
#[derive(Drop)]
pub struct Block {
    pub entries: Vec<Entry>,
    pub cells: usize,
}

/// How many blocks there are for rows in a phase.
pub fn block_count(phase: u64, rows: u64) -> u64
    ensures { result ≡ (count_of_chunks phase rows + 63) / 64 }
{
    chunk_total(phase, rows).div_ceil(BLOCK_CHUNKS)
}

/// The block of a number, for rows in a phase: a step for each of its chunks, with the chunk's number of cells, and a set of
/// all the rows.
pub fn plan(heap: Global, block: u64, phase: u64, rows: u64) -> Result<Block, PlanError>
    ensures count { IfOk result (λ b. vec_len b.entries ≡ block_chunks block phase rows) }
    ensures each { IfOk result (λ b. (k : ℕ) (d : Entry) → k < vec_len b.entries → slice_index_or b.entries.items k d ≡ step_entry (64 * block + k) phase rows) }
    ensures cells { IfOk result (λ b. b.cells + first_row_of (64 * block) phase rows ≡ first_row_of (64 * (block + 1)) phase rows) }
    ensures refuses { IfErr result (Unplanned phase rows) }
{
    let chunks = chunk_total(phase, rows);
    let start = block.saturating_mul(BLOCK_CHUNKS).min(chunks);
    let end = (start + BLOCK_CHUNKS).min(chunks);
    let mut entries = Vec::new(heap);
    let mut cells = 0;
    for chunk in start..end {
        let part = chunk_range(chunk, phase, rows)?;
        let size = (part.end - part.start) as usize;
        entries.push(Entry {
            attempt: Attempt::Step {
                cells: size,
                set_rows: rows,
            },
            outcome: Err(AttemptError::NotMade),
        })?;
        cells += size;
    }
    Ok(Block { entries, cells })
}

/// The most lanes that there may be.
pub const MOST_LANES: u64 = 1024;

/// How many offsets the lane tables of rows take; none where there are too many lanes or rows for lane tables.
pub fn offset_room(lanes: u64, rows: u64) -> Option<usize>
    ensures { result ≡ room_of_offsets lanes rows }
{
    if lanes > MOST_LANES || rows > LIMIT {
        return None;
    }
    Some((chunk_total(0, rows) * lanes + 1) as usize)
}

/// Refuses attempts of which one was not accepted, and names the first.
pub fn check_accepted(entries: &[Entry]) -> Result<(), AttemptError>
    ensures { MatchResult result (λ _. AllAccepted (length entries.now) entries.now) (FirstRefused entries.now) }
{
    entries.iter().try_for_each(|entry| entry.outcome)
}

/// The first corrected cell at or after a row, in a block of cells before and after the correction, the first of which is
/// the row `first`; none where no later row of the block is corrected.
pub fn next_correction<S: PatchSet>(
    set: &S,
    row: u64,
    first: u64,
    before: &[i64],
    after: &[i64],
) -> Option<Correction>
    ensures { MatchOption result (NoCorrection (S.PatchSet.meaning set.now).patch row first before.now after.now) (CorrectionAt (S.PatchSet.meaning set.now).patch row first before.now after.now) }
{
    let next = set.next(row)?;
    let place = next.checked_sub(first)? as usize;
    Some(Correction {
        row: next,
        before: *before.get(place)?,
        after: *after.get(place)?,
    })
}
