//! The correction of a history: look-ups, the list of corrected cells, and the cells themselves, chunk by chunk.
ghost use Rattle.std.specs.Prelude.{◌≡◌, ℕ, ◌+◌, ◌^◌, ◌<◌, length, IfOk, IfErr, vec_len, MatchResult, OnErr, OnOk, ◌≢◌, slice_index_or};
ghost use Rattle.patches.specs.Chunks.{count_of_chunks, first_row_of};
ghost use Rattle.patches.specs.Columns.{patches};
ghost use Rattle.month_job.specs.Corrected.{CorrectedFrom, CorrectedAll, Suited, answer, answer_for, IsCorrection};
ghost use Rattle.month_job.specs.declared.correct.CorrectError.TheVariants.{Count, Refused, Memory};
ghost use Rattle.month_job.specs.declared.correct.Correction.{Correction};

use patches::chunks::chunk_range;
use patches::column::Column;
use patches::refusal::Refusal;
use std::alloc::{AllocError, AllocFailed, Global};
use std::error::Error;
use std::fmt;

/// That the history has another number of cells than the corrections have rows.
#[derive(Clone, Copy, PartialEq, Eq, Debug)]
pub struct CountError {
    pub cells: u64,
    pub rows: u64,
}

impl fmt::Display for CountError {
    fn fmt<W: fmt::Write>(&self, f: &mut fmt::Formatter<W>) -> fmt::Result {
        let CountError { cells, rows } = self;
        write!(
            f,
            "the history has {cells} cells, and the corrections are for {rows} rows"
        )
    }
}

impl Error for CountError {}

/// Why a history is not corrected.
#[derive(Clone, Copy, PartialEq, Eq, Debug)]
pub enum CorrectError {
    /// The history has another number of cells than the corrections have rows.
    Count(CountError),
    /// The corrections refuse.
    Refused(Refusal),
    /// There is not enough memory.
    Memory,
}

impl fmt::Display for CorrectError {
    fn fmt<W: fmt::Write>(&self, f: &mut fmt::Formatter<W>) -> fmt::Result {
        match self {
            CorrectError::Count(error) => write!(f, "{error}"),
            CorrectError::Refused(refusal) => write!(f, "{refusal}"),
            CorrectError::Memory => write!(f, "there is not enough memory"),
        }
    }
}

impl Error for CorrectError {}

impl From<CountError> for CorrectError {
    ghost from_gives = { λ error r. r ≡ Count error };

    fn from(error: CountError) -> CorrectError {
        CorrectError::Count(error)
    }
}

impl From<AllocError> for CorrectError {
    ghost from_gives = { λ _ r. r ≡ Memory };

    fn from(_e: AllocError) -> CorrectError {
        CorrectError::Memory
    }
}

impl<T: Drop> From<AllocFailed<T>> for CorrectError {
    ghost from_gives = { λ _ r. r ≡ Memory };

    fn from(_e: AllocFailed<T>) -> CorrectError {
        CorrectError::Memory
    }
}

impl From<Refusal> for CorrectError {
    ghost from_gives = { λ refusal r. r ≡ Refused refusal };

    fn from(refusal: Refusal) -> CorrectError {
        CorrectError::Refused(refusal)
    }
}

/// What a look-up of a row answers.
#[derive(Clone, Copy, PartialEq, Eq, Debug)]
pub enum Answer {
    /// The history has no such row.
    NoSuchRow,
    /// The row is not corrected and has this amount.
    NotCorrected(i64),
    /// The row is corrected.
    Corrected { before: i64, after: i64 },
}

/// A corrected cell.
#[derive(Clone, Copy, PartialEq, Eq, Debug)]
pub struct Correction {
    pub row: u64,
    pub before: i64,
    pub after: i64,
}

/// Refuses cells that are fewer or more than the rows.
pub fn check_count(cells: u64, rows: u64) -> Result<(), CountError>
    ensures { MatchResult result (λ _. cells ≡ rows) (λ e. (e.cells ≡ cells) × (e.rows ≡ rows) × (cells ≢ rows)) }
{
    if cells != rows {
        return Err(CountError { cells, rows });
    }
    Ok(())
}

/// What the corrections say of a row of the history before the correction.
pub fn look_up(column: &Column<'_, i64>, cells: &[i64], row: u64) -> Answer
    ensures { result ≡ answer column.now cells.now row }
{
    look_up_amount(column, cells.get(row as usize).copied(), row)
}

/// What the corrections say of a row, whose amount before is none where the history has no such row.
pub fn look_up_amount(column: &Column<'_, i64>, before: Option<i64>, row: u64) -> Answer
    ensures { result ≡ answer_for column.now before row }
{
    let Some(before) = before else {
        return Answer::NoSuchRow;
    };
    match column.get_patched(row) {
        Some(after) => Answer::Corrected { before, after },
        None => Answer::NotCorrected(before),
    }
}

/// The corrected cells, one for each patch, in the patches' order. `cells` is the history before the correction.
pub fn corrections(
    heap: Global,
    column: &Column<'_, i64>,
    cells: &[i64],
) -> Result<Vec<Correction>, CorrectError>
    ensures count { IfOk result (λ v. vec_len v ≡ patches column.now) }
    ensures each { IfOk result (λ v. (place : ℕ) (d : Correction) → place < vec_len v → IsCorrection column.now cells.now place (slice_index_or v.items place d)) }
{
    let mut list = Vec::new(heap);
    for place in 0..column.num_patches() {
        let row = column.patched_row(place).unwrap();
        let Answer::Corrected { before, after } = look_up(column, cells, row) else {
            return Err(CorrectError::Count(CountError {
                cells: cells.len() as u64,
                rows: column.rows(),
            }));
        };
        list.push(Correction { row, before, after })?;
    }
    Ok(list)
}

/// Corrects cells one by one. The first of them is the row `first`.
fn correct_rows(column: &Column<'_, i64>, first: u64, cells: &mut [i64])
    requires { first + length cells.old < 2 ^ 64 }
    ensures { CorrectedFrom column.now first cells.old cells.new }
{
    for (k, cell) in cells.iter_mut().enumerate() {
        *cell = column.get_patched(first + k as u64).unwrap_or(*cell);
    }
}

/// Corrects the cells of one chunk: by the chunk data where there are any, and else row by row. It refuses only where
/// there is no such chunk, or not as many cells as the chunk has rows, and then writes nothing.
pub fn correct_chunk(
    column: &Column<'_, i64>,
    chunk: u64,
    cells: &mut [i64],
) -> Result<(), CorrectError>
    ensures corrected { OnOk result (CorrectedFrom column.now (first_row_of chunk column.now.offset column.now.rows) cells.old cells.new) }
    ensures refuses { OnErr result (Suited column.now chunk (length cells.old) → ⊥) }
    ensures kept { OnErr result (cells.new ≡ cells.old) }
{
    if column.has_chunk_data() {
        return Ok(column.patch_chunk(chunk, cells)?);
    }
    let rows = chunk_range(chunk, column.offset(), column.rows())?;
    check_count(cells.len() as u64, rows.end - rows.start)?;
    correct_rows(column, rows.start, cells);
    Ok(())
}

/// Corrects a whole history, chunk by chunk, and answers how many chunks it has. It refuses exactly where the history has
/// not as many cells as the column has rows, and then writes nothing.
pub fn correct_all(column: &Column<'_, i64>, cells: &mut [i64]) -> Result<u64, CorrectError>
    ensures count { IfOk result (λ chunks. (chunks ≡ count_of_chunks column.now.offset column.now.rows) × (length cells.old ≡ column.now.rows)) }
    ensures cells { OnOk result (CorrectedAll column.now cells.old cells.new) }
    ensures refuses { IfErr result (λ e. (e ≡ Count (record { cells = length cells.old; rows = column.now.rows })) × (length cells.old ≢ column.now.rows)) }
    ensures kept { OnErr result (cells.new ≡ cells.old) }
{
    let rows = column.rows();
    check_count(cells.len() as u64, rows)?;
    let chunks = column.chunk_count();
    for chunk in 0..chunks {
        let part = chunk_range(chunk, column.offset(), rows)?;
        correct_chunk(
            column,
            chunk,
            &mut cells[part.start as usize..part.end as usize],
        )?;
    }
    Ok(chunks)
}
