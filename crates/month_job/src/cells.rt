//! Cells of 64 bits: signed numbers in two's complement, eight bytes each, the lowest byte first.
ghost use Rattle.std.specs.Prelude.{◌≡◌, ◌+◌, ◌*◌, ◌%◌, length, IfOk, Err, vec_len, MatchResult, OnOk, ◌≢◌};
ghost use Rattle.month_job.specs.Cells.{CellsFrom, SameBelow};
ghost use Rattle.month_job.specs.declared.cells.CellsError.TheVariants.{Length, Memory};

use std::alloc::{AllocError, AllocFailed, Global};
use std::error::Error;
use std::fmt;

/// How many bytes a cell takes.
pub const CELL_BYTES: usize = 8;

/// Why bytes are not read as cells, or cells not written as bytes.
#[derive(Clone, Copy, PartialEq, Eq, Debug)]
pub enum CellsError {
    /// The number of bytes, which is no multiple of eight.
    Length(usize),
    /// There is not enough memory.
    Memory,
}

impl fmt::Display for CellsError {
    fn fmt<W: fmt::Write>(&self, f: &mut fmt::Formatter<W>) -> fmt::Result {
        match self {
            CellsError::Length(bytes) => {
                write!(f, "it has {bytes} bytes, which is no multiple of 8")
            }
            CellsError::Memory => write!(f, "there is not enough memory"),
        }
    }
}

impl Error for CellsError {}

impl From<AllocError> for CellsError {
    ghost from_gives = { λ _ r. r ≡ Memory };

    fn from(_e: AllocError) -> CellsError {
        CellsError::Memory
    }
}

impl<T: Drop> From<AllocFailed<T>> for CellsError {
    ghost from_gives = { λ _ r. r ≡ Memory };

    fn from(_e: AllocFailed<T>) -> CellsError {
        CellsError::Memory
    }
}

/// How many cells a file of so many bytes has. A number of bytes that is no multiple of eight is refused.
pub fn cell_count(bytes: u64) -> Result<u64, CellsError>
    ensures { MatchResult result (λ n. 8 * n ≡ bytes) (λ e. (e ≡ Length bytes) × (bytes % 8 ≢ 0)) }
{
    if bytes % 8 != 0 {
        return Err(CellsError::Length(bytes as usize));
    }
    Ok(bytes / 8)
}

/// Appends the cells of `bytes` to `cells`, and answers how many they are.
/// A number of bytes that is no multiple of eight is refused, and `cells` is then as it was.
pub fn append(cells: &mut Vec<i64>, bytes: &[u8]) -> Result<usize, CellsError>
    ensures count { IfOk result (λ n. (8 * n ≡ length bytes.now) × (vec_len cells.new ≡ vec_len cells.old + n)) }
    ensures values { IfOk result (λ n. CellsFrom (vec_len cells.old) n cells.new.items bytes.now) }
    ensures kept { OnOk result (SameBelow (vec_len cells.old) cells.new.items cells.old.items) }
    ensures refused { (length bytes.now % 8 ≢ 0) → (result ≡ Err (Length (length bytes.now))) × (cells.new ≡ cells.old) }
{
    let (parts, rest) = bytes.as_chunks::<CELL_BYTES>();
    if !rest.is_empty() {
        return Err(CellsError::Length(bytes.len()));
    }
    for part in parts {
        cells.push(i64::from_le_bytes(*part))?;
    }
    Ok(parts.len())
}

/// The cells of `bytes`.
pub fn decode(heap: Global, bytes: &[u8]) -> Result<Vec<i64>, CellsError>
    ensures count { IfOk result (λ v. 8 * vec_len v ≡ length bytes.now) }
    ensures values { IfOk result (λ v. CellsFrom 0 (vec_len v) v.items bytes.now) }
    ensures refused { (length bytes.now % 8 ≢ 0) → result ≡ Err (Length (length bytes.now)) }
{
    let mut cells = Vec::new(heap);
    append(&mut cells, bytes)?;
    Ok(cells)
}

/// The bytes of `cells`: read as cells again they are the same numbers.
pub fn encode(heap: Global, cells: &[i64]) -> Result<Vec<u8>, CellsError>
    ensures count { IfOk result (λ v. vec_len v ≡ 8 * length cells.now) }
    ensures values { IfOk result (λ v. CellsFrom 0 (length cells.now) cells.now v.items) }
{
    let mut bytes = Vec::new(heap);
    for amount in cells {
        bytes.extend_from_slice(&amount.to_le_bytes())?;
    }
    Ok(bytes)
}
