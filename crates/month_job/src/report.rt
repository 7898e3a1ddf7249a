//! The lines that a run prints.
ghost use Rattle.std.specs.Prelude.{◌≡◌, ◌+◌, ◌-◌, ◌<◌, ◌≤◌, true, false, ◌++◌, IfOk, string_bytes, codes, decimal};
ghost use Rattle.std.specs.Fmt.{signed_decimal};
ghost use Rattle.month_job.specs.Reports.{lookup_text, shown_at};

use crate::correct::Answer;
use std::alloc::{AllocError, Global};

/// How many lines of a long list are shown from its start, and how many from its end.
const FIRST_SHOWN: usize = 10;

const LAST_SHOWN: usize = 3;

/// Which places of a list are shown: those below `head`, and those from `tail` on.
#[derive(Clone, Copy, PartialEq, Eq, Debug)]
pub struct Fold {
    pub head: usize,
    pub tail: usize,
}

/// What is shown of a list of `count` lines: all of it, or where it is long the first ten and the last three.
pub fn folded(count: usize, all: bool) -> Fold
    ensures within { (result.head ≤ result.tail) × (result.tail ≤ count) }
    ensures all { all ≡ true → (result.head ≡ count) × (result.tail ≡ count) }
    ensures short { count ≤ 13 → (result.head ≡ count) × (result.tail ≡ count) }
    ensures long { all ≡ false → 13 < count → (result.head ≡ 10) × (result.tail + 3 ≡ count) }
{
    if all || count <= FIRST_SHOWN + LAST_SHOWN {
        return Fold {
            head: count,
            tail: count,
        };
    }
    Fold {
        head: FIRST_SHOWN,
        tail: count - LAST_SHOWN,
    }
}

/// What is shown for a line of a list.
#[derive(Clone, Copy, PartialEq, Eq, Debug)]
pub enum Shown {
    /// The line.
    Line,
    /// That so many lines are left out, this one the first of them.
    LeftOut(usize),
    /// Nothing: the line is left out, and that is said already.
    Nothing,
}

impl Fold {
    /// What is shown for the line at a place.
    pub fn shown(self, place: usize) -> Shown
        ensures { result ≡ shown_at self place }
    {
        if place < self.head || self.tail <= place {
            return Shown::Line;
        }
        if place == self.head {
            return Shown::LeftOut(self.tail - self.head);
        }
        Shown::Nothing
    }
}

/// A file of the history and its cells.
pub fn history_line(heap: Global, file: &str, cells: u64) -> Result<String, AllocError>
    ensures { IfOk result (λ s. string_bytes s ≡ codes "history " ++ (file.now ++ (codes ": " ++ (decimal cells ++ codes " cells")))) }
{
    format!(in heap; "history {file}: {cells} cells")
}

/// The whole history.
pub fn history_total(
    heap: Global,
    files: usize,
    cells: u64,
    total: i128,
) -> Result<String, AllocError>
    ensures { IfOk result (λ s. string_bytes s ≡ codes "history: " ++ (decimal cells ++ (codes " cells in " ++ (decimal files ++ (codes " files, total " ++ signed_decimal total))))) }
{
    format!(in heap; "history: {cells} cells in {files} files, total {total}")
}

/// What the corrections are.
pub fn corrections_line(
    heap: Global,
    rows: u64,
    offset: u64,
    patches: usize,
) -> Result<String, AllocError>
    ensures { IfOk result (λ s. string_bytes s ≡ codes "corrections: " ++ (decimal rows ++ (codes " rows, offset " ++ (decimal offset ++ (codes ", " ++ (decimal patches ++ codes " patches")))))) }
{
    format!(in heap; "corrections: {rows} rows, offset {offset}, {patches} patches")
}

/// The first and the last patched row.
pub fn patched_rows_line(heap: Global, first: u64, last: u64) -> Result<String, AllocError>
    ensures { IfOk result (λ s. string_bytes s ≡ codes "corrections: first patched row " ++ (decimal first ++ (codes ", last patched row " ++ decimal last))) }
{
    format!(in heap; "corrections: first patched row {first}, last patched row {last}")
}

/// The chunk data that came with the corrections.
pub fn chunk_data_line(
    heap: Global,
    file: &str,
    width: u64,
    within: u64,
) -> Result<String, AllocError>
    ensures { IfOk result (λ s. string_bytes s ≡ codes "chunk data: " ++ (file.now ++ (codes ", width " ++ (decimal width ++ (codes ", within " ++ decimal within))))) }
{
    format!(in heap; "chunk data: {file}, width {width}, within {within}")
}

/// The rows that the job asks for.
pub fn work_line(heap: Global, first: u64, end: u64, patches: u64) -> Result<String, AllocError>
    ensures { IfOk result (λ s. string_bytes s ≡ codes "work: rows " ++ (decimal first ++ (codes " to " ++ (decimal end ++ (codes ", " ++ (decimal patches ++ codes " patches")))))) }
{
    format!(in heap; "work: rows {first} to {end}, {patches} patches")
}

/// How large the work's lane tables are.
pub fn lanes_line(
    heap: Global,
    lanes: u64,
    offsets: usize,
    entries: usize,
) -> Result<String, AllocError>
    ensures { IfOk result (λ s. string_bytes s ≡ codes "lanes: " ++ (decimal lanes ++ (codes " lanes, " ++ (decimal offsets ++ (codes " offsets, " ++ (decimal entries ++ codes " entries")))))) }
{
    format!(in heap; "lanes: {lanes} lanes, {offsets} offsets, {entries} entries")
}

/// The answer to a look-up.
pub fn lookup_line(heap: Global, row: u64, answer: Answer) -> Result<String, AllocError>
    ensures { IfOk result (λ s. string_bytes s ≡ lookup_text row answer) }
{
    match answer {
        Answer::NoSuchRow => format!(in heap; "lookup row {row}: the history has no such row"),
        Answer::NotCorrected(amount) => format!(in heap;
            "lookup row {row}: not corrected, amount {amount}"
        ),
        Answer::Corrected { before, after } => {
            format!(in heap; "lookup row {row}: before {before}, after {after}")
        }
    }
}

/// How much was corrected.
pub fn corrected_line(heap: Global, patches: usize, chunks: u64) -> Result<String, AllocError>
    ensures { IfOk result (λ s. string_bytes s ≡ codes "corrected: " ++ (decimal patches ++ (codes " cells in " ++ (decimal chunks ++ codes " chunks")))) }
{
    format!(in heap; "corrected: {patches} cells in {chunks} chunks")
}

/// A corrected cell.
pub fn cell_line(heap: Global, row: u64, before: i64, after: i64) -> Result<String, AllocError>
    ensures { IfOk result (λ s. string_bytes s ≡ codes "  row " ++ (decimal row ++ (codes ": before " ++ (signed_decimal before ++ (codes ", after " ++ signed_decimal after))))) }
{
    format!(in heap; "  row {row}: before {before}, after {after}")
}

/// That some corrected cells are not shown.
pub fn hidden_line(heap: Global, count: usize) -> Result<String, AllocError>
    ensures { IfOk result (λ s. string_bytes s ≡ codes "  " ++ (decimal count ++ codes " more, not shown; run with --all to see every cell")) }
{
    format!(in heap; "  {count} more, not shown; run with --all to see every cell")
}

/// What the closed run tells, beside how many patches the work has.
pub fn closed_line(
    heap: Global,
    rows: u64,
    chunks: u64,
    count: u64,
    patches: u64,
) -> Result<String, AllocError>
    ensures { IfOk result (λ s. string_bytes s ≡ codes "closed run: " ++ (decimal rows ++ (codes " rows in " ++ (decimal chunks ++ (codes " chunks, " ++ (decimal count ++ (codes " cells replaced; the work has " ++ (decimal patches ++ codes " patches")))))))) }
{
    format!(in heap;
        "closed run: {rows} rows in {chunks} chunks, {count} cells replaced; the work has {patches} patches"
    )
}

/// That the corrected history is in its file.
pub fn written_line(heap: Global, file: &str, cells: u64, bytes: u64) -> Result<String, AllocError>
    ensures { IfOk result (λ s. string_bytes s ≡ codes "written: " ++ (file.now ++ (codes ", " ++ (decimal cells ++ (codes " cells, " ++ (decimal bytes ++ codes " bytes")))))) }
{
    format!(in heap; "written: {file}, {cells} cells, {bytes} bytes")
}

/// The line to sign.
pub fn closing_line(
    heap: Global,
    patches: u64,
    cells: u64,
    before: i128,
    after: i128,
) -> Result<String, AllocError>
    ensures { IfOk result (λ s. string_bytes s ≡ codes "corrected " ++ (decimal patches ++ (codes " of " ++ (decimal cells ++ (codes " cells; total before " ++ (signed_decimal before ++ (codes ", after " ++ (signed_decimal after ++ codes "; signed: ____________")))))))) }
{
    format!(in heap;
        "corrected {patches} of {cells} cells; total before {before}, after {after}; signed: ____________"
    )
}
