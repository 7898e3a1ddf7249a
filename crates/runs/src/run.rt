ghost use Rattle.std.specs.Prelude.{◌<◌, ◌≤◌};
ghost use Rattle.patches.specs.Chunks.{limit, count_of_chunks, first_row_of};

mod closed;
mod steps;

pub use steps::Unfinished;

/// A correction run that has not ended: the rows and the phase it was opened for, the number of its next chunk, and how
/// many cells it has replaced. It is moved, not copied, and has to end: by `close` or by `abandon`.
pub struct OpenRun {
    rows: u64,
    phase: u64,
    chunk: u64,
    count: u64,
    ghost few: { rows ≤ limit },
    ghost small: { phase < 1024 },
    ghost among: { chunk ≤ count_of_chunks phase rows },
    ghost counted: { count ≤ first_row_of chunk phase rows },
}

/// A run that went through all its chunks: it tells its rows and how many cells were replaced, and nothing else.
#[derive(Drop)]
pub struct ClosedRun {
    rows: u64,
    count: u64,
}
