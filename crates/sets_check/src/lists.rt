//! Lists of attempts.
use patches::chunks::{chunk_range, chunk_total};
use runs::attempts::{Attempt, AttemptError, Entry};
use std::alloc::{AllocError, Global};

// A step.
fn step(cells: u64, set_rows: u64) -> Attempt {
    Attempt::Step {
        cells: cells as usize,
        set_rows,
    }
}

// How many rows a chunk has.
fn chunk_rows(chunk: u64, phase: u64, rows: u64) -> u64 {
    chunk_range(chunk, phase, rows).map_or(0, |range| range.end.wrapping_sub(range.start))
}

// Attempts that are not made yet.
fn entries(heap: Global, attempts: &[Attempt]) -> Result<Vec<Entry>, AllocError> {
    attempts
        .iter()
        .map(|attempt| Entry {
            attempt: *attempt,
            outcome: Err(AttemptError::NotMade),
        })
        .collect(heap)
}

/// A whole run. Before it is opened, attempts that are not made and a refused opening; at each chunk, steps that are too
/// short, too long and with too few rows of the set, and closing too early; at the end a step too many; and attempts
/// after it was closed.
pub fn whole(heap: Global, rows: u64, phase: u64) -> Result<Vec<Entry>, AllocError> {
    let open = Attempt::Open { rows, phase };
    let too_many = Attempt::Open {
        rows: 2147483649,
        phase,
    };
    let mut list = Vec::new(heap);
    list.extend_from_slice(&[
        Attempt::Close,
        step(2, rows),
        Attempt::Abandon,
        too_many,
        open,
        open,
    ])?;
    for chunk in 0..chunk_total(phase, rows) {
        let n = chunk_rows(chunk, phase, rows);
        list.extend_from_slice(&[
            Attempt::Close,
            step(n.wrapping_sub(1), rows),
            step(n.wrapping_add(1), rows),
            step(n, rows.wrapping_sub(1)),
            step(n, rows.wrapping_add(5)),
        ])?;
    }
    list.extend_from_slice(&[
        step(0, rows),
        Attempt::Close,
        Attempt::Close,
        Attempt::Abandon,
        step(3, rows),
        open,
    ])?;
    entries(heap, &list)
}

/// A run that is abandoned after two chunks, of which the second is handed the cells that are left; and attempts after it.
pub fn abandoned(heap: Global, rows: u64, phase: u64) -> Result<Vec<Entry>, AllocError> {
    let open = Attempt::Open { rows, phase };
    let first = chunk_rows(0, phase, rows);
    let second = chunk_rows(1, phase, rows).wrapping_add(100);
    let attempts = [
        open,
        step(first, u64::MAX),
        step(second, rows),
        Attempt::Abandon,
        Attempt::Abandon,
        Attempt::Close,
        open,
        step(1, rows),
    ];
    entries(heap, &attempts)
}

/// How many cells the steps of a list ask for.
pub fn asked(list: &[Entry]) -> u64 {
    list.iter().fold(
        0,
        |total: u64, entry| total.wrapping_add(entry.attempt.cells() as u64),
    )
}
