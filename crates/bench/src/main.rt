#![tactic(auto)]

mod generator;
mod inputs;
mod times;
mod work;

use inputs::{PATCHES, ROWS};
use patches::column::Column;
use patches::corrections::{ChunkTable, Corrections};

fn corrections<'a>(indices: &'a [u8], values: &'a [i64]) -> Corrections<'a, i64> {
    Corrections {
        width: 4,
        indices,
        values,
        rows: ROWS,
        offset: 0,
        chunks: None,
    }
}

// Loads and looks up without chunk data, makes them, and then does the same with them, and corrects a history.
fn run(rt: &HostRuntime) -> anyhow::Result<()> {
    let heap = rt.alloc();
    let indices = inputs::make_indices(heap)?;
    let values = inputs::make_values(heap)?;
    let rows = inputs::make_rows(heap)?;
    let mut file = corrections(&indices, &values);
    let mut plain = Column::empty();
    times::time_load(rt, "load", &mut plain, &file)?;
    let entries = inputs::make_entries(heap, &plain)?;
    file.chunks = Some(ChunkTable {
        width: 4,
        entries: &entries,
        within: 0,
    });
    let mut chunked = Column::empty();
    times::time_load(rt, "load_with_chunks", &mut chunked, &file)?;
    times::time_lookups(rt, "lookup", &plain, &rows)?;
    times::time_lookups(rt, "lookup_with_chunks", &chunked, &rows)?;
    let mut history = vec![in heap; 0i64; ROWS as usize]?;
    times::time_patches(rt, &chunked, &mut history)?;
    let sum = work::mixed(&history);
    println!(rt; "patch_chunk {sum}")?;
    Ok(())
}

fn main(rt: HostRuntime) -> anyhow::Result<()> {
    run(&rt)
}
