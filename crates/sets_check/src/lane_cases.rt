use crate::agreement::agreeing;
use crate::cells::{blank_from, buffer, checksum, front};
use crate::shown;
use foreign::every::Every;
use foreign::mark::Mark;
use lanes::lanes::{LaneTables, Lanes};
use lanes::transpose::{TableSizes, transpose};
use patches::chunks::chunk_total;
use patches::column::Column;
use patches::corrections::Corrections;
use patches::patch_set::PatchSet;

const ROWS: [u64; 6] = [0, 1, 1023, 1024, 1025, 3000];

const LANES: [u64; 4] = [1, 2, 16, 1024];

const STEPS: [u64; 3] = [1, 7, 4];

// How much was written, with checksums, and how much stands after it as it was.
fn show_written(
    rt: &HostRuntime,
    sizes: TableSizes,
    offsets: &[u32],
    entries: &[u16],
    values: &[Mark],
) -> anyhow::Result<()> {
    let TableSizes {
        offsets: ends,
        entries: count,
    } = sizes;
    shown::line(
        rt,
        "  wrote",
        &[
            ends as u64,
            count as u64,
            checksum(front(offsets, ends)),
            checksum(front(entries, count)),
            checksum(front(values, count)),
            blank_from(offsets, ends),
            blank_from(entries, count),
            blank_from(values, count),
        ],
    )
}

// Loads tables, and compares them with the set that they were written from.
fn show_loaded(rt: &HostRuntime, set: &Every, tables: &LaneTables<Mark>) -> anyhow::Result<()> {
    let loaded = match Lanes::load(tables) {
        Ok(loaded) => loaded,
        Err(refusal) => return shown::outcome(rt, "  load", Err(refusal)),
    };
    shown::outcome(rt, "  load", Ok(()))?;
    let patches = loaded.num_patches() as u64;
    let same = agreeing(set, &loaded);
    shown::line(
        rt,
        "  loaded",
        &[loaded.rows(), loaded.lane_count(), patches, same],
    )
}

// Writes a set in lanes, to outputs that are a little too long, and loads what was written.
fn lane_case(rt: &HostRuntime, set: &Every, lanes: u64) -> anyhow::Result<()> {
    let heap = rt.alloc();
    let rows = set.rows();
    let count = set.below(rows);
    let lane_total = chunk_total(0, rows).wrapping_mul(lanes);
    let mut offsets = buffer(heap, lane_total.wrapping_add(4))?;
    let mut entries = buffer(heap, count.wrapping_add(2))?;
    let mut values = buffer(heap, count.wrapping_add(5))?;
    let written = transpose(set, lanes, &mut offsets, &mut entries, &mut values);
    let Ok(sizes) = written else {
        return shown::line(rt, "  refused", &[]);
    };
    show_written(rt, sizes, &offsets, &entries, &values)?;
    let tables = LaneTables {
        rows,
        lanes,
        offsets: front(&offsets, sizes.offsets),
        entries: front(&entries, sizes.entries),
        values: front(&values, sizes.entries),
    };
    show_loaded(rt, set, &tables)
}

/// Each number of rows and of lanes, with all rows patched, and with some.
pub fn all(rt: &HostRuntime) -> anyhow::Result<()> {
    for rows in ROWS {
        for step in STEPS {
            let set = Every::new(rows, step, 3);
            for lanes in LANES {
                shown::line(rt, "lanes", &[rows, step, lanes])?;
                lane_case(rt, &set, lanes)?;
            }
        }
    }
    Ok(())
}

/// A column of three patches in two lanes.
pub fn worked_column(rt: &HostRuntime) -> anyhow::Result<()> {
    let mut column = Column::empty();
    let file = Corrections {
        width: 1,
        indices: &[2, 5, 6],
        values: &[7i64, 8, 9],
        rows: 8,
        offset: 0,
        chunks: None,
    };
    shown::outcome(rt, "Q load", column.load(&file))?;
    let mut offsets = [77u32; 3];
    let mut entries = [77u16; 3];
    let mut values = [77i64; 3];
    let written = transpose(&column, 2, &mut offsets, &mut entries, &mut values).is_ok();
    println!(rt; "Q {written} {offsets:?} {entries:?} {values:?}")?;
    Ok(())
}
