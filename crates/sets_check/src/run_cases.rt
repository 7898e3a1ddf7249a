use crate::agreement::agreeing;
use crate::cells::{Cell, buffer, checksum};
use crate::{lists, shown};
use foreign::every::Every;
use lanes::transpose::loads::load_transposed;
use patches::column::Column;
use patches::corrections::{ChunkTable, Corrections};
use patches::patch_set::PatchSet;
use patches::window::Window;
use runs::attempts::{Entry, Run};

// Where a run stands, with its rows and its count where it tells them. The run is spent.
fn spent(run: Run) -> (&'static str, u64, u64) {
    match run {
        Run::Unopened => ("unopened", 0, 0),
        Run::Open(open) => {
            open.abandon();
            ("open", 0, 0)
        }
        Run::Closed(closed) => ("closed", closed.rows(), closed.count()),
        Run::Abandoned => ("abandoned", 0, 0),
    }
}

// Makes a list of attempts with a new run, and so many cells fewer than its steps ask for.
fn attempt_list<V: Cell, S: PatchSet<Value = V>>(
    rt: &HostRuntime,
    set: &S,
    mut list: Vec<Entry>,
    missing: u64,
) -> anyhow::Result<()> {
    let mut cells = buffer::<V>(rt.alloc(), lists::asked(&list).wrapping_sub(missing))?;
    let run = Run::new().attempt_all(set, &mut list, &mut cells);
    let (state, rows, count) = spent(run);
    shown::outcomes(rt, &list)?;
    shown::line(rt, state, &[rows, count, checksum(&cells)])
}

// A whole run and an abandoned one, in each phase.
fn in_phases<V: Cell, S: PatchSet<Value = V>>(
    rt: &HostRuntime,
    name: &str,
    set: &S,
    phases: &[u64],
) -> anyhow::Result<()> {
    let heap = rt.alloc();
    let rows = set.rows();
    for phase in phases {
        shown::line(rt, name, &[*phase])?;
        attempt_list(rt, set, lists::whole(heap, rows, *phase)?, 0)?;
        attempt_list(rt, set, lists::abandoned(heap, rows, *phase)?, 101)?;
    }
    Ok(())
}

// A run over lanes that were written from a set.
fn over_lanes(rt: &HostRuntime, set: &Every, phases: &[u64]) -> anyhow::Result<()> {
    let heap = rt.alloc();
    let mut offsets = buffer(heap, 49)?;
    let mut entries = buffer(heap, 700)?;
    let mut values = buffer(heap, 700)?;
    let lanes = match load_transposed(set, 16, &mut offsets, &mut entries, &mut values) {
        Ok(lanes) => lanes,
        Err(refusal) => return shown::outcome(rt, "lanes for a run", Err(refusal)),
    };
    shown::outcome(rt, "lanes for a run", Ok(()))?;
    shown::line(rt, "  same", &[agreeing(set, &lanes)])?;
    in_phases(rt, "run over lanes", &lanes, phases)
}

/// Runs over a set by a formula, a window of it, lanes written from it, and a set of no rows.
pub fn marks(rt: &HostRuntime) -> anyhow::Result<()> {
    let phases = [0, 1, 1023, 1029];
    let set = Every::new(2100, 3, 2);
    in_phases(rt, "run over every", &set, &phases)?;
    let window = Window::new(&set, 37, 1800);
    in_phases(rt, "run over window", &window, &phases)?;
    over_lanes(rt, &set, &phases)?;
    let nothing = Every::new(0, 3, 2);
    in_phases(rt, "run over no rows", &nothing, &phases)
}

/// Runs over a column of amounts, without and with chunk data.
pub fn amounts(rt: &HostRuntime) -> anyhow::Result<()> {
    let mut file = Corrections {
        width: 2,
        indices: &[5, 0, 6, 0, 255, 3, 4, 4, 5, 4, 56, 8],
        values: &[-100i64, 200, -300, 400, -500, 600],
        rows: 2100,
        offset: 5,
        chunks: None,
    };
    let mut plain = Column::empty();
    shown::outcome(rt, "column", plain.load(&file))?;
    in_phases(rt, "run over column", &plain, &[0, 5])?;
    file.chunks = Some(ChunkTable {
        width: 1,
        entries: &[10, 15, 17],
        within: 2,
    });
    let mut chunked = Column::empty();
    shown::outcome(rt, "column with chunks", chunked.load(&file))?;
    in_phases(rt, "run over column with chunks", &chunked, &[0, 5])
}
