use crate::cells::{blank_from, buffer};
use crate::shown;
use foreign::every::Every;
use foreign::mark::Mark;
use patches::patch_set::PatchSet;
use patches::window::Window;
use runs::run::{OpenRun, Unfinished};

// Opens a run for so many rows, and abandons it.
fn opening(rt: &HostRuntime, name: &str, rows: u64) -> anyhow::Result<()> {
    shown::outcome(rt, name, OpenRun::open(rows, 0).map(OpenRun::abandon))
}

// Hands a run some cells, blank at first, and says how many are blank afterwards.
fn hand<S: PatchSet<Value = Mark>>(
    rt: &HostRuntime,
    run: &mut OpenRun,
    set: &S,
    name: &str,
    n: u64,
) -> anyhow::Result<()> {
    let mut cells = buffer(rt.alloc(), n)?;
    shown::outcome(rt, name, run.step(set, &mut cells))?;
    shown::line(rt, "  blank", &[blank_from(&cells, 0), n])
}

// Closes a run, and says its rows and its count. A refused one is abandoned.
fn ended(rt: &HostRuntime, run: OpenRun) -> anyhow::Result<()> {
    match run.close() {
        Ok(closed) => shown::line(rt, "closed", &[closed.rows(), closed.count()]),
        Err(Unfinished { run, refusal }) => {
            run.abandon();
            shown::outcome(rt, "abandoned", Err(refusal))
        }
    }
}

// Steps that are refused at the first chunk, of 4 rows.
fn refused_steps(rt: &HostRuntime, run: &mut OpenRun, set: &Every) -> anyhow::Result<()> {
    let fewer = Window::new(set, 0, 1029);
    hand(rt, run, set, "a cell too few", 3)?;
    hand(rt, run, set, "a cell too many", 5)?;
    hand(rt, run, &fewer, "a row of the set too few", 4)?;
    hand(rt, run, &fewer, "a cell and a row too few", 3)
}

// The steps through all chunks, and one too many.
fn accepted_steps(rt: &HostRuntime, run: &mut OpenRun, set: &Every) -> anyhow::Result<()> {
    let whole = Window::new(set, 0, u64::MAX);
    hand(rt, run, set, "first chunk", 4)?;
    hand(rt, run, &whole, "second chunk", 1024)?;
    hand(rt, run, set, "second chunk again", 1024)?;
    hand(rt, run, set, "last chunk", 2)?;
    hand(rt, run, set, "after the last chunk", 2)?;
    hand(rt, run, set, "after the last chunk", 0)
}

// A run for 1030 rows in phase 1020, with chunks of 4, 1024 and 2 rows, that is closed too early and then goes on.
fn with_refusals(rt: &HostRuntime) -> anyhow::Result<()> {
    let set = Every::new(1030, 2, 1);
    let Ok(mut run) = OpenRun::open(1030, 1020) else {
        return Ok(());
    };
    let refused = refused_steps(rt, &mut run, &set);
    let Err(Unfinished { mut run, refusal }) = run.close() else {
        return refused;
    };
    // a `?` here would drop the run, so a failed print waits until it ends
    let early = shown::outcome(rt, "closed at once", Err(refusal));
    let accepted = accepted_steps(rt, &mut run, &set);
    ended(rt, run)?;
    refused?;
    early?;
    accepted
}

// A run for no rows: there is no chunk, and it can be closed at once.
fn for_no_rows(rt: &HostRuntime) -> anyhow::Result<()> {
    let set = Every::new(0, 2, 1);
    let Ok(mut run) = OpenRun::open(0, 7) else {
        return Ok(());
    };
    let refused = hand(rt, &mut run, &set, "a step for no rows", 0);
    ended(rt, run)?;
    refused
}

/// Openings, steps and closings that are refused, each leaving the run and the cells as they were.
pub fn all(rt: &HostRuntime) -> anyhow::Result<()> {
    opening(rt, "open 2147483649", 2147483649)?;
    opening(rt, "open 2147483648", 2147483648)?;
    opening(rt, "open max", u64::MAX)?;
    for_no_rows(rt)?;
    with_refusals(rt)
}
