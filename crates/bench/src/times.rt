use crate::work::{add_lookups, patch_all};
use anyhow::anyhow;
use patches::column::Column;
use patches::corrections::Corrections;
use patches::refusal::Refusal;
use std::time::Instant;

const REPEATS: u64 = 5;

// The least time that a piece of work took, and how often it was accepted.
#[derive(Clone, Copy)]
struct Timing {
    least: u128,
    accepted: u64,
}

// Does a piece of work again and again.
fn time<F: FnMut() -> Result<(), Refusal>>(rt: &HostRuntime, mut work: F) -> anyhow::Result<Timing>
    requires { F.IsAlwaysCallable work }
{
    let mut timing = Timing {
        least: u128::MAX,
        accepted: 0,
    };
    for _ in 0..REPEATS {
        let start = Instant::now(rt)?;
        let result = work();
        timing.least = timing.least.min(start.elapsed(rt)?.as_nanos());
        timing.accepted = timing.accepted.wrapping_add(u64::from(result.is_ok()));
    }
    Ok(timing)
}

/// Loads a column again and again. Prints the least time, and how often the column was loaded.
pub fn time_load<'a>(
    rt: &HostRuntime,
    name: &str,
    column: &mut Column<'a, i64>,
    file: &Corrections<'a, i64>,
) -> anyhow::Result<()> {
    let Timing { least, accepted } = time(rt, || column.load(file))?;
    eprintln!(rt; "{name} {least}")?;
    println!(rt; "{name} {accepted}")?;
    Ok(())
}

/// Looks rows up again and again. Prints the least time, and the sum of all repeats.
pub fn time_lookups(
    rt: &HostRuntime,
    name: &str,
    column: &Column<i64>,
    rows: &[u64],
) -> anyhow::Result<()> {
    let mut sum: i64 = 0;
    let timing = time(rt, || {
        sum = add_lookups(column, rows, sum);
        Ok(())
    })?;
    eprintln!(rt; "{name} {}", timing.least)?;
    println!(rt; "{name} {sum}")?;
    Ok(())
}

/// Corrects a history again and again. Prints the least time.
pub fn time_patches(
    rt: &HostRuntime,
    column: &Column<i64>,
    history: &mut [i64],
) -> anyhow::Result<()> {
    if history.len() as u64 != column.rows() {
        return Err(anyhow!("the history has not as many cells as the column has rows"));
    }
    let Timing { least, accepted } = time(rt, || patch_all(column, history))?;
    if accepted < REPEATS {
        return Err(anyhow!("a chunk was refused"));
    }
    eprintln!(rt; "patch_chunk {least}")?;
    Ok(())
}
