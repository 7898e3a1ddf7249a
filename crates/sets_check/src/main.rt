//! Lanes, windows and correction runs over several patch sets, printed. What is expected is written by a model of the
//! rules, tools/sets_check.py.
#![tactic(auto)]

mod agreement;
mod cells;
mod lane_cases;
mod lane_refusals;
mod lists;
mod run_cases;
mod run_refusals;
mod shown;
mod windows;

fn run(rt: &HostRuntime) -> anyhow::Result<()> {
    lane_cases::all(rt)?;
    lane_cases::worked_column(rt)?;
    lane_refusals::loads(rt)?;
    lane_refusals::transpositions(rt)?;
    windows::checks(rt)?;
    windows::narrowed(rt)?;
    run_refusals::all(rt)?;
    run_cases::marks(rt)?;
    run_cases::amounts(rt)
}

fn main(rt: HostRuntime) -> anyhow::Result<()> {
    run(&rt)
}
