use crate::shown;
use foreign::every::Every;
use patches::patch_set::PatchSet;
use patches::window::Window;

/// Ranges of rows of a set of 20 rows that are there, and others.
pub fn checks(rt: &HostRuntime) -> anyhow::Result<()> {
    let set = Every::new(20, 3, 1);
    for (name, a, b) in [
        ("window 3..2", 3u64, 2u64),
        ("window 0..21", 0, 21),
        ("window 21..21", 21, 21),
        ("window 20..max", 20, u64::MAX),
        ("window 20..20", 20, 20),
        ("window 0..0", 0, 0),
        ("window 5..10", 5, 10),
        ("window 0..20", 0, 20),
    ] {
        shown::outcome(rt, name, Window::check(&set, a, b))?;
    }
    Ok(())
}

// What a window answers at some rows.
fn show_window(rt: &HostRuntime, window: &Window<Every>) -> anyhow::Result<()> {
    shown::line(rt, "  rows", &[window.rows()])?;
    for row in [0, 1, 2, 3, 6, 7, 19, 20, u64::MAX] {
        let below = window.below(row);
        let next = window.next(row);
        let found = window.find(row);
        println!(rt; "  {row}: {below} {next:?} {found:?}")?;
    }
    Ok(())
}

/// Windows of windows of a set of 50 rows, with ends past the rows and turned round.
pub fn narrowed(rt: &HostRuntime) -> anyhow::Result<()> {
    let set = Every::new(50, 3, 1);
    for (a, b, c, d) in [
        (10u64, 30u64, 5u64, 12u64),
        (10, 30, 5, 99),
        (10, 30, 12, 5),
        (30, 10, 0, 5),
        (10, 99, 3, u64::MAX),
        (60, 99, 1, 2),
        (0, 50, 0, 50),
        (10, 30, 20, 20),
        (10, u64::MAX, 39, 40),
    ] {
        shown::line(rt, "narrowed", &[a, b, c, d])?;
        let window = Window::new(&set, a, b);
        show_window(rt, &window.narrow(c, d))?;
    }
    Ok(())
}
