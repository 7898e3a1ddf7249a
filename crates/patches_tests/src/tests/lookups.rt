use crate::tests::files::{chunked, entries_are, has_nothing, holds_plain, plain, rows_are};
use patches::column::Column;
use patches::corrections::Corrections;
use patches::iter::{patched_rows_from, patches_from};
use std::process::Abort;
use std::test::Fail;

#[test]
fn no_rows(rt: HostRuntime) {
    let column: Column<i64> = Column::empty();
    has_nothing(&rt, &column, 0, 0);
    assert_eq!(rt; column.chunk_count(), 0);
}

#[test]
fn without_chunk_data(rt: HostRuntime) -> Result<(), Fail> {
    let mut column: Column<i64> = Column::empty();
    column.load(&plain())?;
    holds_plain(&rt, &column);
    rows_are(&rt, &column, &[3, 1023, 1024, 2050]);
    assert!(rt; !column.has_chunk_data());
    assert_eq!(rt; column.chunk_count(), 3);
    assert_eq!(rt; (column.within(), column.chunk_entry(0)), (None, None));
    Ok(())
}

// Each file loads, and the four patches are then found by their chunks.
fn all_hold(rt: &impl Abort, files: &[Corrections<'static, i64>]) -> Result<(), Fail> {
    for file in files {
        let mut column: Column<i64> = Column::empty();
        column.load(file)?;
        holds_plain(rt, &column);
        rows_are(rt, &column, &[3, 1023, 1024, 2050]);
        entries_are(rt, &column, 0, &[0, 2, 3]);
    }
    Ok(())
}

#[test]
fn with_chunk_data(rt: HostRuntime) -> Result<(), Fail> {
    let wide =
        b"\x00\x00\x00\x00\x00\x00\x00\x00\x02\x00\x00\x00\x00\x00\x00\x00\x03\x00\x00\x00\x00\x00\x00\x00";
    all_hold(
        &rt,
        &[
            chunked(plain(), 1, &[0, 2, 3], 0),
            chunked(plain(), 2, &[0, 0, 2, 0, 3, 0], 0),
            chunked(plain(), 4, &[0, 0, 0, 0, 2, 0, 0, 0, 3, 0, 0, 0], 0),
            chunked(plain(), 8, wide, 0),
        ],
    )
}

#[test]
fn from_patch_to_patch(rt: HostRuntime) -> Result<(), Fail> {
    let mut column: Column<i64> = Column::empty();
    column.load(&plain())?;
    let mut patches = patches_from(&column, 1023);
    assert_eq!(rt; patches.next(), Some((1023, 20)));
    assert_eq!(rt; patches.next(), Some((1024, 30)));
    assert_eq!(rt; patches.next(), Some((2050, 40)));
    assert_eq!(rt; patches.next(), None);
    let mut rows = patched_rows_from(&column, 4);
    assert_eq!(rt; (rows.next(), rows.next()), (Some(1023), Some(1024)));
    assert_eq!(rt; (rows.next(), rows.next()), (Some(2050), None));
    assert_eq!(rt; patched_rows_from(&column, 3000).next(), None);
    Ok(())
}
