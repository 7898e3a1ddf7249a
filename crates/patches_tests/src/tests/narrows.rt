use crate::tests::files::{
    entries_are, has_nothing, holds_plain, looks_up, plain, refused, rows_are, tabled,
};
use patches::column::Column;
use patches::refusal::Part;
use search_sorted::SearchResult::{Found, NotFound};
use std::process::Abort;
use std::test::Fail;

// The rows 1000..2051 of the 3000.
fn holds_middle(rt: &impl Abort, column: &Column<i64>) {
    assert_eq!(rt; (column.rows(), column.offset()), (1051, 1000));
    rows_are(rt, column, &[23, 24, 1050]);
    looks_up(
        rt,
        column,
        &[
            (0, NotFound(0), None),
            (3, NotFound(0), None),
            (23, Found(0), Some(20)),
            (24, Found(1), Some(30)),
            (25, NotFound(2), None),
            (1048, NotFound(2), None),
            (1050, Found(2), Some(40)),
            (1051, NotFound(3), None),
            (u64::MAX, NotFound(3), None),
        ],
    );
}

// The rows 1024..2051 of the 3000.
fn holds_end(rt: &impl Abort, column: &Column<i64>) {
    assert_eq!(rt; (column.rows(), column.offset()), (1027, 1024));
    rows_are(rt, column, &[0, 1026]);
    looks_up(
        rt,
        column,
        &[
            (0, Found(0), Some(30)),
            (1, NotFound(1), None),
            (1024, NotFound(1), None),
            (1026, Found(1), Some(40)),
            (1027, NotFound(2), None),
        ],
    );
}

#[test]
fn twice_with_chunk_data(rt: HostRuntime) -> Result<(), Fail> {
    let mut column: Column<i64> = Column::empty();
    column.load(&tabled())?;
    assert_eq!(rt; column.narrow(1000, 2051)?, Some(3));
    holds_middle(&rt, &column);
    entries_are(&rt, &column, 1, &[0, 2, 3]);
    assert_eq!(rt; column.narrow(24, 1051)?, Some(2));
    holds_end(&rt, &column);
    entries_are(&rt, &column, 0, &[2, 3]);
    Ok(())
}

#[test]
fn twice_without_chunk_data(rt: HostRuntime) -> Result<(), Fail> {
    let mut column: Column<i64> = Column::empty();
    column.load(&plain())?;
    assert_eq!(rt; column.narrow(1000, 2051)?, Some(3));
    holds_middle(&rt, &column);
    assert_eq!(rt; column.narrow(24, 1051)?, Some(2));
    holds_end(&rt, &column);
    assert!(rt; !column.has_chunk_data());
    Ok(())
}

#[test]
fn to_one_patch(rt: HostRuntime) -> Result<(), Fail> {
    let mut column: Column<i64> = Column::empty();
    column.load(&tabled())?;
    assert_eq!(rt; column.narrow(1023, 1024)?, Some(1));
    assert_eq!(rt; (column.rows(), column.offset()), (1, 1023));
    rows_are(&rt, &column, &[0]);
    entries_are(&rt, &column, 1, &[0]);
    assert_eq!(rt; column.get_patched(0), Some(20));
    column.load(&tabled())?;
    assert_eq!(rt; column.narrow(2050, 3000)?, Some(1));
    assert_eq!(rt; (column.rows(), column.offset()), (950, 2050));
    rows_are(&rt, &column, &[0]);
    entries_are(&rt, &column, 0, &[3]);
    assert_eq!(rt; column.get_patched(0), Some(40));
    Ok(())
}

#[test]
fn to_no_patch(rt: HostRuntime) -> Result<(), Fail> {
    let mut column: Column<i64> = Column::empty();
    column.load(&tabled())?;
    assert_eq!(rt; column.narrow(1025, 2050)?, None);
    has_nothing(&rt, &column, 1025, 1025);
    assert_eq!(rt; column.narrow(25, 25)?, None);
    has_nothing(&rt, &column, 0, 1050);
    assert_eq!(rt; column.chunk_count(), 0);
    for a in [0, 3, 1023, 3000] {
        column.load(&tabled())?;
        assert_eq!(rt; column.narrow(a, a)?, None);
        has_nothing(&rt, &column, 0, a);
    }
    Ok(())
}

#[test]
fn to_all_rows(rt: HostRuntime) -> Result<(), Fail> {
    let mut column: Column<i64> = Column::empty();
    column.load(&tabled())?;
    assert_eq!(rt; column.narrow(0, 3000)?, Some(4));
    holds_plain(&rt, &column);
    entries_are(&rt, &column, 0, &[0, 2, 3]);
    Ok(())
}

#[test]
fn to_no_such_rows(rt: HostRuntime) -> Result<(), Fail> {
    let mut column: Column<i64> = Column::empty();
    column.load(&tabled())?;
    for (a, b) in [
        (5, 4),
        (3000, 0),
        (0, 3001),
        (3001, 3001),
        (0, u64::MAX),
        (u64::MAX, 0),
        (u64::MAX, u64::MAX),
    ] {
        refused(&rt, column.narrow(a, b), 9, Part::Selection, 0)?;
        holds_plain(&rt, &column);
        entries_are(&rt, &column, 0, &[0, 2, 3]);
    }
    Ok(())
}
