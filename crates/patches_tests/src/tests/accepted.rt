use crate::tests::files::{
    chunked, entries_are, file, has_nothing, holds_plain, plain, refused, tabled,
};
use patches::column::Column;
use patches::corrections::Corrections;
use patches::refusal::Part;
use search_sorted::SearchResult::{Found, NotFound};
use std::process::Abort;
use std::test::Fail;

// Each file loads, its last row has the patch 10 and no other row has one.
fn last_is_patched(rt: &impl Abort, files: &[Corrections<'static, i64>]) -> Result<(), Fail> {
    for file in files {
        let mut column: Column<i64> = Column::empty();
        column.load(file)?;
        assert_eq!(rt; (column.rows(), column.offset()), (file.rows, file.offset));
        assert_eq!(rt; column.num_patches(), 1);
        let last = file.rows.saturating_sub(1);
        assert_eq!(rt; column.patched_row(0), Some(last));
        assert_eq!(rt; (last, column.search_index(last)), (last, Found(0)));
        assert_eq!(rt; column.get_patched(last), Some(10));
        assert_eq!(rt; column.search_index(file.rows), NotFound(1));
        assert_eq!(rt; column.get_patched(file.rows), None);
    }
    Ok(())
}

#[test]
fn widths_and_rows(rt: HostRuntime) -> Result<(), Fail> {
    last_is_patched(
        &rt,
        &[
            file(1, &[0], &[10], 1, 0),
            file(1, &[7], &[10], 8, 0),
            file(1, &[255], &[10], 256, 0),
            file(2, &[254, 3], &[10], 1023, 0),
            file(2, &[255, 3], &[10], 1024, 0),
            file(2, &[0, 4], &[10], 1025, 0),
            file(4, &[0, 4, 0, 0], &[10], 1025, 0),
            file(8, &[0, 4, 0, 0, 0, 0, 0, 0], &[10], 1025, 0),
            file(1, &[17], &[10], 8, 10),
        ],
    )
}

#[test]
fn chunked_rows(rt: HostRuntime) -> Result<(), Fail> {
    last_is_patched(
        &rt,
        &[
            chunked(file(1, &[0], &[10], 1, 0), 1, &[0], 0),
            chunked(file(2, &[254, 3], &[10], 1023, 0), 1, &[0], 0),
            chunked(file(2, &[255, 3], &[10], 1024, 0), 1, &[0], 0),
            chunked(file(2, &[0, 4], &[10], 1025, 0), 1, &[0, 0], 0),
            chunked(file(2, &[0, 4], &[10], 25, 1000), 2, &[0, 0, 9, 0], 9),
            chunked(file(2, &[12, 4], &[10], 8, 1029), 1, &[0], 5),
            chunked(file(1, &[5], &[10], 6, 0), 4, &[0, 0, 0, 128], 0),
            chunked(
                file(1, &[5], &[10], 6, 0),
                8,
                &[0, 0, 0, 128, 0, 0, 0, 0],
                0,
            ),
        ],
    )
}

#[test]
fn the_limit_itself(rt: HostRuntime) -> Result<(), Fail> {
    let near = file(4, &[255, 255, 255, 127], &[10], 8, 2147483640);
    last_is_patched(
        &rt,
        &[
            near,
            chunked(near, 1, &[0], 1016),
            file(8, &[255, 255, 255, 127, 0, 0, 0, 0], &[10], 8, 2147483640),
            file(4, &[255, 255, 255, 127], &[10], 1, 2147483647),
            file(4, &[255, 255, 255, 127], &[10], 2147483648, 0),
        ],
    )
}

#[test]
fn entries_counted_from_a_base(rt: HostRuntime) -> Result<(), Fail> {
    let mut column: Column<i64> = Column::empty();
    column.load(&chunked(plain(), 1, &[5, 7, 8], 0))?;
    holds_plain(&rt, &column);
    entries_are(&rt, &column, 0, &[5, 7, 8]);
    Ok(())
}

#[test]
fn a_second_load_replaces_the_first(rt: HostRuntime) -> Result<(), Fail> {
    let mut column: Column<i64> = Column::empty();
    column.load(&tabled())?;
    column.load(&file(1, &[17], &[70], 8, 10))?;
    assert_eq!(rt; (column.rows(), column.offset()), (8, 10));
    assert!(rt; !column.has_chunk_data());
    assert_eq!(rt; column.get_patched(7), Some(70));
    assert_eq!(rt; column.get_patched(3), None);
    column.load(&tabled())?;
    holds_plain(&rt, &column);
    entries_are(&rt, &column, 0, &[0, 2, 3]);
    Ok(())
}

#[test]
fn clears(rt: HostRuntime) -> Result<(), Fail> {
    let mut column: Column<i64> = Column::empty();
    column.load(&tabled())?;
    refused(&rt, column.clear(2147483649), 5, Part::Column, 0)?;
    refused(&rt, column.clear(u64::MAX), 5, Part::Column, 0)?;
    holds_plain(&rt, &column);
    entries_are(&rt, &column, 0, &[0, 2, 3]);
    column.clear(0)?;
    has_nothing(&rt, &column, 0, 0);
    assert_eq!(rt; column.chunk_count(), 0);
    column.clear(2147483648)?;
    has_nothing(&rt, &column, 2147483648, 0);
    assert_eq!(rt; column.chunk_count(), 2097152);
    Ok(())
}
