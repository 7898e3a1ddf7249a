use crate::tests::files::{chunked, file, plain, refused, tabled};
use patches::column::Column;
use patches::refusal::Part;
use std::process::Abort;
use std::test::Fail;

// The value of a cell: that of its patch, or 0.
fn value_at(patches: &[(usize, i64)], cell: usize) -> i64 {
    let found = patches.iter().find(|(place, _)| *place == cell);
    found.map_or(0, |(_, value)| *value)
}

// The cells are 0 but for the patches.
fn cells_are(rt: &impl Abort, cells: &[i64], patches: &[(usize, i64)]) {
    for (place, value) in cells.iter().enumerate() {
        assert_eq!(rt; (place, *value), (place, value_at(patches, place)));
    }
}

// The cells, lent as 0, are corrected to these patches and no more.
fn corrected(
    rt: &impl Abort,
    column: &Column<i64>,
    chunk: u64,
    cells: &mut [i64],
    patches: &[(usize, i64)],
) -> Result<(), Fail> {
    column.patch_chunk(chunk, cells)?;
    cells_are(rt, cells, patches);
    Ok(())
}

// The cells, lent as 0, are left alone, with this refusal.
fn left_alone(
    rt: &impl Abort,
    column: &Column<i64>,
    chunk: u64,
    cells: &mut [i64],
    number: u64,
    place: u64,
) -> Result<(), Fail> {
    refused(
        rt,
        column.patch_chunk(chunk, cells),
        number,
        Part::Column,
        place,
    )?;
    cells_are(rt, cells, &[]);
    Ok(())
}

#[test]
fn chunk_by_chunk(rt: HostRuntime) -> Result<(), Fail> {
    let mut column: Column<i64> = Column::empty();
    column.load(&tabled())?;
    corrected(&rt, &column, 0, &mut [0; 1024], &[(3, 10), (1023, 20)])?;
    corrected(&rt, &column, 1, &mut [0; 1024], &[(0, 30)])?;
    corrected(&rt, &column, 2, &mut [0; 952], &[(2, 40)])
}

#[test]
fn a_chunk_with_no_patch(rt: HostRuntime) -> Result<(), Fail> {
    let two = file(2, &[3, 0, 2, 8], &[10, 40], 3000, 0);
    let mut column: Column<i64> = Column::empty();
    column.load(&chunked(two, 1, &[0, 1, 1], 0))?;
    corrected(&rt, &column, 0, &mut [0; 1024], &[(3, 10)])?;
    corrected(&rt, &column, 1, &mut [0; 1024], &[])?;
    corrected(&rt, &column, 2, &mut [0; 952], &[(2, 40)])
}

#[test]
fn after_narrowing(rt: HostRuntime) -> Result<(), Fail> {
    let mut column: Column<i64> = Column::empty();
    column.load(&tabled())?;
    assert_eq!(rt; column.narrow(1000, 2051)?, Some(3));
    corrected(&rt, &column, 0, &mut [0; 24], &[(23, 20)])?;
    corrected(&rt, &column, 1, &mut [0; 1024], &[(0, 30)])?;
    corrected(&rt, &column, 2, &mut [0; 3], &[(2, 40)])?;
    left_alone(&rt, &column, 3, &mut [0; 3], 16, 3)?;
    assert_eq!(rt; column.narrow(24, 1051)?, Some(2));
    corrected(&rt, &column, 0, &mut [0; 1024], &[(0, 30)])?;
    corrected(&rt, &column, 1, &mut [0; 3], &[(2, 40)])?;
    left_alone(&rt, &column, 2, &mut [0; 3], 16, 2)
}

#[test]
fn refusals(rt: HostRuntime) -> Result<(), Fail> {
    let mut column: Column<i64> = Column::empty();
    column.load(&tabled())?;
    left_alone(&rt, &column, 3, &mut [0; 952], 16, 3)?;
    left_alone(&rt, &column, u64::MAX, &mut [0; 0], 16, u64::MAX)?;
    left_alone(&rt, &column, 0, &mut [0; 1023], 17, 0)?;
    left_alone(&rt, &column, 0, &mut [0; 1025], 17, 0)?;
    left_alone(&rt, &column, 2, &mut [0; 951], 17, 0)?;
    left_alone(&rt, &column, 2, &mut [0; 953], 17, 0)?;
    left_alone(&rt, &column, 1, &mut [0; 0], 17, 0)
}

#[test]
fn no_chunk_data(rt: HostRuntime) -> Result<(), Fail> {
    let mut column: Column<i64> = Column::empty();
    column.load(&plain())?;
    left_alone(&rt, &column, 0, &mut [0; 1024], 15, 0)?;
    left_alone(&rt, &column, 3, &mut [0; 952], 15, 0)?;
    left_alone(&rt, &column, 0, &mut [0; 1], 15, 0)?;
    let mut column: Column<i64> = Column::empty();
    column.load(&tabled())?;
    assert_eq!(rt; column.narrow(1025, 2050)?, None);
    left_alone(&rt, &column, 0, &mut [0; 1023], 15, 0)
}
