use crate::tests::files::{chunked, file, holds_plain, plain, refused, tabled};
use patches::column::Column;
use patches::corrections::Corrections;
use patches::refusal::{Part, Reason, Refusal};
use std::process::Abort;
use std::test::Fail;

// Each file is refused with its number and place, and the column stays as it was.
fn all_refused(
    rt: &impl Abort,
    cases: &[(Corrections<'static, i64>, u64, u64)],
) -> Result<(), Fail> {
    let mut column: Column<i64> = Column::empty();
    column.load(&tabled())?;
    for (file, number, place) in cases {
        refused(rt, column.load(file), *number, Part::Column, *place)?;
        holds_plain(rt, &column);
    }
    Ok(())
}

#[test]
fn widths(rt: HostRuntime) -> Result<(), Fail> {
    all_refused(
        &rt,
        &[
            (file(0, &[1], &[10], 8, 0), 1, 0),
            (file(3, &[1, 0, 0], &[10], 8, 0), 1, 0),
            (
                file(
                    16,
                    &[1, 0, 0, 0, 0, 0, 0, 0, 0, 0, 0, 0, 0, 0, 0, 0],
                    &[10],
                    8,
                    0,
                ),
                1,
                0,
            ),
            (file(u64::MAX, &[1], &[10], 8, 0), 1, 0),
        ],
    )
}

#[test]
fn counts(rt: HostRuntime) -> Result<(), Fail> {
    all_refused(
        &rt,
        &[
            (file(2, &[1, 0, 2], &[10], 8, 0), 2, 0),
            (file(4, &[1, 0, 0, 0, 2], &[10], 8, 0), 2, 0),
            (file(8, &[1, 0, 0, 0, 0, 0, 0], &[10], 8, 0), 2, 0),
            (file(1, &[], &[], 8, 0), 3, 0),
            (file(8, &[], &[], 8, 0), 3, 0),
            (file(1, &[1, 2], &[10], 8, 0), 4, 0),
            (file(1, &[1, 2], &[10, 20, 30], 8, 0), 4, 0),
            (file(2, &[1, 0, 2, 0], &[10], 8, 0), 4, 0),
        ],
    )
}

#[test]
fn limits(rt: HostRuntime) -> Result<(), Fail> {
    all_refused(
        &rt,
        &[
            (file(1, &[1], &[10], 2147483649, 0), 5, 0),
            (file(1, &[1], &[10], 2147483648, 1), 5, 0),
            (file(4, &[255, 255, 255, 127], &[10], 8, 2147483641), 5, 0),
            (file(1, &[1], &[10], 1, 2147483648), 5, 0),
            (file(1, &[1], &[10], u64::MAX, 0), 5, 0),
            (file(1, &[1], &[10], 1, u64::MAX), 5, 0),
            (file(1, &[1], &[10], u64::MAX, u64::MAX), 5, 0),
        ],
    )
}

#[test]
fn orders(rt: HostRuntime) -> Result<(), Fail> {
    all_refused(
        &rt,
        &[
            (file(1, &[5, 5], &[10, 20], 8, 0), 6, 1),
            (file(1, &[0, 1, 5, 4], &[10, 20, 30, 40], 8, 0), 6, 3),
            (
                file(2, &[3, 0, 255, 3, 0, 4, 255, 3], &[10, 20, 30, 40], 3000, 0),
                6,
                3,
            ),
            (
                file(
                    4,
                    &[1, 0, 0, 0, 0, 1, 0, 0, 255, 0, 0, 0],
                    &[10, 20, 30],
                    3000,
                    0,
                ),
                6,
                2,
            ),
            (
                file(
                    8,
                    &[0, 1, 0, 0, 0, 0, 0, 0, 255, 0, 0, 0, 0, 0, 0, 0],
                    &[10, 20],
                    3000,
                    0,
                ),
                6,
                1,
            ),
        ],
    )
}

#[test]
fn ranges(rt: HostRuntime) -> Result<(), Fail> {
    all_refused(
        &rt,
        &[
            (file(1, &[9, 12], &[10, 20], 8, 10), 7, 0),
            (file(1, &[10, 12, 18], &[10, 20, 30], 8, 10), 7, 2),
            (file(1, &[9, 18], &[10, 20], 8, 10), 7, 0),
            (file(1, &[8], &[10], 8, 0), 7, 0),
            (file(1, &[1, 2, 8], &[10, 20, 30], 8, 0), 7, 2),
            (file(1, &[0], &[10], 0, 0), 7, 0),
            (
                file(8, &[255, 255, 255, 255, 255, 255, 255, 255], &[10], 8, 0),
                7,
                0,
            ),
        ],
    )
}

#[test]
fn chunk_tables(rt: HostRuntime) -> Result<(), Fail> {
    all_refused(
        &rt,
        &[
            (chunked(plain(), 3, &[0, 0, 0, 2, 0, 0, 3, 0, 0], 0), 8, 0),
            (chunked(plain(), 0, &[], 0), 8, 0),
            (chunked(plain(), 1, &[0, 2], 0), 8, 0),
            (chunked(plain(), 2, &[0, 0, 2, 0, 3], 0), 8, 0),
            (chunked(plain(), 1, &[0, 2, 3, 4], 0), 8, 0),
            (chunked(plain(), 1, &[], 0), 8, 0),
            (chunked(plain(), 1, &[0, 2, 3], 1), 8, 0),
            (chunked(plain(), 1, &[0, 2, 3], u64::MAX), 8, 0),
            (chunked(file(2, &[6, 4], &[10], 8, 1029), 1, &[0], 6), 8, 0),
            (
                chunked(file(1, &[5], &[10], 8, 0), 4, &[1, 0, 0, 128], 0),
                8,
                0,
            ),
            (
                chunked(
                    file(1, &[5], &[10], 8, 0),
                    8,
                    &[1, 0, 0, 128, 0, 0, 0, 0],
                    0,
                ),
                8,
                0,
            ),
        ],
    )
}

#[test]
fn chunk_entries(rt: HostRuntime) -> Result<(), Fail> {
    let later = file(2, &[255, 3, 0, 4, 2, 8], &[20, 30, 40], 1051, 1000);
    all_refused(
        &rt,
        &[
            (chunked(plain(), 1, &[0, 1, 3], 0), 8, 1),
            (chunked(plain(), 1, &[0, 3, 3], 0), 8, 1),
            (chunked(plain(), 1, &[0, 255, 3], 0), 8, 1),
            (chunked(plain(), 1, &[3, 2, 3], 0), 8, 1),
            (chunked(plain(), 1, &[0, 2, 2], 0), 8, 2),
            (chunked(plain(), 1, &[0, 2, 4], 0), 8, 2),
            (chunked(plain(), 1, &[5, 7, 3], 0), 8, 2),
            (chunked(plain(), 2, &[0, 0, 3, 0, 4, 0], 0), 8, 1),
            (chunked(later, 1, &[0, 2, 3], 0), 8, 1),
            (chunked(later, 1, &[0, 2, 3], 2), 8, 1),
        ],
    )
}

#[test]
fn the_lower_number_decides(rt: HostRuntime) -> Result<(), Fail> {
    all_refused(
        &rt,
        &[
            (file(0, &[], &[], 8, 0), 1, 0),
            (file(2, &[1, 0, 2], &[10, 20, 30], 8, 0), 2, 0),
            (file(1, &[], &[10], 8, 0), 3, 0),
            (file(1, &[1, 2], &[10], 2147483649, 0), 4, 0),
            (file(1, &[5, 5], &[10, 20], 2147483649, 0), 5, 0),
            (file(1, &[1, 9, 9], &[10, 20, 30], 8, 0), 6, 2),
            (chunked(file(1, &[9], &[10], 8, 0), 3, &[0], 9), 7, 0),
            (
                chunked(file(1, &[1, 9], &[10, 20], 8, 0), 1, &[0, 0], 0),
                7,
                1,
            ),
            (chunked(plain(), 1, &[0, 9, 9], 1), 8, 0),
            (chunked(file(3, &[5, 5], &[], u64::MAX, 1), 3, &[], 9), 1, 0),
        ],
    )
}

#[test]
fn texts(rt: HostRuntime) -> Result<(), Fail> {
    let refusal = Refusal {
        reason: Reason::ChunkData,
        part: Part::Column,
        place: 2,
    };
    let text = format!(in rt.alloc(); "{refusal}")?;
    assert_eq!(rt;
        text.as_str(),
        "refusal 8 (column, place 2): the chunk data do not fit the indices from this chunk on; load without them or have them made again"
    );
    let refusal = Refusal {
        reason: Reason::RowRange,
        part: Part::Selection,
        place: u64::MAX,
    };
    let text = format!(in rt.alloc(); "{refusal}")?;
    assert!(rt;
        text.as_str()
            .starts_with("refusal 9 (selection, place 18446744073709551615): ")
    );
    Ok(())
}
