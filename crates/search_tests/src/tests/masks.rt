use search_sorted::SearchResult::{Found, NotFound};
use search_sorted::SearchSortedSide::{Left, Right};
use search_sorted::{RowMask, SearchResult, search_sorted};
use std::test::*;

// So many of the rows are set.
fn counts(rows: u64, bytes: &[u8], set: u64) -> bool {
    RowMask::new(rows, bytes).is_some_and(|mask| {
        mask.rows() == rows && mask.true_count() == set && mask.rank(u64::MAX) == set
    })
}

// The row is set or not, and so many rows before it are set.
fn has(rows: u64, bytes: &[u8], row: u64, is_set: bool, before: u64) -> bool {
    RowMask::new(rows, bytes).is_some_and(|mask| mask.contains(row) == is_set
        && mask.rank(row) == before)
}

// Among the set rows a row has these answers, on the left and on the right.
fn answers(rows: u64, bytes: &[u8], row: u64, left: SearchResult, right: SearchResult) -> bool {
    RowMask::new(rows, bytes).is_some_and(|mask| {
        let set_rows = mask.set_rows();
        search_sorted(&set_rows, &row, Left) == left
            && search_sorted(&set_rows, &row, Right) == right
    })
}

// There is no mask of so many rows in these bytes.
fn refuses(rows: u64, bytes: &[u8]) -> bool {
    RowMask::new(rows, bytes).is_none()
}

#[test]
fn masks_of_the_wrong_size(rt: HostRuntime) -> Result<(), Fail> {
    assert!(rt;
        refuses(0, &[0])
            && refuses(1, &[])
            && refuses(8, &[1, 2])
            && refuses(9, &[1])
            && refuses(u64::MAX, &[1])
            && refuses(u64::MAX, &[])
    );
    Ok(())
}

#[test]
fn no_rows(rt: HostRuntime) -> Result<(), Fail> {
    assert!(rt;
        counts(0, &[], 0)
            && has(0, &[], 0, false, 0)
            && answers(0, &[], 0, NotFound(0), NotFound(0))
    );
    Ok(())
}

#[test]
fn one_row_and_bits_past_it(rt: HostRuntime) -> Result<(), Fail> {
    assert!(rt;
        counts(1, &[255], 1)
            && has(1, &[255], 0, true, 0)
            && has(1, &[255], 1, false, 1)
            && answers(1, &[255], 0, Found(0), Found(1))
            && answers(1, &[255], 1, NotFound(1), NotFound(1))
    );
    Ok(())
}

#[test]
fn seven_and_eight_rows(rt: HostRuntime) -> Result<(), Fail> {
    assert!(rt;
        counts(7, &[255], 7)
            && has(7, &[255], 6, true, 6)
            && has(7, &[255], 7, false, 7)
            && counts(8, &[255], 8)
            && has(8, &[255], 7, true, 7)
            && has(8, &[255], 8, false, 8)
    );
    Ok(())
}

#[test]
fn nine_rows(rt: HostRuntime) -> Result<(), Fail> {
    assert!(rt;
        counts(9, &[1, 255], 2)
            && has(9, &[1, 255], 7, false, 1)
            && has(9, &[1, 255], 8, true, 1)
            && has(9, &[1, 255], 9, false, 2)
    );
    Ok(())
}

#[test]
fn a_search_among_nine_rows(rt: HostRuntime) -> Result<(), Fail> {
    assert!(rt;
        answers(9, &[1, 255], 0, Found(0), Found(1))
            && answers(9, &[1, 255], 5, NotFound(1), NotFound(1))
            && answers(9, &[1, 255], 8, Found(1), Found(2))
            && answers(9, &[1, 255], 9, NotFound(2), NotFound(2))
            && answers(9, &[1, 255], u64::MAX, NotFound(2), NotFound(2))
    );
    Ok(())
}

// 33 is 1 + 32: rows 0 and 5. 128 is row 7 of its byte.
#[test]
fn the_least_bit_is_the_first_row(rt: HostRuntime) -> Result<(), Fail> {
    assert!(rt;
        counts(16, &[33, 128], 3)
            && has(16, &[33, 128], 2, false, 1)
            && has(16, &[33, 128], 5, true, 1)
            && has(16, &[33, 128], 8, false, 2)
            && has(16, &[33, 128], 15, true, 2)
    );
    Ok(())
}
