use patches::column::Column;
use patches::corrections::{ChunkTable, Corrections};
use patches::refusal::{Part, Refusal};
use search_sorted::SearchResult;
use search_sorted::SearchResult::{Found, NotFound};
use std::process::Abort;
use std::test::Fail;

// Corrections without chunk data.
pub(crate) fn file<'a>(
    width: u64,
    indices: &'a [u8],
    values: &'a [i64],
    rows: u64,
    offset: u64,
) -> Corrections<'a, i64> {
    Corrections {
        width,
        indices,
        values,
        rows,
        offset,
        chunks: None,
    }
}

// The same corrections with chunk data.
pub(crate) fn chunked<'a>(
    file: Corrections<'a, i64>,
    width: u64,
    entries: &'a [u8],
    within: u64,
) -> Corrections<'a, i64> {
    Corrections {
        chunks: Some(ChunkTable {
            width,
            entries,
            within,
        }),
        ..file
    }
}

// Patches at 3, 1023, 1024 and 2050 of 3000 rows; chunks 0, 1 and 2 have 2, 1 and 1 of them.
pub(crate) fn plain() -> Corrections<'static, i64> {
    file(2, &[3, 0, 255, 3, 0, 4, 2, 8], &[10, 20, 30, 40], 3000, 0)
}

pub(crate) fn tabled() -> Corrections<'static, i64> {
    chunked(plain(), 1, &[0, 2, 3], 0)
}

// The call refused with this number, part and place.
pub(crate) fn refused<T: Drop>(
    rt: &impl Abort,
    answer: Result<T, Refusal>,
    number: u64,
    part: Part,
    place: u64,
) -> Result<(), Fail> {
    let Err(refusal) = answer else {
        return Err(Fail::new("accepted"));
    };
    assert_eq!(rt;
        (refusal.reason.number(), refusal.part, refusal.place),
        (number, part, place)
    );
    Ok(())
}

// Each row of the table is looked up so, and has this patch.
pub(crate) fn looks_up(
    rt: &impl Abort,
    column: &Column<i64>,
    table: &[(u64, SearchResult, Option<i64>)],
) {
    for (row, found, patch) in table {
        assert_eq!(rt; (*row, column.search_index(*row)), (*row, *found));
        assert_eq!(rt; (*row, column.get_patched(*row)), (*row, *patch));
    }
}

// The column holds the four patches among 3000 rows.
pub(crate) fn holds_plain(rt: &impl Abort, column: &Column<i64>) {
    assert_eq!(rt; (column.rows(), column.offset()), (3000, 0));
    assert_eq!(rt; column.num_patches(), 4);
    looks_up(
        rt,
        column,
        &[
            (0, NotFound(0), None),
            (3, Found(0), Some(10)),
            (4, NotFound(1), None),
            (1022, NotFound(1), None),
            (1023, Found(1), Some(20)),
            (1024, Found(2), Some(30)),
            (1025, NotFound(3), None),
            (2047, NotFound(3), None),
            (2048, NotFound(3), None),
            (2050, Found(3), Some(40)),
            (2051, NotFound(4), None),
            (2999, NotFound(4), None),
            (3000, NotFound(4), None),
            (u64::MAX, NotFound(4), None),
        ],
    );
}

// Each patch stands at its row, and there is none after them.
pub(crate) fn rows_are(rt: &impl Abort, column: &Column<i64>, rows: &[u64]) {
    assert_eq!(rt; column.num_patches(), rows.len());
    for (place, row) in rows.iter().enumerate() {
        assert_eq!(rt; (place, column.patched_row(place)), (place, Some(*row)));
    }
    assert_eq!(rt; column.patched_row(rows.len()), None);
    assert_eq!(rt; column.patched_row(usize::MAX), None);
}

// The chunk data have this within and these entries, and none after them.
pub(crate) fn entries_are(rt: &impl Abort, column: &Column<i64>, within: u64, entries: &[u64]) {
    assert!(rt; column.has_chunk_data());
    assert_eq!(rt; column.within(), Some(within));
    assert_eq!(rt; column.chunk_count(), entries.len() as u64);
    for (chunk, entry) in entries.iter().enumerate() {
        assert_eq!(rt; (chunk, column.chunk_entry(chunk)), (chunk, Some(*entry)));
    }
    assert_eq!(rt; column.chunk_entry(entries.len()), None);
    assert_eq!(rt; column.chunk_entry(usize::MAX), None);
}

// No patch, and no chunk data.
pub(crate) fn has_nothing(rt: &impl Abort, column: &Column<i64>, rows: u64, offset: u64) {
    assert_eq!(rt; (column.rows(), column.offset()), (rows, offset));
    rows_are(rt, column, &[]);
    assert!(rt; !column.has_chunk_data());
    assert_eq!(rt; (column.within(), column.chunk_entry(0)), (None, None));
    looks_up(
        rt,
        column,
        &[(0, NotFound(0), None), (rows, NotFound(0), None)],
    );
}
