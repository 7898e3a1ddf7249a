use patches::column::Column;
use patches::corrections::{ChunkTable, Corrections};
use std::test::Fail;

#[derive(Clone, Copy, PartialEq, Eq, Debug)]
struct Mark {
    amount: i64,
    day: u32,
    source: u16,
}

const BLANK: Mark = Mark {
    amount: 0,
    day: 0,
    source: 0,
};

const FIRST: Mark = Mark {
    amount: -10,
    day: 1,
    source: 7,
};

const SECOND: Mark = Mark {
    amount: i64::MAX,
    day: u32::MAX,
    source: u16::MAX,
};

#[test]
fn records(rt: HostRuntime) -> Result<(), Fail> {
    let mut column: Column<Mark> = Column::empty();
    column.load(&Corrections {
        width: 2,
        indices: &[1, 0, 2, 4],
        values: &[FIRST, SECOND],
        rows: 1028,
        offset: 0,
        chunks: Some(ChunkTable {
            width: 1,
            entries: &[0, 1],
            within: 0,
        }),
    })?;
    assert_eq!(rt; column.get_patched(1), Some(FIRST));
    assert_eq!(rt; column.get_patched(1026), Some(SECOND));
    assert_eq!(rt; column.get_patched(2), None);
    assert_eq!(rt; column.get_patched(1028), None);
    let mut cells = [BLANK; 4];
    column.patch_chunk(1, &mut cells)?;
    assert_eq!(rt; cells, [BLANK, BLANK, SECOND, BLANK]);
    assert_eq!(rt; column.narrow(1, 1028)?, Some(2));
    assert_eq!(rt; column.get_patched(0), Some(FIRST));
    assert_eq!(rt; column.get_patched(1025), Some(SECOND));
    Ok(())
}
