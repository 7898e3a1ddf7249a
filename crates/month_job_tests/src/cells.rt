//! Tests of `month_job::cells`.
use month_job::cells::{CellsError, cell_count, decode, encode};
use std::test::Fail;

#[test]
fn there_and_back(rt: HostRuntime) -> Result<(), Fail> {
    let cells = [0, 1, -1, i64::MIN, i64::MAX, 258];
    let bytes = encode(rt.alloc(), &cells)?;
    assert!(rt; bytes.len() == 48);
    assert_eq!(rt; (bytes[40], bytes[41], bytes[42], bytes[47]), (2, 1, 0, 0));
    assert!(rt; decode(rt.alloc(), &bytes)?.as_slice() == cells.as_slice());
    Ok(())
}

#[test]
fn seven_bytes(rt: HostRuntime) -> Result<(), Fail> {
    match decode(rt.alloc(), &[0; 7]) {
        Ok(_) => Err(Fail::new("seven bytes are read as cells")),
        Err(error) => {
            assert_eq!(rt; error, CellsError::Length(7));
            Ok(())
        },
    }
}

#[test]
fn cells_of_a_file(rt: HostRuntime) -> Result<(), Fail> {
    assert_eq!(rt; cell_count(24000)?, 3000);
    match cell_count(12) {
        Ok(_) => Err(Fail::new("twelve bytes are counted as cells")),
        Err(error) => {
            assert_eq!(rt; error, CellsError::Length(12));
            Ok(())
        },
    }
}
