use crate::tests::files::refused;
use patches::chunks::chunk_range;
use patches::refusal::Part;
use std::test::Fail;

#[test]
fn rows_of_chunks(rt: HostRuntime) -> Result<(), Fail> {
    for (chunk, offset, rows, start, end) in [
        (0, 1000, 1051, 0, 24),
        (1, 1000, 1051, 24, 1048),
        (2, 1000, 1051, 1048, 1051),
        (0, 0, 1, 0, 1),
        (0, 1000, 8, 0, 8),
        (0, 1023, 2, 0, 1),
        (1, 1023, 2, 1, 2),
        (2, 0, 3000, 2048, 3000),
        (0, 2147483640, 8, 0, 8),
        (2097151, 0, 2147483648, 2147482624, 2147483648),
    ] {
        let range = chunk_range(chunk, offset, rows)?;
        assert_eq!(rt; (chunk, range.start, range.end), (chunk, start, end));
    }
    Ok(())
}

#[test]
fn no_such_chunks(rt: HostRuntime) -> Result<(), Fail> {
    for (chunk, offset, rows, number, place) in [
        (3, 1000, 1051, 16, 3),
        (1, 0, 1024, 16, 1),
        (0, 0, 0, 16, 0),
        (0, 5, 0, 16, 0),
        (0, 2147483648, 0, 16, 0),
        (2097152, 0, 2147483648, 16, 2097152),
        (18014398509481984, 0, 8, 16, 18014398509481984),
        (u64::MAX, 0, 8, 16, u64::MAX),
        (0, 2147483648, 1, 5, 0),
        (0, 0, 2147483649, 5, 0),
        (3, u64::MAX, 2, 5, 0),
        (u64::MAX, u64::MAX, u64::MAX, 5, 0),
    ] {
        refused(
            &rt,
            chunk_range(chunk, offset, rows),
            number,
            Part::Column,
            place,
        )?;
    }
    Ok(())
}
