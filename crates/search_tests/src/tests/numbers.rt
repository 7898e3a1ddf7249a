use search_sorted::{NoRoom, Packed, UnknownWidth, Width, write_number};
use std::test::*;

// What stands at a place of these bytes.
fn reads(width: Width, bytes: &[u8], place: usize, number: Option<u64>) -> bool {
    Packed::new(width, bytes).get(place) == number
}

// The first place where the numbers of these bytes fall.
fn falls(width: Width, bytes: &[u8], place: Option<usize>) -> bool {
    Packed::new(width, bytes).first_fall() == place
}

// How many of the numbers 1, 2, 3 and 4 are from one place up to another, and the first of them.
fn parts(from: usize, to: usize, len: usize, first: Option<u64>) -> bool {
    let part = Packed::new(Width::Two, &[1, 0, 2, 0, 3, 0, 4, 0, 9]).part(from, to);
    part.len() == len && part.get(0) == first
}

#[test]
fn widths_by_their_bytes(rt: HostRuntime) -> Result<(), Fail> {
    assert!(rt;
        Width::try_from(1) == Ok(Width::One)
            && Width::try_from(2) == Ok(Width::Two)
            && Width::try_from(4) == Ok(Width::Four)
            && Width::try_from(8) == Ok(Width::Eight)
            && Width::try_from(0) == Err(UnknownWidth(0))
            && Width::try_from(3) == Err(UnknownWidth(3))
            && Width::try_from(16) == Err(UnknownWidth(16))
    );
    Ok(())
}

#[test]
fn bytes_of_the_widths(rt: HostRuntime) -> Result<(), Fail> {
    assert!(rt;
        Width::One.bytes() == 1
            && Width::Two.bytes() == 2
            && Width::Four.bytes() == 4
            && Width::Eight.bytes() == 8
    );
    Ok(())
}

#[test]
fn numbers_of_one_byte(rt: HostRuntime) -> Result<(), Fail> {
    assert!(rt;
        reads(Width::One, &[0, 1, 255], 0, Some(0))
            && reads(Width::One, &[0, 1, 255], 2, Some(255))
            && reads(Width::One, &[0, 1, 255], 3, None)
    );
    Ok(())
}

// The second byte weighs 256.
#[test]
fn numbers_of_two_bytes(rt: HostRuntime) -> Result<(), Fail> {
    assert!(rt;
        reads(Width::Two, &[0, 1, 1, 0, 9], 0, Some(256))
            && reads(Width::Two, &[0, 1, 1, 0, 9], 1, Some(1))
            && reads(Width::Two, &[0, 1, 1, 0, 9], 2, None)
            && reads(Width::Two, &[255, 255], 0, Some(65535))
    );
    Ok(())
}

// 1 + 2 * 256 + 3 * 65536 + 4 * 16777216.
#[test]
fn numbers_of_four_bytes(rt: HostRuntime) -> Result<(), Fail> {
    assert!(rt;
        reads(Width::Four, &[1, 2, 3, 4, 9, 9, 9], 0, Some(67305985))
            && reads(Width::Four, &[1, 2, 3, 4, 9, 9, 9], 1, None)
            && reads(Width::Four, &[255, 255, 255, 255], 0, Some(4294967295))
    );
    Ok(())
}

// 0x0102_0304_0506_0708, the least byte first.
#[test]
fn numbers_of_eight_bytes(rt: HostRuntime) -> Result<(), Fail> {
    let some = [8, 7, 6, 5, 4, 3, 2, 1];
    let limit = [255; 8];
    assert!(rt;
        reads(Width::Eight, &some, 0, Some(72623859790382856))
            && reads(Width::Eight, &some, usize::MAX, None)
            && reads(Width::Eight, &limit, 0, Some(18446744073709551615))
    );
    Ok(())
}

#[test]
fn a_number_is_written_least_byte_first(rt: HostRuntime) -> Result<(), Fail> {
    let mut out = [9; 17];
    assert!(rt; write_number(&mut out, 1, 72623859790382856) == Ok(()));
    assert!(rt; out == [9, 9, 9, 9, 9, 9, 9, 9, 8, 7, 6, 5, 4, 3, 2, 1, 9]);
    Ok(())
}

#[test]
fn the_largest_number_is_written(rt: HostRuntime) -> Result<(), Fail> {
    let mut out = [9; 9];
    assert!(rt; write_number(&mut out, 0, 18446744073709551615) == Ok(()));
    assert!(rt; out == [255, 255, 255, 255, 255, 255, 255, 255, 9]);
    Ok(())
}

#[test]
fn without_room_nothing_is_written(rt: HostRuntime) -> Result<(), Fail> {
    let mut out = [9; 15];
    assert!(rt; write_number(&mut out, 1, 0) == Err(NoRoom));
    assert!(rt; write_number(&mut out, usize::MAX, 5) == Err(NoRoom));
    assert!(rt; out == [9; 15]);
    assert!(rt; write_number(&mut [], 0, 0) == Err(NoRoom));
    Ok(())
}

#[test]
fn parts_within(rt: HostRuntime) -> Result<(), Fail> {
    assert!(rt; parts(0, 1, 1, Some(1)) && parts(1, 3, 2, Some(2)) && parts(0, 4, 4, Some(1)));
    Ok(())
}

#[test]
fn parts_past_the_end(rt: HostRuntime) -> Result<(), Fail> {
    assert!(rt;
        parts(3, usize::MAX, 1, Some(4))
            && parts(4, 9, 0, None)
            && parts(7, 9, 0, None)
            && parts(3, 1, 0, None)
    );
    Ok(())
}

#[test]
fn where_numbers_fall(rt: HostRuntime) -> Result<(), Fail> {
    assert!(rt;
        falls(Width::One, &[3, 2, 9], Some(1))
            && falls(Width::One, &[5, 5], Some(1))
            && falls(Width::One, &[1, 2, 3, 3], Some(3))
            && falls(Width::Two, &[0, 1, 255, 0], Some(1))
    );
    Ok(())
}

#[test]
fn where_no_number_falls(rt: HostRuntime) -> Result<(), Fail> {
    assert!(rt;
        falls(Width::One, &[], None)
            && falls(Width::One, &[7], None)
            && falls(Width::One, &[0, 1, 255], None)
            && falls(Width::Two, &[255, 0, 0, 1, 0], None)
    );
    Ok(())
}
