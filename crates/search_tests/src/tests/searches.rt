use search_sorted::SearchResult::{Found, NotFound};
use search_sorted::SearchSortedSide::{Left, Right};
use search_sorted::{NotRising, Packed, Rising, SearchResult, Width, write_number};
use std::test::*;

// Among these keys a needle has these answers, on the left and on the right.
fn answers(
    width: Width,
    bytes: &[u8],
    needle: u64,
    left: SearchResult,
    right: SearchResult,
) -> bool {
    Rising::try_from(Packed::new(width, bytes)).is_ok_and(|keys| {
        keys.search_sorted(needle, Left) == left && keys.search_sorted(needle, Right) == right
    })
}

// The place where these numbers fall is answered, and the key 4 is found where it was.
fn keeps_four(bytes: &[u8], place: usize) -> bool {
    let four = Rising::try_from(Packed::new(Width::One, &[4]));
    let refused = Rising::try_from(Packed::new(Width::One, bytes));
    refused.is_err_and(|fall| fall == NotRising { place })
        && four.is_ok_and(|keys| keys.search_sorted(4, Left) == Found(0))
}

// Among the keys 10, 20, 30, 40 and 50 from one place up to another, a needle has this answer on the left.
fn part_answers(from: usize, to: usize, needle: u64, left: SearchResult) -> bool {
    Rising::try_from(Packed::new(Width::One, &[10, 20, 30, 40, 50])).is_ok_and(|keys| keys
        .part(from, to)
        .search_sorted(needle, Left)
        == left)
}

#[test]
fn no_keys(rt: HostRuntime) -> Result<(), Fail> {
    assert!(rt;
        Rising::empty().numbers().len() == 0
            && answers(Width::One, &[], 0, NotFound(0), NotFound(0))
            && answers(Width::One, &[], u64::MAX, NotFound(0), NotFound(0))
    );
    Ok(())
}

#[test]
fn one_key(rt: HostRuntime) -> Result<(), Fail> {
    assert!(rt;
        answers(Width::One, &[7], 6, NotFound(0), NotFound(0))
            && answers(Width::One, &[7], 7, Found(0), Found(1))
            && answers(Width::One, &[7], 8, NotFound(1), NotFound(1))
    );
    Ok(())
}

#[test]
fn keys_that_are_there(rt: HostRuntime) -> Result<(), Fail> {
    let keys = [10, 20, 30, 40, 50];
    assert!(rt;
        answers(Width::One, &keys, 10, Found(0), Found(1))
            && answers(Width::One, &keys, 30, Found(2), Found(3))
            && answers(Width::One, &keys, 50, Found(4), Found(5))
    );
    Ok(())
}

#[test]
fn keys_that_are_not_there(rt: HostRuntime) -> Result<(), Fail> {
    let keys = [10, 20, 30, 40, 50];
    assert!(rt;
        answers(Width::One, &keys, 0, NotFound(0), NotFound(0))
            && answers(Width::One, &keys, 31, NotFound(3), NotFound(3))
            && answers(Width::One, &keys, u64::MAX, NotFound(5), NotFound(5))
    );
    Ok(())
}

#[test]
fn keys_of_two_bytes(rt: HostRuntime) -> Result<(), Fail> {
    let keys = [255, 0, 0, 1, 255, 255];
    assert!(rt;
        answers(Width::Two, &keys, 256, Found(1), Found(2))
            && answers(Width::Two, &keys, 65535, Found(2), Found(3))
            && answers(Width::Two, &keys, 65536, NotFound(3), NotFound(3))
    );
    Ok(())
}

#[test]
fn keys_of_four_bytes(rt: HostRuntime) -> Result<(), Fail> {
    let keys = [0, 0, 1, 0, 255, 255, 255, 255];
    assert!(rt;
        answers(Width::Four, &keys, 65536, Found(0), Found(1))
            && answers(Width::Four, &keys, 4294967295, Found(1), Found(2))
            && answers(Width::Four, &keys, 4294967296, NotFound(2), NotFound(2))
    );
    Ok(())
}

#[test]
fn keys_of_eight_bytes(rt: HostRuntime) -> Result<(), Fail> {
    let mut keys = [0; 16];
    assert!(rt; write_number(&mut keys, 1, u64::MAX).is_ok());
    assert!(rt;
        answers(Width::Eight, &keys, 0, Found(0), Found(1))
            && answers(Width::Eight, &keys, 1, NotFound(1), NotFound(1))
            && answers(Width::Eight, &keys, u64::MAX, Found(1), Found(2))
    );
    Ok(())
}

#[test]
fn numbers_that_fall_are_not_taken(rt: HostRuntime) -> Result<(), Fail> {
    assert!(rt; keeps_four(&[3, 2, 9], 1) && keeps_four(&[1, 3, 3], 2));
    Ok(())
}

#[test]
fn a_part_is_searched_alone(rt: HostRuntime) -> Result<(), Fail> {
    assert!(rt;
        part_answers(1, 4, 20, Found(0))
            && part_answers(1, 4, 50, NotFound(3))
            && part_answers(9, 12, 50, NotFound(0))
    );
    Ok(())
}
