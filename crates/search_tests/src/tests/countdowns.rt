use crate::countdown::Countdown;
use search_sorted::SearchSortedSide::{Left, Right};
use search_sorted::{SearchResult, search_sorted};
use std::test::*;

#[test]
fn counted_keys_are_found(rt: HostRuntime) -> Result<(), Fail> {
    let five = Countdown::new(5);
    assert!(rt;
        search_sorted(&five, &5, Left) == SearchResult::Found(0)
            && search_sorted(&five, &4, Left) == SearchResult::Found(1)
            && search_sorted(&five, &4, Right) == SearchResult::Found(2)
            && search_sorted(&five, &1, Right) == SearchResult::Found(5)
    );
    Ok(())
}

#[test]
fn keys_beyond_the_count_are_not_found(rt: HostRuntime) -> Result<(), Fail> {
    let five = Countdown::new(5);
    assert!(rt;
        search_sorted(&five, &6, Left) == SearchResult::NotFound(0)
            && search_sorted(&five, &0, Left) == SearchResult::NotFound(5)
            && search_sorted(&five, &0, Right) == SearchResult::NotFound(5)
            && search_sorted(&Countdown::new(0), &3, Right) == SearchResult::NotFound(0)
    );
    Ok(())
}
