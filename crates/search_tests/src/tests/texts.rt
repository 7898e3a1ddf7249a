use search_sorted::{NoRoom, NotRising, SearchResult, SearchSortedSide, UnknownWidth};
use std::alloc::Global;
use std::process::Abort;
use std::test::*;

// An answer is written as this text.
fn answer_is(rt: &impl Abort, heap: Global, answer: SearchResult, text: &str) -> Result<(), Fail> {
    assert_eq!(rt; format!(in heap; "{answer}")?.as_str(), text);
    Ok(())
}

// A side is written as this text.
fn side_is(rt: &impl Abort, heap: Global, side: SearchSortedSide, text: &str) -> Result<(), Fail> {
    assert_eq!(rt; format!(in heap; "{side}")?.as_str(), text);
    Ok(())
}

#[test]
fn answers_as_text(rt: HostRuntime) -> Result<(), Fail> {
    answer_is(&rt, rt.alloc(), SearchResult::Found(120), "Found(120)")?;
    answer_is(&rt, rt.alloc(), SearchResult::NotFound(0), "NotFound(0)")
}

#[test]
fn sides_as_text(rt: HostRuntime) -> Result<(), Fail> {
    side_is(&rt, rt.alloc(), SearchSortedSide::Left, "left")?;
    side_is(&rt, rt.alloc(), SearchSortedSide::Right, "right")
}

#[test]
fn errors_as_text(rt: HostRuntime) -> Result<(), Fail> {
    let heap = rt.alloc();
    let unknown = UnknownWidth(3);
    assert_eq!(rt;
        format!(in heap; "{unknown}")?.as_str(),
        "no width has 3 bytes"
    );
    let refused = NoRoom;
    assert_eq!(rt;
        format!(in heap; "{refused}")?.as_str(),
        "no room for the number"
    );
    let fall = NotRising { place: 12 };
    assert_eq!(rt;
        format!(in heap; "{fall}")?.as_str(),
        "the number at place 12 is not above the one before"
    );
    Ok(())
}

#[test]
fn what_an_answer_carries(rt: HostRuntime) -> Result<(), Fail> {
    assert!(rt;
        SearchResult::Found(4).to_found() == Some(4)
            && SearchResult::NotFound(4).to_found() == None
            && SearchResult::Found(4).to_index() == 4
            && SearchResult::NotFound(5).to_index() == 5
    );
    Ok(())
}
