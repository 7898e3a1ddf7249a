ghost use Rattle.std.specs.Prelude.{◌≡◌, Some, Decides};
ghost use Rattle.search_sorted.specs.Search.{EqualAt, side_test, SidePoint, Answers, FindsEqual};
ghost use Rattle.search_sorted.specs.Search.{place_of, found_of};
ghost use Rattle.search_sorted.specs.Shown.{side_text, result_text};

use crate::order::IndexOrd;
use std::cmp::Ordering;
use std::fmt;

/// Which of the places that keep the order is asked for, where keys equal the needle: the first, or the last.
#[derive(Clone, Copy, PartialEq, Eq, Debug)]
pub enum SearchSortedSide {
    /// Before every key that is not smaller.
    Left,
    /// After every key that is not larger.
    Right,
}

/// Where the needle stands, or would stand, among the keys.
#[derive(Clone, Copy, PartialEq, Eq, Debug)]
pub enum SearchResult {
    /// Some key equals the needle.
    Found(usize),
    /// No key equals the needle.
    NotFound(usize),
}

impl SearchResult {
    /// The place of a `Found`, and none of a `NotFound`.
    pub fn to_found(self) -> Option<usize>
        ensures { result ≡ found_of self }
    {
        match self {
            SearchResult::Found(place) => Some(place),
            SearchResult::NotFound(_) => None,
        }
    }

    /// The place, whether a key was found or not.
    pub fn to_index(self) -> usize
        ensures { result ≡ place_of self }
    {
        match self {
            SearchResult::Found(place) | SearchResult::NotFound(place) => place,
        }
    }
}

impl fmt::Display for SearchSortedSide {
    ghost output = { λ side. Some (side_text side) };

    fn fmt<W: fmt::Write>(&self, f: &mut fmt::Formatter<W>) -> fmt::Result {
        match *self {
            SearchSortedSide::Left => f.write_str("left"),
            SearchSortedSide::Right => f.write_str("right"),
        }
    }
}

impl fmt::Display for SearchResult {
    ghost output = { λ r. Some (result_text r) };

    fn fmt<W: fmt::Write>(&self, f: &mut fmt::Formatter<W>) -> fmt::Result {
        match *self {
            SearchResult::Found(place) => write!(f, "Found({place})"),
            SearchResult::NotFound(place) => write!(f, "NotFound({place})"),
        }
    }
}

/// Where the needle belongs among the keys of an ordered sequence: on the left, the number of keys smaller than it;
/// on the right, the number of keys not larger. It is `Found` exactly when some key equals the needle.
///
/// The number of comparisons depends on the number of keys only, and grows with its logarithm.
pub fn search_sorted<S: IndexOrd>(
    sequence: &S,
    needle: &S::Key,
    side: SearchSortedSide,
) -> SearchResult
    ensures answer { Answers S.IndexOrd.order (S.IndexOrd.keys sequence.now) needle.now side result }
    ensures partition { SidePoint S.IndexOrd.order (S.IndexOrd.keys sequence.now) needle.now side (place_of result) }
    ensures found { FindsEqual S.IndexOrd.order (S.IndexOrd.keys sequence.now) needle.now result }
{
    let place = partition_place(sequence, needle, side);
    let found = match side {
        SearchSortedSide::Left => is_equal(sequence, place, needle),
        SearchSortedSide::Right => place > 0 && is_equal(sequence, place - 1, needle),
    };
    if found {
        SearchResult::Found(place)
    } else {
        SearchResult::NotFound(place)
    }
}

// How many keys go before the needle on a side. Three tests, at the quarters of the places that are left, tell by how
// many quarters to go on. What the keys hold picks no branch, since the outcomes are added up; the number of turns
// depends on the length only.
fn partition_place<S: IndexOrd>(sequence: &S, needle: &S::Key, side: SearchSortedSide) -> usize
    ensures { SidePoint S.IndexOrd.order (S.IndexOrd.keys sequence.now) needle.now side result }
{
    let mut left = sequence.index_len();
    let mut place = 0;
    while left > 3 {
        let quarter = left / 4;
        let first = goes_before(sequence, place + quarter, needle, side);
        let second = goes_before(sequence, place + 2 * quarter, needle, side);
        let third = goes_before(sequence, place + 3 * quarter, needle, side);
        place += quarter * (first as usize + second as usize + third as usize);
        left -= 3 * quarter;
    }
    // A `filter` and `count` would need a contract on the closure, and is then longer than this loop.
    let mut count = 0;
    for k in 0..left {
        count += goes_before(sequence, place + k, needle, side) as usize;
    }
    place + count
}

// Whether the key at a place goes before the needle on a side; none does past the end.
fn goes_before<S: IndexOrd>(
    sequence: &S,
    place: usize,
    needle: &S::Key,
    side: SearchSortedSide,
) -> bool
    ensures { result ≡ side_test S.IndexOrd.order (S.IndexOrd.keys sequence.now) needle.now side place }
{
    let Some(order) = sequence.index_cmp(place, needle) else {
        return false;
    };
    match side {
        SearchSortedSide::Left => order.is_lt(),
        SearchSortedSide::Right => order.is_le(),
    }
}

// Whether the key at a place equals the needle; none does past the end.
fn is_equal<S: IndexOrd>(sequence: &S, place: usize, needle: &S::Key) -> bool
    ensures { Decides result (EqualAt S.IndexOrd.order (S.IndexOrd.keys sequence.now) needle.now place) }
{
    sequence.index_cmp(place, needle) == Some(Ordering::Equal)
}
