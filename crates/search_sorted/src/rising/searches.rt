ghost use Rattle.std.specs.Prelude.{◌≡◌};
ghost use Rattle.search_sorted.specs.Numbers.{count, numbers_of, PartOf};
ghost use Rattle.search_sorted.specs.Risings.{RisingOf};
ghost use Rattle.search_sorted.specs.Naturals.{natural};
ghost use Rattle.search_sorted.specs.Search.{Answers, SidePoint, place_of};

use crate::keys::Keys;
use crate::packed::Packed;
use crate::rising::{NotRising, Rising};
use crate::search::{SearchResult, SearchSortedSide, search_sorted};
use crate::width::Width;

/// These numbers as rising ones, if each is above the one before.
impl<'a> TryFrom<Packed<'a>> for Rising<'a> {
    type Error = NotRising;

    ghost try_from_gives = { RisingOf };

    fn try_from(numbers: Packed<'a>) -> Result<Self, NotRising> {
        match numbers.first_fall() {
            Some(place) => Err(NotRising { place }),
            None => Ok(Rising { numbers }),
        }
    }
}

impl<'a> Rising<'a> {
    /// No numbers at all.
    pub fn empty() -> Self
        ensures { count result.numbers ≡ 0 }
    {
        Rising {
            numbers: Packed::new(Width::One, &[]),
        }
    }

    /// The numbers themselves.
    pub fn numbers(&self) -> Packed<'a>
        ensures { result ≡ self.now.numbers }
    {
        self.numbers
    }

    /// The numbers from one place up to another; ends past the last number are lowered.
    pub fn part(&self, from: usize, to: usize) -> Rising<'a>
        ensures { PartOf self.now.numbers result.numbers from to }
    {
        Rising {
            numbers: self.numbers.part(from, to),
        }
    }

    /// Where a number belongs among these, on a side. The width is looked at once, before the search.
    pub fn search_sorted(&self, needle: u64, side: SearchSortedSide) -> SearchResult
        ensures answer { Answers natural (numbers_of self.now.numbers) needle side result }
        ensures partition { SidePoint natural (numbers_of self.now.numbers) needle side (place_of result) }
    {
        // One arm for each W: a trait over such questions would need a type and an impl for each of them.
        let rising = *self;
        match self.numbers.width {
            Width::One => search_sorted(&Keys::<1> { rising }, &needle, side),
            Width::Two => search_sorted(&Keys::<2> { rising }, &needle, side),
            Width::Four => search_sorted(&Keys::<4> { rising }, &needle, side),
            Width::Eight => search_sorted(&Keys::<8> { rising }, &needle, side),
        }
    }
}
