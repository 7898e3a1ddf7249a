ghost use Rattle.std.specs.Prelude.{◌≡◌};
ghost use Rattle.search_sorted.specs.Packed.{size};
ghost use Rattle.search_sorted.specs.Numbers.{count, number, numbers_of};
ghost use Rattle.search_sorted.specs.Naturals.{natural};
ghost use Rattle.search_sorted.specs.Listed.{listed_rises};

use crate::fixed::Fixed;
use crate::order::IndexOrd;
use crate::rising::Rising;
use std::cmp::Ordering;

// Rising numbers of W bytes each, as an ordered sequence.
#[derive(Clone, Copy)]
pub(crate) struct Keys<'a, const W: usize> {
    pub(crate) rising: Rising<'a>,
    ghost wide: { size rising.numbers.width ≡ W },
}

impl<'a, const W: usize> Keys<'a, W> {
    // The keys as numbers.
    fn numbers(&self) -> Fixed<'a, W>
        ensures { result.numbers ≡ self.now.rising.numbers }
    {
        let numbers = self.rising.numbers();
        Fixed { numbers }
    }
}

impl<'a, const W: usize> IndexOrd for Keys<'a, W> {
    type Key = u64;

    ghost keys = { λ s. numbers_of s.rising.numbers };

    ghost order = { natural };

    ghost rising = { λ s. listed_rises (number s.rising.numbers) (count s.rising.numbers) s.rising.up };

    fn index_len(&self) -> usize {
        self.numbers().len()
    }

    fn index_cmp(&self, place: usize, needle: &u64) -> Option<Ordering> {
        self.numbers().get(place).map(|key| key.cmp(needle))
    }
}
