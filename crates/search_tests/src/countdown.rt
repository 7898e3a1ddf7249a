ghost use Rattle.std.specs.Prelude.{◌≡◌};
ghost use Rattle.search_sorted.specs.Packed.{listed};
ghost use Rattle.search_tests.specs.Countdowns.{below, downward, falls};

use search_sorted::IndexOrd;
use std::cmp::Ordering;

/// The numbers from a top down to 1: an ordered sequence where larger numbers go first.
#[derive(Clone, Copy)]
pub struct Countdown {
    top: u32,
}

impl Countdown {
    /// The numbers from `top` down to 1.
    pub fn new(top: u32) -> Countdown
        ensures { result.top ≡ top }
    {
        Countdown { top }
    }
}

impl IndexOrd for Countdown {
    type Key = u32;

    ghost keys = { λ s. listed (below s.top) s.top };

    ghost order = { downward };

    ghost rising = { λ s. falls s.top };

    fn index_len(&self) -> usize {
        self.top as usize
    }

    fn index_cmp(&self, place: usize, needle: &u32) -> Option<Ordering> {
        if place < self.top as usize {
            let key = self.top - place as u32;
            Some(needle.cmp(&key))
        } else {
            None
        }
    }
}
