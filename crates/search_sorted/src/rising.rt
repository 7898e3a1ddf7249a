ghost use Rattle.std.specs.Prelude.{Some};
ghost use Rattle.search_sorted.specs.Packed.{Ascending};
ghost use Rattle.search_sorted.specs.Numbers.{count, number};
ghost use Rattle.search_sorted.specs.Shown.{not_rising_text};

use crate::packed::Packed;
use std::error::Error;
use std::fmt;

mod searches;

/// Packed numbers of which each is above the one before.
#[derive(Clone, Copy)]
pub struct Rising<'a> {
    numbers: Packed<'a>,
    ghost up: { Ascending (number numbers) (count numbers) },
}

/// That numbers do not rise: the first place whose number is not above the one before it.
#[derive(Clone, Copy, PartialEq, Eq, Debug)]
pub struct NotRising {
    pub place: usize,
}

impl fmt::Display for NotRising {
    ghost output = { λ fall. Some (not_rising_text fall) };

    fn fmt<W: fmt::Write>(&self, f: &mut fmt::Formatter<W>) -> fmt::Result {
        let place = self.place;
        write!(f, "the number at place {place} is not above the one before")
    }
}

impl Error for NotRising {}
