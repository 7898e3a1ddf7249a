ghost use Rattle.std.specs.Prelude.{◌≡◌};
ghost use Rattle.search_sorted.specs.Numbers.{count, number, got, PartOf, FirstFall};

use crate::fixed::Fixed;
use crate::width::Width;

/// Numbers of one width, packed one after another. Bytes at the end that make no whole number are not read.
#[derive(Clone, Copy)]
pub struct Packed<'a> {
    pub(crate) width: Width,
    pub(crate) bytes: &'a [u8],
}

impl<'a> Packed<'a> {
    /// The numbers of a width in these bytes.
    pub fn new(width: Width, bytes: &'a [u8]) -> Self
        ensures width { result.width ≡ width }
        ensures bytes { result.bytes.now ≡ bytes.now }
    {
        Packed { width, bytes }
    }

    /// How many numbers there are.
    pub fn len(&self) -> usize
        ensures { result ≡ count self.now }
    {
        self.bytes.len() / self.width.bytes()
    }

    /// The number at a place, or none past the end.
    pub fn get(&self, place: usize) -> Option<u64>
        ensures { result ≡ got (number self.now) (count self.now) place }
    {
        // One arm for each W: a trait over such questions would need a type and an impl for each of them.
        let numbers = *self;
        match self.width {
            Width::One => Fixed::<1> { numbers }.get(place),
            Width::Two => Fixed::<2> { numbers }.get(place),
            Width::Four => Fixed::<4> { numbers }.get(place),
            Width::Eight => Fixed::<8> { numbers }.get(place),
        }
    }

    /// The numbers from one place up to another; ends past the last number are lowered.
    pub fn part(&self, from: usize, to: usize) -> Packed<'a>
        ensures { PartOf self.now result from to }
    {
        let to = to.min(self.len());
        let from = from.min(to);
        let size = self.width.bytes();
        let bytes = self.bytes;
        Packed {
            width: self.width,
            bytes: &bytes[size * from..size * to],
        }
    }

    /// The first place whose number is not above the one before it, if there is one.
    pub fn first_fall(&self) -> Option<usize>
        ensures { FirstFall (number self.now) (count self.now) result }
    {
        // One arm for each W: a trait over such questions would need a type and an impl for each of them.
        let numbers = *self;
        match self.width {
            Width::One => Fixed::<1> { numbers }.first_fall(),
            Width::Two => Fixed::<2> { numbers }.first_fall(),
            Width::Four => Fixed::<4> { numbers }.first_fall(),
            Width::Eight => Fixed::<8> { numbers }.first_fall(),
        }
    }
}
