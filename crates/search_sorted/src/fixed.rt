ghost use Rattle.std.specs.Prelude.{◌≡◌, ◌<◌};
ghost use Rattle.search_sorted.specs.Packed.{size};
ghost use Rattle.search_sorted.specs.Numbers.{count, number, got, FirstFall};

use crate::packed::Packed;
use crate::width::read;

// Packed numbers of W bytes each. The width is a parameter of the type, so that work on many numbers asks for it only
// once.
#[derive(Clone, Copy)]
pub(crate) struct Fixed<'a, const W: usize> {
    pub(crate) numbers: Packed<'a>,
    ghost wide: { size numbers.width ≡ W },
}

impl<'a, const W: usize> Fixed<'a, W> {
    // How many numbers there are.
    pub(crate) fn len(&self) -> usize
        ensures { result ≡ count self.now.numbers }
    {
        self.numbers.bytes.len() / W
    }

    // The number at a place.
    pub(crate) fn at(&self, place: usize) -> u64
        requires { place < count self.now.numbers }
        ensures { result ≡ number self.now.numbers place }
    {
        read::<W>(self.numbers.bytes, place)
    }

    // The number at a place, or none past the end.
    pub(crate) fn get(&self, place: usize) -> Option<u64>
        ensures { result ≡ got (number self.now.numbers) (count self.now.numbers) place }
    {
        if place < self.len() {
            Some(self.at(place))
        } else {
            None
        }
    }

    // The first place whose number is not above the one before it, if there is one.
    pub(crate) fn first_fall(&self) -> Option<usize>
        ensures { FirstFall (number self.now.numbers) (count self.now.numbers) result }
    {
        let mut before = self.get(0)?;
        // A `find` that looks at two neighbours reads each number twice, and loading is slower by half.
        for place in 1..self.len() {
            let number = self.at(place);
            if number <= before {
                return Some(place);
            }
            before = number;
        }
        None
    }
}
