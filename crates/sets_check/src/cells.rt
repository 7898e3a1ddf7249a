use foreign::mark::Mark;
use std::alloc::{AllocError, Global};

/// What stands in a buffer.
pub trait Cell: Copy {
    /// What a place holds before anything is written to it.
    fn blank(place: u64) -> Self;

    /// The number that a cell counts as in a checksum.
    fn number(&self) -> u64;
}

impl Cell for u16 {
    fn blank(place: u64) -> u16 {
        (place % 1000 + 60000) as u16
    }

    fn number(&self) -> u64 {
        u64::from(*self)
    }
}

impl Cell for u32 {
    fn blank(place: u64) -> u32 {
        (place % 1000 + 4000000000) as u32
    }

    fn number(&self) -> u64 {
        u64::from(*self)
    }
}

impl Cell for i64 {
    fn blank(place: u64) -> i64 {
        (place % 1000000) as i64 - 5000000
    }

    fn number(&self) -> u64 {
        self.cast_unsigned()
    }
}

impl Cell for Mark {
    fn blank(place: u64) -> Mark {
        Mark {
            amount: (place % 1000000) as i64 - 5000000,
            day: 12345,
            source: 99,
        }
    }

    fn number(&self) -> u64 {
        let amount = self.amount.cast_unsigned();
        let day = u64::from(self.day).wrapping_mul(31);
        let source = u64::from(self.source).wrapping_mul(1009);
        amount.wrapping_add(day).wrapping_add(source)
    }
}

/// A buffer of so many blank cells.
pub fn buffer<T: Cell>(heap: Global, n: u64) -> Result<Vec<T>, AllocError> {
    (0..n).map(|place| T::blank(place)).collect(heap)
}

/// A sum of cells in which each place counts.
pub fn checksum<T: Cell>(cells: &[T]) -> u64 {
    let mut sum: u64 = 0;
    for (place, cell) in cells.iter().enumerate() {
        let part = (place as u64).wrapping_add(1).wrapping_mul(cell.number()) % 1000003;
        sum = sum.wrapping_add(part) % 1000003;
    }
    sum
}

/// How many cells from a place on hold what they held at first.
pub fn blank_from<T: Cell>(cells: &[T], first: usize) -> u64 {
    cells
        .iter()
        .enumerate()
        .skip(first)
        .filter(|(place, cell)| cell.number() == T::blank(*place as u64).number())
        .count() as u64
}

/// The first so many cells, or all where there are no more.
pub fn front<T>(cells: &[T], n: usize) -> &[T] {
    cells.get(..n).unwrap_or(cells)
}
