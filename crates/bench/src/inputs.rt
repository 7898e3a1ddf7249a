use crate::generator::Generator;
use patches::column::Column;
use std::alloc::{AllocError, Global};

pub const ROWS: u64 = 10_000_000;

pub const PATCHES: u64 = 1_000_000;

pub const LOOKUPS: u64 = 1_000_000;

/// Rising indices of four bytes, each 1 to 18 above the one before.
pub fn make_indices(heap: Global) -> Result<Vec<u8>, AllocError> {
    let mut generator = Generator::new(1);
    let mut index: u32 = 0;
    (0..PATCHES)
        .flat_map(|_| {
            index = index.wrapping_add(generator.below(18) as u32 + 1);
            index.to_le_bytes()
        })
        .collect(heap)
}

/// A value for each index.
pub fn make_values(heap: Global) -> Result<Vec<i64>, AllocError> {
    let mut generator = Generator::new(2);
    (0..PATCHES).map(|_| generator.next() as i64).collect(heap)
}

/// Rows to look up.
pub fn make_rows(heap: Global) -> Result<Vec<u64>, AllocError> {
    let mut generator = Generator::new(3);
    (0..LOOKUPS).map(|_| generator.below(ROWS)).collect(heap)
}

/// The chunk data of a column whose offset is 0: for each chunk, how many patches lie before it, in four bytes.
pub fn make_entries(heap: Global, column: &Column<i64>) -> Result<Vec<u8>, AllocError> {
    (0..column.chunk_count())
        .flat_map(|chunk| {
            let before = column.search_index(chunk.wrapping_mul(1024)).to_index();
            ((before & 0xffff_ffff) as u32).to_le_bytes()
        })
        .collect(heap)
}
