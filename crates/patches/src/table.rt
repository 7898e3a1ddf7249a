ghost use Rattle.std.specs.Prelude.{◌≡◌, ◌+◌, ◌^◌, ◌<◌};
ghost use Rattle.search_sorted.specs.Numbers.{count, number};

use search_sorted::Packed;

/// Chunk data: an entry for each chunk, and how many patches of the first entry's chunk lie before the column's first.
#[derive(Clone, Copy)]
pub struct ChunkOffsets<'a> {
    pub(crate) entries: Packed<'a>,
    pub(crate) within: u64,
}

impl ChunkOffsets<'_> {
    // Entry 0 and within together: what the entries from chunk 1 on are counted from.
    pub(crate) fn base(&self) -> u64
        requires some { 0 < count self.now.entries }
        requires fits { number self.now.entries 0 + self.now.within < 2 ^ 64 }
        ensures { result ≡ number self.now.entries 0 + self.now.within }
    {
        self.entries.get(0).unwrap_or(0) + self.within
    }
}
