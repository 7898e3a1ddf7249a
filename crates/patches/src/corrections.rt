/// Chunk data as a file's maker gives them: how wide an entry is, the entries, and within. Not judged yet.
#[derive(Clone, Copy)]
pub struct ChunkTable<'a> {
    pub width: u64,
    pub entries: &'a [u8],
    pub within: u64,
}

/// Corrections as a file's maker gives them: how wide an index is, the packed indices, a value for each, the number of
/// rows, the offset that is in every index, and chunk data if there are any. Not judged yet.
#[derive(Clone, Copy)]
pub struct Corrections<'a, V> {
    pub width: u64,
    pub indices: &'a [u8],
    pub values: &'a [V],
    pub rows: u64,
    pub offset: u64,
    pub chunks: Option<ChunkTable<'a>>,
}
