ghost use Rattle.std.specs.Prelude.{◌≡◌, ◌+◌, ◌*◌, ◌<◌, ◌≤◌, length, count_by, nat_lt, slice_index};
ghost use Rattle.patches.specs.Chunks.{count_of_chunks};
ghost use Rattle.lanes.specs.LaneLoads.{First};
ghost use Rattle.lanes.specs.LaneMeaning.{lane_meaning, patch_in, begin_of_chunk, entries_of_chunk, IsAt, Least, NextUnder};

use crate::lanes::Lanes;
use crate::lanes::places::Places;
use patches::chunks::chunk_total;
use patches::patch_set::PatchSet;

impl Places<'_> {
    // The first place of a lane at which an entry stands, or none.
    fn place_in(&self, lane: usize, wanted: u64) -> Option<usize>
        requires lane { lane + 1 < length self.now.offsets.now }
        requires places { slice_index self.now.offsets.now (lane + 1) ≤ length self.now.entries.now }
        ensures { First (IsAt self.now.offsets.now self.now.entries.now lane wanted) result }
    {
        self.of_lane(lane)
            .find(|place| self.entries[*place] as u64 == wanted)
    }
}

// How many of some entries are below a bound.
fn count_below(entries: &[u16], bound: u64) -> usize
    ensures { result ≡ count_by (λ entry. nat_lt entry bound) entries.now }
{
    // A loop: `filter` and `count` take one and a half to four times as long.
    let mut count = 0;
    for entry in entries {
        if (*entry as u64) < bound {
            count += 1;
        }
    }
    count
}

// The least of some entries that is not below a bound, or none.
fn least_from(entries: &[u16], bound: u64) -> Option<u64>
    ensures { Least entries.now bound result }
{
    entries
        .iter()
        .map(|entry| *entry as u64)
        .filter(|entry| *entry >= bound)
        .min()
}

impl<'a, V> Lanes<'a, V> {
    // Where the entries of a chunk begin; after the last chunk, their number.
    fn chunk_begin(&self, chunk: u64) -> usize
        requires { chunk ≤ count_of_chunks 0 self.now.places.rows }
        ensures { result ≡ begin_of_chunk self.now chunk }
    {
        self.places.offsets[(chunk * self.places.lanes.number) as usize] as usize
    }

    // The entries of a chunk.
    fn chunk_entries(&self, chunk: u64) -> &'a [u16]
        requires { chunk < count_of_chunks 0 self.now.places.rows }
        ensures { result.now ≡ entries_of_chunk self.now chunk }
    {
        let from = self.chunk_begin(chunk);
        let to = self.chunk_begin(chunk + 1);
        &self.places.entries[from..to]
    }

    // The chunk in which a place lies, at or after a chunk that begins at or before the place. It goes by halves through
    // the chunks alone: `partition_point` over the offsets goes through all lanes, and took 1.8 to 2.6 times as long.
    fn chunk_of(&self, first: u64, place: usize) -> u64
        requires first { first < count_of_chunks 0 self.now.places.rows }
        requires begun { begin_of_chunk self.now first ≤ place }
        requires within { place < length self.now.places.entries.now }
        ensures there { (first ≤ result) × (result < count_of_chunks 0 self.now.places.rows) }
        ensures holds { (begin_of_chunk self.now result ≤ place) × (place < begin_of_chunk self.now (result + 1)) }
    {
        let mut low = first;
        let mut high = chunk_total(0, self.places.rows);
        while high - low > 1 {
            let middle = low + (high - low) / 2;
            if self.chunk_begin(middle) <= place {
                low = middle;
            } else {
                high = middle;
            }
        }
        low
    }

    // The least patched row of a chunk that is not below a place in the chunk, or none.
    fn next_in(&self, chunk: u64, least: u64) -> Option<u64>
        requires chunk { chunk < count_of_chunks 0 self.now.places.rows }
        requires place { least < 1024 }
        ensures { NextUnder (patch_in self.now) (1024 * chunk + least) (1024 * (chunk + 1)) result }
    {
        let entry = least_from(self.chunk_entries(chunk), least)?;
        Some(1024 * chunk + entry)
    }
}

/// Lanes by their patches: a row's value is looked for in its lane alone, the count of the patched rows before it and the
/// next of them in its chunk.
impl<'a, V: Copy> PatchSet for Lanes<'a, V> {
    type Value = V;

    ghost meaning = { lane_meaning };

    fn rows(&self) -> u64 {
        self.places.rows
    }

    fn below(&self, r: u64) -> u64 {
        if r >= self.places.rows {
            return self.places.entries.len() as u64;
        }
        let chunk = r / 1024;
        (self.chunk_begin(chunk) + count_below(self.chunk_entries(chunk), r % 1024)) as u64
    }

    fn next(&self, r: u64) -> Option<u64> {
        if r >= self.places.rows {
            return None;
        }
        let chunk = r / 1024;
        if let Some(row) = self.next_in(chunk, r % 1024) {
            return Some(row);
        }
        let place = self.chunk_begin(chunk + 1);
        if place >= self.places.entries.len() {
            return None;
        }
        let later = self.chunk_of(chunk + 1, place);
        self.next_in(later, 0)
    }

    fn find(&self, r: u64) -> Option<V> {
        if r >= self.places.rows {
            return None;
        }
        let lane = self.places.lanes.lane_of(r);
        let place = self.places.place_in(lane, r % 1024)?;
        Some(self.values[place])
    }
}
