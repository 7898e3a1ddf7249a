ghost use Rattle.std.specs.Prelude.{◌≡◌, ◌+◌, ◌<◌, ◌≤◌, length};
ghost use Rattle.patches.specs.Chunks.{limit};
ghost use Rattle.lanes.specs.LaneRules.{lane_total, begin_of};

use crate::lane_count::LaneCount;
use std::ops::Range;

/// Where patches stand in lanes: the rows, the lane count, an offset for each lane of each chunk and one more, and the
/// entries.
#[derive(Clone, Copy)]
pub(crate) struct Places<'a> {
    pub(crate) rows: u64,
    pub(crate) lanes: LaneCount,
    pub(crate) offsets: &'a [u32],
    pub(crate) entries: &'a [u16],
    ghost few: { rows ≤ limit },
    ghost offset_count: { length offsets.now ≡ lane_total lanes.number rows + 1 },
}

impl Places<'_> {
    /// The places of a lane.
    pub(crate) fn of_lane(&self, lane: usize) -> Range<usize>
        requires { lane + 1 < length self.now.offsets.now }
        ensures start { result.start ≡ begin_of self.now.offsets.now self.now.entries.now lane }
        ensures end { result.end ≡ begin_of self.now.offsets.now self.now.entries.now (lane + 1) }
    {
        self.offsets[lane] as usize..self.offsets[lane + 1] as usize
    }
}
