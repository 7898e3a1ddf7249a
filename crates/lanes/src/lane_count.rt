ghost use Rattle.std.specs.Prelude.{◌≡◌, ◌+◌, ◌≤◌, [], ◌∷◌, IfOk};
ghost use Rattle.patches.specs.declared.refusal.Part.TheVariants.{Lanes as LanesPart};
ghost use Rattle.patches.specs.Refusals.{Judged};
ghost use Rattle.patches.specs.Chunks.{limit};
ghost use Rattle.lanes.specs.LaneRules.{IsLaneCount, count_rule, lane_of, lane_total};
ghost use Rattle.lanes.specs.LaneCounts.{lane_count_prop};

use patches::chunks::chunk_total;
use patches::refusal::{Part, Reason, Refusal};

/// How many lanes a chunk has: a power of two up to 1024.
#[derive(Clone, Copy)]
pub(crate) struct LaneCount {
    pub(crate) number: u64,
    ghost counted: { IsLaneCount number } by { lane_count_prop number },
}

impl LaneCount {
    /// One lane.
    pub(crate) const fn one() -> Self
        ensures { result.number ≡ 1 }
    {
        LaneCount { number: 1 }
    }

    /// The lane count of a number. Refuses with 12 where it is no power of two up to 1024.
    pub(crate) fn new(number: u64) -> Result<Self, Refusal>
        ensures judged { Judged LanesPart (count_rule number ∷ []) result }
        ensures same { IfOk result (λ count. count.number ≡ number) }
    {
        if number.is_power_of_two() && number <= 1024 {
            Ok(LaneCount { number })
        } else {
            Err(Refusal::by(Part::Lanes, Reason::LaneCount, 0))
        }
    }

    /// How many lanes all chunks of so many rows have together.
    pub(crate) fn total(self, rows: u64) -> usize
        requires { rows ≤ limit }
        ensures is { result ≡ lane_total self.number rows }
        ensures few { result ≤ limit }
    {
        (chunk_total(0, rows) * self.number) as usize
    }

    /// The number of the lane in which a row lies.
    pub(crate) fn lane_of(self, row: u64) -> usize
        requires { row ≤ limit }
        ensures is { result ≡ lane_of self.number row }
        ensures few { result ≤ limit + 1024 }
    {
        (row / 1024 * self.number + row % self.number) as usize
    }
}
