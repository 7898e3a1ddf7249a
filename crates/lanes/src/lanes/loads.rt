ghost use Rattle.std.specs.Prelude.{◌≡◌, ◌+◌, ◌-◌, ◌*◌, ◌/◌, ◌%◌, ◌<◌, ◌≤◌, length, Decides, IfOk, MatchOption, slice_index};
ghost use Rattle.patches.specs.declared.refusal.Part.TheVariants.{Lanes as LanesPart};
ghost use Rattle.patches.specs.declared.refusal.Reason.TheVariants.{LaneTable};
ghost use Rattle.patches.specs.Refusals.{Judged};
ghost use Rattle.lanes.specs.LaneRules.{BreaksIn, lane_rules, WrongOffset, WrongEntry, WrongPlace, RightOffsets, RightEntries};
ghost use Rattle.lanes.specs.LaneLoads.{First, WrongIn, Empty, Holds};

use crate::lane_count::LaneCount;
use crate::lanes::places::Places;
use crate::lanes::{LaneTables, Lanes};
use patches::chunks::LIMIT;
use patches::refusal::{Part, Reason, Refusal};

impl Places<'_> {
    // Whether the offset at a place breaks a rule.
    fn is_wrong_offset(&self, place: usize) -> bool
        requires { place < length self.now.offsets.now }
        ensures { Decides result (WrongOffset self.now.offsets.now self.now.entries.now place) }
    {
        let offset = self.offsets[place];
        if place == 0 && offset > 0 {
            return true;
        }
        if place > 0 && offset < self.offsets[place - 1] {
            return true;
        }
        place + 1 == self.offsets.len() && offset as usize != self.entries.len()
    }

    // The place of the first offset that breaks a rule, or none.
    fn first_wrong_offset(&self) -> Option<usize>
        ensures { First (WrongOffset self.now.offsets.now self.now.entries.now) result }
    {
        (0..self.offsets.len()).find(|place| self.is_wrong_offset(*place))
    }

    // Whether the entry at a place of a lane breaks a rule.
    fn is_wrong_entry(&self, lane: usize, place: usize) -> bool
        requires lane { lane + 1 < length self.now.offsets.now }
        requires place { place < length self.now.entries.now }
        ensures { Decides result (BreaksIn self.now.offsets.now self.now.entries.now self.now.rows self.now.lanes.number lane place) }
    {
        let entry = self.entries[place] as u64;
        let number = lane as u64;
        let lanes = self.lanes.number;
        if entry >= 1024 || entry % lanes != number % lanes {
            return true;
        }
        if 1024 * (number / lanes) + entry >= self.rows {
            return true;
        }
        place > self.offsets[lane] as usize && self.entries[place] <= self.entries[place - 1]
    }

    // The place of the first entry of a lane that breaks a rule, or none.
    fn first_wrong_in(&self, lane: usize) -> Option<usize>
        requires lane { lane + 1 < length self.now.offsets.now }
        requires places { slice_index self.now.offsets.now (lane + 1) ≤ length self.now.entries.now }
        ensures { First (WrongIn self.now.offsets.now self.now.entries.now self.now.rows self.now.lanes.number lane) result }
    {
        self.of_lane(lane)
            .find(|place| self.is_wrong_entry(lane, *place))
    }

    // The place of the first entry that breaks a rule, or none, where the offsets break none. A loop with an invariant: from
    // what `find_map` promises of its answer the check does not show that each lane before was asked.
    fn first_wrong_entry(&self) -> Option<usize>
        requires { RightOffsets self.now.offsets.now self.now.entries.now }
        ensures { First (WrongEntry self.now.offsets.now self.now.entries.now self.now.rows self.now.lanes.number) result }
    {
        for lane in 0..self.offsets.len() - 1 {
            if let Some(place) = self.first_wrong_in(lane) {
                return Some(place);
            }
        }
        None
    }

    // A place at which the tables break a rule, counted on from the offsets to the entries, or none.
    fn wrong_place(&self) -> Option<u64>
        ensures { MatchOption result (RightOffsets self.now.offsets.now self.now.entries.now × RightEntries self.now.offsets.now self.now.entries.now self.now.rows self.now.lanes.number) (WrongPlace self.now.offsets.now self.now.entries.now self.now.rows self.now.lanes.number) }
    {
        if let Some(place) = self.first_wrong_offset() {
            return Some(place as u64);
        }
        let place = self.first_wrong_entry()?;
        Some((self.offsets.len() + place) as u64)
    }
}

// The refusal of tables that break a rule at a place.
fn wrong_table(place: u64) -> Refusal
    ensures reason { result.reason ≡ LaneTable }
    ensures part { result.part ≡ LanesPart }
    ensures place { result.place ≡ place }
{
    Refusal::by(Part::Lanes, Reason::LaneTable, place)
}

impl<'a, V> Lanes<'a, V> {
    /// Lanes with no rows: one lane, and no patches.
    pub fn empty() -> Self
        ensures { Empty result }
    {
        let places = Places {
            rows: 0,
            lanes: LaneCount::one(),
            offsets: &[0],
            entries: &[],
        };
        Lanes {
            places,
            values: &[],
        }
    }

    /// Lanes over the tables, after judging them all.
    ///
    /// Refuses with 5, 12 and 13, in this order: too many rows, a lane count that is no power of two up to 1024, and
    /// tables that break a rule (place: 0 for a wrong length, else the offset's, else, counted on, the entry's).
    pub fn load(tables: &LaneTables<'a, V>) -> Result<Self, Refusal>
        ensures judged { Judged LanesPart (lane_rules tables.now.rows tables.now.lanes tables.now.offsets.now tables.now.entries.now (length tables.now.values.now)) result }
        ensures holds { IfOk result (λ lanes. Holds lanes tables.now) }
    {
        if tables.rows > LIMIT {
            return Err(Refusal::by(Part::Lanes, Reason::RowLimit, 0));
        }
        let lanes = LaneCount::new(tables.lanes)?;
        let offset_count = lanes.total(tables.rows) + 1;
        if tables.offsets.len() != offset_count || tables.values.len() != tables.entries.len() {
            return Err(wrong_table(0));
        }
        let places = Places {
            rows: tables.rows,
            lanes,
            offsets: tables.offsets,
            entries: tables.entries,
        };
        if let Some(place) = places.wrong_place() {
            return Err(wrong_table(place));
        }
        Ok(Lanes {
            places,
            values: tables.values,
        })
    }

    /// How many lanes a chunk has.
    pub fn lane_count(&self) -> u64
        ensures { result ≡ self.now.places.lanes.number }
    {
        self.places.lanes.number
    }

    /// How many rows are patched.
    pub fn num_patches(&self) -> usize
        ensures { result ≡ length self.now.places.entries.now }
    {
        self.places.entries.len()
    }
}
