ghost use Rattle.std.specs.Prelude.{◌≡◌, length};
ghost use Rattle.lanes.specs.LaneRules.{RightOffsets, RightEntries};

use crate::lanes::places::Places;

mod loads;
mod places;
mod sets;

/// Lane tables as somebody lends them: rows, the lane count, the offsets, the entries and the values. Not judged yet.
#[derive(Clone, Copy)]
pub struct LaneTables<'a, V> {
    pub rows: u64,
    pub lanes: u64,
    pub offsets: &'a [u32],
    pub entries: &'a [u16],
    pub values: &'a [V],
}

/// Patches in lanes: chunks of 1024 rows, each with so many lanes, row r in lane r mod their number; the patches are listed
/// by chunk, lane and rising row. The tables are sound.
#[derive(Drop)]
pub struct Lanes<'a, V> {
    places: Places<'a>,
    values: &'a [V],
    ghost value_count: { length values.now ≡ length places.entries.now },
    ghost right_offsets: { RightOffsets places.offsets.now places.entries.now },
    ghost right_entries: { RightEntries places.offsets.now places.entries.now places.rows places.lanes.number },
}
