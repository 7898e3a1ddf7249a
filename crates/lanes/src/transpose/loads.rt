ghost use Rattle.std.specs.Prelude.{length, IfOk};
ghost use Rattle.patches.specs.declared.refusal.Part.TheVariants.{Lanes as LanesPart};
ghost use Rattle.patches.specs.Assignments.{SameAssignment};
ghost use Rattle.patches.specs.Refusals.{Judged};
ghost use Rattle.lanes.specs.Transposes.{transpose_rules};
ghost use Rattle.lanes.specs.LaneMeaning.{lane_meaning};

use crate::lanes::{LaneTables, Lanes};
use crate::transpose::{TableSizes, transpose};
use patches::patch_set::PatchSet;
use patches::refusal::Refusal;

/// Writes a patch set's patches in lanes to the starts of the outputs, and loads what it wrote: the lanes then have the
/// set's rows, each with the patch that it has in the set. Loading is never refused: a refusal is one of writing, with 12
/// or 14.
pub fn load_transposed<'a, S: PatchSet>(
    set: &S,
    lanes: u64,
    out_offsets: &'a mut [u32],
    out_entries: &'a mut [u16],
    out_values: &'a mut [S::Value],
) -> Result<Lanes<'a, S::Value>, Refusal>
    ensures judged { Judged LanesPart (transpose_rules (S.PatchSet.meaning set.now) lanes (length out_offsets.old) (length out_entries.old) (length out_values.old)) result }
    ensures same { IfOk result (λ loaded. SameAssignment (lane_meaning loaded) (S.PatchSet.meaning set.now)) }
{
    let sizes = transpose(set, lanes, out_offsets, out_entries, out_values)?;
    let TableSizes {
        offsets: lane_ends,
        entries: patches,
    } = sizes;
    let offsets = &out_offsets[0..lane_ends];
    let entries = &out_entries[0..patches];
    let values = &out_values[0..patches];
    let tables = LaneTables {
        rows: set.rows(),
        lanes,
        offsets,
        entries,
        values,
    };
    Lanes::load(&tables)
}
