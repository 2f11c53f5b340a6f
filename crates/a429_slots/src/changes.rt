//! An output across a change of plans.
ghost use Rattle.std.specs.Prelude.{◌<◌, ◌≤◌, length};
ghost use Rattle.a429_slots.specs.Tables.{outputs_of};
ghost use Rattle.a429_slots.specs.Changes.{IsGap, IsGapOfPlaces};

use crate::group_plan::GroupPlan;
use crate::outputs::OutputId;

/// The distance in slots, start to start, from the last cell of an output by one plan of its group to its first cell by
/// another plan. The other plan follows with the next frame. The distance is at least one, and less than both periods
/// together. The output may have another number in the second plan; it is the same output if it has the same source.
pub fn gap<const N: usize>(
    before: &GroupPlan<N>,
    output: OutputId,
    after: &GroupPlan<N>,
    same: OutputId,
) -> u32
    requires before { output < length (outputs_of before.now) }
    requires after { same < length (outputs_of after.now) }
    ensures gap { IsGap before.now output after.now same result }
    ensures some { 1 ≤ result }
    ensures places { IsGapOfPlaces before.now output after.now same result }
{
    let old = before.place(output);
    let new = after.place(same);
    prove!(new.offset < after.frame());
    old.period.slots() - old.offset + new.offset
}
