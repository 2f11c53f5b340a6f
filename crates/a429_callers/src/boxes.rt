//! What the machine sends is what a right box sends, so that logs of it are never condemned.
ghost use Rattle.a429_callers.specs.JudgedExample.{MeetsPremisesOfJudging};
ghost use Rattle.a429_callers.specs.JudgedGroups.{OutputsArePlanned, PlannedGroupsHaveNoFinding, PlannedGroupsSendNoneForeign};
ghost use Rattle.a429_callers.specs.SlotBoxes.{GroupsSendAsRightBoxes, OpeningPlanStays};

use a429_judge::laws::{grid_periods_are_planned, recorded_box_has_no_finding};
use a429_slots::laws::{
    plan_was_published, plans_in_force_are_spaced, spacing_empties_first_cells_only,
    words_are_spaced,
};

/// As long as its opening plan is in force, a group sends of each output what a right box sends (`a429_judge`). Each slot of
/// the output is asked for once, in order. Its cell has the last accepted word, unless there is none, or that word was sent
/// as often as the hold allows. If no plan is published, the opening plan stays in force.
pub fn groups_send_as_right_boxes()
    ensures sends { GroupsSendAsRightBoxes }
    ensures unpublished { OpeningPlanStays }
{
    plan_was_published();
    words_are_spaced();
    spacing_empties_first_cells_only();
    plans_in_force_are_spaced();
}

/// The facts of an output by the plan of its table are those that the laws of `a429_judge` suppose: its period is within
/// its interval, and it may send each word once at least.
pub fn outputs_are_planned()
    ensures { OutputsArePlanned }
{
    grid_periods_are_planned();
}

/// A group sends by the plan of its table, which stays in force. One log has a piece of the words that came in. Another has
/// the words that the group sent, from some slot on. Slots may begin at any time, and each period of an output may be wrong
/// by `drift`. A send may be recorded up to a slot after its slot begins, and each time of the logs may be wrong by `wrong`.
/// Twice `wrong` and `drift` are at most the tolerance. Then nothing is found at an output of the group that is not alike
/// another, and no word of the group is foreign.
pub fn planned_groups_have_no_finding()
    ensures outputs { PlannedGroupsHaveNoFinding }
    ensures foreign { PlannedGroupsSendNoneForeign }
{
    words_are_spaced();
    spacing_empties_first_cells_only();
    plans_in_force_are_spaced();
    grid_periods_are_planned();
    recorded_box_has_no_finding();
}

/// The premises of these laws can be met, by an output that sends each word twice at most.
pub fn laws_of_judging_apply()
    ensures { MeetsPremisesOfJudging }
{}
