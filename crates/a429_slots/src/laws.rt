//! What follows from the definitions of histories.
ghost use Rattle.std.specs.Prelude.{◌≡◌, [], ◌⊎◌, ℕ, List, false};
ghost use Rattle.a429_slots.specs.Tables.{SlotTable};
ghost use Rattle.a429_slots.specs.GoingOn.{AnsweredCellsGrow, CellsCount, FramesTurn, OthersPass, TellsFrameAnswer, TellsNextCell};
ghost use Rattle.a429_slots.specs.Holding.{HoldsAreKept};
ghost use Rattle.a429_slots.specs.Spacing.{CellsOfOnePlanAreApart, EmptyCellsAreFirst, EmptyCellsFollowWords, OpeningPlanEmptiesNone, PlannedTablesAreSpaced, PlansInForceAreSpaced, WordsAreApart};
ghost use Rattle.a429_slots.specs.OnePlan.{FaultsAreUnique, PlansAreUnique, PlansHaveNoFault};
ghost use Rattle.a429_slots.specs.Events.{Event};
ghost use Rattle.a429_slots.specs.History.{Opening, OpensWith};
ghost use Rattle.a429_slots.specs.Recalling.{Recalls, RecentCountsSends, RecentDecides, RecentPassesOtherCells, never};
ghost use Rattle.a429_slots.specs.TakenFrames.{AreTakenFrames, FramesFollowTakenOnes, HasOpeningOrPublished, IsOpeningPlan, IsPublishedPlan, LeavesFrame, TakenFramesAreUnique, is_taken_after, is_taken_at};

use a429_pack::laws::{
    fewest_by_demand, layout_orders_are_unique, none_is_above_the_greatest, orders_name_each_once,
};

/// A table has one plan of the own layout, or one fault. Two such plans of it are equal. Two faults of it are equal, apart from `NoMemory`. A
/// table that has a plan has no other fault than `NoMemory`.
pub fn plans_are_unique()
    ensures plan { PlansAreUnique }
    ensures fault { FaultsAreUnique }
    ensures either { PlansHaveNoFault }
{
    fewest_by_demand();
    layout_orders_are_unique();
    orders_name_each_once();
}

/// A Frame is taken if and only if two things are true: all cells of the plan in force were asked for since the last
/// taken Frame, or since the opening; 64 bits can count the slots of the frame that follows. The plan in force is the
/// newest at the last taken Frame, or the opening one. A frame's first slot is the opening's plus the slots of every
/// frame that the group has left.
pub fn frames_are_taken()
    ensures taken { (o : Opening) (g : ℕ) (p : SlotTable) (E : List Event) → AreTakenFrames o g p E (is_taken_at o g p E) }
    ensures only { TakenFramesAreUnique }
{}

/// At each place of a history the group is in the frame of the plan in force there, and has asked for the
/// cells since the last taken Frame.
pub fn frames_follow_taken_ones()
    ensures { FramesFollowTakenOnes }
{}

/// The newest plan, and the plan that a group has, is one that was published for the opening station, under
/// the number that it was given, or the opening one.
pub fn plan_was_published()
    ensures newest { (o : Opening) (E : List Event) → IsOpeningPlan o E ⊎ IsPublishedPlan o E }
    ensures own { (o : Opening) (g : ℕ) (p : SlotTable) (E : List Event) → OpensWith o g p → HasOpeningOrPublished o g p E }
{}

/// A group's plan and its frame's first slot change at its taken Frames only.
pub fn plan_changes_at_taken_frames()
    ensures { (o : Opening) (g : ℕ) (p : SlotTable) (E : List Event) (e : Event) → is_taken_after o g p E e ≡ false
        → LeavesFrame o g p E e }
{}

/// The state of a group in its frame changes at its own Cells and Frames only. It determines the group's next cell and
/// the answer to a Frame.
pub fn frames_go_on()
    ensures cell { CellsCount }
    ensures frame { FramesTurn }
    ensures other { OthersPass }
    ensures next { TellsNextCell }
    ensures answer { TellsFrameAnswer }
{}

/// A group's answered cells grow only by its own Cells.
pub fn answered_cells_grow()
    ensures { AnsweredCellsGrow }
{}

/// What a group keeps of its sends of a source determines the word that is sent in a cell, after any earlier cells.
/// This holds as long as neither the number of accepted words nor the slot goes back.
pub fn sends_are_recalled()
    ensures none { (source : ℕ) → Recalls [] source never }
    ensures decides { RecentDecides }
    ensures sent { RecentCountsSends }
    ensures other { RecentPassesOtherCells }
{}

/// Let q be the spacing, in slots, of an output in the plan in force at its cell. If the cell sends a word, each
/// earlier word of the source was sent at least q slots before, even if plans changed between. A cell is empty for this
/// reason only if a word of the source was sent fewer than q slots before.
pub fn words_are_spaced()
    ensures apart { WordsAreApart }
    ensures only { EmptyCellsFollowWords }
{}

/// A group sends one accepted word at most as often as the output's hold says, under any plans: each time it is sent,
/// it was sent fewer times before. An output without a hold has no such limit.
pub fn holds_are_kept()
    ensures { HoldsAreKept }
{}

/// If no plan comes between, two cells of an output are far enough apart. So a cell can be empty because of the spacing
/// only if it is the output's first one after a change of plans.
pub fn spacing_empties_first_cells_only()
    ensures plan { CellsOfOnePlanAreApart }
    ensures first { EmptyCellsAreFirst }
    ensures opening { OpeningPlanEmptiesNone }
{}

/// The slot tables of a plan keep to the spacing of each output, and have each output on one of their buses.
pub fn planned_tables_are_spaced()
    ensures { PlannedTablesAreSpaced }
{
    none_is_above_the_greatest();
}

/// A proposal is the opening one or one that is published. If each proposal has the plan of its own table, then the
/// slot table in force of a group keeps to the spacings at every place of a history. The laws of spacing ask for this.
pub fn plans_in_force_are_spaced()
    ensures { PlansInForceAreSpaced }
{
    none_is_above_the_greatest();
}
