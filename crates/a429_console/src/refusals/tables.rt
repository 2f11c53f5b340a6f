//! Refusals of tables that were read: why there is no plan, or not what was asked for.
ghost use Rattle.a429_slots.specs.Faults.{IsFaultOf};
ghost use Rattle.a429_slots.specs.declared.planner.PlanFault.TheVariants.{Unfit, TooManyBuses};
ghost use Rattle.a429_console.specs.RefusalText.{OrMemory};
ghost use Rattle.a429_console.specs.Tables.{IsGroupRefusal, IsPlanRefusal, IsUnfitNamed};

use crate::files::reading::printable_name;
use crate::refusals::CommandRefusal;
use crate::refusals::names::{group_name, source_name};
use a429_equipment::Equipment;
use a429_slots::{NoProposal, PlanFault};
use std::alloc::Global;

/// The refusal of an equipment that has no plan.
pub fn plan_refusal(none: &NoProposal) -> CommandRefusal
    ensures { IsFaultOf none.now.equipment none.now.fault → OrMemory (IsPlanRefusal none.now.equipment) result }
{
    match none.fault {
        PlanFault::Unfit { group, output } => unfit(&none.equipment, group, output),
        PlanFault::TooManyBuses { group, needed } => {
            too_many_buses(&none.equipment, group, needed)
        }
        PlanFault::NoMemory => CommandRefusal::Memory,
    }
}

/// The refusal of an unfit output, by the names of its group and its source.
pub fn unfit(equipment: &Equipment, group: usize, output: usize) -> CommandRefusal
    ensures named { IsUnfitNamed equipment.now group output result }
    ensures first { IsFaultOf equipment.now (Unfit group output) → IsPlanRefusal equipment.now result }
{
    CommandRefusal::Unfit {
        group: group_name(equipment, group),
        source: source_name(equipment, group, output),
    }
}

/// The refusal of a group that needs too many buses, by its name.
pub fn too_many_buses(equipment: &Equipment, group: usize, needed: usize) -> CommandRefusal
    ensures { IsFaultOf equipment.now (TooManyBuses group needed) → IsPlanRefusal equipment.now result }
{
    CommandRefusal::TooManyBuses {
        group: group_name(equipment, group),
        needed,
    }
}

/// The refusal of a group that a table does not have. It has the name that was asked for, in one line. If an allocation
/// for that fails, it says so instead.
pub fn no_group(alloc: Global, name: &str) -> CommandRefusal
    ensures { OrMemory (IsGroupRefusal name.now) result }
{
    match printable_name(alloc, name) {
        Ok(name) => CommandRefusal::Group(name),
        Err(_) => CommandRefusal::Memory,
    }
}
