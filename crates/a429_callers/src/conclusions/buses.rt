//! The fewest buses, by a plan.
ghost use Rattle.std.specs.Prelude.{IfSome};
ghost use Rattle.a429_slots.specs.Planned.{HaveRoom};
ghost use Rattle.a429_callers.specs.Serving.{AreFewestOfGroup};

use a429_equipment::Equipment;
use a429_slots::{OUTPUTS, plan};
use std::alloc::Global;

/// The number of buses of a group in its plan. No schedule in which each of its outputs recurs within its grid period has
/// fewer. `None` if the equipment has no plan or no group of this number, or if an allocation fails.
pub fn buses_of(alloc: Global, equipment: &Equipment, group: usize) -> Option<u32>
    requires { HaveRoom 128 equipment.now.outputs }
    ensures { IfSome result (AreFewestOfGroup equipment.now group) }
{
    let Ok(plan) = plan::<OUTPUTS>(alloc, equipment) else {
        return None;
    };
    if group >= plan.groups() {
        return None;
    }
    Some(plan.group(group).buses())
}
