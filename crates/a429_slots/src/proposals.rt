//! A station's equipment with its own plan.
ghost use Rattle.std.specs.Prelude.{◌≡◌, ◌≤◌, Err, IfOk, IfErr, OnErr, OnOk};

mod copies;

use crate::group_plan::SlotPlace;
use crate::moves::MoveFault;
use crate::planner::{PlanFault, plan};
use crate::plans::Plan;
use a429_equipment::Equipment;
use a429_pack::laws::{orders_name_each_once, stretches_are_apart};
use std::alloc::Global;
use std::marker::Model;

/// An equipment with the plan of its own groups.
pub struct Proposal<const N: usize> {
    equipment: Equipment,
    plan: Box<Plan<N>>,
}

// Written by hand, a drop is one call in the proofs of its owners.
impl<const N: usize> Drop for Proposal<N> {
    fn drop(self) {
        let Self {
            equipment: _,
            plan: _,
        } = self;
    }
}

impl<const N: usize> Model for Proposal<N> {
    ghost use Rattle.a429_slots.specs.Proposed.{Proposed};

    ghost Value = { Proposed };

    ghost use Rattle.a429_slots.specs.Planned.{IsPlanOf};

    ghost view = { λ p. record { station = p.equipment; plan = p.plan.value } };

    ghost invariant = { λ p. IsPlanOf p.equipment p.plan.value };
}

/// An equipment that has no plan, and why.
#[derive(Drop)]
pub struct NoProposal {
    pub equipment: Equipment,
    pub fault: PlanFault,
}

impl<const N: usize> Proposal<N> {
    ghost use Rattle.a429_slots.specs.Planned.{HasOwnLayout, HaveRoom, IsPlanOf};
    ghost use Rattle.a429_slots.specs.Faults.{IsFaultOf};
    ghost use Rattle.a429_slots.specs.Moves.{AreFor, HaveCommonCell, IsReplaced};
    ghost use Rattle.a429_slots.specs.declared.moves.MoveFault.TheVariants as MoveFault;

    /// Plans the groups of an equipment. Error: the fault of `plan`, or an allocation failed; the equipment comes back
    /// with it.
    pub fn of(alloc: Global, equipment: Equipment) -> Result<Proposal<N>, NoProposal>
        requires room { HaveRoom N equipment.outputs }
        // A plan of at most 65536 outputs fits in memory.
        requires size { N ≤ 65536 }
        ensures planned { IfOk result (λ p. (p.station ≡ equipment) × IsPlanOf equipment p.plan) }
        ensures own { IfOk result (λ p. HasOwnLayout equipment p.plan) }
        ensures fault { IfErr result (λ none. (none.equipment ≡ equipment) × IsFaultOf equipment none.fault) }
    {
        match plan(alloc, &equipment) {
            Ok(plan) => match Box::new(alloc, plan) {
                Ok(plan) => Ok(Proposal { equipment, plan }),
                Err(_) => Err(NoProposal {
                    equipment,
                    fault: PlanFault::NoMemory,
                }),
            },
            Err(fault) => Err(NoProposal { equipment, fault }),
        }
    }

    /// Gives the outputs of a group these places, by their numbers. Errors: `Shared`, two of them have a cell in common;
    /// `NoMemory`, an allocation failed. Then nothing is changed.
    pub fn place(
        &mut self,
        alloc: Global,
        group: usize,
        places: &[SlotPlace],
    ) -> Result<(), MoveFault>
        requires places { AreFor self.old.plan group places.now }
        // A plan of at most 65536 outputs fits in memory.
        requires size { N ≤ 65536 }
        ensures station { self.new.station ≡ self.old.station }
        ensures placed { OnOk result (IsReplaced self.old.plan self.new.plan group places.now) }
        ensures kept { OnErr result (self.new ≡ self.old) }
        ensures shared { result ≡ Err MoveFault.Shared → HaveCommonCell places.now }
    {
        orders_name_each_once();
        stretches_are_apart();
        match self.plan.group(group).moved(alloc, places) {
            Ok(table) => {
                self.plan.replace(group, table);
                Ok(())
            }
            Err(fault) => Err(fault),
        }
    }

    /// The equipment.
    pub fn equipment(&self) -> &Equipment
        ensures equipment { result.now ≡ self.now.station }
        ensures own { IsPlanOf self.now.station self.now.plan }
    {
        &self.equipment
    }

    /// Its plan.
    pub fn plan(&self) -> &Plan<N>
        ensures plan { result.now ≡ self.now.plan }
        ensures own { IsPlanOf self.now.station self.now.plan }
    {
        &self.plan
    }

    /// The equipment and its plan, each by itself.
    pub fn into_parts(self) -> (Equipment, Box<Plan<N>>)
        ensures equipment { result.0 ≡ self.entry.station }
        ensures plan { result.1.value ≡ self.entry.plan }
        ensures own { IsPlanOf self.entry.station self.entry.plan }
    {
        let Self { equipment, plan } = self;
        (equipment, plan)
    }
}
