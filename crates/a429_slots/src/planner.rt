//! The planner: the outputs of each group on the fewest buses, each at its grid period.
ghost use Rattle.std.specs.Prelude.{◌≡◌, ◌≤◌, length, IfOk, IfErr, MatchResult};
ghost use Rattle.std.specs.List.{AllByRecursion, AllZip};
ghost use Rattle.a429_equipment.specs.Sound.{IsInterval};
ghost use Rattle.a429_slots.specs.Planned.{HasOwnLayout, IsLayout, IsPlanOf, IsPlannedFor, HaveRoom, HaveSources};
ghost use Rattle.a429_slots.specs.Asked.{IsAsked};
ghost use Rattle.a429_slots.specs.Faults.{IsFaultOf, IsGroupFault, of_group};

use crate::group_plan::GroupPlan;
use crate::plans::Plan;
use a429_equipment::{Equipment, OutputRow, SourceRow};
use a429_grid::grid_period;
use a429_grid::laws::spacings_are_least;
use a429_pack::laws::{orders_name_each_once, stretches_are_apart};
use a429_pack::{Demand, PackFault, pack};
use std::alloc::{AllocError, Global};
use thiserror::Error;

/// Why a station has no plan. Groups and outputs are numbered from 0 in table order.
#[derive(Clone, Copy, Debug, PartialEq, Eq, Error)]
pub enum PlanFault {
    /// The interval of the output allows no period of the grid.
    #[error("output {output} of group {group} has no period")]
    Unfit { group: usize, output: usize },
    /// Each output of the group has a grid period, and the fewest buses that serve them are this many,
    /// more than 16.
    #[error("group {group} needs {needed} buses")]
    TooManyBuses { group: usize, needed: usize },
    /// An allocation failed.
    #[error("out of memory")]
    NoMemory,
}

/// The fault of a group, as one of the station.
fn in_group(group: usize, fault: PackFault) -> PlanFault
    ensures { result ≡ of_group group fault }
{
    match fault {
        PackFault::Unfit(output) => PlanFault::Unfit { group, output },
        PackFault::TooManyBuses(needed) => PlanFault::TooManyBuses { group, needed },
        PackFault::NoMemory => PlanFault::NoMemory,
    }
}

/// What the outputs of a group ask of its layout, at this bit rate in bit/s. Error: an allocation failed.
#[tactic(auto, using(crate::proofs::Rows::all_below, crate::proofs::Rows::zipped_more, a429_word::proofs::Lists::read_is))]
pub fn demands_of(
    alloc: Global,
    rate: u32,
    sources: &[SourceRow],
    outputs: &[OutputRow],
) -> Result<Vec<Demand>, AllocError>
    requires { HaveSources sources.now outputs.now }
    ensures { IfOk result (λ demands. AllZip (IsAsked rate sources.now) outputs.now demands.items) }
{
    let mut demands = Vec::new(alloc);
    for output in outputs {
        let source = &sources[output.source];
        let period = grid_period(output.min_us, output.max_us, rate);
        demands.push(Demand {
            period,
            label: source.label,
            sdi: source.sdi,
        })?;
    }
    Ok(demands)
}

/// The slot table of a group, at this bit rate in bit/s.
fn group_plan<const N: usize>(
    alloc: Global,
    rate: u32,
    sources: &[SourceRow],
    outputs: &[OutputRow],
) -> Result<GroupPlan<N>, PackFault>
    requires some { 1 ≤ length outputs.now }
    requires room { length outputs.now ≤ N }
    requires known { HaveSources sources.now outputs.now }
    requires intervals { AllByRecursion IsInterval outputs.now }
    requires rate { (1 ≤ rate) × (rate ≤ 100000) }
    ensures planned { MatchResult result (IsPlannedFor rate sources.now outputs.now) (IsGroupFault rate outputs.now) }
    ensures own { IfOk result (IsLayout sources.now) }
{
    orders_name_each_once();
    stretches_are_apart();
    spacings_are_least();
    let Ok(demands) = demands_of(alloc, rate, sources, outputs) else {
        return Err(PackFault::NoMemory);
    };
    let packed = pack(alloc, &demands)?;
    Ok(GroupPlan::of(rate, &packed, outputs, &demands))
}

/// Plans each group of a station, in table order: every output at its grid period, in cells of its own, on
/// as few buses as any schedule needs. The plan has the number 0. An error names the first group that cannot be
/// planned: `Unfit` with its first output without a grid period; otherwise `TooManyBuses` with the fewest buses that it
/// needs, more than 16. `NoMemory`: an allocation failed.
pub fn plan<const N: usize>(alloc: Global, equipment: &Equipment) -> Result<Plan<N>, PlanFault>
    requires { HaveRoom N equipment.now.outputs }
    ensures planned { IfOk result (λ plan. IsPlanOf equipment.now plan) }
    ensures own { IfOk result (λ plan. HasOwnLayout equipment.now plan) }
    ensures fault { IfErr result (IsFaultOf equipment.now) }
{
    equipment.rows_are_sound();
    let sources = equipment.sources();
    let mut plan = Plan::empty();
    for group in 0..equipment.groups().len() {
        let rate = equipment.group_rate(group);
        match group_plan(alloc, rate, sources, equipment.outputs(group)) {
            Ok(table) => plan.push(table),
            Err(fault) => return Err(in_group(group, fault)),
        }
    }
    Ok(plan)
}
