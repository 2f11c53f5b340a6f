//! What the calling thread does while a station runs.
ghost use Rattle.std.specs.Prelude.{◌≡◌, true, IfOk, OnErr};
ghost use Rattle.std.specs.List.{AllByRecursion};
ghost use Rattle.a429_equipment.specs.SameStation.{same_station};
ghost use Rattle.a429_station.specs.Resubmitting.{IsPlanned};
ghost use Rattle.a429_uses.specs.Publishing.{HasPublished};
ghost use Rattle.a429_workers.specs.Transmitting.{IsKnownPlan};

use crate::pacing::Marks;
use a429_board::Planner;
use a429_equipment::Equipment;
use a429_equipment::laws::one_station_is_equality;
use a429_slots::{OUTPUTS, Plan, plan};
use a429_table::read_equipment;
use anyhow::bail;
use std::alloc::Global;
use std::sync::Wait;
use std::sync::atomic::Ordering;

/// The plan of a further table of the station. Error: the table has a fault or no plan, is of another station, or an
/// allocation failed.
fn further_plan(alloc: Global, station: &Equipment, table: &[u8]) -> anyhow::Result<Plan<OUTPUTS>>
    ensures known { IfOk result (IsKnownPlan station.now) }
    ensures planned { IfOk result (λ plan. (of : IsPlanned table.now) × (same_station station.now of.record_of ≡ true) × (plan ≡ of.plan)) }
{
    one_station_is_equality();
    let next = read_equipment(alloc, table)?;
    if !station.same_station(&next) {
        bail!("the table is of another station");
    }
    next.rows_are_sound();
    Ok(plan(alloc, &next)?)
}

/// Publishes the plan of a further table of the station, which the group takes at its next frame, and answers the
/// plan's number. Error: the table has a fault or no plan, is of another station, or an allocation failed; then no plan
/// is published. It may wait for groups that read the board.
pub fn publish<R: Wait>(
    rt: &R,
    alloc: Global,
    planner: &mut Planner,
    station: &Equipment,
    table: &[u8],
) -> anyhow::Result<u64>
    requires plans { AllByRecursion (IsKnownPlan station.now) planner.old.list }
    ensures plans { AllByRecursion (IsKnownPlan station.now) planner.new.list }
    ensures board { planner.new.book ≡ planner.old.book }
    ensures published { IfOk result (HasPublished station.now planner.old table.now planner.new) }
    ensures unchanged { OnErr result (planner.new ≡ planner.old) }
{
    let plan = further_plan(alloc, station, table)?;
    Ok(planner.publish(rt, plan)?)
}

/// A further table, and the marks that record that its plan was published.
#[derive(Drop)]
pub struct PublishControl<'a> {
    pub table: &'a [u8],
    pub marks: &'a Marks,
}

impl<'a> PublishControl<'a> {
    /// Publishes the plan of its table by `publish`. Error: that of `publish`; then no plan is published.
    pub fn run<R: Wait>(
        &self,
        rt: &R,
        alloc: Global,
        planner: &mut Planner,
        station: &Equipment,
    ) -> anyhow::Result<u64>
        requires plans { AllByRecursion (IsKnownPlan station.now) planner.old.list }
        ensures plans { AllByRecursion (IsKnownPlan station.now) planner.new.list }
        ensures board { planner.new.book ≡ planner.old.book }
        ensures published { IfOk result (HasPublished station.now planner.old self.now.table.now planner.new) }
        ensures unchanged { OnErr result (planner.new ≡ planner.old) }
    {
        let answer = publish(rt, alloc, planner, station, self.table);
        self.marks.plans.fetch_add(1, Ordering::SeqCst);
        answer
    }
}
