//! A running station, and plans for it.
ghost use Rattle.std.specs.Prelude.{◌≡◌, ◌∷◌, [], true, Ok, IfOk, IfErr, OnErr};
ghost use Rattle.a429_table.specs.Reading.{reading};
ghost use Rattle.a429_equipment.specs.SameStation.{same_station};
ghost use Rattle.a429_slots.specs.Planned.{IsPlanOf};
ghost use Rattle.a429_board.specs.Lists.{Planning};
ghost use mathlib.Core.List.{IsPrefix};
ghost use Rattle.a429_workers.specs.Transmitting.{GoesOnByCalls};
ghost use Rattle.a429_station.specs.Resubmitting.{GoesOn, IsLed, IsPlanned, IsReplanFault, Publishes};
ghost use Rattle.a429_station.specs.Working.{told};

use a429_board::{BoardFault, Planner};
use a429_equipment::Equipment;
use a429_slots::{OUTPUTS, Plan, PlanFault, plan};
use a429_table::{TableFault, read_equipment};
use a429_workers::Transmit;
use std::alloc::Global;
use std::marker::Model;
use std::sync::Wait;
use thiserror::Error;

/// Why no plan is published. Groups and outputs are numbered from 0 in table order.
#[derive(Debug, Drop, Error)]
pub enum ReplanFault {
    /// The table is not read, for this kind of fault at this place. If memory runs out, the error is `NoMemory`.
    #[error("{0}")]
    Table(TableFault),
    /// The interval of the output allows no period of the grid.
    #[error("output {output} of group {group} has no period")]
    Unfit { group: usize, output: usize },
    /// The group needs this many buses, more than 16.
    #[error("group {group} needs {needed} buses")]
    TooManyBuses { group: usize, needed: usize },
    /// The table is of another station.
    #[error("station differs")]
    StationDiffers,
    /// The last plan has the last number of 64 bits.
    #[error("count spent")]
    CountSpent,
    /// An allocation failed. This may come instead of any other answer.
    #[error("out of memory")]
    NoMemory,
}

impl From<TableFault> for ReplanFault {
    ghost use Rattle.std.specs.Prelude.{◌≡◌};
    ghost use Rattle.a429_station.specs.Resubmitting.{of_table};

    ghost from_gives = { λ fault e. e ≡ of_table fault };

    fn from(fault: TableFault) -> ReplanFault {
        match fault {
            TableFault::At(kind, place) => ReplanFault::Table(TableFault::At(kind, place)),
            TableFault::NoMemory => ReplanFault::NoMemory,
        }
    }
}

impl From<PlanFault> for ReplanFault {
    ghost use Rattle.std.specs.Prelude.{◌≡◌};
    ghost use Rattle.a429_station.specs.Resubmitting.{of_plan};

    ghost from_gives = { λ fault e. e ≡ of_plan fault };

    fn from(fault: PlanFault) -> ReplanFault {
        match fault {
            PlanFault::Unfit { group, output } => ReplanFault::Unfit { group, output },
            PlanFault::TooManyBuses { group, needed } => {
                ReplanFault::TooManyBuses { group, needed }
            }
            PlanFault::NoMemory => ReplanFault::NoMemory,
        }
    }
}

impl From<BoardFault> for ReplanFault {
    ghost use Rattle.std.specs.Prelude.{◌≡◌};
    ghost use Rattle.a429_station.specs.Resubmitting.{of_board};

    ghost from_gives = { λ fault e. e ≡ of_board fault };

    fn from(fault: BoardFault) -> ReplanFault {
        match fault {
            BoardFault::CountSpent => ReplanFault::CountSpent,
            BoardFault::NoMemory => ReplanFault::NoMemory,
        }
    }
}

/// The plan of an equipment of this station, which the table states.
fn plan_of_read(
    alloc: Global,
    station: &Equipment,
    table: &[u8],
    equipment: &Equipment,
) -> Result<Plan<OUTPUTS>, ReplanFault>
    requires read { reading table.now ≡ Ok equipment.now }
    ensures plan { IfOk result (λ plan. (of : IsPlanned table.now) × (same_station station.now of.record_of ≡ true) × (plan ≡ of.plan)) }
    ensures fault { IfErr result (λ fault. (p : Planning) → IsReplanFault (record { station = station.now; planner = p }) table.now fault) }
{
    let _ = table;
    equipment.rows_are_sound();
    let plan = plan(alloc, equipment)?;
    if station.same_station(equipment) {
        Ok(plan)
    } else {
        Err(ReplanFault::StationDiffers)
    }
}

/// A station that runs, for which plans are published.
pub struct Station<'a, R: Wait> {
    rt: &'a R,
    alloc: Global,
    equipment: &'a Equipment,
    planner: Planner,
}

impl<'a, R: Wait> Model for Station<'a, R> {
    ghost use Rattle.a429_station.specs.Resubmitting.{IsLed, Running};

    ghost Value = { Running };

    ghost view = { λ s. record { station = s.equipment.now; planner = s.planner } };

    ghost invariant = { λ s. IsLed (record { station = s.equipment.now; planner = s.planner }) };
}

impl<'a, R: Wait> Station<'a, R> {
    /// The running station of this equipment, over this planner, whose list has only the equipment's own plan.
    pub(crate) fn of_planner(
        rt: &'a R,
        alloc: Global,
        equipment: &'a Equipment,
        planner: Planner,
    ) -> Station<'a, R>
        requires planned { IsPlanOf equipment.now planner.last }
        requires first { planner.list ≡ planner.last ∷ [] }
        ensures { result ≡ record { station = equipment.now; planner = planner } }
    {
        equipment.rows_are_sound();
        Station {
            rt,
            alloc,
            equipment,
            planner,
        }
    }

    /// Reads an equipment table and plans it, and publishes that plan to all groups: each takes it at its next frame.
    /// Answers the number of the plan. Errors, in this order: `Table` if the table has a fault; `Unfit` or
    /// `TooManyBuses` if it has no plan; `StationDiffers` if and only if the receivers with their filters, the sources
    /// or the groups differ; `CountSpent` if the last plan has the last number of 64 bits. `NoMemory` may come instead
    /// of any of these. Then nothing changes. The call may wait for groups that read the board.
    pub fn resubmit(&mut self, table: &[u8]) -> Result<u64, ReplanFault>
        ensures published { IfOk result (λ number. Publishes self.old table.now number self.new) }
        ensures fault { IfErr result (IsReplanFault self.old table.now) }
        ensures unchanged { OnErr result (self.new ≡ self.old) }
        ensures after { GoesOn self.old self.new }
    {
        match read_equipment(self.alloc, table) {
            Ok(equipment) => self.resubmit_read(table, &equipment),
            Err(fault) => Err(ReplanFault::from(fault)),
        }
    }

    /// Like `resubmit`, for a table whose equipment was read before. Errors and waiting are those of `resubmit`,
    /// without `Table`.
    pub fn resubmit_read(&mut self, table: &[u8], equipment: &Equipment) -> Result<u64, ReplanFault>
        requires read { reading table.now ≡ Ok equipment.now }
        ensures published { IfOk result (λ number. Publishes self.old table.now number self.new) }
        ensures fault { IfErr result (IsReplanFault self.old table.now) }
        ensures unchanged { OnErr result (self.new ≡ self.old) }
        ensures after { GoesOn self.old self.new }
    {
        let plan = match plan_of_read(self.alloc, self.equipment, table, equipment) {
            Ok(plan) => plan,
            Err(fault) => return Err(fault),
        };
        match self.planner.publish(self.rt, plan) {
            Ok(number) => Ok(number),
            Err(fault) => Err(ReplanFault::from(fault)),
        }
    }

    /// Its list of plans: the opening one, and proposals of this station after it.
    pub(crate) fn plans_are_of_station(&self)
        ensures { IsLed self.now }
    {
        let _ = &self.rt;
    }

    /// Gives a group's transmitter of this board all that was published.
    pub(crate) fn tell(&mut self, transmit: &mut Transmit)
        requires board { transmit.old.watcher.book ≡ self.old.planner.book }
        ensures station { self.new ≡ self.old }
        ensures transmit { transmit.new ≡ told transmit.old self.old.planner.list }
        ensures beginning { IsPrefix transmit.old.watcher.list self.old.planner.list }
        ensures stands { GoesOnByCalls transmit.old [] transmit.new }
    {
        transmit.told(&mut self.planner);
    }

    /// Ends its board, and changes no list. It may wait for groups that read the board.
    pub(crate) fn close(self) {
        let Station {
            rt,
            alloc: _,
            equipment: _,
            planner,
        } = self;
        planner.close(rt);
    }
}
