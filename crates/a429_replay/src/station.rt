//! The station of a table, opened for a script.
ghost use Rattle.std.specs.Prelude.{MatchResult};
ghost use Rattle.a429_slots.specs.Planned.{IsPlanOf};
ghost use Rattle.a429_replay.specs.Opened.{IsOpenedFrom, OpensStation};
ghost use Rattle.a429_console.specs.RefusalText.{OrMemory};
ghost use Rattle.a429_given.specs.GivenPlans.{IsNoGivenPlan};
ghost use Rattle.a429_given.specs.GivenTables.{table_texts};

use crate::names::Names;
use crate::opening::open_machine;
use a429_console::refusals::Refused;
use a429_core::StationState;
use a429_equipment::Equipment;
use a429_given::GivenTable;
use a429_slots::{OUTPUTS, Proposal};
use std::alloc::Global;

/// A station in operation, with its names, and its equipment, with which further tables are compared for hints.
#[derive(Drop)]
pub struct ReplayStation {
    pub names: Names,
    pub equipment: Equipment,
    pub state: StationState,
}

impl ReplayStation {
    /// Opens the station of a table at slot 0, with no event yet. Error: there is no plan, or an allocation failed.
    pub fn open(alloc: Global, table: &GivenTable) -> Result<ReplayStation, Refused>
        ensures { MatchResult result (IsOpenedFrom (table_texts table.now)) (OrMemory (IsNoGivenPlan (table_texts table.now))) }
    {
        let proposal = table.propose(alloc)?;
        ReplayStation::of(alloc, proposal)
    }

    /// Opens the station of a proposal at slot 0, with no event yet. Error: an allocation failed.
    fn of(alloc: Global, proposal: Proposal<OUTPUTS>) -> Result<ReplayStation, Refused>
        requires planned { IsPlanOf proposal.station proposal.plan }
        ensures { OpensStation proposal result }
    {
        let equipment = proposal.equipment().copied(alloc)?;
        let names = Names::of(alloc, &equipment)?;
        let state = open_machine(alloc, proposal)?;
        Ok(ReplayStation {
            names,
            equipment,
            state,
        })
    }
}
