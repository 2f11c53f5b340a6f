//! Machines at the beginning of a replay or a simulation.
ghost use Rattle.a429_slots.specs.Planned.{IsPlanOf};
ghost use Rattle.a429_replay.specs.Opened.{OpensMachine};

use a429_console::refusals::CommandRefusal;
use a429_core::{OpenFault, StationState};
use a429_slots::{OUTPUTS, Proposal};
use std::alloc::Global;

/// Opens the machine of a proposal at slot 0, with no event yet. Error: an allocation failed.
pub fn open_machine(
    alloc: Global,
    proposal: Proposal<OUTPUTS>,
) -> Result<StationState, CommandRefusal>
    requires { IsPlanOf proposal.station proposal.plan }
    ensures { OpensMachine proposal result }
{
    match StationState::open(alloc, proposal, 0) {
        Ok(state) => Ok(state),
        Err(OpenFault::NoMemory) => Err(CommandRefusal::Memory),
        // the frames of a plan are far too short for that
        Err(OpenFault::SlotsSpent) => unreachable!(),
    }
}
