//! A station in operation, with its names and the slot tables in force.
ghost use Rattle.std.specs.Prelude.{◌≡◌, MatchResult, map, option_and_then, option_map, slice_get};
ghost use Rattle.a429_slots.specs.Tables.{buses_of, frame_of, groups_of};
ghost use Rattle.a429_core.specs.MachineStates.{HasTableForEach};
ghost use Rattle.a429_core.specs.MachineSteps.{cell_asked, frame_asked, publish_asked};
ghost use Rattle.a429_console.specs.Names.{number_named};
ghost use Rattle.a429_c.specs.Calls.{arrival_step, with_state};
ghost use Rattle.a429_c.specs.Openings.{IsNoOpening, IsHeldFrom};
ghost use Rattle.a429_c.specs.SlotTables.{place_in};

use crate::answers::PlaceAnswer;
use crate::slot_tables::{follow, place_in, slot_tables_of};
use crate::statuses::Status;
use crate::tables::{TableRefusal, read_proposal};
use a429_core::{Answer, OpenFault, StationState};
use a429_equipment::{Equipment, GroupRow, ReceiverRow};
use a429_slots::{GroupPlan, OUTPUTS, Proposal};
use std::alloc::Global;
use std::marker::Model;

/// A station in operation, the equipment of its table, and two slot tables of each group: that in force, and that of
/// the newest plan.
#[derive(Drop)]
pub struct Machine {
    pub(crate) state: StationState,
    pub(crate) equipment: Equipment,
    tables: Vec<GroupPlan<OUTPUTS>>,
    newest: Vec<GroupPlan<OUTPUTS>>,
}

impl Model for Machine {
    ghost use Rattle.a429_console.specs.Names.{naming_of};
    ghost use Rattle.std.specs.Prelude.{◌≡◌};
    ghost use Rattle.a429_c.specs.Stations.{Held};
    ghost use Rattle.a429_c.specs.SlotTables.{newest_tables, tables_in_force};

    ghost Value = { Held };

    ghost view = { λ m. record { state = m.state; names = naming_of m.equipment } };

    ghost invariant = { λ m. (m.tables.items ≡ tables_in_force m.state) × (m.newest.items ≡ newest_tables m.state) };
}

impl Machine {
    /// A raw word comes in at a receiver.
    pub(crate) fn arrive(&mut self, receiver: usize, raw: u32) -> Answer
        ensures answer { result ≡ (arrival_step receiver raw self.old.state).0 }
        ensures after { self.new ≡ with_state self.old (arrival_step receiver raw self.old.state).1 }
    {
        self.state.arrive(receiver, raw)
    }

    /// A group sends its next cell.
    pub(crate) fn cell(&mut self, group: usize) -> Answer
        ensures answer { result ≡ (cell_asked self.old.state group).0 }
        ensures after { self.new ≡ with_state self.old (cell_asked self.old.state group).1 }
    {
        self.state.cell(group)
    }

    /// A group goes on to its next frame.
    pub(crate) fn frame(&mut self, group: usize) -> Answer
        ensures answer { result ≡ (frame_asked self.old.state group).0 }
        ensures after { self.new ≡ with_state self.old (frame_asked self.old.state group).1 }
    {
        let answer = self.state.frame(group);
        if let Answer::Changed { .. } = answer {
            follow(&mut self.tables, &self.newest, group);
        }
        answer
    }

    /// A newer plan is proposed, for all groups, with these slot tables.
    pub(crate) fn publish(
        &mut self,
        proposal: &Proposal<OUTPUTS>,
        tables: Vec<GroupPlan<OUTPUTS>>,
    ) -> Answer
        requires { tables.items ≡ groups_of proposal.now.plan }
        ensures answer { result ≡ (publish_asked self.old.state proposal.now).0 }
        ensures after { self.new ≡ with_state self.old (publish_asked self.old.state proposal.now).1 }
        ensures whole { HasTableForEach proposal.now }
    {
        let answer = self.state.publish(proposal);
        if let Answer::Published { .. } = answer {
            self.newest = tables;
        }
        answer
    }

    /// How many buses a group has by the plan that is in force for it. `None` if there is no such group.
    pub(crate) fn buses(&self, group: usize) -> Option<u32>
        ensures { result ≡ option_map (λ s. buses_of s.table) (slice_get self.now.state.groups group) }
    {
        let table = self.tables.get(group)?;
        Some(table.buses())
    }

    /// How many slots a group's frame has by the plan that is in force for it. `None` if there is no such group.
    pub(crate) fn frame_slots(&self, group: usize) -> Option<u32>
        ensures { result ≡ option_map (λ s. frame_of s.table) (slice_get self.now.state.groups group) }
    {
        let table = self.tables.get(group)?;
        Some(table.frame())
    }

    /// The place of an output by the slot table that is in force for its group.
    pub(crate) fn place(&self, group: usize, output: usize) -> Option<PlaceAnswer>
        ensures { result ≡ option_and_then (λ s. place_in s.table output) (slice_get self.now.state.groups group) }
    {
        let table = self.tables.get(group)?;
        place_in(table, output)
    }

    /// The name of a receiver. `None` if there is none of this number.
    pub(crate) fn receiver_name(&self, number: usize) -> Option<&[u8]>
        ensures { option_map (λ b. b.now) result ≡ slice_get self.now.names.receivers number }
    {
        let row = self.equipment.receivers().get(number)?;
        Some(row.name.as_str().as_bytes())
    }

    /// The name of a group. `None` if there is none of this number.
    pub(crate) fn group_name(&self, number: usize) -> Option<&[u8]>
        ensures { option_map (λ b. b.now) result ≡ slice_get self.now.names.groups number }
    {
        let row = self.equipment.groups().get(number)?;
        Some(row.name.as_str().as_bytes())
    }

    /// The name of a source. `None` if there is none of this number.
    pub(crate) fn source_name(&self, number: usize) -> Option<&[u8]>
        ensures { option_map (λ b. b.now) result ≡ slice_get self.now.names.sources number }
    {
        let row = self.equipment.sources().get(number)?;
        Some(row.name.as_str().as_bytes())
    }
}

/// The number of the first of these receivers that has this name. `None` if none has it.
#[tactic(auto, unfolding(a429_console::specs::Names::number_named))]
pub(crate) fn receiver_number(rows: &[ReceiverRow], name: &[u8]) -> Option<usize>
    ensures { result ≡ number_named (map (λ r. r.name) rows.now) name.now }
{
    rows.iter()
        .position(|row| row.name.as_str().as_bytes() == name)
}

/// The number of the first of these groups that has this name. `None` if none has it.
#[tactic(auto, unfolding(a429_console::specs::Names::number_named))]
pub(crate) fn group_number(rows: &[GroupRow], name: &[u8]) -> Option<usize>
    ensures { result ≡ number_named (map (λ g. g.name) rows.now) name.now }
{
    rows.iter()
        .position(|row| row.name.as_str().as_bytes() == name)
}

/// The station of a table's bytes, to which nothing has happened, whose first frames begin at this slot. Its plan is that
/// of a plan text if one is given. Error: as `read_proposal`; the slots of a first frame cannot be counted, or an
/// allocation failed.
pub(crate) fn build(
    alloc: Global,
    table: &[u8],
    plan: Option<&[u8]>,
    first: u64,
) -> Result<Box<Machine>, TableRefusal>
    ensures { MatchResult result (λ b. IsHeldFrom table.now (option_map (λ p. p.now) plan.entry) first b.value)
        (IsNoOpening table.now (option_map (λ p. p.now) plan.entry) first) }
{
    let proposal = read_proposal(alloc, table, plan)?;
    let Ok(tables) = slot_tables_of(alloc, proposal.plan()) else {
        return Err(TableRefusal::Call(Status::Memory));
    };
    let Ok(newest) = slot_tables_of(alloc, proposal.plan()) else {
        return Err(TableRefusal::Call(Status::Memory));
    };
    let Ok(equipment) = proposal.equipment().copied(alloc) else {
        return Err(TableRefusal::Call(Status::Memory));
    };
    let state = match StationState::open(alloc, proposal, first) {
        Ok(state) => state,
        Err(OpenFault::NoMemory) => return Err(TableRefusal::Call(Status::Memory)),
        Err(OpenFault::SlotsSpent) => return Err(TableRefusal::Call(Status::SlotsSpent)),
    };
    let machine = Machine {
        state,
        equipment,
        tables,
        newest,
    };
    match Box::new(alloc, machine) {
        Ok(machine) => Ok(machine),
        Err(_) => Err(TableRefusal::Call(Status::Memory)),
    }
}
