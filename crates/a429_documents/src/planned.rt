//! The groups of a plan, and the outputs of a group: what the sheets on a plan are made of.
ghost use Rattle.std.specs.Prelude.{◌≡◌, ◌≤◌, ◌<◌, length};
ghost use Rattle.a429_slots.specs.Tables.{groups_of, outputs_of};
ghost use Rattle.a429_documents.specs.PlannedGroups.{group_at, output_at};

use a429_equipment::{Equipment, GroupRow, OutputRow, ReceiverRow, SourceRow};
use a429_slots::{GroupPlan, OUTPUTS, OutputId, Proposal, SendLimits, SlotPlace};
use std::marker::Model;

/// A group of a plan: its table, its row there, the rows of its outputs, and its slot table.
#[derive(Drop)]
pub struct PlannedGroup<'a> {
    pub equipment: &'a Equipment,
    pub row: &'a GroupRow,
    pub rows: &'a [OutputRow],
    pub table: &'a GroupPlan<OUTPUTS>,
}

impl<'a> Model for PlannedGroup<'a> {
    ghost use Rattle.a429_documents.specs.PlannedGroups as planned;

    ghost Value = { planned.PlannedGroup };

    ghost view = { λ g. record { station = g.equipment.now; row = g.row.now; rows = g.rows.now; table = g.table.now } };

    ghost invariant = { λ g. planned.IsPlannedGroup (record { station = g.equipment.now; row = g.row.now; rows = g.rows.now; table = g.table.now }) };
}

/// An output of a group: the receivers of its table, its group, its source, its row, its place, and the limits of its sends.
#[derive(Drop)]
pub struct PlannedOutput<'a> {
    pub receivers: &'a [ReceiverRow],
    pub group: &'a GroupRow,
    pub source: &'a SourceRow,
    pub row: &'a OutputRow,
    pub place: SlotPlace,
    pub limits: SendLimits,
}

impl<'a> Model for PlannedOutput<'a> {
    ghost use Rattle.std.specs.Prelude.{◌≤◌};
    ghost use Rattle.a429_documents.specs.PlannedGroups as planned;

    ghost Value = { planned.PlannedOutput };

    ghost view = { λ o. record { receivers = o.receivers.now; group = o.group.now; source = o.source.now; row = o.row.now; place = o.place; limits = o.limits } };

    ghost invariant = { λ o. 1 ≤ o.group.now.rate };
}

impl<'a> PlannedGroup<'a> {
    /// The group of a proposal with this number.
    pub fn of(proposal: &'a Proposal<OUTPUTS>, number: usize) -> PlannedGroup<'a>
        requires { number < length (groups_of proposal.now.plan) }
        ensures { result ≡ group_at proposal.now.station proposal.now.plan number }
    {
        let equipment = proposal.equipment();
        equipment.rows_are_sound();
        let groups = equipment.groups();
        PlannedGroup {
            equipment,
            row: &groups[number],
            rows: equipment.outputs(number),
            table: proposal.plan().group(number),
        }
    }

    /// The output with this number.
    pub fn output(&self, number: usize) -> PlannedOutput<'a>
        requires { number < length (outputs_of self.now.table) }
        ensures { result ≡ output_at self.now number }
    {
        let output = OutputId::new(number);
        let sources = self.equipment.sources();
        PlannedOutput {
            receivers: self.equipment.receivers(),
            group: self.row,
            source: &sources[self.table.source(output)],
            row: &self.rows[number],
            place: self.table.place(output),
            limits: self.table.limits(output),
        }
    }
}
