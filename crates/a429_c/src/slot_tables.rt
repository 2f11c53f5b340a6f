//! The slot tables of a plan, and the places of outputs in them.
ghost use Rattle.std.specs.Prelude.{◌≡◌, IfOk};
ghost use Rattle.a429_slots.specs.Tables.{groups_of};
ghost use Rattle.a429_c.specs.SlotTables.{followed, place_in};

use crate::answers::PlaceAnswer;
use a429_slots::{GroupPlan, OUTPUTS, OutputId, Plan};
use std::alloc::{AllocError, Global};

/// The slot table of each group of a plan.
pub(crate) fn slot_tables_of(
    alloc: Global,
    plan: &Plan<OUTPUTS>,
) -> Result<Vec<GroupPlan<OUTPUTS>>, AllocError>
    ensures { IfOk result (λ tables. tables.items ≡ groups_of plan.now) }
{
    let mut tables = Vec::new(alloc);
    for group in 0..plan.groups() {
        tables.push(*plan.group(group))?;
    }
    Ok(tables)
}

/// Takes over the newest table of a group.
pub(crate) fn follow(
    tables: &mut Vec<GroupPlan<OUTPUTS>>,
    newest: &[GroupPlan<OUTPUTS>],
    group: usize,
)
    ensures { tables.new.items ≡ followed tables.old.items newest.now group }
{
    if group < tables.len() && group < newest.len() {
        tables[group] = newest[group];
    }
}

/// The place of an output; `None` if the table has no such output.
pub(crate) fn place_in(table: &GroupPlan<OUTPUTS>, output: usize) -> Option<PlaceAnswer>
    ensures { result ≡ place_in table.now output }
{
    if output >= table.outputs() {
        return None;
    }
    let place = table.place(OutputId::new(output));
    Some(PlaceAnswer {
        bus: place.bus,
        offset: place.offset,
        period: place.period.slots(),
    })
}
