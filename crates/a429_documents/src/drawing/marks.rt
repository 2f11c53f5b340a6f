//! The marks of an image: the cells of a plan that have an output.
ghost use Rattle.std.specs.Prelude.{◌≡◌, ◌≤◌, ◌+◌, ◌++◌, length};
ghost use Rattle.std.specs.List.{flat_map, range_with_len};
ghost use Rattle.a429_slots.specs.Tables.{groups_of};
ghost use Rattle.a429_documents.specs.Drawing.{bus_marks, cell_marks, group_marks, marks_at};

use crate::drawing::DrawingForm;
use crate::drawing::places::slots_of;
use a429_slots::{GroupPlan, OUTPUTS, OutputId, Plan};
use a429_text::Gathered;
use std::alloc::Global;

/// A cell of a plan that has an output: its group, its bus and its slot, each by its number from 0, and the output.
#[derive(Clone, Copy)]
pub struct CellMark {
    pub group: usize,
    pub bus: u32,
    pub slot: u32,
    pub output: OutputId,
}

/// Adds the mark of a cell, if it has an output.
fn push_cell(
    marks: &mut Gathered<CellMark>,
    group: usize,
    table: &GroupPlan<OUTPUTS>,
    bus: u32,
    slot: u32,
)
    ensures { marks.new ≡ marks.old ++ cell_marks group table.now bus slot }
{
    if let Some(output) = table.at(bus, u64::from(slot)) {
        marks.push(CellMark {
            group,
            bus,
            slot,
            output,
        });
    }
}

/// Adds the marks of a bus in the first `slots` slots.
#[tactic(auto, using(crate::proofs::Ranges::flat_more))]
fn push_bus(
    marks: &mut Gathered<CellMark>,
    group: usize,
    table: &GroupPlan<OUTPUTS>,
    slots: u32,
    bus: u32,
)
    ensures { marks.new ≡ marks.old ++ bus_marks group table.now slots bus }
{
    for slot in 0..slots {
        push_cell(marks, group, table, bus, slot);
    }
}

/// Adds the marks of a group in the first `slots` slots, bus by bus.
#[tactic(auto, using(crate::proofs::Ranges::flat_more))]
fn push_group(marks: &mut Gathered<CellMark>, group: usize, table: &GroupPlan<OUTPUTS>, slots: u32)
    ensures { marks.new ≡ marks.old ++ group_marks group table.now slots }
{
    for bus in 0..table.buses() {
        push_bus(marks, group, table, slots, bus);
    }
}

/// The marks of `count` groups from a first one on, in table order.
pub(crate) fn marks_of(
    alloc: Global,
    plan: &Plan<OUTPUTS>,
    form: DrawingForm,
    first: usize,
    count: usize,
) -> Gathered<CellMark>
    requires known { first + count ≤ length (groups_of plan.now) }
    requires few { first + count ≤ 8 }
    ensures { result ≡ flat_map (λ k. marks_at form plan.now (first + k)) (range_with_len 0 count) }
{
    let mut marks = Gathered::new(alloc);
    for place in 0..count {
        let group = first + place;
        let table = plan.group(group);
        push_group(&mut marks, group, table, slots_of(form, table));
    }
    marks
}
