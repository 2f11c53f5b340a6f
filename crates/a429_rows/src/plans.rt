//! Plans and proposals.
ghost use Rattle.std.specs.Prelude.{◌<◌, length};
ghost use Rattle.a429_slots.specs.Tables.{outputs_of};

use crate::machine::proposal;
use crate::support::{LIMITED, TWO, equipment_of, replace_once, row_holds};
use a429_slots::{GroupPlan, NoProposal, OUTPUTS, OutputId, Plan, PlanFault, Proposal, gap, plan};
use std::alloc::Global;
use std::process::Abort;

/// The plan of a table's first group.
fn first_group(rt: &impl Abort, alloc: Global, table: &str) -> GroupPlan<OUTPUTS> {
    let equipment = equipment_of(rt, alloc, table);
    let made: Plan<OUTPUTS> = plan(alloc, &equipment).expect(rt, "a plan");
    // `drop` keeps the proof short: a drop in place goes through all parts.
    drop(equipment);
    assert!(rt; made.groups() > 0);
    *made.group(0)
}

/// Outputs of `b` and `c` in every fourth slot, followed by `a` in every other.
const BEHIND: &str = r#"version = 1
rate = 100000
receiver = [{ name = "r" }]
source = [
    { name = "a", receiver = "r", label = "001", sdi = "any" },
    { name = "b", receiver = "r", label = "002", sdi = "any" },
    { name = "c", receiver = "r", label = "003", sdi = "any" },
]
[[group]]
name = "g"
output = [
    { source = "b", min_us = 1, max_us = 1440 },
    { source = "c", min_us = 1, max_us = 1440 },
    { source = "a", min_us = 1, max_us = 720 },
]
"#;

/// Source, bus, offset and slots of the period of an output.
fn place(group: &GroupPlan<OUTPUTS>, output: OutputId) -> (usize, u32, u32, u32)
    requires { output < length (outputs_of group.now) }
{
    let place = group.place(output);
    let slots = place.period.slots();
    (group.source(output), place.bus, place.offset, slots)
}

/// Whether the outputs of a group have these places, of one bus with a frame of four slots.
fn has_places(group: &GroupPlan<OUTPUTS>, places: &[(usize, u32, u32, u32)]) -> bool {
    for (number, stated) in places.iter().enumerate() {
        if number >= group.outputs() || place(group, OutputId::new(number)) != *stated {
            return false;
        }
    }
    group.buses() == 1 && group.frame() == 4
}

#[test]
fn outputs_have_their_places(rt: HostRuntime) {
    let group = first_group(&rt, rt.alloc(), TWO);
    assert!(rt; has_places(&group, &[(0, 0, 0, 2), (1, 0, 1, 4)]));
}

/// The number of the output in a cell.
fn output_in(group: &GroupPlan<OUTPUTS>, bus: u32, slot: u64) -> Option<usize> {
    let output = group.at(bus, slot)?;
    Some(output.number())
}

/// Buses, slots, and the numbers of the outputs in the cells of `TWO`.
static CELLS: [(u32, u64, Option<usize>); 8] = [
    (0, 0, Some(0)),
    (0, 1, Some(1)),
    (0, 2, Some(0)),
    (0, 3, None),
    (0, 5, Some(1)),
    (0, 18446744073709551614, Some(0)),
    (1, 0, None),
    (4294967295, 0, None),
];

/// Buses, slots, and the numbers of the outputs in the cells of `BEHIND`.
static CELLS_BEHIND: [(u32, u64, Option<usize>); 4] = [
    (0, 0, Some(2)),
    (0, 1, Some(0)),
    (0, 2, Some(2)),
    (0, 3, Some(1)),
];

/// The cells of a group have these outputs.
fn have_outputs(rt: &impl Abort, group: &GroupPlan<OUTPUTS>, cells: &[(u32, u64, Option<usize>)]) {
    for (bus, slot, output) in cells {
        row_holds(rt, *bus, output_in(group, *bus, *slot) == *output);
    }
}

#[test]
fn cells_have_their_outputs(rt: HostRuntime) {
    let group = first_group(&rt, rt.alloc(), TWO);
    have_outputs(&rt, &group, &CELLS);
}

/// The number of the plan, once it is given the number 7.
fn number_given(plan: &Plan<OUTPUTS>) -> u64 {
    plan.copied().numbered(7).number()
}

#[test]
fn plans_have_numbers(rt: HostRuntime) {
    let proposed = proposal(&rt, rt.alloc(), TWO);
    assert!(rt; number_given(proposed.plan()) == 7);
    assert!(rt; proposed.plan().number() == 0);
    drop(proposed);
}

#[test]
fn places_do_not_follow_the_order_of_the_outputs(rt: HostRuntime) {
    let group = first_group(&rt, rt.alloc(), BEHIND);
    assert!(rt; has_places(&group, &[(1, 0, 1, 4), (2, 0, 3, 4), (0, 0, 0, 2)]));
    have_outputs(&rt, &group, &CELLS_BEHIND);
}

/// Hold and spacing of the one output of a group.
fn limits(group: &GroupPlan<OUTPUTS>) -> Option<(Option<u32>, u32)> {
    if group.outputs() != 1 {
        return None;
    }
    let only = OutputId::new(0);
    Some((group.hold(only), group.spacing(only)))
}

#[test]
fn outputs_have_the_limits_of_their_rows(rt: HostRuntime) {
    let group = first_group(&rt, rt.alloc(), LIMITED);
    assert!(rt; group.frame() == 2);
    assert!(rt; limits(&group) == Some((Some(7), 2)));
}

/// The gap of the second of three outputs.
fn gap_of_second(before: &GroupPlan<OUTPUTS>, after: &GroupPlan<OUTPUTS>) -> Option<u32> {
    if before.outputs() != 3 || after.outputs() != 3 {
        return None;
    }
    let second = OutputId::new(1);
    Some(gap(before, second, after, second))
}

/// The group of `BEHIND`, with `b` in every other slot.
fn faster_group(rt: &impl Abort, alloc: Global) -> GroupPlan<OUTPUTS> {
    let faster = replace_once(rt, alloc, BEHIND, "1440", "720");
    first_group(rt, alloc, &faster)
}

#[test]
fn outputs_keep_a_gap_where_plans_change(rt: HostRuntime) {
    let slow = first_group(&rt, rt.alloc(), BEHIND);
    let fast = faster_group(&rt, rt.alloc());
    assert!(rt; gap_of_second(&slow, &fast) == Some(1));
    assert!(rt; gap_of_second(&fast, &slow) == Some(7));
}

/// Whether the second output of the first group has no period.
fn is_second_unfit(fault: PlanFault) -> bool {
    match fault {
        PlanFault::Unfit { group, output } => group == 0 && output == 1,
        _ => false,
    }
}

/// The refusal of a proposal for a table.
fn refusal(rt: &impl Abort, alloc: Global, table: &str) -> NoProposal {
    match Proposal::<OUTPUTS>::of(alloc, equipment_of(rt, alloc, table)) {
        Ok(_) => panic!(rt; "a plan"),
        Err(none) => none,
    }
}

#[test]
fn equipment_without_a_plan_comes_back(rt: HostRuntime) {
    let table = replace_once(&rt, rt.alloc(), TWO, "1440", "359");
    let none = refusal(&rt, rt.alloc(), &table);
    assert!(rt; is_second_unfit(none.fault) && none.equipment.sources().len() == 2);
    drop(none);
}
