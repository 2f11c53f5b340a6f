//! Hints about tables without a plan, and about groups.

use crate::hint::HintText;
use crate::periods::{Interval, tell_unfit};
use a429_console::refusals::names::{group_name, source_name};
use a429_equipment::{Equipment, GroupRow, OutputRow};
use a429_grid::{SLOT_TIME, grid_period};

/// Says which groups a table has.
pub fn tell_groups(groups: &[GroupRow], hint: &HintText) {
    if groups.is_empty() {
        return hint.say_line("the table has no groups");
    }
    hint.begin(": the groups of the table are");
    for group in groups {
        hint.say_one(" {}", group.name.as_str());
    }
    hint.end("");
}

/// Says what to do about a group that needs too many buses.
pub fn tell_fewer_buses(group: &str, needed: usize, hint: &HintText) {
    hint.line_two(
        "the outputs of group {} fill {} buses, but a group can have at most 16: give some of them a longer max_us, or move them to another group",
        group,
        needed,
    );
}

/// Says which outputs have no period, and for the first which intervals would work.
pub fn tell_all_unfit(equipment: &Equipment, hint: &HintText) {
    let mut is_first = true;
    for group in 0..equipment.groups().len() {
        is_first = tell_unfit_of(equipment, group, is_first, hint);
    }
}

/// Says which outputs of a group have no period. The answer is whether the next such output is the first one.
fn tell_unfit_of(equipment: &Equipment, group: usize, was_first: bool, hint: &HintText) -> bool {
    let mut is_first = was_first;
    if group >= equipment.groups().len() {
        return is_first;
    }
    let rate = equipment.group_rate(group);
    for (number, row) in equipment.outputs(group).iter().enumerate() {
        let (min_us, max_us) = (row.min_us, row.max_us);
        if grid_period(min_us, max_us, rate).is_none() {
            let name = group_name(equipment, group);
            let source = source_name(equipment, group, number);
            hint.begin(": group ");
            hint.say_two("{}, output of source {}", name.as_str(), source.as_str());
            tell_unfit(
                Interval {
                    min_us,
                    max_us,
                    rate,
                },
                is_first,
                hint,
            );
            is_first = false;
        }
    }
    is_first
}

/// Half the period of an output in microseconds, rounded down. If it has no period, the greatest number.
fn half_period(row: &OutputRow, rate: u32) -> u64 {
    match grid_period(row.min_us, row.max_us, rate) {
        Some(period) => u64::from(period.slots()) * SLOT_TIME / (2 * u64::from(rate).max(1)),
        None => u64::MAX,
    }
}

/// Says how great the tolerance of recorded times may be.
pub fn tell_half_period(equipment: &Equipment, hint: &HintText) {
    let mut least = u64::MAX;
    for group in 0..equipment.groups().len() {
        let rate = equipment.group_rate(group);
        for row in equipment.outputs(group) {
            least = least.min(half_period(row, rate));
        }
    }
    hint.line_one(
        "a tolerance is at most half the shortest period; give --tolerance {} or less",
        least,
    );
}
