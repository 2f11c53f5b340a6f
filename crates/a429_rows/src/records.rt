//! The rows that tables without faults state.

use crate::support::{LIMITED, ONE, equipment_of, replace_once};
use a429_equipment::{Equipment, GroupRow, OutputRow, ReceiverRow, SourceRow};
use a429_filter::Filter;
use std::alloc::Global;
use std::fmt::Write;
use std::process::Abort;

/// Whether there is only the receiver `r` with the filter 200/370.
fn are_receivers(receivers: &[ReceiverRow]) -> bool {
    match receivers {
        [only] => only.name.as_str() == "r" && is_filter(only.filters.list()),
        _ => false,
    }
}

/// Whether there is only the filter 200/370.
fn is_filter(filters: Option<&[Filter]>) -> bool {
    match filters {
        Some([only]) => only.label.value() == 0o200 && only.mask == 0o370,
        _ => false,
    }
}

/// Whether there is only the source `s` of label 203 and any SDI.
fn are_sources(sources: &[SourceRow]) -> bool {
    match sources {
        [only] => {
            only.name.as_str() == "s"
                && only.receiver == 0
                && only.label.value() == 0o203
                && only.sdi.is_none()
        }
        _ => false,
    }
}

/// Whether there is only the group `g`.
fn are_groups(groups: &[GroupRow]) -> bool {
    match groups {
        [only] => only.name.as_str() == "g",
        _ => false,
    }
}

/// Whether the first group has only this output.
fn has_output(equipment: &Equipment, stated: &OutputRow) -> bool {
    if equipment.groups().is_empty() {
        return false;
    }
    match equipment.outputs(0) {
        [only] => only == stated,
        _ => false,
    }
}

/// The output of `ONE`.
static SENT_ALWAYS: OutputRow = OutputRow {
    source: 0,
    min_us: 1,
    max_us: 360,
    hold: None,
};

/// The equipment of `ONE` with the filter.
fn filtered(rt: &impl Abort, alloc: Global) -> Equipment {
    let filters = "name = \"r\"\nfilters = [\"200/370\"]";
    let table = replace_once(rt, alloc, ONE, "name = \"r\"", filters);
    equipment_of(rt, alloc, &table)
}

#[test]
fn gives_the_rows(rt: HostRuntime) {
    let equipment = filtered(&rt, rt.alloc());
    assert!(rt; are_receivers(equipment.receivers()));
    assert!(rt; are_sources(equipment.sources()));
    assert!(rt; are_groups(equipment.groups()) && has_output(&equipment, &SENT_ALWAYS));
    // `drop` keeps the proof short: a drop in place goes through all parts.
    drop(equipment);
}

#[test]
fn gives_rates_of_version_1(rt: HostRuntime) {
    let equipment = equipment_of(&rt, rt.alloc(), ONE);
    assert!(rt; equipment.version() == 1 && equipment.rate() == Some(100000));
    drop(equipment);
}

/// The bit rate of the first group.
fn first_rate(equipment: &Equipment) -> u32 {
    if equipment.groups().is_empty() {
        return 0;
    }
    equipment.group_rate(0)
}

/// The first output's hold.
fn first_hold(equipment: &Equipment) -> Option<u32> {
    if equipment.groups().is_empty() || equipment.outputs(0).is_empty() {
        return None;
    }
    equipment.hold(0, 0)
}

/// Whether version, rates and hold are those of `LIMITED`.
fn is_limited(equipment: &Equipment) -> bool {
    equipment.version() == 2
        && equipment.rate().is_none()
        && first_rate(equipment) == 12500
        && first_hold(equipment) == Some(7)
}

#[test]
fn gives_rates_and_holds_of_version_2(rt: HostRuntime) {
    let equipment = equipment_of(&rt, rt.alloc(), LIMITED);
    assert!(rt; is_limited(&equipment));
    drop(equipment);
}

/// The end of a name, and 32 filters.
const FILTERS: &str = r#""
filters = [
    "000/000", "000/000", "000/000", "000/000", "000/000", "000/000", "000/000", "000/000",
    "000/000", "000/000", "000/000", "000/000", "000/000", "000/000", "000/000", "000/000",
    "000/000", "000/000", "000/000", "000/000", "000/000", "000/000", "000/000", "000/000",
    "000/000", "000/000", "000/000", "000/000", "000/000", "000/000", "000/000", "000/000",
]
"#;

/// Adds a number to a table, in octal between two texts.
fn add(rt: &impl Abort, table: &mut String, front: &str, number: u32, back: &str) {
    write!(table, "{front}{number:03o}{back}").expect(rt, "memory");
}

/// Adds source k, which is at receiver k / 16 and has label k.
fn add_source(rt: &impl Abort, table: &mut String, k: u32) {
    add(
        rt,
        table,
        "[[source]]\nsdi = \"any\"\nlabel = \"",
        k,
        "\"\n",
    );
    add(rt, table, "receiver = \"r", k / 16, "\"\n");
    add(rt, table, "name = \"s", k, "\"\n");
}

/// Adds a group that sends the sources from the last on.
fn add_group(rt: &impl Abort, table: &mut String, k: u32) {
    add(rt, table, "[[group]]\nname = \"g", k, "\"\n");
    for j in 0..128u32 {
        let interval = "\"\nmin_us = 30000000\nmax_us = 30000000\n";
        add(
            rt,
            table,
            "[[group.output]]\nsource = \"s",
            255 - j,
            interval,
        );
    }
}

/// Adds all receivers, and all sources after them.
fn add_sources(rt: &impl Abort, table: &mut String) {
    for k in 0..16u32 {
        add(rt, table, "[[receiver]]\nname = \"r", k, FILTERS);
    }
    for k in 0..256u32 {
        add_source(rt, table, k);
    }
}

/// The largest table.
fn largest(rt: &impl Abort, alloc: Global) -> String {
    let mut table = String::from_str(alloc, "version = 1\nrate = 100000\n").expect(rt, "memory");
    add_sources(rt, &mut table);
    for k in 0..8u32 {
        add_group(rt, &mut table, k);
    }
    table
}

/// Whether there are 256 sources, and the last is as it was stated.
fn are_all_sources(sources: &[SourceRow]) -> bool {
    match sources.last() {
        Some(last) => sources.len() == 256 && last.receiver == 15 && last.label.value() == 255,
        None => false,
    }
}

/// Whether there are eight groups, and the last has 128 outputs.
fn has_all_outputs(equipment: &Equipment) -> bool {
    if equipment.groups().len() != 8 {
        return false;
    }
    let outputs = equipment.outputs(7);
    match outputs.last() {
        Some(last) => outputs.len() == 128 && last.source == 128 && last.max_us == 30000000,
        None => false,
    }
}

/// Whether an equipment has as many rows as can be, and its last rows.
fn is_largest(equipment: &Equipment) -> bool {
    equipment.receivers().len() == 16
        && are_all_sources(equipment.sources())
        && has_all_outputs(equipment)
}

#[test]
fn takes_the_largest_table(rt: HostRuntime) {
    let table = largest(&rt, rt.alloc());
    let equipment = equipment_of(&rt, rt.alloc(), &table);
    assert!(rt; is_largest(&equipment));
    drop(equipment);
}
