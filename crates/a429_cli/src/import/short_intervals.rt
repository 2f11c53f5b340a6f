//! Intervals of an imported table that may be milliseconds.
ghost use Rattle.std.specs.Prelude.{◌≡◌, ◌<◌, ◌↔◌, IsTrue, length, slice_get, true, Some};
ghost use Rattle.std.specs.List.{AllByRecursion};
ghost use Rattle.a429_documents.specs.Lint.{IsMillisGroup};
ghost use Rattle.a429_cli.specs.Importing.{HasNoMillisGroup, HasNoShortGroup, IsShortInterval};

use a429_console::hints::warnings::Warning;
use a429_documents::is_millis_group;
use a429_equipment::{Equipment, OutputRow};
use a429_grid::grid_period;
use std::alloc::Global;

/// The least time in microseconds that is no short interval: one millisecond.
const MILLISECOND: u32 = 1000;

/// Whether the interval of an output is below 1000 µs, and allows no period at this bit rate in bit/s.
fn is_short(row: OutputRow, rate: u32) -> bool
    ensures { IsTrue result ↔ IsShortInterval rate row }
{
    let is_below = row.min_us < MILLISECOND && row.max_us < MILLISECOND;
    match grid_period(row.min_us, row.max_us, rate) {
        Some(_period) => false,
        None => is_below,
    }
}

/// Whether all outputs have such an interval.
fn are_short(rows: &[OutputRow], rate: u32) -> bool
    ensures { IsTrue result ↔ AllByRecursion (IsShortInterval rate) rows.now }
{
    for row in rows {
        if !is_short(*row, rate) {
            return false;
        }
    }
    true
}

/// Notes each group all of whose outputs have such an interval, in table order: they may be milliseconds.
pub fn note_short_intervals(equipment: &Equipment, warnings: &mut Vec<Warning>)
    ensures { HasNoShortGroup equipment.now → warnings.new.items ≡ warnings.old.items }
{
    for group in 0..equipment.groups().len() {
        if are_short(equipment.outputs(group), equipment.group_rate(group)) {
            Warning::note_short_intervals(warnings, equipment.groups()[group].name);
        }
    }
}

/// Whether `lint` finds that the intervals of a group may be milliseconds. `false` if an allocation fails.
fn is_millis(alloc: Global, equipment: &Equipment, group: usize) -> bool
    requires { group < length equipment.now.groups }
    ensures { result ≡ true → IsMillisGroup equipment.now group true }
{
    match is_millis_group(alloc, equipment, group) {
        Ok(found) => found,
        Err(_) => false,
    }
}

/// Notes each group for which `lint` finds that its intervals may be milliseconds, in table order.
pub fn note_millis_groups(alloc: Global, equipment: &Equipment, warnings: &mut Vec<Warning>)
    ensures { HasNoMillisGroup equipment.now → warnings.new.items ≡ warnings.old.items }
{
    for group in 0..equipment.groups().len() {
        if is_millis(alloc, equipment, group) {
            Warning::note_millis_group(warnings, equipment.groups()[group].name);
        }
    }
}
