//! Intervals of a group that may be milliseconds.
ghost use Rattle.std.specs.Prelude.{◌≡◌, ◌<◌, ◌++◌, IfOk, length};
ghost use Rattle.std.specs.List.{list_all, list_any};
ghost use Rattle.a429_documents.specs.Lint.{IsMillisGroup, are_brief, has_quarter, may_be_millis, millis_rows};

use crate::lint::demands::{are_fit, period_of};
use crate::lint::groups::add_finding;
use a429_equipment::{Equipment, OutputRow};
use a429_pack::Demand;
use a429_slots::demands_of;
use a429_text::{Cell, Rows};
use std::alloc::{AllocError, Global};

/// The least maximum interval, in microseconds, that is not brief: five milliseconds (profile: lint).
const BRIEF_US: u32 = 5000;

/// The fewest outputs of a group that say something about its unit (profile: lint).
const FEWEST: usize = 4;

/// Whether each maximum interval is below five milliseconds.
fn are_brief(rows: &[OutputRow]) -> bool
    ensures { result ≡ are_brief rows.now }
{
    rows.iter().all(|row| row.max_us < BRIEF_US)
}

/// Whether an output takes a quarter of a bus or more: its period has at most four slots.
fn has_quarter(demands: &[Demand]) -> bool
    ensures { result ≡ has_quarter demands.now }
{
    demands.iter().any(|demand| period_of(demand).digits() <= 2)
}

/// Whether the intervals of a group that can be planned, of four outputs or more, may be milliseconds.
fn may_be_millis(rows: &[OutputRow], demands: &[Demand]) -> bool
    ensures { result ≡ may_be_millis rows.now demands.now }
{
    are_fit(demands) && rows.len() >= FEWEST && are_brief(rows) && has_quarter(demands)
}

/// Whether a group has the finding `milliseconds`. The group has this number in table order, from 0. Error: an allocation
/// failed.
pub fn is_millis_group(
    alloc: Global,
    equipment: &Equipment,
    group: usize,
) -> Result<bool, AllocError>
    requires { group < length equipment.now.groups }
    ensures { IfOk result (λ found. IsMillisGroup equipment.now group found) }
{
    equipment.rows_are_sound();
    let rows = equipment.outputs(group);
    let demands = demands_of(
        alloc,
        equipment.group_rate(group),
        equipment.sources(),
        rows,
    )?;
    Ok(may_be_millis(rows, &demands))
}

/// Adds a group whose intervals may be milliseconds.
pub fn add_millis(found: &mut Rows, group: &str, rows: &[OutputRow], demands: &[Demand])
    ensures { found.new ≡ found.old ++ millis_rows group.now rows.now demands.now }
{
    if may_be_millis(rows, demands) {
        let nothing = Cell::Absent;
        add_finding(found, "milliseconds", group, nothing, nothing, nothing);
    }
}
