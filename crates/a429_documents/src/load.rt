//! What each bus of a plan carries, and what it has room for.
ghost use Rattle.std.specs.Prelude.{◌≡◌, ◌≤◌, ◌++◌, IfSome};
ghost use Rattle.a429_documents.specs.Load.{any_above, group_rows, has_above};

mod cells;
mod limit;
mod row;

use crate::load::cells::loads;
use crate::load::limit::{is_above, needed_cell};
use crate::load::row::{Buses, add_buses, add_rows};
use crate::planned::PlannedGroup;
use a429_pack::laws::fewest_by_demand;
use a429_slots::{GroupPlan, OUTPUTS, Plan};
use a429_text::Rows;

/// The names of the columns.
pub const COLUMNS: &[&str] = &[
    "group",
    "rate",
    "bus",
    "frame_slots",
    "cells",
    "free",
    "percent",
    "words_s",
    "needed",
    "period_slots",
    "room",
];

/// Adds the rows of a group: those of each bus, and then those of all its buses together.
pub fn add_group(rows: &mut Rows, limit: Option<u32>, group: &PlannedGroup<'_>)
    requires { IfSome limit (λ limit. limit ≤ 100) }
    ensures { rows.new ≡ rows.old ++ group_rows limit group.now }
{
    fewest_by_demand();
    let table = group.table;
    let all = loads(table);
    let loads = &all[..table.buses() as usize];
    add_buses(rows, group, loads);
    let needed = needed_cell(limit, table, loads);
    add_rows(rows, group, Buses::All, loads, needed);
}

/// Whether a bus of a group has a greater load than a limit, in per cent of the slots of a frame. `false` if there is no
/// limit.
fn has_above(limit: Option<u32>, table: &GroupPlan<OUTPUTS>) -> bool
    ensures { result ≡ has_above limit table.now }
{
    let Some(limit) = limit else {
        return false;
    };
    let all = loads(table);
    is_above(limit, table.frame(), &all[..table.buses() as usize])
}

/// Whether a bus of a plan is above the limit.
pub fn is_any_above(limit: Option<u32>, plan: &Plan<OUTPUTS>) -> bool
    ensures { result ≡ any_above limit plan.now }
{
    let mut above = false;
    for number in 0..plan.groups() {
        above |= has_above(limit, plan.group(number));
    }
    above
}
