//! The plan itself, as a sheet.
ghost use Rattle.std.specs.Prelude.{◌≡◌, ◌++◌, ◌∷◌, []};
ghost use Rattle.a429_documents.specs.PlanRows.{group_rows, plan_row};

use crate::cells::{limit_cell, number};
use crate::planned::{PlannedGroup, PlannedOutput};
use a429_text::{Cell, Rows};

/// The names of the columns.
pub const COLUMNS: &[&str] = &[
    "version",
    "group",
    "rate",
    "frame_slots",
    "buses",
    "cells",
    "source",
    "period_slots",
    "bus",
    "offset",
    "hold",
];

/// Adds the row of an output of a group.
fn add_row(rows: &mut Rows, group: &PlannedGroup<'_>, output: &PlannedOutput<'_>)
    ensures { rows.new ≡ rows.old ++ plan_row group.now output.now ∷ [] }
{
    let (row, table, place) = (group.row, group.table, output.place);
    rows.add(&[
        number(group.equipment.version()),
        Cell::Text(row.name.as_str()),
        number(row.rate),
        number(table.frame()),
        number(table.buses()),
        number(table.demand()),
        Cell::Text(output.source.name.as_str()),
        number(place.period.slots()),
        number(place.bus),
        number(place.offset),
        limit_cell(output.limits.hold),
    ]);
}

/// Adds a row for each output of a group, in layout order.
pub fn add_outputs(rows: &mut Rows, group: &PlannedGroup<'_>)
    ensures { rows.new ≡ rows.old ++ group_rows group.now }
{
    for place in 0..group.table.outputs() {
        let number = group.table.output_at_place(place).number();
        add_row(rows, group, &group.output(number));
    }
}
