//! The summary of a simulation as a sheet: a row for each output.
ghost use Rattle.std.specs.Prelude.{◌≡◌, ◌++◌, ◌∷◌, [], ◌<◌, ◌^◌, length, map};
ghost use Rattle.a429_text.specs.Fields.{Number, Text};
ghost use Rattle.a429_text.specs.Sheets.{field_of};
ghost use Rattle.a429_slots.specs.Tables.{outputs_of, placed_at};
ghost use Rattle.a429_recordings.specs.SimulationRuns.{HasPlannedGroup};
ghost use Rattle.a429_recordings.specs.Summary.{bound_fields, name_fields, number_field, summary_columns};
ghost use Rattle.a429_recordings.specs.SummaryRuns.{figure_fields, kept_group, kept_row, kept_rows};
ghost use Rattle.a429_recordings.specs.Timeline.{rate_of, table_of};

use crate::simulate::figures::{OutputFigures, Summary};
use crate::simulate::tracks::rate_of;
use a429_console::refusals::names::{group_name, source_name};
use a429_slots::{OUTPUTS, OutputId, Proposal, latency_us};
use a429_text::{Cell, Rows, Sheet};
use std::alloc::Global;

/// The names of the columns.
const COLUMNS: &[&str] = &[
    "group",
    "source",
    "sent",
    "least_us",
    "greatest_us",
    "late_us",
    "bound_us",
];

/// A number, if there is one.
fn number_cell(number: Option<u64>) -> Cell<'static>
    ensures { field_of result ≡ number_field number }
{
    match number {
        None => Cell::Absent,
        Some(number) => Cell::Number(number),
    }
}

/// Adds the row of an output, by what is kept of its sends, and the bound of its lateness in microseconds.
fn add_row<'a>(rows: &mut Rows, group: &'a str, source: &'a str, figures: OutputFigures, bound: u64)
    ensures { rows.new ≡ rows.old ++ (Text group.now ∷ Text source.now ∷ (figure_fields figures ++ Number bound ∷ [])) ∷ [] }
{
    rows.add(&[
        Cell::Text(group),
        Cell::Text(source),
        Cell::Number(figures.sent),
        number_cell(figures.least),
        number_cell(figures.greatest),
        number_cell(figures.late),
        Cell::Number(bound),
    ]);
}

/// Adds the row of an output.
fn add_output(
    rows: &mut Rows,
    proposal: &Proposal<OUTPUTS>,
    summary: &Summary,
    group: usize,
    output: usize,
)
    requires known { HasPlannedGroup proposal.now group }
    requires output { output < length (outputs_of (table_of proposal.now group)) }
    ensures { rows.new ≡ rows.old ++ kept_row proposal.now summary.now group output ∷ [] }
{
    let table = proposal.plan().group(group);
    let id = OutputId::new(output);
    let figures = summary.at(group, table.source(id));
    let bound = latency_us(rate_of(proposal, group), table.place(id).period);
    let equipment = proposal.equipment();
    let name = group_name(equipment, group);
    let source = source_name(equipment, group, output);
    add_row(rows, name.as_str(), source.as_str(), figures, bound);
}

/// Adds a row for each output of a group, in table order.
fn add_outputs(rows: &mut Rows, proposal: &Proposal<OUTPUTS>, summary: &Summary, group: usize)
    requires known { HasPlannedGroup proposal.now group }
    ensures { rows.new ≡ rows.old ++ kept_group proposal.now summary.now group }
{
    for output in 0..proposal.plan().group(group).outputs() {
        add_output(rows, proposal, summary, group, output);
    }
}

/// Adds a row for each output, groups and outputs in table order.
fn add_groups(rows: &mut Rows, proposal: &Proposal<OUTPUTS>, summary: &Summary)
    ensures { rows.new ≡ rows.old ++ kept_rows proposal.now summary.now }
{
    for group in 0..proposal.plan().groups() {
        add_outputs(rows, proposal, summary, group);
    }
}

/// A row for each output, groups and outputs in table order.
pub fn summary_sheet(alloc: Global, proposal: &Proposal<OUTPUTS>, summary: &Summary) -> Sheet
    ensures columns { map (λ name. name.now) result.columns.now ≡ summary_columns }
    ensures rows { result.rows ≡ kept_rows proposal.now summary.now }
{
    let mut rows = Rows::new(alloc);
    add_groups(&mut rows, proposal, summary);
    Sheet {
        columns: COLUMNS,
        rows,
    }
}
