//! A row for each finding.
ghost use Rattle.std.specs.Prelude.{◌≡◌, ◌<◌, ◌++◌, ◌∷◌, [], flat_map, length, map, OnOk};
ghost use Rattle.a429_text.specs.Fields.{Text};
ghost use Rattle.a429_text.specs.Sheets.{field_of};
ghost use Rattle.a429_recordings.specs.JudgeReplies.{given_by};
ghost use Rattle.a429_slots.specs.Tables.{outputs_of};
ghost use Rattle.a429_recordings.specs.JudgedPlans.{bus_field, event_row, finding_row, foreign_event, foreign_in, foreign_rows, group_events, judge_events, kind_text, output_events, outputs_at};
ghost use Rattle.a429_console.specs.Names.{group_name, output_name};
ghost use Rattle.a429_recordings.specs.SimulationRuns.{HasPlannedGroup};
ghost use Rattle.a429_recordings.specs.Timeline.{table_of};

use crate::judge::duties::duty_of;
use crate::judge::judging::Judging;
use a429_console::refusals::names::{group_name, source_name};
use a429_equipment::Equipment;
use a429_judge::{Finding, Kind, Mark, Sent};
use a429_text::{Cell, Gathered, Rows};
use std::alloc::{AllocError, Global};

/// The names of the columns.
pub const EVENT_COLUMNS: &[&str] = &["time_us", "group", "bus", "source", "finding", "word"];

/// The name of a finding.
fn kind_text(kind: Kind) -> &'static str
    ensures { result.now ≡ kind_text kind }
{
    match kind {
        Kind::Wrong => "wrong",
        Kind::Stale => "stale",
        Kind::Soon => "soon",
        Kind::Late => "late",
        Kind::Again => "again",
        Kind::Silent => "silent",
        Kind::Missed => "missed",
    }
}

/// The cell of a bus that may be unknown.
fn bus_cell(bus: Option<u32>) -> Cell<'static>
    ensures { field_of result ≡ bus_field bus }
{
    match bus {
        Some(bus) => Cell::Number(u64::from(bus)),
        None => Cell::Absent,
    }
}

/// The cells of the row of a word.
fn event_cells<'a>(
    group: &'a str,
    bus: Option<u32>,
    source: Cell<'a>,
    finding: &'a str,
    mark: Mark,
) -> [Cell<'a>; 6]
    ensures { map field_of result ≡ event_row group.now (bus_field bus) (field_of source.entry) finding.now mark }
{
    [
        Cell::Number(mark.time),
        Cell::Text(group),
        bus_cell(bus),
        source,
        Cell::Text(finding),
        Cell::Hex(mark.raw),
    ]
}

/// Adds the row of a word.
fn add_event(
    rows: &mut Rows,
    group: &str,
    bus: Option<u32>,
    source: Cell<'_>,
    finding: &str,
    mark: Mark,
)
    ensures { rows.new ≡ rows.old ++ event_row group.now (bus_field bus) (field_of source.entry) finding.now mark ∷ [] }
{
    rows.add(&event_cells(group, bus, source, finding, mark));
}

/// Adds the rows of an output's findings.
fn add_findings(rows: &mut Rows, group: &str, source: &str, bus: u32, found: &[Finding])
    ensures { rows.new ≡ rows.old ++ map (finding_row group.now source.now bus) found.now }
{
    for finding in found {
        let source = Cell::Text(source);
        let kind = kind_text(finding.kind);
        add_event(rows, group, Some(bus), source, kind, finding.mark);
    }
}

/// Adds the rows of these findings at an output.
fn add_found(
    rows: &mut Rows,
    equipment: &Equipment,
    group: usize,
    output: usize,
    bus: u32,
    found: &[Finding],
)
    ensures { rows.new ≡ rows.old
        ++ map (finding_row (group_name equipment.now group) (output_name equipment.now group output) bus) found.now }
{
    let name = group_name(equipment, group);
    let source = source_name(equipment, group, output);
    add_findings(rows, name.as_str(), source.as_str(), bus, found);
}

/// Adds the rows of the findings at an output. Error: an allocation failed.
fn add_output(
    rows: &mut Rows,
    alloc: Global,
    judging: &Judging<'_>,
    group: usize,
    output: usize,
) -> Result<(), AllocError>
    requires known { HasPlannedGroup judging.now.proposal.now group }
    requires output { output < length (outputs_of (table_of judging.now.proposal.now group)) }
    ensures { OnOk result (rows.new ≡ rows.old
        ++ output_events judging.now.proposal.now (given_by judging.now) judging.now.judge.now.noted group output) }
{
    let duty = duty_of(judging.proposal, judging.tolerances, group, output);
    let found = judging.found(alloc, group, output)?;
    let found = found.as_slice()?;
    let equipment = judging.proposal.equipment();
    add_found(rows, equipment, group, output, duty.bus, found);
    Ok(())
}

/// Adds the rows of the findings at a group's outputs. Error: an allocation failed.
fn add_outputs(
    rows: &mut Rows,
    alloc: Global,
    judging: &Judging<'_>,
    group: usize,
) -> Result<(), AllocError>
    requires known { HasPlannedGroup judging.now.proposal.now group }
    ensures { OnOk result (rows.new ≡ rows.old
        ++ flat_map (output_events judging.now.proposal.now (given_by judging.now) judging.now.judge.now.noted group)
        (outputs_at judging.now.proposal.now group)) }
{
    for output in 0..judging.proposal.plan().group(group).outputs() {
        add_output(rows, alloc, judging, group, output)?;
    }
    Ok(())
}

/// Adds the row of a foreign word.
fn add_foreign_event(rows: &mut Rows, group: &str, word: &Sent)
    ensures { rows.new ≡ rows.old ++ foreign_event group.now word.now ∷ [] }
{
    add_event(rows, group, word.bus, Cell::Absent, "foreign", word.mark);
}

/// Adds the rows of foreign words.
fn add_foreign(rows: &mut Rows, group: &str, foreign: &[Sent])
    ensures { rows.new ≡ rows.old ++ map (foreign_event group.now) foreign.now }
{
    for word in foreign {
        add_foreign_event(rows, group, word);
    }
}

/// Adds the rows of a group's foreign words. Error: an allocation failed.
fn add_foreign_of(rows: &mut Rows, judging: &Judging<'_>, group: usize) -> Result<(), AllocError>
    requires { HasPlannedGroup judging.now.proposal.now group }
    ensures { OnOk result (rows.new ≡ rows.old ++ foreign_rows (group_name judging.now.proposal.now.station group)
        (foreign_in judging.now.proposal.now (given_by judging.now) judging.now.judge.now.noted group)) }
{
    let words = judging.foreign(group)?;
    let name = group_name(judging.proposal.equipment(), group);
    add_foreign(rows, name.as_str(), words);
    Ok(())
}

/// Adds the rows of a group. Error: an allocation failed.
fn add_group(
    rows: &mut Rows,
    alloc: Global,
    judging: &Judging<'_>,
    group: usize,
) -> Result<(), AllocError>
    requires { HasPlannedGroup judging.now.proposal.now group }
    ensures { OnOk result (rows.new ≡ rows.old
        ++ group_events judging.now.proposal.now (given_by judging.now) judging.now.judge.now.noted group) }
{
    add_outputs(rows, alloc, judging, group)?;
    add_foreign_of(rows, judging, group)?;
    Ok(())
}

/// Adds the rows of all groups. Error: an allocation failed.
pub fn add_events(rows: &mut Rows, alloc: Global, judging: &Judging<'_>) -> Result<(), AllocError>
    ensures { OnOk result (rows.new ≡ rows.old
        ++ judge_events judging.now.proposal.now (given_by judging.now) judging.now.judge.now.noted) }
{
    for group in 0..judging.proposal.plan().groups() {
        add_group(rows, alloc, judging, group)?;
    }
    Ok(())
}
