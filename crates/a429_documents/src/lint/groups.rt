//! The findings in the groups of an equipment.
ghost use Rattle.std.specs.Prelude.{◌≡◌, ◌<◌, ◌≤◌, ◌^◌, ◌++◌, ◌∷◌, [], length, map};
ghost use Rattle.a429_text.specs.Sheets.{field_of};
ghost use Rattle.a429_slots.specs.Planned.{HaveSources};
ghost use Rattle.a429_documents.specs.Lint.{AreAsked, alike_row, alike_rows, are_alike, coarse_row, coarse_rows, crowded_row, crowded_rows, finding_row, full_rows, group_finding, group_findings, is_coarse, is_full, load_row, max_of, needed_row, needs_too_many, of_each, one_is_any, output_name, planned_buses, too_many_rows, unfit_rows};

use crate::cells::number;
use crate::lint::GroupFinding;
use crate::lint::demands::{are_fit, bus_count, cells_of, filled_from, frame_of, planned_buses};
use crate::lint::millis::add_millis;
use a429_equipment::{Equipment, GroupRow, OutputRow, SourceRow};
use a429_grid::{Period, SLOT_TIME};
use a429_pack::Demand;
use a429_text::{Cell, Rows};
use a429_word::Sdi;

/// The name of the source of an output.
fn output_name<'a>(sources: &'a [SourceRow], rows: &[OutputRow], output: usize) -> &'a str
    requires output { output < length rows.now }
    requires known { HaveSources sources.now rows.now }
    ensures { result.now ≡ output_name sources.now rows.now output }
{
    sources[rows[output].source].name.as_str()
}

/// Adds a finding of a group: of one or two of its sources, or with a number.
pub fn add_finding<'a>(
    found: &mut Rows,
    finding: &'a str,
    group: &'a str,
    source: Cell<'a>,
    other: Cell<'a>,
    number: Cell<'a>,
)
    ensures { found.new ≡ found.old ++ finding_row finding.now group.now source.entry other.entry number.entry ∷ [] }
{
    let nothing = Cell::Absent;
    found.add(&[
        Cell::Text(finding),
        Cell::Text(group),
        nothing,
        source,
        other,
        number,
        nothing,
    ]);
}

/// Adds a load of a group in tenths of a per cent of a bus: of one of its sources, or of a bus.
fn add_load<'a>(
    found: &mut Rows,
    finding: &'a str,
    group: &'a str,
    source: Cell<'a>,
    bus: Cell<'a>,
    tenths: u64,
)
    ensures { found.new ≡ found.old ++ load_row finding.now group.now (field_of source.entry) (field_of bus.entry) tenths ∷ [] }
{
    let nothing = Cell::Absent;
    found.add(&[
        Cell::Text(finding),
        Cell::Text(group),
        nothing,
        source,
        nothing,
        bus,
        Cell::Tenths(tenths),
    ]);
}

/// Adds an output that has no grid period.
fn add_unfit(
    found: &mut Rows,
    sources: &[SourceRow],
    group: &str,
    rows: &[OutputRow],
    demands: &[Demand],
    output: usize,
)
    requires output { output < length rows.now }
    requires known { HaveSources sources.now rows.now }
    requires each { length demands.now ≡ length rows.now }
    ensures { found.new ≡ found.old ++ unfit_rows sources.now group.now rows.now demands.now output }
{
    if demands[output].period.is_some() {
        return;
    }
    let source = output_name(sources, rows, output);
    let source = Cell::Text(source);
    add_finding(found, "unfit", group, source, Cell::Absent, Cell::Absent);
}

/// Adds the outputs that have no grid period.
#[tactic(auto, using(crate::proofs::Ranges::flat_more))]
fn add_unfits(
    found: &mut Rows,
    sources: &[SourceRow],
    group: &str,
    rows: &[OutputRow],
    demands: &[Demand],
)
    requires known { HaveSources sources.now rows.now }
    requires each { length demands.now ≡ length rows.now }
    ensures { found.new ≡ found.old ++ of_each (length rows.now) (unfit_rows sources.now group.now rows.now demands.now) }
{
    for output in 0..rows.len() {
        add_unfit(found, sources, group, rows, demands, output);
    }
}

/// Whether each output has a grid period, and the fewest buses are more than a group can have.
fn needs_too_many(demands: &[Demand]) -> bool
    requires few { length demands.now ≤ 128 }
    ensures { result ≡ needs_too_many demands.now }
{
    are_fit(demands) && bus_count(demands) > 16
}

/// Adds the number of buses that a group needs, if it is too large.
fn add_needed(found: &mut Rows, group: &str, buses: u32)
    ensures { found.new ≡ found.old ++ needed_row group.now buses ∷ [] }
{
    let nothing = Cell::Absent;
    add_finding(
        found,
        "too-many-buses",
        group,
        nothing,
        nothing,
        number(buses),
    );
}

/// Adds that a group needs more than 16 buses, if it does.
fn add_too_many(found: &mut Rows, group: &str, demands: &[Demand])
    requires few { length demands.now ≤ 128 }
    ensures { found.new ≡ found.old ++ too_many_rows group.now demands.now }
{
    if !needs_too_many(demands) {
        return;
    }
    add_needed(found, group, bus_count(demands));
}

/// Whether one of the two is any, and the other a number.
fn one_is_any(sdi: Option<Sdi>, other: Option<Sdi>) -> bool
    ensures { result ≡ one_is_any sdi other }
{
    match (sdi, other) {
        (None, Some(_)) => true,
        (Some(_), None) => true,
        _ => false,
    }
}

/// Whether an output and a later one have one label, and only one of them has SDI any.
fn are_alike(demands: &[Demand], output: usize, other: usize) -> bool
    requires output { output < length demands.now }
    requires other { other < length demands.now }
    ensures { result ≡ are_alike demands.now output other }
{
    let (first, later) = (demands[output], demands[other]);
    output < other && first.label == later.label && one_is_any(first.sdi, later.sdi)
}

/// Adds an output and a later one, if a display cannot distinguish their words.
fn add_alike(
    found: &mut Rows,
    sources: &[SourceRow],
    group: &str,
    rows: &[OutputRow],
    demands: &[Demand],
    output: usize,
    other: usize,
)
    requires output { output < length rows.now }
    requires other { other < length rows.now }
    requires known { HaveSources sources.now rows.now }
    requires each { length demands.now ≡ length rows.now }
    ensures { found.new ≡ found.old ++ alike_row sources.now group.now rows.now demands.now output other }
{
    if !are_alike(demands, output, other) {
        return;
    }
    let source = Cell::Text(output_name(sources, rows, output));
    let later = Cell::Text(output_name(sources, rows, other));
    add_finding(found, "alike", group, source, later, Cell::Absent);
}

/// Adds an output with each later one that a display cannot distinguish from it.
#[tactic(auto, using(crate::proofs::Ranges::flat_more))]
fn add_alikes_of(
    found: &mut Rows,
    sources: &[SourceRow],
    group: &str,
    rows: &[OutputRow],
    demands: &[Demand],
    output: usize,
)
    requires output { output < length rows.now }
    requires known { HaveSources sources.now rows.now }
    requires each { length demands.now ≡ length rows.now }
    ensures { found.new ≡ found.old ++ alike_rows sources.now group.now rows.now demands.now output }
{
    for other in 0..rows.len() {
        add_alike(found, sources, group, rows, demands, output, other);
    }
}

/// Adds the outputs that a display cannot distinguish.
#[tactic(auto, using(crate::proofs::Ranges::flat_more))]
fn add_alikes(
    found: &mut Rows,
    sources: &[SourceRow],
    group: &str,
    rows: &[OutputRow],
    demands: &[Demand],
)
    requires known { HaveSources sources.now rows.now }
    requires each { length demands.now ≡ length rows.now }
    ensures { found.new ≡ found.old ++ of_each (length rows.now) (alike_rows sources.now group.now rows.now demands.now) }
{
    for output in 0..rows.len() {
        add_alikes_of(found, sources, group, rows, demands, output);
    }
}

/// Whether a group can be planned, and its plan has no empty cell.
fn is_full(demands: &[Demand]) -> bool
    requires few { length demands.now ≤ 128 }
    ensures { result ≡ is_full demands.now }
{
    let frame = frame_of(demands);
    let cells = cells_of(demands, frame);
    let buses = bus_count(demands);
    are_fit(demands) && buses <= 16 && cells == buses * frame.slots()
}

/// Adds a group without an empty cell.
fn add_full(found: &mut Rows, group: &str, demands: &[Demand])
    requires few { length demands.now ≤ 128 }
    ensures { found.new ≡ found.old ++ full_rows group.now demands.now }
{
    if is_full(demands) {
        let nothing = Cell::Absent;
        add_finding(found, "full", group, nothing, nothing, nothing);
    }
}

/// The maximum interval of an output, in microseconds; 0 if there is no such output.
fn max_of(rows: &[OutputRow], output: usize) -> u32
    ensures { result ≡ max_of rows.now output }
{
    match rows.get(output) {
        None => 0,
        Some(row) => row.max_us,
    }
}

/// Whether a grid period is shorter than two thirds of a maximum interval in microseconds, at a bit rate in bit/s.
fn is_coarse(rate: u32, max_us: u32, period: Period) -> bool
    ensures { result ≡ is_coarse rate max_us period }
{
    3 * SLOT_TIME * u64::from(period.slots()) / 2 < u64::from(max_us) * u64::from(rate)
}

/// Adds the period of an output, if it is shorter than two thirds of the maximum interval.
fn add_period<'a>(
    found: &mut Rows,
    group: &'a str,
    source: &'a str,
    rate: u32,
    max_us: u32,
    period: Option<Period>,
)
    ensures { found.new ≡ found.old ++ coarse_row group.now source.now rate max_us period }
{
    let Some(period) = period else {
        return;
    };
    if is_coarse(rate, max_us, period) {
        let tenths = 1000u64.div_ceil(u64::from(period.slots()));
        let source = Cell::Text(source);
        add_load(found, "coarse", group, source, Cell::Absent, tenths);
    }
}

/// Adds the outputs whose period is shorter than two thirds of their maximum interval.
fn add_coarses(
    found: &mut Rows,
    sources: &[SourceRow],
    group: &GroupRow,
    rows: &[OutputRow],
    demands: &[Demand],
)
    requires known { HaveSources sources.now rows.now }
    requires each { length demands.now ≡ length rows.now }
    ensures { found.new
        ≡ found.old
        ++ of_each (length rows.now)
        (coarse_rows sources.now group.now.name group.now.rate rows.now demands.now) }
{
    for output in 0..rows.len() {
        let source = output_name(sources, rows, output);
        let period = demands[output].period;
        let name = group.name.as_str();
        add_period(
            found,
            name,
            source,
            group.rate,
            max_of(rows, output),
            period,
        );
    }
}

/// Adds a bus of which more than 80 per cent of the cells are filled.
fn add_crowded(found: &mut Rows, group: &str, bus: u32, frame: u64, cells: u64)
    requires some { 1 ≤ frame }
    requires frame { frame ≤ 2 ^ 32 }
    requires cells { cells ≤ frame }
    ensures { found.new ≡ found.old ++ crowded_row group.now bus frame cells }
{
    if 80 * frame < 100 * cells {
        let tenths = (1000 * cells).div_ceil(frame);
        add_load(found, "crowded", group, Cell::Absent, number(bus), tenths);
    }
}

/// Adds the buses of a group of which more than 80 per cent of the cells are filled.
fn add_buses(found: &mut Rows, group: &str, demands: &[Demand])
    requires few { length demands.now ≤ 128 }
    ensures { found.new ≡ found.old ++ of_each (planned_buses demands.now) (crowded_rows group.now demands.now) }
{
    let period = frame_of(demands);
    let frame = u64::from(period.slots());
    let cells = u64::from(cells_of(demands, period));
    for bus in 0..planned_buses(demands) {
        let left = cells.saturating_sub(u64::from(bus) * frame);
        add_crowded(found, group, bus, frame, filled_from(left, frame));
    }
}

/// Adds the findings of one kind in a group.
fn add_group(
    found: &mut Rows,
    sources: &[SourceRow],
    kind: GroupFinding,
    group: &GroupRow,
    rows: &[OutputRow],
    demands: &[Demand],
)
    requires known { HaveSources sources.now rows.now }
    requires each { length demands.now ≡ length rows.now }
    requires few { length demands.now ≤ 128 }
    ensures { found.new ≡ found.old ++ group_finding sources.now kind group.now rows.now demands.now }
{
    let name = group.name.as_str();
    match kind {
        GroupFinding::Unfit => add_unfits(found, sources, name, rows, demands),
        GroupFinding::TooManyBuses => add_too_many(found, name, demands),
        GroupFinding::Alike => add_alikes(found, sources, name, rows, demands),
        GroupFinding::Full => add_full(found, name, demands),
        GroupFinding::Coarse => add_coarses(found, sources, group, rows, demands),
        GroupFinding::Crowded => add_buses(found, name, demands),
        GroupFinding::Millis => add_millis(found, name, rows, demands),
    }
}

/// Adds the findings of one kind in each group.
pub fn add_groups(
    found: &mut Rows,
    equipment: &Equipment,
    asked: &[Vec<Demand>],
    kind: GroupFinding,
)
    requires asked { AreAsked equipment.now (map (λ v. v.items) asked.now) }
    ensures { found.new ≡ found.old ++ group_findings equipment.now (map (λ v. v.items) asked.now) kind }
{
    equipment.rows_are_sound();
    let sources = equipment.sources();
    let groups = equipment.groups();
    for number in 0..groups.len() {
        let rows = equipment.outputs(number);
        let group = &groups[number];
        add_group(found, sources, kind, group, rows, &asked[number]);
    }
}
