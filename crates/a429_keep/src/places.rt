//! Places of outputs as blocks of cells, and back.
ghost use Rattle.std.specs.Prelude.{◌≡◌, ◌<◌, ◌≤◌, ◌-◌, ◌^◌, ℕ, IfOk, length, map};
ghost use Rattle.std.specs.List.{AllByRecursion};
ghost use Rattle.a429_slots.specs.Tables.{buses_of, outputs_of, placed_at};
ghost use Rattle.a429_keep.specs.Places.{block_start, frame_period, place_at, stand_of, stands_of, start_at, start_in};
ghost use Rattle.a429_keep.specs.KeptPlans.{places_of};
ghost use Rattle.a429_cert.specs.PlanText.{source_name};
ghost use Rattle.a429_keep.specs.Rows.{row_view};

use crate::blocks::Stand;
use crate::rows::{Row, row_of};
use a429_equipment::{GroupRow, Name, SourceRow};
use a429_grid::{Period, reverse};
use a429_slots::{GroupPlan, OUTPUTS, OutputId, SlotPlace};
use std::alloc::{AllocError, Global};

/// How many cells of a frame an output of this period has.
fn cells_of(frame: Period, period: Period) -> u32
    ensures value { result ≡ 2 ^ (frame - period) }
    ensures some { 1 ≤ result }
    ensures few { result ≤ 8192 }
{
    Period::of_digits(frame.digits().saturating_sub(period.digits())).slots()
}

/// The start of the block of an output that is on this bus at this offset.
fn block_start(frame: Period, period: Period, bus: u32, offset: u64) -> u32
    requires { bus < 16 }
    ensures { result ≡ block_start frame period bus offset }
{
    let offset = (offset % u64::from(period.slots())) as u32;
    bus * frame.slots() + reverse(offset, period.digits()) * cells_of(frame, period)
}

/// The place of an output whose block begins here.
pub fn place_at(frame: Period, period: Period, start: u32) -> SlotPlace
    ensures { result ≡ place_at frame period start }
{
    let block = start / cells_of(frame, period) % period.slots();
    SlotPlace {
        bus: start / frame.slots(),
        offset: reverse(block, period.digits()),
        period,
    }
}

/// The start of the block of an output that is listed so; `None` if its bus is no longer there.
fn start_in(frame: Period, period: Period, buses: u32, row: &Row<'_>) -> Option<u32>
    requires { buses ≤ 16 }
    ensures { result ≡ start_in frame period buses (row_view row.now) }
{
    if row.said.bus < u64::from(buses) {
        let bus = row.said.bus as u32;
        Some(block_start(frame, period, bus, row.said.offset))
    } else {
        None
    }
}

/// What the table of a group says of an output, apart from its bus and its offset.
#[derive(Clone, Copy)]
pub struct PlannedOutput {
    /// The number of its source.
    pub source: usize,
    pub period: Period,
    pub hold: Option<u32>,
}

/// The output of this number.
pub fn planned(table: &GroupPlan<OUTPUTS>, number: usize) -> PlannedOutput
    requires { number < length (outputs_of table.now) }
    ensures source { result.source ≡ (placed_at table.now number).source }
    ensures period { result.period ≡ (placed_at table.now number).place.period }
    ensures hold { result.hold ≡ (placed_at table.now number).limits.hold }
    ensures known { (n : ℕ) → AllByRecursion (λ o. o.source < n) (outputs_of table.now) → result.source < n }
{
    let output = OutputId::new(number);
    PlannedOutput {
        source: table.source(output),
        period: table.place(output).period,
        hold: table.hold(output),
    }
}

/// The name of a source.
pub fn source_name(sources: &[SourceRow], source: usize) -> Name
    requires { source < length sources.now }
    ensures { result ≡ source_name sources.now source }
{
    sources[source].name
}

/// The greatest period of a group: its frame.
pub fn frame_period(table: &GroupPlan<OUTPUTS>) -> Period
    ensures { result ≡ frame_period table.now }
{
    let mut digits = 0;
    for number in 0..table.outputs() {
        digits = digits.max(planned(table, number).period.digits());
    }
    Period::of_digits(digits)
}

/// An output, with its block if it stays: it was listed with the same group, source and period, and its bus is there.
pub fn stand_of(
    rows: &[Row<'_>],
    group: &str,
    sources: &[SourceRow],
    table: &GroupPlan<OUTPUTS>,
    frame: Period,
    number: usize,
) -> Stand
    requires known { number < length (outputs_of table.now) }
    requires sources { AllByRecursion (λ o. o.source < length sources.now) (outputs_of table.now) }
    ensures { result ≡ stand_of (map row_view rows.now) group.now sources.now frame (buses_of table.now) (placed_at table.now number) }
{
    let output = planned(table, number);
    let source = source_name(sources, output.source);
    let start = match row_of(
        rows,
        group,
        source.as_str(),
        u64::from(output.period.slots()),
    ) {
        Some(row) => start_in(frame, output.period, table.buses(), row),
        None => None,
    };
    Stand {
        cells: cells_of(frame, output.period),
        start,
    }
}

/// The outputs that stay, in table order. Error: an allocation failed.
pub fn stands_of(
    alloc: Global,
    rows: &[Row<'_>],
    group: &GroupRow,
    sources: &[SourceRow],
    table: &GroupPlan<OUTPUTS>,
) -> Result<Vec<Stand>, AllocError>
    requires { AllByRecursion (λ o. o.source < length sources.now) (outputs_of table.now) }
    ensures { IfOk result (λ stands. stands.items ≡ stands_of (map row_view rows.now) group.now.name sources.now table.now) }
{
    let frame = frame_period(table);
    let mut stands = Vec::new(alloc);
    for number in 0..table.outputs() {
        stands.push(stand_of(rows, group.name.as_str(), sources, table, frame, number))?;
    }
    Ok(stands)
}

/// The start of the block of an output; 0 if it has none.
fn start_at(stands: &[Stand], output: usize) -> u32
    ensures { result ≡ start_at stands.now output }
{
    match stands.get(output) {
        Some(stand) => stand.start.unwrap_or(0),
        None => 0,
    }
}

/// The places of outputs with these blocks, by their numbers. Error: an allocation failed.
pub fn places_of(
    alloc: Global,
    frame: Period,
    table: &GroupPlan<OUTPUTS>,
    stands: &[Stand],
) -> Result<Vec<SlotPlace>, AllocError>
    ensures { IfOk result (λ places. places.items ≡ places_of table.now frame stands.now) }
{
    let mut places = Vec::new(alloc);
    for number in 0..table.outputs() {
        let period = planned(table, number).period;
        places.push(place_at(frame, period, start_at(stands, number)))?;
    }
    Ok(places)
}
