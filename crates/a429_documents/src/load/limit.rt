//! The limit of a bus, and the buses that a group needs within it.
ghost use Rattle.std.specs.Prelude.{◌≡◌, ◌≤◌, ◌<◌, length, nat_le, slice_get, IfSome, Some};
ghost use Rattle.std.specs.List.{list_all};
ghost use Rattle.a429_text.specs.Sheets.{field_of};
ghost use Rattle.a429_slots.specs.Tables.{outputs_of};
ghost use Rattle.a429_documents.specs.Limits.{AreNeeded, AreShares, FitEach, buses_from, buses_within, demand_from, if_from, needed_buses};
ghost use Rattle.a429_documents.specs.Load.{buses_field, is_above, loads_of, needed_field, shares_of};

use a429_grid::Period;
use a429_slots::{GroupPlan, OUTPUTS, OutputId};
use a429_text::Cell;

/// Whether a bus has more cells with an output than this part of its frame, in per cent.
pub fn is_above(limit: u32, frame: u32, loads: &[u32]) -> bool
    ensures { result ≡ is_above limit frame loads.now }
{
    let most = u64::from(limit) * u64::from(frame);
    for load in loads {
        if 100 * u64::from(*load) > most {
            return true;
        }
    }
    false
}

/// How many cells of a frame an output fills.
fn share(table: &GroupPlan<OUTPUTS>, output: usize) -> u32
    requires { output < length (outputs_of table.now) }
    ensures value { slice_get (shares_of table.now) output ≡ Some result }
    ensures few { result ≤ 8192 }
{
    table.frame() / table.place(OutputId::new(output)).period.slots()
}

/// A number of cells, if it is at least this size, otherwise none.
fn if_from(size: u32, share: u32) -> u32
    ensures value { result ≡ if_from size share }
    ensures few { result ≤ share }
{
    if share >= size { share } else { 0 }
}

/// The cells of a frame that the outputs of a group fill, of those that fill at least this number each.
fn demand_from(table: &GroupPlan<OUTPUTS>, size: u32) -> u64
    ensures value { result ≡ demand_from size (shares_of table.now) }
{
    let mut demand: u64 = 0;
    for output in 0..table.outputs() {
        demand += u64::from(if_from(size, share(table, output)));
    }
    demand
}

/// Whether no output of a group alone is above the capacity of a bus.
fn fit_each(table: &GroupPlan<OUTPUTS>, capacity: u32) -> bool
    ensures { result ≡ list_all (λ d. nat_le d capacity) (shares_of table.now) }
{
    for output in 0..table.outputs() {
        if share(table, output) > capacity {
            return false;
        }
    }
    true
}

/// How many buses the outputs of a group need that fill at least 2^digits cells of a frame each.
fn buses_from(table: &GroupPlan<OUTPUTS>, capacity: u32, digits: u32) -> u64
    requires digits { digits ≤ 13 }
    requires fit { FitEach capacity (shares_of table.now) }
    ensures { result ≡ buses_from capacity (shares_of table.now) digits }
{
    let size = Period::of_digits(digits).slots();
    let demand = demand_from(table, size);
    if demand == 0 {
        return 0;
    }
    demand.div_ceil(u64::from(capacity / size * size))
}

/// The number of buses of this capacity that the outputs of a group need.
fn buses_within(table: &GroupPlan<OUTPUTS>, capacity: u32) -> u64
    requires fit { FitEach capacity (shares_of table.now) }
    ensures { result ≡ buses_within capacity (shares_of table.now) }
{
    let mut buses = 0;
    for digits in 0..14 {
        buses = buses.max(buses_from(table, capacity, digits));
    }
    buses
}

/// The fewest buses of this capacity over which the outputs of a group can be spread. `None` if one output alone is above
/// the capacity.
fn needed_buses(table: &GroupPlan<OUTPUTS>, capacity: u32) -> Option<u64>
    requires shares { AreShares (shares_of table.now) }
    ensures value { result ≡ needed_buses capacity (shares_of table.now) }
    ensures fewest { AreNeeded (shares_of table.now) capacity result }
{
    if !fit_each(table, capacity) {
        return None;
    }
    Some(buses_within(table, capacity))
}

/// A number of buses, 0 for `None`.
fn buses_cell(buses: Option<u64>) -> Cell<'static>
    ensures { field_of result ≡ buses_field buses }
{
    match buses {
        None => Cell::Number(0),
        Some(buses) => Cell::Number(buses),
    }
}

/// The buses that a group needs within the limit, if a bus is above it.
pub fn needed_cell(limit: Option<u32>, table: &GroupPlan<OUTPUTS>, loads: &[u32]) -> Cell<'static>
    requires limit { IfSome limit (λ limit. limit ≤ 100) }
    requires shares { AreShares (shares_of table.now) }
    requires loads { loads.now ≡ loads_of table.now }
    ensures { field_of result ≡ needed_field limit table.now }
{
    let Some(limit) = limit else {
        return Cell::Absent;
    };
    let frame = table.frame();
    if !is_above(limit, frame, loads) {
        return Cell::Absent;
    }
    buses_cell(needed_buses(table, limit * frame / 100))
}
