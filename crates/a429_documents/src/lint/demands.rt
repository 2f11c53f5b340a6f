//! The demands of an equipment's groups.
ghost use Rattle.std.specs.Prelude.{◌≡◌, ◌≤◌, IfOk, length, map};
ghost use Rattle.a429_pack.specs.Demanded.{demand_of};
ghost use Rattle.a429_pack.specs.Demands.{exponent_of, exponents_of, frame_of};
ghost use Rattle.a429_documents.specs.Lint.{AreAsked, are_fit, bus_count, filled_from, planned_buses};

use a429_equipment::Equipment;
use a429_grid::Period;
use a429_pack::Demand;
use a429_slots::demands_of;
use std::alloc::{AllocError, Global};

/// The demands of each group's outputs, in table order. Error: an allocation failed.
pub fn demands_of_groups(
    alloc: Global,
    equipment: &Equipment,
) -> Result<Vec<Vec<Demand>>, AllocError>
    ensures { IfOk result (λ asked. AreAsked equipment.now (map (λ v. v.items) asked.items)) }
{
    equipment.rows_are_sound();
    let sources = equipment.sources();
    let mut all = Vec::new(alloc);
    for group in 0..equipment.groups().len() {
        let rate = equipment.group_rate(group);
        all.push(demands_of(alloc, rate, sources, equipment.outputs(group))?)?;
    }
    Ok(all)
}

/// Whether each output has a grid period.
pub fn are_fit(demands: &[Demand]) -> bool
    ensures { result ≡ are_fit demands.now }
{
    demands.iter().all(|demand| demand.period.is_some())
}

/// The period of a demand; one slot if it has none.
pub fn period_of(demand: &Demand) -> Period
    ensures { result ≡ exponent_of demand.now }
{
    match demand.period {
        Some(period) => period,
        None => Period::of_digits(0),
    }
}

/// The frame of a group: the longest period of its demands; one slot if there is none.
pub fn frame_of(demands: &[Demand]) -> Period
    ensures { result ≡ frame_of demands.now }
{
    let mut digits = 0;
    for demand in demands {
        digits = digits.max(period_of(demand).digits());
    }
    Period::of_digits(digits)
}

/// The number of cells of a frame that the outputs fill.
pub fn cells_of(demands: &[Demand], frame: Period) -> u32
    requires few { length demands.now ≤ 128 }
    requires frame { frame ≡ frame_of demands.now }
    ensures { result ≡ demand_of (exponents_of demands.now) }
{
    let mut cells = 0;
    for demand in demands {
        cells += frame.slots() / period_of(demand).slots();
    }
    cells
}

/// The fewest buses that carry the demand of a frame.
pub fn bus_count(demands: &[Demand]) -> u32
    requires few { length demands.now ≤ 128 }
    ensures { result ≡ bus_count (exponents_of demands.now) }
{
    let frame = frame_of(demands);
    cells_of(demands, frame).div_ceil(frame.slots())
}

/// The buses of a group, if it can be planned; 0 otherwise.
pub fn planned_buses(demands: &[Demand]) -> u32
    requires few { length demands.now ≤ 128 }
    ensures { result ≡ planned_buses demands.now }
{
    let buses = bus_count(demands);
    if are_fit(demands) && buses <= 16 {
        buses
    } else {
        0
    }
}

/// The cells of a frame that are filled from the first of a bus on, if this number is left.
pub fn filled_from(left: u64, frame: u64) -> u64
    ensures value { result ≡ filled_from left frame }
    ensures few { result ≤ frame }
{
    if left < frame { left } else { frame }
}
