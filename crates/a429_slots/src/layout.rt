//! The columns of a slot table.
ghost use Rattle.std.specs.Prelude.{◌≡◌, ◌+◌, ◌<◌, ◌≤◌, ◌*◌, ◌%◌, ◌^◌, length, map, take};
ghost use Rattle.std.specs.List.{range_with_len};
ghost use Rattle.a429_grid.specs.Reversal.{reversed};
ghost use Rattle.a429_pack.specs.Demands.{exponent_of};
ghost use Rattle.a429_pack.specs.Kept.{padded};
ghost use Rattle.a429_slots.specs.Asked.{AreBusesOf, AreOffsetsOf};
ghost use Rattle.a429_slots.specs.Laid.{laid_at, nothing_laid};

use crate::group_plan::{LaidOutput, NOTHING_LAID};
use a429_equipment::OutputRow;
use a429_grid::{Period, reverse};
use a429_pack::laws::orders_name_each_once;
use a429_pack::{Demand, Packed};

/// The outputs in layout order. The block of each begins with its stretch.
pub fn laid_outputs<const N: usize>(packed: &Packed<N>) -> [LaidOutput; N]
    ensures { result ≡ padded nothing_laid N (map (laid_at packed.now) (range_with_len 0 (length packed.now.inputs))) }
{
    let mut laid = [NOTHING_LAID; N];
    for place in 0..packed.len() {
        laid[place] = LaidOutput {
            output: packed.input(place),
            begin: packed.sums().start(place),
        };
    }
    laid
}

/// The sources of the outputs, by their numbers.
pub fn sources_in<const N: usize>(outputs: &[OutputRow]) -> [usize; N]
    requires { length outputs.now ≤ N }
    ensures { result ≡ padded 0 N (map (λ r. r.source) outputs.now) }
{
    let mut sources = [0; N];
    for (number, output) in outputs.iter().enumerate() {
        sources[number] = output.source;
    }
    sources
}

/// The exponent of the period that is asked for; 0 if there is none.
fn exponent(demand: &Demand) -> u32
    ensures { result ≡ exponent_of demand.now }
{
    match demand.period {
        Some(period) => period.digits(),
        None => 0,
    }
}

/// The exponents of the periods that the outputs ask for, by their numbers.
pub fn periods_in<const N: usize>(demands: &[Demand]) -> [u32; N]
    requires { length demands.now ≤ N }
    ensures { result ≡ padded 0 N (map exponent_of demands.now) }
{
    let mut periods = [0; N];
    for (number, demand) in demands.iter().enumerate() {
        periods[number] = exponent(demand);
    }
    periods
}

/// The offset of an output that begins at this place: the digits of the place on its bus in reverse.
fn offset_at(start: u32, frame: Period) -> u32
    ensures { result ≡ reversed frame (start % 2 ^ frame) }
{
    reverse(start % frame.slots(), frame.digits())
}

/// The place that a cell has among all: cells are counted bus by bus, and on a bus by the slot in the frame
/// with its digits in reverse.
pub fn place_of_cell(bus: u32, slot: u64, frame: Period) -> u32
    requires { bus < 16 }
    ensures { result ≡ bus * 2 ^ frame + reversed frame (slot % 2 ^ frame) }
{
    let slot = (slot % u64::from(frame.slots())) as u32;
    bus * frame.slots() + reverse(slot, frame.digits())
}

/// The bus and the offset of each output, by their numbers: the output at place `k` of the layout begins at
/// the sum of the demands before it.
pub fn places_in<const N: usize>(packed: &Packed<N>) -> ([u32; N], [u32; N])
    ensures bus { AreBusesOf packed.now result.0 }
    ensures offset { AreOffsetsOf packed.now result.1 }
    ensures bus_rest { result.0 ≡ padded 0 N (take (length packed.now.inputs) result.0) }
    ensures offset_rest { result.1 ≡ padded 0 N (take (length packed.now.inputs) result.1) }
{
    orders_name_each_once();
    let frame = packed.frame();
    let mut buses = [0; N];
    let mut offsets = [0; N];
    for place in 0..packed.len() {
        let start = packed.sums().start(place);
        let output = packed.input(place);
        buses[output] = start / frame.slots();
        offsets[output] = offset_at(start, frame);
    }
    (buses, offsets)
}
