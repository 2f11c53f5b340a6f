//! The packing of a group's outputs.
ghost use Rattle.std.specs.Prelude.{◌≡◌, ℕ, ◌<◌, ◌≤◌, ◌/◌, ◌^◌, List, length, map, sum, IfOk, IfErr, MatchResult};
ghost use Rattle.std.specs.List.{All};
ghost use Rattle.std.specs.Int.{div_ceil};
ghost use Rattle.a429_pack.specs.Demands.{AreFit, IsLayoutOrder, demand_at, exponents_of, frame_of, period_of};
ghost use Rattle.a429_pack.specs.Entries.{AreInOrder, demands_of, entries_from, inputs_of};
ghost use Rattle.a429_pack.specs.Faults.{IsPackFaultOf};
ghost use Rattle.a429_pack.specs.Demanded.{AreFewestBuses};
ghost use Rattle.a429_pack.specs.Kept.{padded};

use crate::demands::{BUSES, Demand, PackFault};
use crate::entry::Entry;
use crate::packed::Packed;
use crate::sums::SumTable;
use a429_grid::Period;
use a429_grid::laws::blocks_are_periodic;
use a429_word::Sdi;
use std::alloc::Global;

/// The number of an SDI, none for any.
fn sdi_number(sdi: Option<Sdi>) -> Option<u8>
    ensures { result ≡ sdi }
{
    match sdi {
        Some(sdi) => Some(sdi.value()),
        None => None,
    }
}

/// What is sorted for each output, in the order given, or the first output that is unfit.
fn entries(alloc: Global, demands: &[Demand]) -> Result<Vec<Entry>, PackFault>
    ensures entries { IfOk result (λ v. v.items ≡ entries_from 0 demands.now) }
    ensures fit { IfOk result (λ _. AreFit demands.now) }
    ensures fault { IfErr result (IsPackFaultOf demands.now) }
{
    let mut entries = Vec::new(alloc);
    for (input, demand) in demands.iter().enumerate() {
        let Some(period) = demand.period else {
            return Err(PackFault::Unfit(input));
        };
        entries.push(Entry {
            exponent: period.digits(),
            label: demand.label.value(),
            sdi: sdi_number(demand.sdi),
            input,
        })?;
    }
    Ok(entries)
}

/// The outputs of a group in layout order, or the first one that is unfit.
fn sorted_entries(alloc: Global, demands: &[Demand]) -> Result<Vec<Entry>, PackFault>
    ensures { MatchResult result (λ v. AreInOrder demands.now v.items) (IsPackFaultOf demands.now) }
{
    let mut sorted = entries(alloc, demands)?;
    sorted.sort_unstable();
    Ok(sorted)
}

/// The greatest period of some outputs; one slot if there are none.
fn greatest_period(demands: &[Demand]) -> Period
    ensures value { result ≡ frame_of demands.now }
    ensures few { result ≤ 13 }
{
    let mut digits = 0;
    for demand in demands {
        if let Some(period) = demand.period {
            digits = digits.max(period.digits());
        }
    }
    Period::of_digits(digits)
}

/// How many buses have room for the demands. The sum of any number of demands has less than 128 bits.
fn buses_needed(entries: &[Entry], frame: Period) -> usize
    requires { All (λ e. e.exponent ≤ frame) entries.now }
    ensures { result ≡ div_ceil (sum (demands_of frame entries.now)) (2 ^ frame) }
{
    let mut total: u128 = 0;
    for entry in entries {
        total += u128::from(entry.demand(frame));
    }
    total.div_ceil(u128::from(frame.slots())) as usize
}

/// The fewest buses for the outputs of a group, whose entries in layout order are given too.
fn fewest_buses(demands: &[Demand], entries: &[Entry], frame: Period) -> usize
    requires order { AreInOrder demands.now entries.now }
    requires frame { frame ≡ frame_of demands.now }
    ensures value { result ≡ div_ceil (sum (demands_of frame entries.now)) (2 ^ frame) }
    ensures fewest { AreFewestBuses (exponents_of demands.now) result }
{
    blocks_are_periodic();
    buses_needed(entries, frame)
}

/// The demands in the order given.
fn sums_of<const N: usize>(entries: &[Entry], frame: Period) -> SumTable<N>
    requires room { length entries.now ≤ N }
    requires within { All (λ e. e.exponent ≤ frame) entries.now }
    requires fits { sum (demands_of frame entries.now) < 2 ^ 32 }
    ensures { result ≡ demands_of frame entries.now }
{
    let mut sums = SumTable::new();
    for entry in entries {
        sums.push(entry.demand(frame));
    }
    sums
}

/// The outputs' numbers in the order given, followed by zeros.
fn inputs_in<const N: usize>(entries: &[Entry]) -> [usize; N]
    requires { length entries.now ≤ N }
    ensures { result ≡ padded 0 N (inputs_of entries.now) }
{
    let mut inputs = [0; N];
    for (place, entry) in entries.iter().enumerate() {
        inputs[place] = entry.input;
    }
    inputs
}

/// The layout of the outputs of a group in layout order, on the buses that they need, at most 16.
fn lay_out<const N: usize>(
    demands: &[Demand],
    entries: &[Entry],
    frame: Period,
    needed: usize,
) -> Packed<N>
    requires some { 1 ≤ length demands.now }
    requires room { length demands.now ≤ N }
    requires order { AreInOrder demands.now entries.now }
    requires frame { frame ≡ frame_of demands.now }
    requires short { frame ≤ 13 }
    requires needed { needed ≡ div_ceil (sum (demands_of frame entries.now)) (2 ^ frame) }
    requires few { needed ≤ 16 }
    ensures frame { result.frame ≡ frame }
    ensures buses { result.buses ≡ needed }
    ensures inputs { result.inputs ≡ inputs_of entries.now }
    ensures demands { result.demands ≡ map (λ i. 2 ^ frame / period_of (demand_at demands.now i)) (inputs_of entries.now) }
{
    blocks_are_periodic();
    Packed {
        frame,
        buses: needed as u32,
        sums: sums_of(entries, frame),
        inputs: inputs_in(entries),
    }
}

/// Packs the outputs of a group onto as few buses as any schedule needs. Outputs are numbered in the order given, at
/// least one and at most `N`. Errors: `Unfit` with the first output without a grid period; otherwise `TooManyBuses`
/// with the fewest buses that the group needs, if these are more than 16; `NoMemory` if an allocation failed.
#[tactic(auto, using(crate::proofs::Packings::still_in_order))]
pub fn pack<const N: usize>(alloc: Global, demands: &[Demand]) -> Result<Packed<N>, PackFault>
    requires some { 1 ≤ length demands.now }
    requires room { length demands.now ≤ N }
    ensures fit { IfOk result (λ _. AreFit demands.now) }
    ensures frame { IfOk result (λ p. p.frame ≡ frame_of demands.now) }
    ensures order { IfOk result (λ p. IsLayoutOrder demands.now p.inputs) }
    ensures demands { IfOk result (λ p. p.demands ≡ map (λ i. 2 ^ p.frame / period_of (demand_at demands.now i)) p.inputs) }
    ensures fewest { IfOk result (λ p. AreFewestBuses (exponents_of demands.now) p.buses) }
    ensures few { IfOk result (λ p. p.buses ≤ 16) }
    ensures fault { IfErr result (IsPackFaultOf demands.now) }
{
    let entries = sorted_entries(alloc, demands)?;
    let frame = greatest_period(demands);
    let needed = fewest_buses(demands, &entries, frame);
    if needed > BUSES {
        return Err(PackFault::TooManyBuses(needed));
    }
    Ok(lay_out(demands, &entries, frame, needed))
}
