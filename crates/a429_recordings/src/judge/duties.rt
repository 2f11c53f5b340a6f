//! The outputs of a plan, as they are judged.

ghost use Rattle.std.specs.Prelude.{◌≡◌, ◌||◌, ◌*◌, ◌^◌, ◌<◌, ◌≤◌, length, IfOk};
ghost use Rattle.std.specs.List.{list_any};
ghost use Rattle.a429_slots.specs.Tables.{groups_of, outputs_of};
ghost use Rattle.a429_arguments.specs.Texts.{texts_of};
ghost use Rattle.a429_judge.specs.Recordings.{lists_of};
ghost use Rattle.a429_recordings.specs.JudgedPlans.{all_duties, duties_of, duty_of, is_any_wide, is_wide, label_of, period_at, row_of, sdi_of, shortest_period, tolerance_of};
ghost use Rattle.a429_recordings.specs.SimulationRuns.{HasPlannedGroup};
ghost use Rattle.a429_recordings.specs.Timeline.{rate_of, table_of};

use a429_arguments::tolerances::tolerance_for;
use a429_console::refusals::names::group_name;
use a429_equipment::{Equipment, OutputRow};
use a429_grid::SLOT_TIME;
use a429_judge::{Duty, Facts, default_tolerance};
use a429_slots::{OUTPUTS, OutputId, Proposal};
use a429_text::Gathered;
use std::alloc::{AllocError, Global};

/// The bit rate of a group.
fn rate_of(proposal: &Proposal<OUTPUTS>, group: usize) -> u32
    requires known { HasPlannedGroup proposal.now group }
    ensures rate { result ≡ rate_of proposal.now group }
    ensures some { 1 ≤ result }
{
    let equipment = proposal.equipment();
    equipment.rows_are_sound();
    equipment.group_rate(group)
}

/// The row of an output. If there is none, one without an interval.
fn row_of(equipment: &Equipment, group: usize, output: usize) -> OutputRow
    ensures { result ≡ row_of equipment.now group output }
{
    let none = OutputRow {
        source: 0,
        min_us: 0,
        max_us: 0,
        hold: None,
    };
    equipment.rows_are_sound();
    if group >= equipment.groups().len() {
        return none;
    }
    match equipment.outputs(group).get(output) {
        Some(row) => *row,
        None => none,
    }
}

/// The label of a source. If there is no such source, 0.
fn label_of(equipment: &Equipment, source: usize) -> u8
    ensures { result ≡ label_of equipment.now source }
{
    match equipment.sources().get(source) {
        Some(row) => row.label.value(),
        None => 0,
    }
}

/// The SDI of a source; `None`: any.
fn sdi_of(equipment: &Equipment, source: usize) -> Option<u8>
    ensures { result ≡ sdi_of equipment.now source }
{
    match equipment.sources().get(source) {
        Some(row) => match row.sdi {
            Some(sdi) => Some(sdi.value()),
            None => None,
        },
        None => None,
    }
}

/// The period of an output of a group, in slots.
fn period_at(proposal: &Proposal<OUTPUTS>, group: usize, output: usize) -> u32
    requires known { HasPlannedGroup proposal.now group }
    requires output { output < length (outputs_of (table_of proposal.now group)) }
    ensures { result ≡ period_at proposal.now group output }
{
    let place = proposal.plan().group(group).place(OutputId::new(output));
    place.period.slots()
}

/// The shortest period of a group's outputs, in slots.
fn shortest_period(proposal: &Proposal<OUTPUTS>, group: usize) -> u32
    requires { HasPlannedGroup proposal.now group }
    ensures { result ≡ shortest_period proposal.now group }
{
    let plan = proposal.plan().group(group);
    let mut shortest = plan.frame();
    for output in 0..plan.outputs() {
        shortest = u32::min(shortest, period_at(proposal, group, output));
    }
    shortest
}

/// The tolerance of a group in microseconds: the one that is given, otherwise two slots, or half the shortest period if that
/// is less.
fn tolerance_of(proposal: &Proposal<OUTPUTS>, tolerances: &[&str], group: usize) -> u64
    requires { HasPlannedGroup proposal.now group }
    ensures { result ≡ tolerance_of proposal.now (texts_of tolerances.now) group }
{
    let name = group_name(proposal.equipment(), group);
    match tolerance_for(tolerances, name.as_str().as_bytes()) {
        Some(tolerance) => u64::from(tolerance),
        None => {
            let rate = rate_of(proposal, group);
            default_tolerance(rate, shortest_period(proposal, group))
        }
    }
}

/// An output as it is judged.
#[tactic(auto, unfolding(crate::specs::JudgedPlans::duty_of))]
pub fn duty_of(
    proposal: &Proposal<OUTPUTS>,
    tolerances: &[&str],
    group: usize,
    output: usize,
) -> Duty
    requires known { HasPlannedGroup proposal.now group }
    requires output { output < length (outputs_of (table_of proposal.now group)) }
    ensures { result ≡ duty_of proposal.now (texts_of tolerances.now) group output }
{
    let equipment = proposal.equipment();
    let rate = rate_of(proposal, group);
    let place = proposal.plan().group(group).place(OutputId::new(output));
    let row = row_of(equipment, group, output);
    Duty {
        group,
        source: row.source,
        label: label_of(equipment, row.source),
        sdi: sdi_of(equipment, row.source),
        bus: place.bus,
        facts: Facts {
            rate,
            period: place.period.slots(),
            least: u64::from(row.min_us),
            greatest: u64::from(row.max_us),
            hold: row.hold,
            tolerance: tolerance_of(proposal, tolerances, group),
        },
    }
}

/// The outputs of a group, in table order. Error: an allocation failed.
pub fn duties_of(
    alloc: Global,
    proposal: &Proposal<OUTPUTS>,
    tolerances: &[&str],
    group: usize,
) -> Result<Vec<Duty>, AllocError>
    requires { HasPlannedGroup proposal.now group }
    ensures { IfOk result (λ duties. duties.items ≡ duties_of proposal.now (texts_of tolerances.now) group) }
{
    let mut duties = Gathered::new(alloc);
    for output in 0..proposal.plan().group(group).outputs() {
        duties.push(duty_of(proposal, tolerances, group, output));
    }
    duties.into_vec()
}

/// The outputs of all groups, by their groups. Error: an allocation failed.
pub fn all_duties(
    alloc: Global,
    proposal: &Proposal<OUTPUTS>,
    tolerances: &[&str],
) -> Result<Vec<Vec<Duty>>, AllocError>
    ensures { IfOk result (λ duties. lists_of duties.items ≡ all_duties proposal.now (texts_of tolerances.now)) }
{
    let mut all = Vec::new(alloc);
    for group in 0..proposal.plan().groups() {
        all.push(duties_of(alloc, proposal, tolerances, group)?)?;
    }
    Ok(all)
}

/// The product of two numbers.
fn product(number: u64, other: u32) -> u128
    ensures value { result ≡ number * other }
    ensures few { result < 2 ^ 96 }
{
    u128::from(number) * u128::from(other)
}

/// Whether one of two is true.
pub fn either(first: bool, second: bool) -> bool
    ensures { result ≡ (first || second) }
{
    if first { true } else { second }
}

/// Whether its tolerance is more than half the period of an output.
fn is_wide(duty: &Duty) -> bool
    ensures { result ≡ is_wide duty.now }
{
    let facts = &duty.facts;
    product(SLOT_TIME, facts.period) < 2 * product(facts.tolerance, facts.rate)
}

/// Whether the tolerance of one of these outputs is more than half its period.
fn is_wide_at(duties: &[Duty]) -> bool
    ensures { result ≡ list_any is_wide duties.now }
{
    duties.iter().any(|duty| is_wide(duty))
}

/// Whether the tolerance of an output of the plan is more than half its period. Error: an allocation failed.
pub fn is_any_wide(
    alloc: Global,
    proposal: &Proposal<OUTPUTS>,
    tolerances: &[&str],
) -> Result<bool, AllocError>
    ensures { IfOk result (λ wide. wide ≡ is_any_wide proposal.now (texts_of tolerances.now)) }
{
    let mut wide = false;
    for group in 0..proposal.plan().groups() {
        let duties = duties_of(alloc, proposal, tolerances, group)?;
        wide = either(wide, is_wide_at(&duties));
    }
    Ok(wide)
}
