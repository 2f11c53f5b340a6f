//! The lines of a group.

ghost use Rattle.std.specs.Prelude.{◌≡◌, ◌≤◌, ◌<◌, ◌+◌, ◌-◌, ◌^◌, ◌/◌, drop, length, Some, MatchResult, OnOk};
ghost use Rattle.std.specs.List.{sum_by};
ghost use Rattle.a429_cert.specs.Views.{bounding};
ghost use Rattle.a429_cert.specs.Lines.{lines_of};
ghost use Rattle.a429_cert.specs.Faults.{frame, demand, says_other_rate, group_fault, bound_fault, HasPeriods, EndsCheckBy, GivesReason, IsModest, group_faults, first_no, buses_of, bound_holds};

use crate::due::DueGroup;
use crate::expected::{Expected, LineForm};
use crate::line::{BoundLine, GroupLine, bound_line, group_line};
use crate::lines::Lines;
use crate::output_lines::check_outputs;
use crate::stops::{CheckStop, Fault, with_line_number};
use crate::verdicts::Reason;
use std::alloc::Global;

/// The greatest grid period, in slots.
fn frame(group: &DueGroup) -> u64
    ensures { result ≡ frame group.now }
{
    group
        .outputs
        .iter()
        .fold(0, |greatest, output| greatest.max(output.period))
}

/// How many cells the outputs fill in a frame.
fn demand(group: &DueGroup, frame: u64) -> u64
    requires periods { HasPeriods group.now }
    requires fits { sum_by (λ o. frame / o.period) group.now.outputs.items < 2 ^ 64 }
    ensures { result ≡ sum_by (λ o. frame / o.period) group.now.outputs.items }
{
    group
        .outputs
        .iter()
        .map(|output| frame / output.period)
        .sum()
}

/// Whether a line says another rate than this.
fn says_other_rate(said: Option<u64>, rate: u64) -> bool
    ensures { result ≡ says_other_rate said rate }
{
    said.is_some_and(|said| said != rate)
}

/// What a group's first line says, or the first reason against it.
#[tactic(auto, unfolding(crate::specs::Faults::group_fault, crate::specs::Faults::buses_of))]
fn checked_group<'a>(version: u32, group: &DueGroup, line: &'a [u8]) -> Result<GroupLine<'a>, Fault>
    ensures fault { GivesReason result (group_fault version group.now line.now) }
    ensures says { MatchResult result (λ l. (l.buses ≡ buses_of version line.now) × (1 ≤ l.buses) × (l.buses ≤ 16)) (λ _. Unit {0}) }
{
    let Some(said) = group_line(version, line) else {
        return Err(Fault::new(Reason::Form, Expected::Form(LineForm::Group(version))));
    };
    if says_other_rate(said.rate, group.rate) {
        return Err(Fault::new(Reason::Rate, Expected::Number(group.rate)));
    }
    if said.name != group.name.as_str().as_bytes() {
        return Err(Fault::new(Reason::Group, Expected::Name(group.name)));
    }
    let frame = frame(group);
    if said.frame != frame {
        return Err(Fault::new(Reason::Frame, Expected::Number(frame)));
    }
    if said.buses == 0 || said.buses > 16 {
        return Err(Fault::new(Reason::Buses, Expected::Rule));
    }
    Ok(said)
}

/// What the last line of a group on this number of buses has to state.
fn due_bound(group: &DueGroup, buses: u64) -> BoundLine
    requires modest { IsModest group.now }
    requires some { 1 ≤ buses }
    ensures demand { result.demand ≡ demand group.now }
    ensures full { result.full_buses ≡ buses - 1 }
    ensures frame { result.frame ≡ frame group.now }
{
    let frame = frame(group);
    BoundLine {
        demand: demand(group, frame),
        full_buses: buses - 1,
        frame,
    }
}

/// Whether a group's last line states its demand, and that this number of buses is the fewest.
fn bound_holds(group: &DueGroup, buses: u64, said: BoundLine) -> bool
    requires modest { IsModest group.now }
    requires some { 1 ≤ buses }
    requires few { buses ≤ 16 }
    ensures { result ≡ bound_holds group.now buses (bounding said) }
{
    let due = due_bound(group, buses);
    if said.demand != due.demand || said.full_buses != due.full_buses || said.frame != due.frame {
        return false;
    }
    said.full_buses * said.frame < said.demand && said.demand <= buses * said.frame
}

/// The first reason against a group's last line.
#[tactic(auto, unfolding(crate::specs::Faults::bound_fault))]
fn checked_bound(group: &DueGroup, buses: u64, line: &[u8]) -> Result<(), Fault>
    requires modest { IsModest group.now }
    requires some { 1 ≤ buses }
    requires few { buses ≤ 16 }
    ensures { GivesReason result (bound_fault group.now buses line.now) }
{
    let Some(said) = bound_line(line) else {
        return Err(Fault::new(Reason::Form, Expected::Form(LineForm::Bound)));
    };
    if bound_holds(group, buses, said) {
        Ok(())
    } else {
        Err(Fault::new(Reason::Bound, Expected::Bound(due_bound(group, buses))))
    }
}

/// Checks the lines of a group, the first of which has this number. Error: the first line that fails, with its reason,
/// or an allocation failed.
pub fn check_group(
    alloc: Global,
    version: u32,
    group: &DueGroup,
    number: usize,
    lines: &mut Lines<'_>,
) -> Result<(), CheckStop>
    requires modest { IsModest group.now }
    requires fits { number + length group.now.outputs.items + 2 < 2 ^ 64 }
    ensures answer { EndsCheckBy result (first_no number (group_faults version group.now (lines_of lines.old.rest.now))) }
    ensures rest { OnOk result (lines_of lines.new.rest.now ≡ drop (length group.now.outputs.items + 2) (lines_of lines.old.rest.now)) }
{
    let buses = with_line_number(number, checked_group(version, group, lines.next_line()))?.buses;
    check_outputs(alloc, version, group, buses, number + 1, lines)?;
    let last = number + group.outputs.len() + 1;
    with_line_number(last, checked_bound(group, buses, lines.next_line()))
}
