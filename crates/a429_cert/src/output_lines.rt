//! The lines of a group's outputs.

ghost use Rattle.std.specs.Prelude.{◌≡◌, ◌<◌, ◌+◌, ◌^◌, map, drop, length, is_some, MatchResult, OnOk, All};
ghost use Rattle.std.specs.List.{list_any};
ghost use Rattle.a429_cert.specs.Views.{listing};
ghost use Rattle.a429_cert.specs.Lines.{lines_of};
ghost use Rattle.a429_cert.specs.Earlier.{AreNoted, IsNextLine};
ghost use Rattle.a429_cert.specs.Faults.{shares, differ_by_class, says_other_hold, output_fault, IsModest, EndsCheckBy, GivesReason, all_output_faults, first_no};

use crate::due::DueGroup;
use crate::earlier::Earlier;
use crate::expected::{Expected, LineForm};
use crate::line::{OutputLine, output_line};
use crate::lines::Lines;
use crate::stops::{CheckStop, Fault};
use crate::verdicts::Reason;
use a429_equipment::same_number;
use std::alloc::Global;

/// Whether two outputs share no cell because their periods are multiples of 16 and their offsets differ modulo 16. This is
/// quicker to see than whether the offsets are equal modulo a period.
fn differ_by_class(first: &OutputLine<'_>, second: &OutputLine<'_>) -> bool
    ensures { result ≡ differ_by_class (listing first.now) (listing second.now) }
{
    first.period % 16 == 0 && second.period % 16 == 0 && first.offset % 16 != second.offset % 16
}

/// Whether two outputs have the same bus and offsets that are equal modulo the smaller period.
pub fn shares(first: &OutputLine<'_>, second: &OutputLine<'_>) -> bool
    requires first { 0 < first.now.period }
    requires second { 0 < second.now.period }
    ensures { result ≡ shares (listing first.now) (listing second.now) }
{
    if first.bus != second.bus {
        return false;
    }
    if differ_by_class(first, second) {
        return false;
    }
    let period = first.period.min(second.period);
    first.offset % period == second.offset % period
}

/// The place of the first earlier line whose output shares its cells with this one.
fn first_sharing(line: &OutputLine<'_>, earlier: &[OutputLine<'_>]) -> Option<usize>
    requires line { 0 < line.now.period }
    requires earlier { All (λ l. 0 < l.period) earlier.now }
    ensures { is_some result ≡ list_any (shares (listing line.now)) (map listing earlier.now) }
{
    earlier.iter().position(|other| shares(line, other))
}

/// Whether a line says another hold than this.
fn says_other_hold(said: Option<Option<u64>>, hold: Option<u64>) -> bool
    ensures { result ≡ says_other_hold said hold }
{
    said.is_some_and(|said| !same_number(said, hold))
}

/// What the line of an output says, with the output's place in table order.
#[derive(Clone, Copy)]
pub struct CheckedLine<'a> {
    said: OutputLine<'a>,
    place: usize,
}

/// What the line of an output says, or the first reason against it.
#[tactic(auto, unfolding(crate::specs::Faults::output_fault))]
fn checked_output<'a>(
    version: u32,
    group: &DueGroup,
    buses: u64,
    earlier: &Earlier<'_>,
    line: &'a [u8],
) -> Result<CheckedLine<'a>, Fault>
    requires modest { IsModest group.now }
    requires noted { AreNoted group.now.outputs.items earlier.now }
    ensures fault { GivesReason result (output_fault version group.now buses (map listing earlier.now.lines.items) line.now) }
    ensures says { MatchResult result (IsNextLine version group.now line.now) (λ _. Unit {0}) }
{
    let Some(said) = output_line(version, line) else {
        return Err(Fault::new(Reason::Form, Expected::Form(LineForm::Output(version))));
    };
    let Some(output) = earlier.output_of(group, said.source) else {
        return Err(Fault::new(Reason::Output, Expected::Rule));
    };
    if output.is_listed {
        return Err(Fault::new(Reason::Output, Expected::Rule));
    }
    if said.period != output.due.period {
        return Err(Fault::new(Reason::Period, Expected::Number(output.due.period)));
    }
    if buses <= said.bus || said.period <= said.offset {
        return Err(Fault::new(Reason::Place, Expected::Rule));
    }
    if let Some(place) = first_sharing(&said, &earlier.lines) {
        return Err(Fault::new(Reason::Shared, Expected::Apart(earlier.number_at(place))));
    }
    if says_other_hold(said.hold, output.due.hold) {
        return Err(Fault::new(Reason::Hold, Expected::Hold(output.due.hold)));
    }
    Ok(CheckedLine {
        said,
        place: output.place,
    })
}

/// Checks the lines of a group's outputs, the first of which has this number. Error: the first line that fails, with
/// its reason, or an allocation failed.
pub fn check_outputs(
    alloc: Global,
    version: u32,
    group: &DueGroup,
    buses: u64,
    number: usize,
    lines: &mut Lines<'_>,
) -> Result<(), CheckStop>
    requires modest { IsModest group.now }
    requires fits { number + length group.now.outputs.items < 2 ^ 64 }
    ensures answer { EndsCheckBy result (first_no number (all_output_faults version group.now buses (lines_of lines.old.rest.now))) }
    ensures rest { OnOk result (lines_of lines.new.rest.now ≡ drop (length group.now.outputs.items) (lines_of lines.old.rest.now)) }
{
    let mut earlier = Earlier::none(alloc, number, &group.outputs)?;
    for place in 0..group.outputs.len() {
        let line = lines.next_line();
        match checked_output(version, group, buses, &earlier, line) {
            Ok(checked) => earlier.add(checked.said, checked.place)?,
            Err(fault) => return Err(CheckStop::Refused(fault.at_line(number + place))),
        }
    }
    Ok(())
}
