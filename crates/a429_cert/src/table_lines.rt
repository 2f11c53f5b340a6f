//! The lines that a table asks for.

ghost use Rattle.std.specs.Prelude.{◌≤◌, ◌<◌, ◌^◌, Some, None, All};
ghost use Rattle.a429_cert.specs.Lines.{lines_of};
ghost use Rattle.a429_cert.specs.Faults.{rate_fault, plan_fault, end_fault, EndsCheckBy, GivesReason, IsModest, groups_faults, first_no, faults, due};

use crate::due::{DueGroup, DueTable};
use crate::expected::{Expected, LineForm};
use crate::group_lines::check_group;
use crate::line::{plan_line, rate_line};
use crate::lines::Lines;
use crate::stops::{CheckStop, Fault, with_line_number};
use crate::verdicts::Reason;
use std::alloc::Global;

/// Checks that no line is left.
fn checked_end(lines: &mut Lines<'_>) -> Result<(), Fault>
    ensures { GivesReason result (end_fault (lines_of lines.old.rest.now)) }
{
    if lines.next_line().is_empty() {
        Ok(())
    } else {
        Err(Fault::new(Reason::Form, Expected::Form(LineForm::End)))
    }
}

/// Checks the first line, which states the version.
#[tactic(auto, unfolding(crate::specs::Faults::plan_fault))]
fn checked_plan(version: u32, line: &[u8]) -> Result<(), Fault>
    ensures { GivesReason result (plan_fault version line.now) }
{
    match plan_line(line) {
        Some(said) if said == u64::from(version) => Ok(()),
        _ => Err(Fault::new(Reason::Form, Expected::Form(LineForm::Plan(version)))),
    }
}

/// Checks the line of the bit rate that all groups have.
#[tactic(auto, unfolding(crate::specs::Faults::rate_fault))]
fn checked_rate(rate: u64, line: &[u8]) -> Result<(), Fault>
    ensures { GivesReason result (rate_fault rate line.now) }
{
    match rate_line(line) {
        None => Err(Fault::new(Reason::Form, Expected::Form(LineForm::Rate))),
        Some(said) if said != rate => Err(Fault::new(Reason::Rate, Expected::Number(rate))),
        Some(_) => Ok(()),
    }
}

/// Checks the lines from the first group on, the first of which has this number.
fn check_groups(
    alloc: Global,
    version: u32,
    groups: &[DueGroup],
    first: usize,
    lines: &mut Lines<'_>,
) -> Result<(), CheckStop>
    requires modest { All IsModest groups.now }
    requires head { first ≤ 3 }
    requires fits { due groups.now < 2 ^ 63 }
    ensures { EndsCheckBy result (first_no first (groups_faults version groups.now (lines_of lines.old.rest.now))) }
{
    let mut number = first;
    for group in groups {
        check_group(alloc, version, group, number, lines)?;
        number += group.outputs.len() + 2;
    }
    with_line_number(number, checked_end(lines))
}

/// Checks each line of a text against the table. Error: the first line that fails, with its reason, or an allocation
/// failed.
pub fn check_lines(alloc: Global, table: &DueTable, text: &[u8]) -> Result<(), CheckStop>
    requires modest { All IsModest table.now.groups.items }
    requires fits { due table.now.groups.items < 2 ^ 63 }
    ensures { EndsCheckBy result (first_no 1 (faults table.now (lines_of text.now))) }
{
    let mut lines = Lines::of(text);
    with_line_number(1, checked_plan(table.version, lines.next_line()))?;
    let Some(rate) = table.rate else {
        return check_groups(alloc, table.version, &table.groups, 2, &mut lines);
    };
    with_line_number(2, checked_rate(rate, lines.next_line()))?;
    check_groups(alloc, table.version, &table.groups, 3, &mut lines)
}
