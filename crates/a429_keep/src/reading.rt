//! The earlier plan text, line by line.
ghost use Rattle.std.specs.Prelude.{◌≡◌, IfErr, IfOk, Ok, map};
ghost use Rattle.std.specs.List.{list_any};
ghost use Rattle.a429_cert.specs.Lines.{lines_of};
ghost use Rattle.a429_cert.specs.Views.{heading, listing};
ghost use Rattle.a429_cert.specs.Lines.{line_at};
ghost use Rattle.a429_cert.specs.Reading.{rate_line};
ghost use Rattle.a429_keep.specs.Readings.{HavePeriods, IsReadFault, against_heading, after_rate, against_output, fault_at, has_other_rate, line_of, rate_of, reading, rows_from};
ghost use Rattle.a429_keep.specs.Rows.{row_view, shares_cells};

use crate::fault::{KeepFault, KeepReason, LineStop};
use crate::rows::{Row, shares_any};
use a429_cert::{
    GroupLine, Lines, OutputLine, bound_line, group_line, output_line, plan_line, rate_line,
};
use a429_equipment::{Equipment, GroupRow};
use std::alloc::Global;

/// What was read of a text so far: the first line of the group whose lines come, and the outputs.
#[derive(Drop)]
pub struct Reading<'a> {
    heading: Option<GroupLine<'a>>,
    rows: Vec<Row<'a>>,
}

/// What a text says of all its lines: its version, and in version 1 the bit rate of all groups in bit/s.
#[derive(Clone, Copy)]
pub struct TextForm {
    version: u32,
    rate: Option<u64>,
}

/// The bit rate that a line says, otherwise that of all groups.
fn rate_of(own: Option<u64>, all: Option<u64>) -> Option<u64>
    ensures { result ≡ rate_of own all }
{
    match own {
        Some(_) => own,
        None => all,
    }
}

/// Whether a group has this name and another bit rate than this.
fn has_other_rate(group: &GroupRow, name: &[u8], rate: Option<u64>) -> bool
    ensures { result ≡ has_other_rate name.now rate group.now }
{
    match rate {
        Some(rate) => u64::from(group.rate) != rate && group.name.as_str().as_bytes() == name,
        None => false,
    }
}

/// Whether a group of this name has another bit rate than this.
fn is_other_rate(groups: &[GroupRow], name: &[u8], rate: Option<u64>) -> bool
    ensures { result ≡ list_any (has_other_rate name.now rate) groups.now }
{
    groups.iter().any(|group| has_other_rate(group, name, rate))
}

/// What is wrong with the first line of a group.
fn against_heading(
    equipment: &Equipment,
    form: TextForm,
    said: &GroupLine<'_>,
) -> Option<KeepReason>
    ensures { result ≡ against_heading equipment.now form (heading said.now) }
{
    let rate = rate_of(said.rate, form.rate);
    if is_other_rate(equipment.groups(), said.name, rate) {
        Some(KeepReason::Rate)
    } else {
        None
    }
}

/// What is wrong with the line of an output, after those that were read.
#[tactic(auto, using(crate::proofs::Viewed::any_viewed))]
fn against_output(row: &Row<'_>, rows: &[Row<'_>]) -> Option<KeepReason>
    requires { HavePeriods rows.now }
    ensures { result ≡ against_output (row_view row.now) (map row_view rows.now) }
{
    if row.said.period <= row.said.offset {
        Some(KeepReason::Place)
    } else if shares_any(rows, row) {
        Some(KeepReason::Shared)
    } else {
        None
    }
}

/// The number of the line that is refused for this reason, at the line of this number: that which says the bit rate, if
/// it is another one.
fn line_of(form: TextForm, reason: KeepReason, number: usize) -> usize
    ensures { result ≡ line_of form reason number }
{
    match reason {
        KeepReason::Rate if form.rate.is_some() => 2,
        _ => number,
    }
}

impl<'a> Reading<'a> {
    ghost use Rattle.std.specs.Prelude.{MatchResult, Ok, Err, ◌≡◌};
    ghost use Rattle.a429_keep.specs.Readings.{HavePeriods, TakesLine, after_heading, after_line, after_output, after_row, read_of};
    ghost use Rattle.a429_keep.specs.Rows.{row_view};

    /// Takes the first line of a group.
    fn take_heading(
        &mut self,
        equipment: &Equipment,
        form: TextForm,
        said: GroupLine<'a>,
    ) -> Result<(), LineStop>
        requires { HavePeriods self.old.rows.items }
        ensures taken { TakesLine (after_heading equipment.now form (read_of self.old) (heading said.entry)) (read_of self.new) result }
        ensures periods { HavePeriods self.new.rows.items }
    {
        if let Some(reason) = against_heading(equipment, form, &said) {
            return Err(LineStop::Refused(reason));
        }
        self.heading = Some(said);
        Ok(())
    }

    /// Takes an output of a group.
    fn take_row(&mut self, row: Row<'a>) -> Result<(), LineStop>
        requires { HavePeriods self.old.rows.items }
        ensures taken { TakesLine (after_row (read_of self.old) (row_view row.entry)) (read_of self.new) result }
        ensures periods { HavePeriods self.new.rows.items }
    {
        if let Some(reason) = against_output(&row, &self.rows) {
            return Err(LineStop::Refused(reason));
        }
        self.rows.push(row)?;
        Ok(())
    }

    /// Takes the line of an output.
    fn take_output(&mut self, said: OutputLine<'a>) -> Result<(), LineStop>
        requires { HavePeriods self.old.rows.items }
        ensures taken { TakesLine (after_output (read_of self.old) (listing said.entry)) (read_of self.new) result }
        ensures periods { HavePeriods self.new.rows.items }
    {
        match self.heading {
            Some(heading) => self.take_row(Row {
                group: heading.name,
                said,
            }),
            None => Err(LineStop::Refused(KeepReason::Form)),
        }
    }

    /// Takes a line.
    fn take_line(
        &mut self,
        equipment: &Equipment,
        form: TextForm,
        line: &'a [u8],
    ) -> Result<(), LineStop>
        requires { HavePeriods self.old.rows.items }
        ensures taken { TakesLine (after_line equipment.now form (read_of self.old) line.now) (read_of self.new) result }
        ensures periods { HavePeriods self.new.rows.items }
    {
        if let Some(said) = group_line(form.version, line) {
            return self.take_heading(equipment, form, said);
        }
        if let Some(said) = output_line(form.version, line) {
            return self.take_output(said);
        }
        match bound_line(line) {
            Some(_) => Ok(()),
            None => Err(LineStop::Refused(KeepReason::Form)),
        }
    }
}

/// Why a text is refused at the line of this number.
fn fault_at(form: TextForm, number: usize, stop: LineStop) -> KeepFault
    ensures { result ≡ fault_at form number stop }
{
    match stop {
        LineStop::Refused(reason) => KeepFault::Line {
            line: line_of(form, reason, number),
            reason,
        },
        LineStop::Memory => KeepFault::NoMemory,
    }
}

/// The outputs in the lines that are left, the first of which has this number.
fn read_lines<'a>(
    alloc: Global,
    equipment: &Equipment,
    form: TextForm,
    first: usize,
    mut lines: Lines<'a>,
) -> Result<Vec<Row<'a>>, KeepFault>
    ensures read { IfOk result (λ rows. rows_from equipment.now form first (lines_of lines.entry.rest.now) ≡ Ok (map row_view rows.items)) }
    ensures fault { IfErr result (IsReadFault (rows_from equipment.now form first (lines_of lines.entry.rest.now))) }
{
    let mut reading = Reading {
        heading: None,
        rows: Vec::new(alloc),
    };
    let mut number = first;
    while !lines.rest.is_empty() {
        match reading.take_line(equipment, form, lines.next_line()) {
            Ok(()) => {}
            Err(stop) => return Err(fault_at(form, number, stop)),
        }
        number = number.saturating_add(1);
    }
    Ok(reading.rows)
}

/// The outputs that a text of version 1 lists, after its first line.
fn read_first_version<'a>(
    alloc: Global,
    equipment: &Equipment,
    mut lines: Lines<'a>,
) -> Result<Vec<Row<'a>>, KeepFault>
    ensures read { IfOk result (λ rows. after_rate equipment.now (lines_of lines.entry.rest.now) ≡ Ok (map row_view rows.items)) }
    ensures fault { IfErr result (IsReadFault (after_rate equipment.now (lines_of lines.entry.rest.now))) }
{
    match rate_line(lines.next_line()) {
        Some(rate) => {
            let form = TextForm {
                version: 1,
                rate: Some(rate),
            };
            read_lines(alloc, equipment, form, 3, lines)
        }
        None => Err(KeepFault::Line {
            line: 2,
            reason: KeepReason::Form,
        }),
    }
}

/// The outputs that a plan text lists, in its order. Error: the first line that is refused, or an allocation failed.
pub fn read_rows<'a>(
    alloc: Global,
    equipment: &Equipment,
    text: &'a [u8],
) -> Result<Vec<Row<'a>>, KeepFault>
    ensures read { IfOk result (λ rows. reading equipment.now text.now ≡ Ok (map row_view rows.items)) }
    ensures fault { IfErr result (IsReadFault (reading equipment.now text.now)) }
{
    let mut lines = Lines::of(text);
    match plan_line(lines.next_line()) {
        Some(2) => {
            let form = TextForm {
                version: 2,
                rate: None,
            };
            read_lines(alloc, equipment, form, 2, lines)
        }
        Some(1) => read_first_version(alloc, equipment, lines),
        _ => Err(KeepFault::Line {
            line: 1,
            reason: KeepReason::Form,
        }),
    }
}
