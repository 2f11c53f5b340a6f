//! What differs of the groups that two proposals have, and of their outputs.
ghost use Rattle.std.specs.Prelude.{◌≡◌, ◌<◌, ◌≤◌, ◌++◌, IfOk, IfSome, OnOk, codes, length, string_bytes};
ghost use Rattle.a429_slots.specs.Tables.{outputs_of};
ghost use Rattle.a429_documents.specs.Diff.{both_of, count_rows, each_of, group_both_rows, group_moved, groups_rows, is_moved, kept_gap, kept_rows, moved_count, moved_in, only_rows, outputs_rows, pair_rows, rate_in, size_change, size_rows};

use crate::diff::names::number_named;
use crate::diff::rows::{Gap, Subject, add_change, add_row};
use crate::diff::sides::Side;
use crate::diff::texts::put_number_change;
use a429_slots::{OUTPUTS, OutputId, Proposal};
use a429_text::Rows;
use std::alloc::{AllocError, Global};
use std::marker::Model;

/// A group that both proposals have: its name, its bit rate in each, and what each of them has for it.
#[derive(Drop)]
struct Both<'a> {
    name: &'a str,
    rate: u32,
    new_rate: u32,
    first: Side<'a>,
    second: Side<'a>,
}

impl<'a> Model for Both<'a> {
    ghost use Rattle.a429_documents.specs.Diff as diff;

    ghost Value = { diff.Both };

    ghost view = { λ g. record { name = g.name.now; rate = g.rate; new_rate = g.new_rate; first = g.first; second = g.second } };
}

/// The gap of an output of both plans, if the second can follow the first.
fn gap(has_gap: bool, group: &Both<'_>, output: OutputId, other: OutputId) -> Gap
    requires rate { 1 ≤ group.now.rate }
    requires own { output < length (outputs_of group.now.first.table) }
    requires other { other < length (outputs_of group.now.second.table) }
    ensures { result ≡ kept_gap has_gap group.now output other }
{
    if !has_gap {
        return Gap::none();
    }
    let slots = group.first.gap(output, &group.second, other);
    Gap::of(group.rate, slots, group.second.compared(other).max_us)
}

/// Adds what changes of an output of both plans.
fn add_pair(
    alloc: Global,
    rows: &mut Rows,
    all: bool,
    has_gap: bool,
    group: &Both<'_>,
    output: OutputId,
    other: OutputId,
) -> Result<(), AllocError>
    requires rate { 1 ≤ group.now.rate }
    requires own { output < length (outputs_of group.now.first.table) }
    requires other { other < length (outputs_of group.now.second.table) }
    ensures { OnOk result (rows.new ≡ rows.old ++ pair_rows all has_gap group.now output other) }
{
    let gap = gap(has_gap, group, output, other);
    let subject = Subject::of_output(group.name, group.first.name(output), gap);
    let (first, second) = (group.first.compared(output), group.second.compared(other));
    let change = first.change(alloc, all, &second)?;
    add_change(rows, &subject, &change);
    Ok(())
}

/// Adds what changes of an output of the first plan, if the second has it too.
fn add_kept(
    alloc: Global,
    rows: &mut Rows,
    all: bool,
    has_gap: bool,
    group: &Both<'_>,
    output: OutputId,
) -> Result<(), AllocError>
    requires rate { 1 ≤ group.now.rate }
    requires known { output < length (outputs_of group.now.first.table) }
    ensures { OnOk result (rows.new ≡ rows.old ++ kept_rows all has_gap group.now output) }
{
    match group.second.output_named(group.first.name(output)) {
        None => Ok(()),
        Some(other) => add_pair(alloc, rows, all, has_gap, group, output, other),
    }
}

/// Adds the row of an output of one plan, if the other does not have it.
fn add_lone<'x>(
    rows: &mut Rows,
    change: &str,
    group: &'x str,
    own: &Side<'x>,
    other: &Side<'_>,
    output: OutputId,
)
    requires { output < length (outputs_of own.now.table) }
    ensures { rows.new ≡ rows.old ++ only_rows change.now group.now own.now other.now output }
{
    let name = own.name(output);
    if other.output_named(name).is_some() {
        return;
    }
    add_row(rows, &Subject::of_output(group, name, Gap::none()), change);
}

/// Adds what changes of the outputs that both plans have.
#[tactic(auto, using(crate::proofs::Ranges::flat_more))]
fn add_kepts(
    alloc: Global,
    rows: &mut Rows,
    all: bool,
    has_gap: bool,
    group: &Both<'_>,
) -> Result<(), AllocError>
    requires { 1 ≤ group.now.rate }
    ensures { OnOk result (rows.new ≡ rows.old ++ each_of (length (outputs_of group.now.first.table)) (kept_rows all has_gap group.now)) }
{
    for number in 0..group.first.outputs() {
        add_kept(alloc, rows, all, has_gap, group, OutputId::new(number))?;
    }
    Ok(())
}

/// Adds the rows of outputs that only one of the plans has.
#[tactic(auto, using(crate::proofs::Ranges::flat_more))]
fn add_only<'x>(rows: &mut Rows, change: &str, group: &'x str, own: &Side<'x>, other: &Side<'_>)
    ensures { rows.new ≡ rows.old ++ each_of (length (outputs_of own.now.table)) (only_rows change.now group.now own.now other.now) }
{
    for number in 0..own.outputs() {
        add_lone(rows, change, group, own, other, OutputId::new(number));
    }
}

/// Adds the rows of the outputs of a group.
fn add_outputs(
    alloc: Global,
    rows: &mut Rows,
    all: bool,
    has_gap: bool,
    group: &Both<'_>,
) -> Result<(), AllocError>
    requires { 1 ≤ group.now.rate }
    ensures { OnOk result (rows.new ≡ rows.old ++ outputs_rows all has_gap group.now) }
{
    add_kepts(alloc, rows, all, has_gap, group)?;
    add_only(rows, "removed", group.name, &group.first, &group.second);
    add_only(rows, "added", group.name, &group.second, &group.first);
    Ok(())
}

/// What changes of a group as a whole: its bit rate, its buses and its frame.
fn size_change(alloc: Global, group: &Both<'_>) -> Result<String, AllocError>
    ensures { IfOk result (λ text. string_bytes text ≡ size_change group.now) }
{
    let (first, second) = (&group.first, &group.second);
    let (rate, new_rate) = (u64::from(group.rate), u64::from(group.new_rate));
    let (buses, new_buses) = (first.buses(), second.buses());
    let (frame, new_frame) = (first.frame(), second.frame());
    let mut text = String::new(alloc);
    put_number_change(&mut text, "rate", Some(rate), Some(new_rate))?;
    put_number_change(&mut text, "buses", Some(buses), Some(new_buses))?;
    put_number_change(&mut text, "frame_slots", Some(frame), Some(new_frame))?;
    Ok(text)
}

/// Adds what changes of a group as a whole.
fn add_size(alloc: Global, rows: &mut Rows, group: &Both<'_>) -> Result<(), AllocError>
    ensures { OnOk result (rows.new ≡ rows.old ++ size_rows group.now) }
{
    let change = size_change(alloc, group)?;
    add_change(rows, &Subject::of_group(group.name), &change);
    Ok(())
}

/// The bit rate of a group in bit/s.
fn rate_of(proposal: &Proposal<OUTPUTS>, group: usize) -> u32
    requires { group < length proposal.now.station.groups }
    ensures rate { result ≡ rate_in proposal.now group }
    ensures some { 1 ≤ result }
{
    let equipment = proposal.equipment();
    equipment.rows_are_sound();
    equipment.group_rate(group)
}

/// A group of the first proposal, if the second has one of its name.
fn both_of<'a>(a: &'a Proposal<OUTPUTS>, b: &'a Proposal<OUTPUTS>, group: usize) -> Option<Both<'a>>
    requires { group < length a.now.station.groups }
    ensures both { result ≡ both_of a.now b.now group }
    ensures rate { IfSome result (λ both. 1 ≤ both.rate) }
{
    let name = a.equipment().groups()[group].name.as_str();
    match number_named(b.equipment().groups(), name) {
        None => None,
        Some(other) => Some(Both {
            name,
            rate: rate_of(a, group),
            new_rate: rate_of(b, other),
            first: Side::of(a, group),
            second: Side::of(b, other),
        }),
    }
}

/// Adds the rows of a group of the first proposal, if the second has it too.
fn add_group(
    alloc: Global,
    rows: &mut Rows,
    all: bool,
    has_gap: bool,
    a: &Proposal<OUTPUTS>,
    b: &Proposal<OUTPUTS>,
    group: usize,
) -> Result<(), AllocError>
    requires { group < length a.now.station.groups }
    ensures { OnOk result (rows.new ≡ rows.old ++ group_both_rows all has_gap a.now b.now group) }
{
    if let Some(group) = both_of(a, b, group) {
        add_size(alloc, rows, &group)?;
        add_outputs(alloc, rows, all, has_gap, &group)?;
    }
    Ok(())
}

/// How many groups a proposal has.
fn groups(proposal: &Proposal<OUTPUTS>) -> usize
    ensures count { result ≡ length proposal.now.station.groups }
    ensures few { result ≤ 8 }
{
    let equipment = proposal.equipment();
    equipment.rows_are_sound();
    equipment.groups().len()
}

/// Adds the rows of the groups that both proposals have. Error: an allocation failed.
#[tactic(auto, using(crate::proofs::Ranges::flat_more))]
pub fn add_groups(
    alloc: Global,
    rows: &mut Rows,
    all: bool,
    has_gap: bool,
    a: &Proposal<OUTPUTS>,
    b: &Proposal<OUTPUTS>,
) -> Result<(), AllocError>
    ensures { OnOk result (rows.new ≡ rows.old ++ groups_rows all has_gap a.now b.now) }
{
    for group in 0..groups(a) {
        add_group(alloc, rows, all, has_gap, a, b, group)?;
    }
    Ok(())
}

// ---- outputs that have moved

/// Whether both plans have an output, and only its offset differs.
fn is_moved(group: &Both<'_>, output: OutputId) -> bool
    requires { output < length (outputs_of group.now.first.table) }
    ensures { result ≡ is_moved group.now output }
{
    let (first, second) = (&group.first, &group.second);
    match second.output_named(first.name(output)) {
        None => false,
        Some(other) => first.compared(output).has_moved(&second.compared(other)),
    }
}

/// How many outputs of a group have moved.
#[tactic(auto, using(crate::proofs::Ranges::summed_more))]
fn moved_in(group: &Both<'_>) -> u64
    ensures count { result ≡ moved_in group.now }
    ensures few { result ≤ 128 }
{
    let mut moved = 0;
    for number in 0..group.first.outputs() {
        if is_moved(group, OutputId::new(number)) {
            moved += 1;
        }
    }
    moved
}

/// How many outputs of a group of the first proposal have moved, if the second has it too.
fn moved_of(a: &Proposal<OUTPUTS>, b: &Proposal<OUTPUTS>, group: usize) -> u64
    requires { group < length a.now.station.groups }
    ensures count { result ≡ group_moved a.now b.now group }
    ensures few { result ≤ 128 }
{
    match both_of(a, b, group) {
        None => 0,
        Some(group) => moved_in(&group),
    }
}

/// How many outputs of all groups have moved.
#[tactic(auto, using(crate::proofs::Ranges::summed_more))]
fn moved_count(a: &Proposal<OUTPUTS>, b: &Proposal<OUTPUTS>) -> u64
    ensures { result ≡ moved_count a.now b.now }
{
    let mut moved = 0;
    for group in 0..groups(a) {
        moved += moved_of(a, b, group);
    }
    moved
}

/// Adds the row with the number of moved outputs, if there are any. Error: an allocation failed.
pub fn add_moved(
    alloc: Global,
    rows: &mut Rows,
    a: &Proposal<OUTPUTS>,
    b: &Proposal<OUTPUTS>,
) -> Result<(), AllocError>
    ensures { OnOk result (rows.new ≡ rows.old ++ count_rows (moved_count a.now b.now)) }
{
    let moved = moved_count(a, b);
    if moved == 0 {
        return Ok(());
    }
    let change = format!(in alloc; "outputs {moved}")?;
    add_row(rows, &Subject::of_kind("moved"), &change);
    Ok(())
}
