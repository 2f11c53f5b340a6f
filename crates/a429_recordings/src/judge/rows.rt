//! A row for each output, and for the foreign words of each group.
ghost use Rattle.std.specs.Prelude.{◌≡◌, ◌<◌, ◌++◌, ◌∷◌, [], length, map, IfOk, OnOk};
ghost use Rattle.std.specs.List.{flat_map, list_any, range_with_len};
ghost use Rattle.a429_recordings.specs.JudgeReplies.{given_by};
ghost use Rattle.a429_slots.specs.Tables.{groups_of, outputs_of};
ghost use Rattle.a429_recordings.specs.JudgedPlans.{is_any_bad, is_bad_at, is_found, is_found_in, judged_group, judged_outputs, judged_row, judged_rows};
ghost use Rattle.a429_recordings.specs.SimulationRuns.{HasPlannedGroup};
ghost use Rattle.a429_recordings.specs.Timeline.{table_of};

use crate::judge::duties::either;
use crate::judge::judging::Judging;
use a429_console::refusals::names::{group_name, source_name};
use a429_judge::{add_foreign_row, add_output_row};
use a429_text::Rows;
use std::alloc::{AllocError, Global};

/// Adds the row of an output of a group, and answers whether something is found at it. Error: an allocation failed.
fn add_output(
    rows: &mut Rows,
    alloc: Global,
    judging: &Judging<'_>,
    group: usize,
    output: usize,
) -> Result<bool, AllocError>
    requires known { HasPlannedGroup judging.now.proposal.now group }
    requires output { output < length (outputs_of (table_of judging.now.proposal.now group)) }
    ensures row { OnOk result (rows.new ≡ rows.old
        ++ judged_row judging.now.proposal.now (given_by judging.now) judging.now.judge.now.noted group output ∷ []) }
    ensures bad { IfOk result (λ bad. bad
        ≡ is_bad_at judging.now.proposal.now (given_by judging.now) judging.now.judge.now.noted group output) }
{
    let judgement = judging.judgement(alloc, group, output)?;
    let equipment = judging.proposal.equipment();
    let name = group_name(equipment, group);
    let source = source_name(equipment, group, output);
    add_output_row(rows, name.as_str(), source.as_str(), &judgement);
    Ok(judgement.found > 0)
}

/// Adds the rows of a group's outputs, and answers whether something is found at one of them. Error: an allocation failed.
fn add_outputs(
    rows: &mut Rows,
    alloc: Global,
    judging: &Judging<'_>,
    group: usize,
) -> Result<bool, AllocError>
    requires known { HasPlannedGroup judging.now.proposal.now group }
    ensures rows { OnOk result (rows.new ≡ rows.old
        ++ judged_outputs judging.now.proposal.now (given_by judging.now) judging.now.judge.now.noted group) }
    ensures bad { IfOk result (λ bad. bad ≡ is_any_bad judging.now.proposal.now (given_by judging.now) judging.now.judge.now.noted group) }
{
    let mut found = false;
    for output in 0..judging.proposal.plan().group(group).outputs() {
        let bad = add_output(rows, alloc, judging, group, output)?;
        found = either(found, bad);
    }
    Ok(found)
}

/// Adds the rows of a group, and answers whether something is found. Error: an allocation failed.
fn add_group(
    rows: &mut Rows,
    alloc: Global,
    judging: &Judging<'_>,
    group: usize,
) -> Result<bool, AllocError>
    requires { HasPlannedGroup judging.now.proposal.now group }
    ensures rows { OnOk result (rows.new ≡ rows.old
        ++ judged_group judging.now.proposal.now (given_by judging.now) judging.now.judge.now.noted group) }
    ensures found { IfOk result (λ found. found
        ≡ is_found_in judging.now.proposal.now (given_by judging.now) judging.now.judge.now.noted group) }
{
    let found = add_outputs(rows, alloc, judging, group)?;
    let count = judging.foreign(group)?.len();
    let name = group_name(judging.proposal.equipment(), group);
    add_foreign_row(rows, name.as_str(), count as u64);
    Ok(either(found, count > 0))
}

/// Adds the rows of all groups, and answers whether something is found. Error: an allocation failed.
pub fn add_groups(rows: &mut Rows, alloc: Global, judging: &Judging<'_>) -> Result<bool, AllocError>
    ensures rows { OnOk result (rows.new ≡ rows.old
        ++ judged_rows judging.now.proposal.now (given_by judging.now) judging.now.judge.now.noted) }
    ensures found { IfOk result (λ found. found ≡ is_found judging.now.proposal.now (given_by judging.now) judging.now.judge.now.noted) }
{
    let mut found = false;
    for group in 0..judging.proposal.plan().groups() {
        let more = add_group(rows, alloc, judging, group)?;
        found = either(found, more);
    }
    Ok(found)
}
