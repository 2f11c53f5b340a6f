//! The command `plan` with `--keep`: a plan whose outputs keep the places of an earlier plan text.
ghost use Rattle.std.specs.Prelude.{◌≡◌};
ghost use Rattle.a429_arguments.specs.Requests.{asked_of};
ghost use Rattle.a429_console.specs.Readings.{HasRead};
ghost use Rattle.a429_cli.specs.Keeping.{IsKeptOf, IsKeptPlan, IsNoKept, IsNoKeptPlan, IsToldPlan};
ghost use Rattle.a429_console.specs.WholeReplies.{Replies};

use crate::plans::plan_of;
use a429_cert::laws::own_text_is_fewest;
use a429_cert::plan_text;
use a429_console::files::FileReader;
use a429_console::files::reading::read_file;
use a429_console::hints::warnings::{KeptCounts, MovedOutput, StatedPlace, Warning};
use a429_console::planning::propose;
use a429_console::refusals::{CommandRefusal, Refused};
use a429_console::reply::Reply;
use a429_equipment::Equipment;
use a429_given::keep_refusal;
use a429_keep::{Changes, Move, Row, changes_between, keep, read_rows};
use a429_slots::{OUTPUTS, Proposal};
use a429_text::SheetForm;
use std::alloc::Global;

/// The place of an output.
fn stated_place(row: &Row<'_>) -> StatedPlace {
    StatedPlace {
        period: row.said.period,
        bus: row.said.bus,
        offset: row.said.offset,
    }
}

/// An output that does not stay. `None` if an allocation fails.
fn moved_output(alloc: Global, step: &Move<'_>) -> Option<MovedOutput> {
    let group = String::from_utf8(Vec::from_slice(alloc, step.after.group).ok()?).ok()?;
    let source = String::from_utf8(Vec::from_slice(alloc, step.after.said.source).ok()?).ok()?;
    Some(MovedOutput {
        group,
        source,
        before: stated_place(&step.before),
        after: stated_place(&step.after),
    })
}

/// Notes what changes.
fn note_changes(alloc: Global, changes: &Changes<'_>, warnings: &mut Vec<Warning>) {
    let counts = KeptCounts {
        stay: changes.stay,
        moved: changes.moved.len(),
        added: changes.added,
        gone: changes.gone,
    };
    Warning::note_kept(warnings, counts);
    for step in &changes.moved {
        if let Some(output) = moved_output(alloc, step) {
            Warning::note_moved(warnings, output);
        }
    }
}

/// Notes what changes from an earlier plan text to another, unless an allocation fails.
fn note_texts(
    alloc: Global,
    equipment: &Equipment,
    earlier: &[u8],
    text: &[u8],
    warnings: &mut Vec<Warning>,
) {
    let Ok(before) = read_rows(alloc, equipment, earlier) else {
        return;
    };
    let Ok(after) = read_rows(alloc, equipment, text) else {
        return;
    };
    if let Ok(changes) = changes_between(alloc, &before, &after) {
        note_changes(alloc, &changes, warnings);
    }
}

/// Notes what changes from an earlier plan text to a plan, unless an allocation fails.
fn note_kept(
    alloc: Global,
    proposal: &Proposal<OUTPUTS>,
    earlier: &[u8],
    warnings: &mut Vec<Warning>,
) {
    if let Ok(text) = plan_text(alloc, proposal) {
        note_texts(alloc, proposal.equipment(), earlier, &text, warnings);
    }
}

/// A plan whose outputs keep the places of an earlier text, with status 0. What moved is noted.
fn told_kept(
    alloc: Global,
    proposal: &Proposal<OUTPUTS>,
    earlier: &[u8],
    form: SheetForm,
    warnings: &mut Vec<Warning>,
) -> Result<Reply, Refused>
    ensures { Replies (IsToldPlan form proposal.now) (λ _. ⊥) result }
{
    own_text_is_fewest();
    proposal.equipment().rows_are_sound();
    note_kept(alloc, proposal, earlier, warnings);
    match plan_of(alloc, proposal, form) {
        Ok(reply) => Ok(reply),
        Err(_) => Err(Refused::plain(CommandRefusal::Memory)),
    }
}

/// The plan of a table whose outputs keep the places of an earlier text, and its status. What moved is noted. The table is
/// refused first, then its plan, then the earlier text.
fn kept_plan(
    alloc: Global,
    table: &[u8],
    earlier: &[u8],
    form: SheetForm,
    warnings: &mut Vec<Warning>,
) -> Result<Reply, Refused>
    ensures { Replies (IsKeptPlan form table.now earlier.now) (IsNoKeptPlan table.now earlier.now) result }
{
    let mut proposal = propose(alloc, table)?;
    match keep(alloc, &mut proposal, earlier) {
        Ok(()) => told_kept(alloc, &proposal, earlier, form, warnings),
        Err(fault) => Err(Refused::plain(keep_refusal(fault))),
    }
}

/// The plan of the table in a file whose outputs keep the places of the plan text in another file, and its status. Errors, in
/// this order: a file is refused; the table has a fault; it has no plan; a line of the plan text is refused. `Memory` if an
/// allocation fails.
pub fn kept_reply<F: FileReader>(
    alloc: Global,
    files: &mut F,
    table: &str,
    earlier: &str,
    form: SheetForm,
    warnings: &mut Vec<Warning>,
) -> Result<Reply, Refused>
    ensures { HasRead F.answers (λ file. Replies (IsKeptOf form file table.now earlier.now)
        (IsNoKept file table.now earlier.now) result) files.old files.new }
{
    let table = read_file(alloc, files, table)?;
    let earlier = read_file(alloc, files, earlier)?;
    kept_plan(alloc, &table, &earlier, form, warnings)
}
