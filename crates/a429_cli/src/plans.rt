//! The commands on the plan of one table: `plan`, `icd`, `margin`, `load`, `slots`, `buses` and `draw`.
ghost use Rattle.std.specs.Prelude.{◌≡◌, List, None, true, IfOk};
ghost use Rattle.a429_console.specs.Readings.{HasRead};
ghost use Rattle.a429_arguments.specs.Requests.{asked_of};
ghost use Rattle.a429_arguments.specs.CommandLine.{row_of};
ghost use Rattle.a429_arguments.specs.Usage.{is_on_plan};
ghost use Rattle.a429_documents.specs.Document.{icd_columns, icd_rows};
ghost use Rattle.a429_documents.specs.KeptColumns.{kept_sheet, kept_texts};
ghost use Rattle.a429_documents.specs.Margins.{IsMargin, margin_columns};
ghost use Rattle.a429_documents.specs.PlanSheets.{HasLimit, sheet_named};
ghost use Rattle.a429_text.specs.Fields.{Field};
ghost use Rattle.a429_text.specs.Sheets.{sheet_text};
ghost use Rattle.a429_given.specs.GivenTables.{table_texts};
ghost use Rattle.a429_cli.specs.Plans.{IsNoPlanReply, IsNoReplyOnPlan, IsNoReplyToTable, IsOtherReply, IsPlanReply, IsReplyOnPlan, IsReplyToTable, IsSheet, or_no_memory, told_plan};
ghost use Rattle.a429_cli.specs.Stamping.{IsStamped, stamp_line};
ghost use Rattle.a429_console.specs.WholeReplies.{Replies};

use crate::drawings::{Picture, image_of};
use crate::loads::load_of;
use crate::slots::{SlotsForm, slots_of};
use crate::stamping::stamped;
use a429_arguments::forms::Verb;
use a429_arguments::options::OptionName;
use a429_arguments::requests::Asked;
use a429_cert::plan_text;
use a429_console::files::FileReader;
use a429_console::planning::with_plan;
use a429_console::refusals::{CommandRefusal, Refused};
use a429_console::reply::Reply;
use a429_documents::{
    PlanSheet, SOURCE, TableFile, margin_sheet, plan_sheet, render_kept, sheet_named,
};
use a429_given::{GivenTable, TableNames};
use a429_slots::{OUTPUTS, Proposal};
use a429_text::SheetForm;
use std::alloc::{AllocError, Global};

/// A reply, with the refusal if an allocation for it failed.
fn or_no_memory(reply: Result<Reply, AllocError>) -> Result<Reply, Refused>
    ensures { result ≡ or_no_memory reply }
{
    match reply {
        Ok(reply) => Ok(reply),
        Err(_) => Err(Refused::plain(CommandRefusal::Memory)),
    }
}

/// The data of each output for an interface control document, and whether a spreadsheet is to keep the zeros of labels.
fn icd_of(
    alloc: Global,
    table: &[u8],
    proposal: &Proposal<OUTPUTS>,
    keeps_zeros: bool,
    form: SheetForm,
) -> Result<Reply, AllocError>
    ensures { IfOk result (λ reply. (reply.bytes.items ≡ kept_sheet form (kept_texts table.now) icd_columns 2
        (icd_rows keeps_zeros proposal.now.station proposal.now.plan)) × (reply.status ≡ 0)) }
{
    let sheet = plan_sheet(alloc, proposal, PlanSheet::Icd(keeps_zeros), None);
    Ok(Reply::done(render_kept(alloc, form, table, &sheet, SOURCE)?))
}

/// What would save a bus in each group.
fn margin_of(
    alloc: Global,
    proposal: &Proposal<OUTPUTS>,
    form: SheetForm,
) -> Result<Reply, AllocError>
    ensures { IfOk result (λ reply. ((rows : List (List Field)) × IsMargin proposal.now.station proposal.now.plan rows
        × (reply.bytes.items ≡ sheet_text form margin_columns rows)) × (reply.status ≡ 0)) }
{
    let text = margin_sheet(alloc, proposal)?.render(alloc, form)?;
    Ok(Reply::done(text))
}

/// A sheet on a proposal's plan that has no columns of comments.
fn sheet_of(
    alloc: Global,
    proposal: &Proposal<OUTPUTS>,
    sheet: PlanSheet,
    form: SheetForm,
) -> Result<Reply, AllocError>
    requires { HasLimit sheet }
    ensures { IfOk result (λ reply. IsSheet sheet form proposal.now reply.status reply.bytes.items) }
{
    let text = plan_sheet(alloc, proposal, sheet, None).render(alloc, form)?;
    Ok(Reply::done(text))
}

/// The plan itself, with its bounds: its text, or its sheet with `--csv` or `--json`. Error: an allocation failed.
fn told_plan(
    alloc: Global,
    proposal: &Proposal<OUTPUTS>,
    form: SheetForm,
) -> Result<Vec<u8>, AllocError>
    ensures { IfOk result (λ text. text.items ≡ told_plan form proposal.now.station proposal.now.plan) }
{
    match form {
        SheetForm::Columns => plan_text(alloc, proposal),
        SheetForm::Csv | SheetForm::Json => {
            plan_sheet(alloc, proposal, PlanSheet::Plan, None).render(alloc, form)
        }
    }
}

/// The plan itself, with status 0.
pub fn plan_of(
    alloc: Global,
    proposal: &Proposal<OUTPUTS>,
    form: SheetForm,
) -> Result<Reply, AllocError>
    ensures { IfOk result (λ reply. (reply.bytes.items ≡ told_plan form proposal.now.station proposal.now.plan)
        × (reply.status ≡ 0)) }
{
    Ok(Reply::done(told_plan(alloc, proposal, form)?))
}

/// What a command that has no sheet of its name writes about a proposal, and its status.
fn other_reply(
    alloc: Global,
    asked: &Asked,
    file: TableFile<'_>,
    proposal: &Proposal<OUTPUTS>,
) -> Result<Reply, Refused>
    requires plan { is_on_plan asked.now.verb ≡ true }
    requires other { sheet_named (row_of asked.now.verb).name ≡ None }
    ensures { Replies (IsOtherReply asked.now.verb (asked_of asked.now).given file.entry.bytes.now proposal.now)
        (IsNoReplyOnPlan asked.now.verb (asked_of asked.now).given proposal.now) result }
{
    let form = asked.form();
    match asked.verb {
        Verb::Plan => or_no_memory(plan_of(alloc, proposal, form)),
        Verb::Icd => or_no_memory(icd_of(
            alloc,
            file.bytes,
            proposal,
            asked.has(OptionName::Text),
            form,
        )),
        Verb::Margin => or_no_memory(margin_of(alloc, proposal, form)),
        Verb::Load => or_no_memory(load_of(alloc, proposal, asked.number(OptionName::Limit), form)),
        Verb::Slots => slots_of(
            alloc,
            file.bytes,
            proposal,
            asked.text(OptionName::Group),
            SlotsForm::of(asked),
        ),
        Verb::Draw => image_of(
            alloc,
            file,
            proposal,
            asked.text(OptionName::Group),
            Picture::of(asked),
        ),
        _ => unreachable!(),
    }
}

/// What a command writes about a proposal, and its status: the sheet of its name, if there is one.
fn reply_on_plan(
    alloc: Global,
    asked: &Asked,
    file: TableFile<'_>,
    proposal: &Proposal<OUTPUTS>,
) -> Result<Reply, Refused>
    requires { is_on_plan asked.now.verb ≡ true }
    ensures { Replies (IsReplyOnPlan asked.now.verb (asked_of asked.now).given file.entry.bytes.now proposal.now)
        (IsNoReplyOnPlan asked.now.verb (asked_of asked.now).given proposal.now) result }
{
    match sheet_named(asked.verb.form().name) {
        Some(sheet) => or_no_memory(sheet_of(alloc, proposal, sheet, asked.form())),
        None => other_reply(alloc, asked, file, proposal),
    }
}

/// What a command writes about the plan of a table, its own or that of a text, and its status. Errors, in this order: there
/// is no plan; no group has the given name; an image is too high. `Memory` if an allocation fails.
fn reply_to_table(alloc: Global, asked: &Asked, table: &GivenTable) -> Result<Reply, Refused>
    requires { is_on_plan asked.now.verb ≡ true }
    ensures { Replies (IsReplyToTable asked.now.verb (asked_of asked.now).given (table_texts table.now))
        (IsNoReplyToTable asked.now.verb (asked_of asked.now).given (table_texts table.now)) result }
{
    let file = TableFile {
        name: asked.first,
        bytes: &table.table,
    };
    let proposal = table.propose(alloc)?;
    let reply = reply_on_plan(alloc, asked, file, &proposal);
    with_plan(reply, proposal)
}

/// What a command answers about a table, with the line of its file above it if stamps are asked for.
fn stamped_reply(alloc: Global, asked: &Asked, table: &GivenTable) -> Result<Reply, Refused>
    requires { is_on_plan asked.now.verb ≡ true }
    ensures { Replies (IsStamped (asked_of asked.now).given (stamp_line (asked_of asked.now).first (table_texts table.now).table)
        (IsReplyToTable asked.now.verb (asked_of asked.now).given (table_texts table.now)))
        (IsNoReplyToTable asked.now.verb (asked_of asked.now).given (table_texts table.now)) result }
{
    let reply = reply_to_table(alloc, asked, table)?;
    let file = TableFile {
        name: asked.first,
        bytes: &table.table,
    };
    Ok(stamped(alloc, asked, file, reply)?)
}

/// What a command writes about the plan of the table in a file, and its status: the own plan, or that of a plan text if one
/// is given. Errors, in this order: a file is refused; the table has a fault; it has no plan; a line of the plan text is
/// refused; no group has the given name; an image is too high. `Memory` if an allocation fails.
pub fn plan_reply<F: FileReader>(
    alloc: Global,
    files: &mut F,
    asked: &Asked,
) -> Result<Reply, Refused>
    requires { is_on_plan asked.now.verb ≡ true }
    ensures { HasRead F.answers (λ file. Replies (IsPlanReply asked.now.verb file (asked_of asked.now))
        (IsNoPlanReply asked.now.verb file (asked_of asked.now)) result) files.old files.new }
{
    let table = GivenTable::read(alloc, files, TableNames::of(asked))?;
    stamped_reply(alloc, asked, &table)
}
