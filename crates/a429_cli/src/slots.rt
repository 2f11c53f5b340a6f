//! What `slots` writes about a plan.
ghost use Rattle.std.specs.Prelude.{◌≡◌, ◌<◌, IfOk, IfSome, length};
ghost use Rattle.std.specs.Option.{option_copied};
ghost use Rattle.a429_slots.specs.Tables.{groups_of};
ghost use Rattle.a429_cli.specs.SlotReplies.{GivesSlots, slots_text};

use crate::drawings::group_asked;
use a429_arguments::options::OptionName;
use a429_arguments::requests::Asked;
use a429_console::refusals::Refused;
use a429_console::reply::Reply;
use a429_documents::{PlanSheet, SLOT_SOURCE, plan_sheet, render_kept, slot_header};
use a429_slots::{OUTPUTS, Proposal};
use a429_text::SheetForm;
use std::alloc::{AllocError, Global};

/// What is printed of slot tables.
#[derive(Clone, Copy)]
pub struct SlotsForm {
    /// A header for C, instead of rows.
    pub code: bool,
    /// Rows for a bus board, instead of those of the cells.
    pub board: bool,
    /// Rows for the empty cells too.
    pub all: bool,
    /// The form of the rows.
    pub rows: SheetForm,
}

impl SlotsForm {
    ghost use Rattle.std.specs.Prelude.{◌≡◌};
    ghost use Rattle.a429_arguments.specs.Requests.{asked_of};
    ghost use Rattle.a429_cli.specs.SlotReplies.{slots_form};

    /// What is asked for.
    pub fn of(asked: &Asked) -> SlotsForm
        ensures { result ≡ slots_form (asked_of asked.now).given }
    {
        SlotsForm {
            code: asked.has(OptionName::Code),
            board: asked.has(OptionName::Board),
            all: asked.has(OptionName::All),
            rows: asked.form(),
        }
    }
}

/// The slot tables of a proposal's plan, of the group of this number or of all. Error: an allocation failed.
fn slots_text(
    alloc: Global,
    table: &[u8],
    proposal: &Proposal<OUTPUTS>,
    group: Option<usize>,
    form: SlotsForm,
) -> Result<Vec<u8>, AllocError>
    requires { IfSome group (λ group. group < length (groups_of proposal.now.plan)) }
    ensures { IfOk result (λ text. text.items ≡ slots_text form table.now proposal.now group) }
{
    if form.code {
        slot_header(alloc, proposal, group).into_bytes()
    } else if form.board {
        plan_sheet(alloc, proposal, PlanSheet::Board, group).render(alloc, form.rows)
    } else {
        let sheet = plan_sheet(alloc, proposal, PlanSheet::Slots(form.all), group);
        render_kept(alloc, form.rows, table, &sheet, SLOT_SOURCE)
    }
}

/// The slot tables of a proposal's plan, of the group of this name or of all, with status 0. Error: no group has this
/// name. `Memory` if an allocation fails.
pub fn slots_of(
    alloc: Global,
    table: &[u8],
    proposal: &Proposal<OUTPUTS>,
    group: Option<&str>,
    form: SlotsForm,
) -> Result<Reply, Refused>
    ensures { GivesSlots form table.now proposal.now (option_copied group.entry) result }
{
    let _plan = proposal.plan();
    let number = group_asked(alloc, proposal.equipment().groups(), group)?;
    let text = slots_text(alloc, table, proposal, number, form)?;
    Ok(Reply::done(text))
}
