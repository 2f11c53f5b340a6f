//! The plan that a text states, and why there is none.
ghost use Rattle.std.specs.Prelude.{◌≡◌, MatchResult, Some, option_map};
ghost use Rattle.a429_console.specs.RefusalText.{OrMemory};
ghost use Rattle.a429_slots.specs.Planned.{IsPlanOf};
ghost use Rattle.a429_given.specs.GivenPlans.{IsNoPlanIn, IsPlanIn, follow_refusal, keep_refusal, plan_kind, reason_kind};

use a429_cert::{Reason, Refusal, refusal_of};
use a429_console::answered::Objection;
use a429_console::planning::propose;
use a429_console::refusals::evidence::Evidence;
use a429_console::refusals::kinds::PlanKind;
use a429_console::refusals::{CommandRefusal, Refused};
use a429_equipment::Equipment;
use a429_keep::{FollowFault, KeepFault, KeepReason, follow};
use a429_slots::{OUTPUTS, Proposal};
use std::alloc::Global;

/// How a reason is named in refusals.
fn plan_kind(reason: KeepReason) -> PlanKind
    ensures { result ≡ plan_kind reason }
{
    match reason {
        KeepReason::Form => PlanKind::Form,
        KeepReason::Rate => PlanKind::Rate,
        KeepReason::Place => PlanKind::Place,
        KeepReason::Shared => PlanKind::Shared,
    }
}

/// The refusal of an earlier plan text.
pub fn keep_refusal(fault: KeepFault) -> CommandRefusal
    ensures { result ≡ keep_refusal fault }
{
    match fault {
        KeepFault::Line { line, reason } => CommandRefusal::PlanLine {
            line,
            kind: plan_kind(reason),
        },
        KeepFault::NoMemory => CommandRefusal::Memory,
    }
}

/// How a reason of the check is named in refusals.
fn reason_kind(reason: Reason) -> PlanKind
    ensures { result ≡ reason_kind reason }
{
    match reason {
        Reason::Form => PlanKind::Form,
        Reason::Rate => PlanKind::Rate,
        Reason::Group => PlanKind::Group,
        Reason::Frame => PlanKind::Frame,
        Reason::Buses => PlanKind::Buses,
        Reason::Output => PlanKind::Output,
        Reason::Period => PlanKind::Period,
        Reason::Place => PlanKind::Place,
        Reason::Shared => PlanKind::Shared,
        Reason::Bound => PlanKind::Bound,
        Reason::Hold => PlanKind::Hold,
    }
}

/// The refusal of a plan text on which a command is to work.
fn follow_refusal(fault: FollowFault) -> CommandRefusal
    ensures { result ≡ follow_refusal fault }
{
    match fault {
        FollowFault::No(no) => CommandRefusal::PlanLine {
            line: no.line,
            kind: reason_kind(no.reason),
        },
        FollowFault::NoMemory => CommandRefusal::Memory,
    }
}

/// What is wrong with the line of a plan text that is refused, for a hint. `None`: no line is refused, or an allocation
/// failed.
pub fn objection_of(alloc: Global, refusal: Option<Refusal>) -> Option<Objection> {
    let refusal = refusal?;
    let no = refusal.no();
    Some(Objection {
        line: no.line,
        reason: no.reason.text(),
        expected: format!(in alloc; "{}", refusal.expected()).ok()?,
    })
}

/// What the check finds wrong in a plan text, for a hint. Nothing if an allocation failed.
fn objection_to(alloc: Global, equipment: &Equipment, text: &[u8]) -> Evidence {
    let Ok(refusal) = refusal_of(alloc, equipment, text) else {
        return Evidence::Nothing;
    };
    match (objection_of(alloc, refusal), Vec::from_slice(alloc, text)) {
        (Some(objection), Ok(text)) => Evidence::Plan {
            objection,
            text,
            is_second: false,
        },
        _ => Evidence::Nothing,
    }
}

/// The plan of a proposal is one of its equipment.
pub fn stays_planned(proposal: &Proposal<OUTPUTS>)
    ensures { IsPlanOf proposal.now.station proposal.now.plan }
{
    let _equipment = proposal.equipment();
}

/// The plan of a table that a text states. Errors, in this order: the table has a fault; it has no plan; a line of the text
/// is refused. `Memory` if an allocation fails.
pub fn followed(alloc: Global, table: &[u8], text: &[u8]) -> Result<Proposal<OUTPUTS>, Refused>
    ensures { MatchResult result (IsPlanIn (Some text.now) table.now) (OrMemory (IsNoPlanIn (Some text.now) table.now)) }
{
    let mut proposal = propose(alloc, table)?;
    match follow(alloc, &mut proposal, text) {
        Ok(()) => {
            stays_planned(&proposal);
            Ok(proposal)
        }
        Err(fault) => {
            let evidence = objection_to(alloc, proposal.equipment(), text);
            Err(Refused::with(follow_refusal(fault), evidence))
        }
    }
}

/// The plan of a table: its own, or that of a plan text if one is given. Errors, in this order: the table has a fault; it
/// has no plan; a line of the text is refused. `Memory` if an allocation fails.
pub fn plan_in(
    alloc: Global,
    table: &[u8],
    text: Option<&[u8]>,
) -> Result<Proposal<OUTPUTS>, Refused>
    ensures { MatchResult result (IsPlanIn (option_map (λ t. t.now) text.entry) table.now)
        (OrMemory (IsNoPlanIn (option_map (λ t. t.now) text.entry) table.now)) }
{
    match text {
        Some(text) => followed(alloc, table, text),
        None => propose(alloc, table),
    }
}
