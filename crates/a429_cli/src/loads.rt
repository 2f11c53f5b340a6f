//! What `load` writes about a plan: the status says whether a bus is above the limit.
ghost use Rattle.std.specs.Prelude.{◌≡◌, ◌≤◌, IfOk, IfSome};
ghost use Rattle.a429_cli.specs.Loads.{IsLoad, limit_of};

use a429_console::answered::Found;
use a429_console::reply::{Reply, finding_status};
use a429_documents::{PlanSheet, is_any_above, plan_sheet};
use a429_slots::{OUTPUTS, Proposal};
use a429_text::SheetForm;
use std::alloc::{AllocError, Global};

/// The limit in per cent, 1 to 100.
fn limit_of(limit: Option<u32>) -> Option<u32>
    ensures limit { result ≡ limit_of limit }
    ensures within { IfSome result (λ limit. (1 ≤ limit) × (limit ≤ 100)) }
{
    match limit {
        Some(limit) => Some(limit.min(100).max(1)),
        None => None,
    }
}

/// The load of each bus of a proposal's plan, in a form. The status is 1 if a bus is above the limit in per cent, otherwise 0.
/// Error: an allocation failed.
pub fn load_of(
    alloc: Global,
    proposal: &Proposal<OUTPUTS>,
    limit: Option<u32>,
    form: SheetForm,
) -> Result<Reply, AllocError>
    ensures { IfOk result (λ reply. IsLoad proposal.now (limit_of limit) form reply.status reply.bytes.items) }
{
    let limit = limit_of(limit);
    let bytes = plan_sheet(alloc, proposal, PlanSheet::Load(limit), None).render(alloc, form)?;
    Ok(Reply {
        bytes,
        status: finding_status(is_any_above(limit, proposal.plan())),
        found: Found::Nothing,
    })
}
